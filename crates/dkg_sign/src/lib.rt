//! A signing desk: a share signs under its own output alone, and never for an epoch after a later one was registered.
//!
//! A validator that serves signatures has one desk for its key. Each epoch's material (who takes part, the shared key in public, and the
//! validator's share) is registered with it, as a node registers its schemes; `DeskRegistrar` takes them from a node. The desk signs with
//! the newest epoch's share alone. A desk without a share combines the partials of a quorum too. It takes the material of a participant alone, so
//! a light client opens its desk under the key of one.
//!
//! The greatest epoch registered is the desk's one record, an encoded epoch in the file `Plan` of a disk of its own. An epoch is there before its
//! registration is answered Ok, so whatever cuts a life short, no later life signs for an epoch below it.
//!
//! How a validator registers, signs and combines, where `partials` has fewer than 2^32 - 1 partials of others (`dkg_sign_calls` has these
//! lines as a function, `register_sign_and_combine`, so they compile and are proved):
//!
//! ```text
//! let mut fuse = Fuse::never();
//! let mut desk = SigningDesk::open(alloc, disk, &mut fuse, me)?;
//! desk.register(alloc, disk, &mut fuse, epoch, info)?;
//! let partial = desk.sign(epoch, message)?;
//! partials.push(partial)?;
//! let signature = desk.combine(alloc, message, epoch, partials)?;
//! ```
//!
//! A service opens the desk once when it starts, and registers an epoch as soon as its share is stored. Partials of other validators are checked
//! by `combine`, which names the first that is not valid.
//!
//! What it must never do:
//!
//! - **use a desk after `Disk` or `Cut`**: it may lie behind its record. Open another one over the disk; `DeskRegistrar` does so.
//! - **open two desks over one disk.** The older one doesn't know what the newer one registered, and signs below it.
//! - **put an older copy of the disk back, or an empty one in its place.** What was registered since is forgotten, and with it the promise.
//! - **keep two disks for one key**, as on a standby machine: each knows only what was registered with it.
//! - **lend the disk to anything else.** A node's own disk keeps the node's start plan under the same name.
//! - **take a registrar's Ok for a registration.** It answers Ok to what its desk refused, and lists it: look at `refused`.
//! - **sign with the share elsewhere.** The desk can promise nothing of that.
//!
//! The arithmetic is that of the stand-in ceremony, modulo 65,521 and without secrecy: who sees a partial and the message knows the share.
#![tactic(auto)]

mod combine;
mod desk;
mod error;
mod hash;
mod laws;
mod material;
mod partial;
mod register;
mod registrar;

pub use desk::SigningDesk;
pub use error::{CombineError, DeskError, SignError};
pub use hash::hash_of;
pub use laws::{lives_follow, one_signature};
pub use partial::{Partial, Signature};
pub use registrar::DeskRegistrar;
