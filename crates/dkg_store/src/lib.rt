//! What a node keeps over its lives, on two devices: recorded dealings, seeds and shares.
//!
//! A disk has the journal of what was recorded, a secret store the private halves, the seeds and the shares. A `Store` is opened
//! over both at the start of a life. A `Player` records each dealing there before it acknowledges it.
//!
//! The first record of an epoch makes that epoch's file, and a prune takes away the files of the epochs below its minimum.
#![tactic(auto)]

mod appending;
mod call;
mod dealer;
mod devices;
mod event;
mod key_map;
mod player;
mod recorded_log;
mod restoring;
mod store;

pub use call::{StoreError, perform_secret};
pub use dealer::{AckHandleError, AckOutcome, Dealer, Unsent};
pub use devices::Devices;
pub use dkg_infos::Restored;
pub use dkg_secrets::{MemorySecrets, SecretError, SecretOp, SecretStore, SureSecrets};
pub use event::Event;
pub use player::{DealingHandleError, Player};
pub use store::Store;
