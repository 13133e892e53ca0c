//! Disks, and an append-only journal that every crash leaves readable.
//!
//! A `Disk` is the trait of the outside; `perform` makes its changing calls, counted by a `Fuse` that may cut one. The journal
//! keeps entries by section, a file for each, and the store above keeps its events in it.
#![tactic(auto)]

mod by_section;
mod call;
mod disk;
mod file;
mod fuse;
mod journal;
mod memory;
mod open;
mod opening;
mod ordered;
mod parting;
mod pruning;
mod record;
mod sure;
mod table;
mod wholes;

pub use call::{JournalError, perform};
pub use disk::{Disk, DiskError, Op};
pub use fuse::Fuse;
pub use journal::{Journal, Prepared};
pub use memory::MemoryDisk;
pub use opening::JournalEntry;
pub use record::Record;
pub use sure::SureDisk;
