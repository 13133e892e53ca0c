//! Rounds of a key ceremony: who deals to whom, what is checked of a dealing, and what acknowledges it.
//!
//! A reshare actor draws up a round for each epoch, checks and acknowledges the dealings that come in, and keeps what
//! the round's outcome was. Nothing here knows of epochs' blocks, of devices or of scripts.
#![tactic(auto)]

mod ceremony;
mod combine;
mod deal;
mod dealer_log;
mod epocher;
mod evaluate;
mod finish;
mod limits;
mod log_entries;
mod log_entry;
mod log_mark;
mod many;
mod mode;
mod output;
mod phase;
mod private;
mod public;
mod round;
mod select;
mod sharing;
mod sign;
mod signed_log;
mod stand;
mod threshold;
mod valid_log;
mod weigh;

pub use ceremony::{AckError, Ceremony, DealingError, acks_pass, dealers_pass, finishes_agree};
pub use deal::{DealError, fresh_seed};
pub use dealer_log::DealerLog;
pub use dkg_values::{
    Blob, CodecError, Digest, Element, EncodeSize, Epoch, Height, Key, Map, MapCfg, MapIter, Mark,
    Mem, Name, NoMemory, NotRising, Read, Reader, Seed, Set, SetIter, Spelled, Value, What, Write,
    decode_cfg, encode, no_prefix, numbers_compare, read_array, read_be16, read_be32, read_byte,
    read_count, read_keys, read_many, read_u32, read_u64, round_trip, uint_size, write_uint,
};
pub use epocher::{Bounds, Epocher};
pub use evaluate::value_of;
pub use finish::FinishError;
pub use log_entries::LogEntries;
pub use log_entry::LogEntry;
pub use mode::{Mode, ModeVersion, Reveal};
pub use output::Output;
pub use phase::Phase;
pub use private::{Ack, Private, Share};
pub use public::Public;
pub use round::{Round, RoundError, RoundParts};
pub use sharing::Sharing;
pub use sign::{Domain, Signer, StandSigner, mark_of};
pub use signed_log::SignedDealerLog;
pub use stand::StandCeremony;
pub use threshold::{max_faults, quorum};
