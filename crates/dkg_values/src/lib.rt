//! Plain values of a node and how they are spelled as bytes: numbers, byte strings, sets and maps of keys.
//!
//! Every crate above stands on these. Nothing here knows of rounds, devices or scripts.
#![tactic(auto)]

mod blob;
mod codec;
mod counted;
mod fixed;
mod map;
mod memory;
mod name;
mod numbers;
mod set;
mod shared;
mod uint;
mod value;

pub use blob::Blob;
pub use codec::{
    CodecError, EncodeSize, Read, Reader, Spelled, What, Write, decode_cfg, encode, no_prefix,
    round_trip,
};
pub use counted::{read_be16, read_be32, read_count, read_keys, read_many};
pub use fixed::{Digest, Mark, Seed, read_array, read_byte};
pub use map::{Map, MapCfg, MapIter};
pub use memory::{Mem, NoMemory};
pub use name::Name;
pub use numbers::{Element, Epoch, Height, Key, numbers_compare};
pub use set::{NotRising, Set, SetIter};
pub use shared::Shared;
pub use uint::{read_u32, read_u64, uint_size, write_uint};
pub use value::Value;
