//! What goes between nodes: blocks and what they carry, messages, and the peers that are told and found.
//!
//! The script, the node's steps and the program stand on these. Nothing here reaches a device.
#![tactic(auto)]

mod addresses;
mod apart;
mod block;
mod finalization;
mod manager;
mod message;
mod payload;
mod provider;
mod registrar;
mod scheme;

pub use addresses::{Address, Addresses, Socket};
pub use block::{Block, Context, ReshareBlock};
pub use finalization::{Finalization, Scheme, StandScheme};
pub use manager::{
    AddressableManager, AddressedPeerManager, KeyOnlyManager, Manager, MissingAddress, PeerManager,
    Provider, TrackError,
};
pub use message::{Message, max_payload_size};
pub use payload::Payload;
pub use provider::{ParticipantsProvider, StaticParticipants};
pub use registrar::{NoopRegistrar, Registrar};
pub use scheme::SchemeInfo;
