//! What a probe takes, and why it stops.
ghost use Rattle.std.specs.Prelude.{◌≡◌};
ghost use Rattle.dkg_probe.specs.declared.event.ProbeStop.TheVariants.{NoMemory as OutOfMemory};
ghost use Rattle.dkg_probe.specs.Stopping.{stop_for};

use dkg_ceremony::{Blob, Key, Mem, NoMemory, Value};
use dkg_types::{MissingAddress, TrackError};
use std::alloc::Global;
use thiserror::Error;

/// What a probe takes, one in each step.
#[derive(Drop)]
pub enum Event {
    /// Somebody waits for the artifact. The first one begins the search.
    Subscribe,
    /// One of those who wait doesn't any more.
    Unsubscribe,
    /// A source of blocks is there to be served from.
    Attach,
    /// A message of a peer.
    Peer { from: Key, bytes: Blob },
    /// The time for answers is over.
    Retry,
}

impl Value for Event {
    fn copy(&self, alloc: Global) -> Mem<Event> {
        match self {
            Event::Subscribe => Ok(Event::Subscribe),
            Event::Unsubscribe => Ok(Event::Unsubscribe),
            Event::Attach => Ok(Event::Attach),
            Event::Peer { from, bytes } => Ok(Event::Peer {
                from: *from,
                bytes: bytes.copy(alloc)?,
            }),
            Event::Retry => Ok(Event::Retry),
        }
    }

    fn same(&self, other: &Event) -> bool {
        match (self, other) {
            (Event::Subscribe, Event::Subscribe)
            | (Event::Unsubscribe, Event::Unsubscribe)
            | (Event::Attach, Event::Attach)
            | (Event::Retry, Event::Retry) => true,
            (
                Event::Peer { from, bytes },
                Event::Peer {
                    from: other_from,
                    bytes: other_bytes,
                },
            ) => *from == *other_from && bytes.same(other_bytes),
            _ => false,
        }
    }
}

/// Why a probe stopped. It takes no more events.
#[derive(Clone, Copy, Debug, PartialEq, Eq, Error)]
pub enum ProbeStop {
    /// The checkpoint's directory has no address of this peer.
    #[error("{0}")]
    PeerSet(MissingAddress),
    #[error("out of memory")]
    NoMemory,
    /// An earlier step stopped.
    #[error("an earlier step stopped")]
    Failed,
}

impl From<NoMemory> for ProbeStop {
    ghost from_gives = { λ _ e. e ≡ OutOfMemory };

    fn from(_e: NoMemory) -> ProbeStop {
        ProbeStop::NoMemory
    }
}

impl From<TrackError> for ProbeStop {
    ghost from_gives = { λ error stop. stop ≡ stop_for error };

    fn from(error: TrackError) -> ProbeStop {
        match error {
            TrackError::Missing(peer) => ProbeStop::PeerSet(peer),
            TrackError::NoMemory => ProbeStop::NoMemory,
        }
    }
}
