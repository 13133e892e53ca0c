//! A floor that waits for the block that begins its epoch.
//!
//! Peers who gave a certified finalization of that block are candidates, each once. One at a time is asked for the block itself.
ghost use Rattle.std.specs.Prelude.{◌≡◌, false, true, OnOk, OnErr, None, option_map};
ghost use Rattle.std.specs.Option.{option_copied};
ghost use Rattle.dkg_probe.specs.Candidates.{are_apart, first_candidate, is_candidate, new_awaiting, next_asked, candidate_keys, with_candidate};

use dkg_ceremony::{Height, Key, Mem};
use dkg_types::Finalization;
use std::alloc::Global;
use std::collections::{BTreeSet, VecDeque};
use std::marker::Model;

/// A floor, the height of the block that begins its epoch, and the candidates for it.
#[derive(Drop)]
pub(crate) struct Awaited {
    height: Height,
    floor: Finalization,
    asked: Option<(Key, Finalization)>,
    /// In the order of their arrival.
    others: VecDeque<(Key, Finalization)>,
    /// The asked candidate's key and those of the others.
    peers: BTreeSet<u32>,
}

impl Model for Awaited {
    ghost use Rattle.dkg_probe.specs.Candidates.{Awaiting, IsKept};

    ghost Value = { Awaiting };

    ghost view = { λ a. record { height = a.height; floor = a.floor; asked = a.asked; others = a.others.items } };

    ghost invariant = { λ a. IsKept a.asked a.others.items a.peers };
}

impl Awaited {
    /// No candidates yet.
    pub fn new(alloc: Global, height: Height, floor: Finalization) -> Awaited
        ensures { result ≡ new_awaiting height floor }
    {
        Awaited {
            height,
            floor,
            asked: None,
            others: VecDeque::new(alloc),
            peers: BTreeSet::new(alloc),
        }
    }

    /// The height of the block that is awaited.
    pub fn height(&self) -> Height
        ensures { result ≡ self.now.height }
    {
        self.height
    }

    /// The finalization from which the search goes on.
    pub fn floor(&self) -> &Finalization
        ensures { result.now ≡ self.now.floor }
    {
        &self.floor
    }

    /// The candidate that was asked for the block.
    pub fn asked(&self) -> Option<(Key, Finalization)>
        ensures { result ≡ self.now.asked }
    {
        self.asked
    }

    /// Whether the peer is a candidate, asked or not.
    pub fn has(&self, peer: Key) -> bool
        ensures { result ≡ is_candidate self.now peer }
    {
        self.peers.contains(&peer.0)
    }

    /// No peer is a candidate twice.
    pub fn apart(&self)
        ensures { are_apart (candidate_keys self.now.asked self.now.others) ≡ true }
    {
        let _height = self.height;
    }

    /// Adds a peer that is no candidate behind the others.
    pub fn add(&mut self, peer: Key, finalization: Finalization) -> Mem<()>
        requires { is_candidate self.old peer ≡ false }
        ensures ok { OnOk result (self.new ≡ with_candidate self.old (peer, finalization)) }
        ensures err { OnErr result (self.new ≡ self.old) }
    {
        self.others.reserve(1)?;
        self.peers.insert(peer.0)?;
        let pushed = self.others.push_back((peer, finalization));
        prove!(pushed.is_ok());
        Ok(())
    }

    /// Drops the candidate that was asked, and gives the next one, which is asked now.
    pub fn next(&mut self) -> Option<Key>
        ensures next { self.new ≡ next_asked self.old }
        ensures peer { result ≡ option_map (λ c. c.0) (first_candidate self.old.others) }
    {
        if let Some((peer, _)) = self.asked {
            self.peers.remove(&peer.0);
        }
        self.asked = self.others.pop_front();
        match self.asked {
            None => None,
            Some((peer, _)) => Some(peer),
        }
    }
}
