//! Who tracks the peers of epochs: managers of peers, over both directories.
//!
//! The orchestrator and the probe hand a manager the peers of an epoch and the directory of its info. A manager of peers
//! that is reached by keys stands behind a `KeyOnlyManager`, one that dials behind an `AddressableManager`.
ghost use Rattle.std.specs.Prelude.{◌≡◌, ℕ, [], ◌∷◌, ◌++◌, None, OnOk, OnErr, IfOk, IsTrue};
ghost use Rattle.dkg_types.specs.Tracking.{AreAddressesOf, AnswersTracking, addresses_of as addresses_from, first_lacking, first_without, with_set};
ghost use Rattle.dkg_types.specs.declared.manager.TrackError.TheVariants.{NoMemory as OutOfMemory};

use crate::addresses::{Address, Addresses};
use dkg_ceremony::{Epoch, Key, Map, Mem, NoMemory, Set};
use dkg_infos::{Directory, TrackedPeers, Unit};
use std::alloc::Global;
use thiserror::Error;

/// The directory has no address of this peer.
#[derive(Clone, Copy, Debug, PartialEq, Eq, Error)]
#[error("no address of the peer {}", .0.0)]
pub struct MissingAddress(pub Key);

/// Why peers are not tracked.
#[derive(Clone, Copy, Debug, PartialEq, Eq, Error)]
pub enum TrackError {
    #[error("{0}")]
    Missing(MissingAddress),
    #[error("out of memory")]
    NoMemory,
}

impl From<NoMemory> for TrackError {
    ghost from_gives = { λ _ e. e ≡ OutOfMemory };

    fn from(_e: NoMemory) -> TrackError {
        TrackError::NoMemory
    }
}

/// Who knows sets of peers by number, as the upstream's `Provider` of the `p2p` crate.
pub trait Provider {
    ghost use Rattle.std.specs.Prelude.{◌≡◌, ℕ, Bool, Option, IfOk, IsTrue};
    ghost use Rattle.dkg_infos.specs.declared.participants.TrackedPeers.{TrackedPeers};

    /// Whether it tells what it tracks.
    ghost tells: { Bool };

    /// The set of peers under a number, where it tracks one.
    ghost sets: { Self → ℕ → Option TrackedPeers };

    fn peer_set(&mut self, alloc: Global, id: u64) -> Mem<Option<TrackedPeers>>
        ensures told { IsTrue tells → IfOk result (λ set. set ≡ sets self.old id) }
        // The call changes nothing.
        ensures same { IsTrue tells → self.new ≡ self.old };
}

/// Who tracks the peers of an epoch, reached as a directory says.
pub trait Manager: Provider {
    ghost use Rattle.std.specs.Prelude.{◌≡◌, ℕ, Option, OnOk, OnErr, IsTrue};
    ghost use Rattle.dkg_types.specs.Tracking.{AnswersTracking, with_set};
    ghost use Rattle.dkg_infos.specs.declared.participants.TrackedPeers.{TrackedPeers};

    type Dir: Directory;

    /// The first peer of some that a directory lacks.
    ghost lacks: { Self.Dir → TrackedPeers → Option ℕ };

    /// Tracks the peers under the epoch's number. Where it refuses them it tracks none of them.
    fn track(
        &mut self,
        alloc: Global,
        epoch: Epoch,
        peers: TrackedPeers,
        directory: &Self::Dir,
    ) -> Result<(), TrackError>
        ensures ok { IsTrue Self.tells → OnOk result ((n : ℕ) → Self.sets self.new n ≡ with_set (Self.sets self.old) epoch peers n) }
        ensures err { IsTrue Self.tells → OnErr result ((n : ℕ) → Self.sets self.new n ≡ Self.sets self.old n) }
        // Told or not, whoever the directory lacks is named.
        ensures missing { AnswersTracking (lacks directory.now peers) result };
}

/// Who tracks peers by their keys alone.
pub trait PeerManager: Provider {
    ghost use Rattle.std.specs.Prelude.{◌≡◌, ℕ, OnOk, OnErr, IsTrue};
    ghost use Rattle.dkg_types.specs.Tracking.{with_set};

    fn track(&mut self, alloc: Global, id: u64, peers: TrackedPeers) -> Mem<()>
        ensures ok { IsTrue Self.tells → OnOk result ((n : ℕ) → Self.sets self.new n ≡ with_set (Self.sets self.old) id peers n) }
        ensures err { IsTrue Self.tells → OnErr result ((n : ℕ) → Self.sets self.new n ≡ Self.sets self.old n) };
}

/// Who tracks peers with their addresses. A key that is in both maps has both roles.
pub trait AddressedPeerManager: Provider {
    ghost use Rattle.std.specs.Prelude.{◌≡◌, ℕ, List, Option, OnOk, OnErr, IsTrue};
    ghost use Rattle.dkg_values.specs.Rising.{keys_of};
    ghost use Rattle.dkg_types.specs.Tracking.{with_set};
    ghost use Rattle.dkg_types.specs.declared.addresses.Address.{Address};

    /// The addresses of the primary and of the secondary peers under a number.
    ghost reached: { Self → ℕ → Option (List (ℕ × Address) × List (ℕ × Address)) };

    fn track(
        &mut self,
        alloc: Global,
        id: u64,
        primary: Map<Address>,
        secondary: Map<Address>,
    ) -> Mem<()>
        ensures ok { IsTrue Self.tells
            → OnOk result ((n : ℕ) → Self.sets self.new n
            ≡ with_set (Self.sets self.old) id (record { primary = keys_of primary; secondary = keys_of secondary }) n) }
        ensures addresses { IsTrue Self.tells → OnOk result ((n : ℕ) → reached self.new n ≡ with_set (reached self.old) id (primary, secondary) n) }
        ensures err { IsTrue Self.tells → OnErr result ((n : ℕ) → Self.sets self.new n ≡ Self.sets self.old n) }
        ensures same { IsTrue Self.tells → OnErr result ((n : ℕ) → reached self.new n ≡ reached self.old n) };
}

/// A manager over a network that finds peers by their keys. It never lacks an address.
#[derive(Drop)]
pub struct KeyOnlyManager<M> {
    manager: M,
}

impl<M: PeerManager> KeyOnlyManager<M> {
    /// The manager over a network.
    pub fn new(manager: M) -> KeyOnlyManager<M>
        ensures { result.manager ≡ manager }
    {
        KeyOnlyManager { manager }
    }
}

impl<M: PeerManager> Provider for KeyOnlyManager<M> {
    ghost tells = { M.tells };

    ghost sets = { λ m. M.sets m.manager };

    fn peer_set(&mut self, alloc: Global, id: u64) -> Mem<Option<TrackedPeers>> {
        self.manager.peer_set(alloc, id)
    }
}

impl<M: PeerManager> Manager for KeyOnlyManager<M> {
    ghost use Rattle.std.specs.Prelude.{None};

    type Dir = Unit;

    ghost lacks = { λ _ _. None };

    fn track(
        &mut self,
        alloc: Global,
        epoch: Epoch,
        peers: TrackedPeers,
        _directory: &Unit,
    ) -> Result<(), TrackError>
        ensures ok { IsTrue M.tells → OnOk result ((n : ℕ) → M.sets self.new.manager n ≡ with_set (M.sets self.old.manager) epoch peers n) }
        ensures err { IsTrue M.tells → OnErr result ((n : ℕ) → M.sets self.new.manager n ≡ M.sets self.old.manager n) }
        // Told or not, no address is missing.
        ensures missing { AnswersTracking None result }
    {
        self.manager.track(alloc, epoch.0, peers)?;
        Ok(())
    }
}

/// A manager over a network that dials peers. It refuses peers of whom the directory lacks an address.
#[derive(Drop)]
pub struct AddressableManager<M> {
    manager: M,
}

impl<M: AddressedPeerManager> AddressableManager<M> {
    /// The manager over a network.
    pub fn new(manager: M) -> AddressableManager<M>
        ensures { result.manager ≡ manager }
    {
        AddressableManager { manager }
    }
}

impl<M: AddressedPeerManager> Provider for AddressableManager<M> {
    ghost tells = { M.tells };

    ghost sets = { λ m. M.sets m.manager };

    fn peer_set(&mut self, alloc: Global, id: u64) -> Mem<Option<TrackedPeers>> {
        self.manager.peer_set(alloc, id)
    }
}

/// Adds a peer's address.
fn add(pairs: &mut Vec<(Key, Address)>, peer: Key, address: Address) -> Mem<()>
    ensures { OnOk result (pairs.new.items ≡ pairs.old.items ++ (peer, address) ∷ []) }
{
    pairs.push((peer, address))?;
    Ok(())
}

/// The address of each peer, in the peers' order, or the first peer that has none.
fn pairs_of(
    alloc: Global,
    directory: &Addresses,
    peers: &[Key],
) -> Result<Vec<(Key, Address)>, TrackError>
    ensures found { IfOk result (λ pairs. AreAddressesOf directory.now peers.now pairs.items) }
    ensures missing { AnswersTracking (first_without directory.now peers.now) result }
{
    let mut pairs = Vec::new(alloc);
    for peer in peers {
        match directory.get(*peer) {
            Some(address) => add(&mut pairs, *peer, *address)?,
            None => return Err(TrackError::Missing(MissingAddress(*peer))),
        }
    }
    Ok(pairs)
}

/// The address of each peer, or the first peer that has none.
fn addresses_of(
    alloc: Global,
    directory: &Addresses,
    peers: &Set,
) -> Result<Map<Address>, TrackError>
    ensures found { IfOk result (AreAddressesOf directory.now peers.now) }
    ensures missing { AnswersTracking (first_without directory.now peers.now) result }
{
    let pairs = pairs_of(alloc, directory, peers.as_slice())?;
    Ok(Map::from_sorted(pairs).unwrap())
}

impl<M: AddressedPeerManager> Manager for AddressableManager<M> {
    ghost use Rattle.dkg_types.specs.Tracking.{first_lacking};

    type Dir = Addresses;

    ghost lacks = { first_lacking };

    fn track(
        &mut self,
        alloc: Global,
        epoch: Epoch,
        peers: TrackedPeers,
        directory: &Addresses,
    ) -> Result<(), TrackError>
        ensures ok { IsTrue M.tells → OnOk result ((n : ℕ) → M.sets self.new.manager n ≡ with_set (M.sets self.old.manager) epoch peers n) }
        ensures err { IsTrue M.tells → OnErr result ((n : ℕ) → M.sets self.new.manager n ≡ M.sets self.old.manager n) }
        // Told or not, whoever has no address is named.
        ensures missing { AnswersTracking (first_lacking directory.now peers) result }
        // A refusal keeps what each peer's address was, too.
        ensures same { IsTrue M.tells → OnErr result ((n : ℕ) → M.reached self.new.manager n ≡ M.reached self.old.manager n) }
        // The addresses that the manager is handed are those of the directory.
        ensures addresses { IsTrue M.tells
            → OnOk result ((n : ℕ) → M.reached self.new.manager n
            ≡ with_set (M.reached self.old.manager) epoch (addresses_from directory.now peers.primary, addresses_from directory.now peers.secondary) n) }
    {
        let primary = addresses_of(alloc, directory, &peers.primary)?;
        let secondary = addresses_of(alloc, directory, &peers.secondary)?;
        self.manager.track(alloc, epoch.0, primary, secondary)?;
        Ok(())
    }
}
