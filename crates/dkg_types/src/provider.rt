//! Who says which participants an epoch has and how they are reached.
ghost use Rattle.std.specs.Prelude.{◌≡◌, ℕ, List, Bool, IfOk, IsTrue};

use dkg_ceremony::{Epoch, Mem, Set, Value};
use dkg_infos::Directory;
use std::alloc::Global;

/// Who says which participants an epoch has and how they are reached.
pub trait ParticipantsProvider {
    ghost use Rattle.std.specs.Prelude.{◌≡◌, ℕ, List, Bool, IfOk, IsTrue};

    type Dir: Directory;

    /// Whether it tells its participants.
    ghost tells: { Bool };

    /// The participants of an epoch.
    ghost participants_of: { Self → ℕ → List ℕ };

    /// The directory of a set of peers in an epoch.
    ghost directory_of: { Self → (epoch : ℕ) → List ℕ → Self.Dir };

    fn participants(&mut self, alloc: Global, epoch: Epoch) -> Mem<Set>
        ensures told { IsTrue tells → IfOk result (λ set. set ≡ participants_of self.old epoch) }
        ensures same_participants { IsTrue tells → (e : ℕ) → participants_of self.new e ≡ participants_of self.old e }
        ensures same_directory { IsTrue tells → (e : ℕ) (peers : List ℕ) → directory_of self.new e peers ≡ directory_of self.old e peers };

    fn directory(&mut self, alloc: Global, epoch: Epoch, peers: &Set) -> Mem<Self::Dir>
        ensures told { IsTrue tells → IfOk result (λ made. made ≡ directory_of self.old epoch peers.now) }
        ensures same_participants { IsTrue tells → (e : ℕ) → participants_of self.new e ≡ participants_of self.old e }
        ensures same_directory { IsTrue tells → (e : ℕ) (peers : List ℕ) → directory_of self.new e peers ≡ directory_of self.old e peers };
}

/// The same participants and the same directory, whatever the epoch and the peers.
#[derive(Drop)]
pub struct StaticParticipants<Dir> {
    participants: Set,
    directory: Dir,
}

impl<Dir> StaticParticipants<Dir> {
    /// The provider of these participants and this directory.
    pub fn new(participants: Set, directory: Dir) -> StaticParticipants<Dir>
        ensures participants { result.participants ≡ participants }
        ensures directory { result.directory ≡ directory }
    {
        StaticParticipants {
            participants,
            directory,
        }
    }
}

impl<Dir: Directory> ParticipantsProvider for StaticParticipants<Dir> {
    type Dir = Dir;

    ghost use Rattle.std.specs.Prelude.{true};

    ghost tells = { true };

    ghost participants_of = { λ s _. s.participants };

    ghost directory_of = { λ s _ _. s.directory };

    fn participants(&mut self, alloc: Global, _epoch: Epoch) -> Mem<Set> {
        self.participants.copy(alloc)
    }

    fn directory(&mut self, alloc: Global, _epoch: Epoch, _peers: &Set) -> Mem<Dir> {
        self.directory.copy(alloc)
    }
}
