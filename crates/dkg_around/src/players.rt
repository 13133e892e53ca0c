//! What a script says of the participants that are to come, as the provider of its node.
ghost use Rattle.std.specs.Prelude.{◌≡◌, ◌==◌, find, true};
ghost use Rattle.std.specs.Option.{option_copied};
ghost use Rattle.dkg_values.specs.Rising.{rises};
ghost use Rattle.dkg_script.specs.Players.{epochs_of};

use dkg_ceremony::{Epoch, Mem, Set, Value};
use dkg_infos::Unit;
use dkg_script::PlayerLine;
use dkg_types::ParticipantsProvider;
use std::alloc::Global;

/// The players of a script's epochs. An epoch without a line has none, and its peers are found by their keys.
#[derive(Drop)]
pub struct Players<'a> {
    lines: &'a [PlayerLine],
    ghost rising: { rises (epochs_of lines.now) ≡ true },
}

impl<'a> Players<'a> {
    /// The provider of these lines.
    pub fn new(lines: &'a [PlayerLine]) -> Players<'a>
        requires rising { rises (epochs_of lines.now) ≡ true }
        ensures { result.lines.now ≡ lines.now }
    {
        Players { lines }
    }

    /// The line of an epoch, if it has one.
    fn line(&self, epoch: Epoch) -> Option<&PlayerLine>
        ensures { option_copied result ≡ find (λ line. line.epoch == epoch) self.now.lines.now }
    {
        let at = self.lines.partition_point(|line| line.epoch < epoch);
        match self.lines.get(at) {
            Some(line) if line.epoch == epoch => Some(line),
            _ => None,
        }
    }
}

impl ParticipantsProvider for Players<'_> {
    type Dir = Unit;

    ghost use Rattle.std.specs.Prelude.{true};
    ghost use Rattle.dkg_script.specs.Players.{players_at};

    ghost tells = { true };

    ghost participants_of = { λ s epoch. players_at s.lines.now epoch };

    ghost directory_of = { λ _ _ _. record {} };

    fn participants(&mut self, alloc: Global, epoch: Epoch) -> Mem<Set> {
        match self.line(epoch) {
            Some(line) => line.players.copy(alloc),
            None => Set::from_any(alloc, &[]),
        }
    }

    fn directory(&mut self, _alloc: Global, _epoch: Epoch, _peers: &Set) -> Mem<Unit> {
        Ok(Unit)
    }
}
