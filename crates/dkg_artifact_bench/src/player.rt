//! A player of a round, with a dealing of each dealer.
ghost use Rattle.std.specs.Prelude.{◌≡◌, ℕ, Ok, Contains, IfSome, IsOk, IsTrue};
ghost use Rattle.dkg_values.specs.Rising.{lookup};

use crate::round;
use dkg_artifact::{Dealings, lacks_no_dealing};
use dkg_ceremony::{Ceremony, DealerLog, Private, Public, Round};
use dkg_values::{Key, Map};
use std::alloc::Global;

fn dealing(alloc: Global, round: &Round, dealer: Key, me: Key) -> Option<(Public, Private)> {
    let (public, privates) = round::dealt(alloc, round, dealer)?;
    let private = *privates.get(me)?;
    Some((public, private))
}

/// The player with this key.
pub fn of(alloc: Global, round: &Round, me: Key) -> Option<Dealings> {
    let mut pairs = Vec::new(alloc);
    for dealer in round.parts().dealers.as_slice() {
        pairs
            .push((*dealer, dealing(alloc, round, *dealer, me)?))
            .ok()?;
    }
    let dealings = round::map_of(alloc, pairs)?;
    Some(Dealings { me, dealings })
}

/// Whether the dealings to a player pass its check.
fn are_checked<C: Ceremony>(
    ceremony: &C,
    round: &Round,
    me: Key,
    dealings: &Map<(Public, Private)>,
) -> bool
    requires { Contains round.now.players me }
    ensures { IsTrue result → (dealer : ℕ) → IfSome (lookup dealer dealings.now) (λ d. C.dealing_of round.now me dealer d.0 d.1 ≡ Ok tt) }
{
    for (dealer, dealing) in dealings.as_slice() {
        if ceremony
            .check_dealing(round, me, *dealer, &dealing.0, &dealing.1)
            .is_err()
        {
            return false;
        }
    }
    true
}

/// Whether a verification of the logs may take the player's part.
pub fn may_verify<C: Ceremony>(
    alloc: Global,
    ceremony: &C,
    round: &Round,
    player: &Dealings,
    logs: &Map<DealerLog>,
) -> bool
    ensures has_dealings { IsTrue result → IsOk (C.finish_of round.now player.now.me player.now.dealings logs.now) }
    ensures plays { IsTrue result → Contains round.now.players player.now.me }
    ensures checked { IsTrue result → (dealer : ℕ) → IfSome (lookup dealer player.now.dealings)
        (λ d. C.dealing_of round.now player.now.me dealer d.0 d.1 ≡ Ok tt) }
{
    if !round.parts().players.has(player.me) {
        return false;
    }
    if !are_checked(ceremony, round, player.me, &player.dealings) {
        return false;
    }
    match lacks_no_dealing(alloc, ceremony, round, player, logs) {
        Ok(lacks_none) => lacks_none,
        Err(_) => false,
    }
}
