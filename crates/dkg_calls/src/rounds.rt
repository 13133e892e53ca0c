//! What any ceremony deals, and makes of a round's logs.
ghost use Rattle.std.specs.Prelude.{◌≡◌, ℕ, Ok, Contains, IfSome, IsTrue};
ghost use Rattle.dkg_values.specs.Rising.{lookup};

use dkg_ceremony::*;
use std::alloc::Global;
use std::test::Fail;

/// What any ceremony deals.
pub(crate) fn deal<C: Ceremony>(
    ceremony: &C,
    alloc: Global,
    round: &Round,
    signer: &C::Signer,
    share: Option<&Share>,
    seed: &Seed,
) -> Result<Result<(Public, Map<Private>), DealError>, Fail> {
    if !round.parts().dealers.has(signer.public_key()) {
        return Err(Fail::from("the key doesn't deal"));
    }
    Ok(ceremony.deal(alloc, round, signer, share, seed))
}

pub(crate) fn map_of<V: Drop>(alloc: Global, pairs: Vec<(Key, V)>) -> Result<Map<V>, Fail> {
    if pairs.len() > 1000 {
        return Err(Fail::from("too many"));
    }
    Ok(Map::from_any(alloc, pairs)?)
}

/// Whether the dealings to a player pass its check.
fn are_checked<C: Ceremony>(
    ceremony: &C,
    round: &Round,
    me: Key,
    dealings: &Map<(Public, Private)>,
) -> bool
    requires { Contains round.now.players me }
    ensures { IsTrue result → (dealer : ℕ) → IfSome (lookup dealer dealings.now) (λ d. C.dealing_of round.now me dealer d.0 d.1 ≡ Ok tt) }
{
    for (dealer, dealing) in dealings.as_slice() {
        if ceremony
            .check_dealing(round, me, *dealer, &dealing.0, &dealing.1)
            .is_err()
        {
            return false;
        }
    }
    true
}

/// What a player of any ceremony takes from a round.
pub(crate) fn finish<C: Ceremony>(
    ceremony: &C,
    alloc: Global,
    round: &Round,
    me: Key,
    dealings: &Map<(Public, Private)>,
    logs: &Map<DealerLog>,
) -> Result<Result<Option<(Output, Share)>, FinishError>, Fail> {
    if !round.parts().players.has(me) || !are_checked(ceremony, round, me, dealings) {
        return Err(Fail::from("the player or a dealing isn't the round's"));
    }
    Ok(ceremony.finish(alloc, round, me, dealings, logs))
}

/// Whether a share's public element is the one that an output of any ceremony has for player 1.
pub(crate) fn is_seen<C: Ceremony>(ceremony: &C, output: &Output, share: &Share) -> bool {
    ceremony.partial_public(output, Key(1)) == Some(ceremony.share_public(share))
}
