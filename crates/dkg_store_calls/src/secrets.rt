//! The memory stores: what a cut leaves, against the reference model, and the newest share below an epoch.

use crate::asserts::{is, is_at};
use dkg_ceremony::{Private, Share};
use dkg_secrets::{MemorySecrets, SecretOp, SecretStore, SureSecrets};
use dkg_values::{Element, Epoch, Key, Seed};
use std::alloc::Global;
use std::test::Fail;

fn number(value: u16) -> Result<Element, Fail> {
    Ok(Element::new(value).ok_or("no element")?)
}

const DEALINGS: [(u64, u32); 4] = [(0, 5), (0, 7), (1, 3), (3, 1)];

fn fill_shares<X: SecretStore>(alloc: Global, secrets: &mut X) -> Result<(), Fail> {
    for epoch in [0, 1, 2] {
        secrets.put_share(alloc, Epoch(epoch), Share(number(1)?))?;
    }
    Ok(())
}

fn fill_seeds<X: SecretStore>(alloc: Global, secrets: &mut X) -> Result<(), Fail> {
    for epoch in [0, 1, 3] {
        secrets.put_seed(alloc, Epoch(epoch), Seed([7; 32]))?;
    }
    Ok(())
}

fn fill_dealings<X: SecretStore>(alloc: Global, secrets: &mut X) -> Result<(), Fail> {
    for (epoch, dealer) in DEALINGS {
        secrets.put_dealing(alloc, Epoch(epoch), Key(dealer), Private(number(2)?))?;
    }
    Ok(())
}

/// A letter, or a dot where it isn't there.
fn letter_of(letter: char, is_there: bool) -> char {
    if is_there { letter } else { '.' }
}

fn shares_there<X: SecretStore>(
    alloc: Global,
    secrets: &mut X,
    list: &mut String,
) -> Result<(), Fail> {
    for epoch in [0, 1, 2] {
        let share = secrets.get_share(alloc, Epoch(epoch))?;
        list.push(letter_of('s', share.is_some()))?;
    }
    Ok(())
}

fn seeds_there<X: SecretStore>(
    alloc: Global,
    secrets: &mut X,
    list: &mut String,
) -> Result<(), Fail> {
    for epoch in [0, 1, 3] {
        let seed = secrets.get_seed(alloc, Epoch(epoch))?;
        list.push(letter_of('e', seed.is_some()))?;
    }
    Ok(())
}

fn dealings_there<X: SecretStore>(
    alloc: Global,
    secrets: &mut X,
    list: &mut String,
) -> Result<(), Fail> {
    for (epoch, dealer) in DEALINGS {
        let private = secrets.get_dealing(alloc, Epoch(epoch), Key(dealer))?;
        list.push(letter_of('p', private.is_some()))?;
    }
    Ok(())
}

/// Which of the filled store's keys are there: shares 0, 1, 2, seeds 0, 1, 3, private halves (0, 5), (0, 7), (1, 3), (3, 1).
fn there<X: SecretStore>(alloc: Global, secrets: &mut X, list: &mut String) -> Result<(), Fail> {
    shares_there(alloc, secrets, list)?;
    seeds_there(alloc, secrets, list)?;
    dealings_there(alloc, secrets, list)
}

/// What a prune that is cut leaves of a filled store.
fn left_of<X: SecretStore>(
    alloc: Global,
    secrets: &mut X,
    pick: u64,
    list: &mut String,
) -> Result<(), Fail> {
    fill_shares(alloc, secrets)?;
    fill_seeds(alloc, secrets)?;
    fill_dealings(alloc, secrets)?;
    secrets.cut(alloc, &SecretOp::Prune { min: Epoch(2) }, pick)?;
    there(alloc, secrets, list)
}

/// That of a store in memory.
fn left_in_memory(alloc: Global, pick: u64) -> Result<String, Fail> {
    let mut list = String::new(alloc);
    left_of(alloc, &mut MemorySecrets::new(alloc), pick, &mut list)?;
    Ok(list)
}

// The expected keys are those of the reference model.
#[test]
fn cut_prunes_go_by_the_bits(rt: HostRuntime) -> Result<(), Fail> {
    let alloc = rt.alloc();
    for (pick, expected) in [
        (0, "..s..e...p"),
        (1, "s.s..e...p"),
        (2, ".ss..e...p"),
        (5, "s.se.e...p"),
        (0x55, "s.se.ep.pp"),
        (0x7f, "ssseeepppp"),
        (1 << 63, "..s..e...p"),
        (u64::MAX, "ssseeepppp"),
    ] {
        let left = left_in_memory(alloc, pick)?;
        is_at(&rt, left.as_str(), expected, pick);
    }
    Ok(())
}

/// The newest shares below some epochs.
fn newest_below<X: SecretStore>(
    alloc: Global,
    secrets: &mut X,
    epochs: [u64; 4],
) -> Result<[Option<Share>; 4], Fail> {
    let [first, second, third, last] = epochs;
    Ok([
        secrets.get_share_below(alloc, Epoch(first))?,
        secrets.get_share_below(alloc, Epoch(second))?,
        secrets.get_share_below(alloc, Epoch(third))?,
        secrets.get_share_below(alloc, Epoch(last))?,
    ])
}

/// Whether it is the newest share that is told, of those that are put: of epochs 1 and 3.
fn tells_the_newest<X: SecretStore>(alloc: Global, secrets: &mut X) -> Result<bool, Fail> {
    let (one, other) = (Share(number(7)?), Share(number(9)?));
    secrets.put_share(alloc, Epoch(3), other)?;
    secrets.put_share(alloc, Epoch(1), one)?;
    let low = newest_below(alloc, secrets, [0, 1, 2, 3])?;
    let high = newest_below(alloc, secrets, [4, 5, 1 << 60, u64::MAX])?;
    Ok(low == [None, None, Some(one), Some(one)] && high == [Some(other); 4])
}

/// That of a store, which is done with then.
fn tells<X: SecretStore + Drop>(alloc: Global, mut secrets: X) -> Result<bool, Fail> {
    let tells = tells_the_newest(alloc, &mut secrets);
    drop(secrets);
    tells
}

#[test]
fn the_newest_share_below_is_told(rt: HostRuntime) -> Result<(), Fail> {
    let alloc = rt.alloc();
    is(&rt, tells(alloc, SureSecrets::new(alloc))?, true);
    is(&rt, tells(alloc, MemorySecrets::new(alloc))?, true);
    Ok(())
}
