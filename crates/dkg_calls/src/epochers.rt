//! Epochs of a few blocks, and those next to the greatest height, against what a model of them makes.
use crate::asserts::is_at;
use dkg_ceremony::{Bounds, Epoch, Epocher, Height, Phase};
use std::num::NonZeroU64;
use std::test::Fail;

fn epochs_of(blocks: u64) -> Result<Epocher, Fail> {
    let blocks = NonZeroU64::new(blocks).ok_or("an epoch has blocks")?;
    Ok(Epocher::new(blocks))
}

fn bounds(epoch: u64, [first, midpoint, last]: [u64; 3], phase: Phase) -> Option<Bounds> {
    Some(Bounds {
        epoch: Epoch(epoch),
        first: Height(first),
        midpoint: Height(midpoint),
        last: Height(last),
        phase,
    })
}

#[test]
fn heights_lie_in_their_epochs(rt: HostRuntime) -> Result<(), Fail> {
    let rows: [(u64, u64, Option<Bounds>); 10] = [
        (5, 0, bounds(0, [0, 2, 4], Phase::Early)),
        (5, 1, bounds(0, [0, 2, 4], Phase::Early)),
        (5, 2, bounds(0, [0, 2, 4], Phase::Midpoint)),
        (5, 3, bounds(0, [0, 2, 4], Phase::Late)),
        (5, 5, bounds(1, [5, 7, 9], Phase::Early)),
        (4, 13, bounds(3, [12, 14, 15], Phase::Early)),
        (4, 14, bounds(3, [12, 14, 15], Phase::Midpoint)),
        (1, 7, bounds(7, [7, 7, 7], Phase::Midpoint)),
        (5, u64::MAX, None),
        (u64::MAX, u64::MAX, None),
    ];
    for (blocks, height, want) in rows {
        let found = epochs_of(blocks)?.containing(Height(height));
        is_at(&rt, found, want, (height, blocks));
    }
    Ok(())
}

#[test]
fn epochs_begin_and_end(rt: HostRuntime) -> Result<(), Fail> {
    let rows: [(u64, u64, Option<[u64; 3]>); 7] = [
        (5, 3, Some([15, 17, 19])),
        (4, 3, Some([12, 14, 15])),
        (1, u64::MAX, Some([u64::MAX, u64::MAX, u64::MAX])),
        (2, u64::MAX, None),
        (
            16,
            (1 << 60) - 1,
            Some([u64::MAX - 15, u64::MAX - 7, u64::MAX]),
        ),
        (16, 1 << 60, None),
        (u64::MAX, 0, Some([0, u64::MAX / 2, u64::MAX - 1])),
    ];
    for (blocks, epoch, want) in rows {
        let epochs = epochs_of(blocks)?;
        let [first, midpoint, last] = match want {
            Some(heights) => heights.map(|height| Some(Height(height))),
            None => [None, None, None],
        };
        is_at(&rt, epochs.first(Epoch(epoch)), first, (epoch, blocks));
        is_at(
            &rt,
            epochs.midpoint(Epoch(epoch)),
            midpoint,
            (epoch, blocks),
        );
        is_at(&rt, epochs.last(Epoch(epoch)), last, (epoch, blocks));
    }
    Ok(())
}
