//! By how much each dealer's polynomial counts in an outcome.
//!
//! A new key is the plain sum of what was dealt. A key that is dealt again is the value at zero of the polynomial
//! through the dealers' shares, so that each of these has its weight of interpolation.
ghost use Rattle.std.specs.Prelude.{◌≡◌, ℕ, ◌+◌, ◌*◌, ◌%◌, ◌<◌, IfOk, map};
ghost use Rattle.dkg_ceremony.specs.Weights.{bottom_of, inverse_of, point_in, top_of, weight_at, weights_of};

use crate::output::Output;
use dkg_values::{Key, Mem, Set};
use std::alloc::Global;

/// The inverse modulo 65,521, by squares.
#[tactic(auto, using(crate::specs::WeightLaws::even_turn, crate::specs::WeightLaws::odd_turn, crate::specs::WeightLaws::inverse_at_start, crate::specs::WeightLaws::at_end, crate::specs::InverseLaws::inverse_is))]
fn inverse(number: u32) -> u32
    ensures exact { result ≡ inverse_of number }
    ensures one { 0 < number % 65521 → number * result % 65521 ≡ 1 }
{
    let mut base = u64::from(number) % 65521;
    let mut power = 1u64;
    let mut exponent = 65519u32;
    while exponent > 0 {
        if exponent % 2 == 1 {
            power = power * base % 65521;
        }
        base = base * base % 65521;
        exponent /= 2;
    }
    power as u32
}

/// The point of a key among keys: its index and one, or 0.
fn point(keys: &Set, key: Key) -> u32
    ensures { result ≡ point_in keys.now key }
{
    let _count = keys.len();
    match keys.position(key) {
        Some(index) => index + 1,
        None => 0,
    }
}

/// The product of the other points, modulo the prime.
fn top(points: &[u32], own: u32) -> u32
    ensures { result ≡ top_of points.now own }
{
    let mut product = 1u64;
    for other in points {
        if *other != own {
            product = product * u64::from(*other) % 65521;
        }
    }
    product as u32
}

/// The product of what the other points have more than the own one, modulo the prime.
fn bottom(points: &[u32], own: u32) -> u32
    ensures { result ≡ bottom_of points.now own }
{
    let mut product = 1u64;
    for other in points {
        if *other != own {
            let more = (u64::from(*other) + (65521 - u64::from(own) % 65521)) % 65521;
            product = product * more % 65521;
        }
    }
    product as u32
}

/// The weight of a point.
#[tactic(auto, unfolding(crate::specs::Weights::weight_at))]
fn weight(points: &[u32], own: u32) -> u32
    ensures { result ≡ weight_at points.now own }
{
    let product = u64::from(top(points, own)) * u64::from(inverse(bottom(points, own)));
    (product % 65521) as u32
}

/// The points of some keys.
fn points_of(alloc: Global, keys: &Set, chosen: &[Key]) -> Mem<Vec<u32>>
    ensures { IfOk result (λ points. points.items ≡ map (point_in keys.now) chosen.now) }
{
    let mut points = Vec::new(alloc);
    for key in chosen {
        points.push(point(keys, *key))?;
    }
    Ok(points)
}

/// The weight of each point.
fn weights_at(alloc: Global, points: &[u32]) -> Mem<Vec<u32>>
    ensures { IfOk result (λ weights. weights.items ≡ map (weight_at points.now) points.now) }
{
    let mut weights = Vec::new(alloc);
    for own in points {
        weights.push(weight(points, *own))?;
    }
    Ok(weights)
}

/// A weight of 1 for each key.
fn ones(alloc: Global, chosen: &[Key]) -> Mem<Vec<u32>>
    ensures { IfOk result (λ weights. weights.items ≡ map (λ _. 1) chosen.now) }
{
    let mut weights = Vec::new(alloc);
    for _key in chosen {
        weights.push(1)?;
    }
    Ok(weights)
}

/// The weight of each dealer.
#[tactic(auto, using(crate::specs::WeightLaws::weights_are))]
pub(crate) fn weigh(alloc: Global, previous: &Option<Output>, chosen: &[Key]) -> Mem<Vec<u32>>
    ensures { IfOk result (λ weights. weights.items ≡ weights_of previous.now chosen.now) }
{
    match previous {
        None => ones(alloc, chosen),
        Some(output) => {
            let points = points_of(alloc, &output.players, chosen)?;
            Ok(weights_at(alloc, &points)?)
        }
    }
}
