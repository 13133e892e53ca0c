//! Polynomials at the points of participants.
//!
//! The stand-in ceremony checks dealings with them, and a signing desk partials. A participant's point is its index, from 0, and one.
ghost use Rattle.std.specs.Prelude.{◌≡◌, ℕ, ◌+◌, ◌<◌, ◌≤◌, ◌^◌, List, drop, length, slice_index};
ghost use Rattle.dkg_ceremony.specs.Polynomials.{AreValues, eight_powers, value_at};
ghost use Rattle.dkg_ceremony.specs.Dealings.{fits_at, reshares};
ghost use Rattle.dkg_values.specs.Rising.{index_of};

use crate::public::Public;
use crate::round::Round;
use dkg_values::{Element, Key, Set};

/// The powers of a point, from the first to the eighth, modulo 65,521.
fn powers_of(point: u64) -> [u64; 8]
    requires { point ≤ 2 ^ 32 }
    ensures powers { result ≡ eight_powers point }
    ensures below { (k : ℕ) → slice_index result k < 65521 }
{
    let first = point % 65521;
    let second = first * point % 65521;
    let third = second * point % 65521;
    let fourth = third * point % 65521;
    let fifth = fourth * point % 65521;
    let sixth = fifth * point % 65521;
    let seventh = sixth * point % 65521;
    let eighth = seventh * point % 65521;
    [first, second, third, fourth, fifth, sixth, seventh, eighth]
}

/// The value of the coefficients from one on, by that of those that lie behind it.
#[tactic(auto, using(crate::specs::PolynomialLaws::value_step))]
fn one_more(elements: &[Element], i: usize, point: u64, value: u64) -> u64
    requires there { i < length elements.now }
    requires point { point ≤ 2 ^ 32 }
    requires behind { value ≡ value_at (drop (i + 1) elements.now) point }
    requires below { value < 65521 }
    ensures value { result ≡ value_at (drop i elements.now) point }
    ensures below { result < 65521 }
{
    (u64::from(elements[i].get()) + point * value) % 65521
}

/// The same of eight at once, by one remainder.
fn eight_more(elements: &[Element], i: usize, powers: &[u64; 8], value: u64) -> u64
    requires there { i + 8 ≤ length elements.now }
    requires powers { (k : ℕ) → slice_index powers.now k < 65521 }
    requires below { value < 65521 }
    ensures value { (point : ℕ) → powers.now ≡ eight_powers point → value ≡ value_at (drop (i + 8) elements.now) point
        → result ≡ value_at (drop i elements.now) point }
    ensures below { result < 65521 }
{
    let front = u64::from(elements[i].get())
        + powers[0] * u64::from(elements[i + 1].get())
        + powers[1] * u64::from(elements[i + 2].get())
        + powers[2] * u64::from(elements[i + 3].get())
        + powers[3] * u64::from(elements[i + 4].get())
        + powers[4] * u64::from(elements[i + 5].get())
        + powers[5] * u64::from(elements[i + 6].get())
        + powers[6] * u64::from(elements[i + 7].get());
    (front + powers[7] * value) % 65521
}

/// The value of a polynomial with these coefficients, modulo 65,521, at the point of an index, from 0, among participants.
#[tactic(auto, using(crate::specs::PolynomialLaws::value_end))]
pub(crate) fn value_among(elements: &[Element], index: u32) -> u32
    ensures value { result ≡ value_at elements.now (index + 1) }
    ensures below { result < 65521 }
{
    let point = u64::from(index) + 1;
    let mut value = 0u64;
    let mut i = elements.len();
    while i % 8 > 0 {
        i -= 1;
        value = one_more(elements, i, point, value);
    }
    if i > 0 {
        let powers = powers_of(point);
        while i > 0 {
            i -= 8;
            value = eight_more(elements, i, &powers, value);
        }
    }
    value as u32
}

/// A polynomial's value, modulo 65,521, at the point of an index, from 0, among participants.
pub fn value_of(poly: &Public, index: u32) -> u32
    ensures value { result ≡ value_at poly.now (index + 1) }
    ensures below { result < 65521 }
{
    value_among(poly.as_slice(), index)
}

/// Whether a value is the polynomial's at the point of one of the keys.
pub(crate) fn fits(keys: &Set, key: Key, poly: &Public, value: Element) -> bool
    ensures { result ≡ fits_at (index_of key keys.now) poly.now value }
{
    match keys.position(key) {
        None => false,
        Some(index) => u32::from(value.get()) == value_of(poly, index),
    }
}

/// The same, where the values at the points of all of the keys are known.
fn fits_known(keys: &Set, key: Key, values: &[Element], value: Element) -> bool
    requires { length values.now ≡ length keys.now }
    ensures { (poly : List ℕ) → AreValues values.now poly (length keys.now) → result ≡ fits_at (index_of key keys.now) poly value }
{
    match keys.position(key) {
        None => false,
        Some(index) => value == values[index as usize],
    }
}

/// Whether a dealer deals again what it holds of the previous output.
pub(crate) fn is_reshare(round: &Round, dealer: Key, public: &Public) -> bool
    ensures { result ≡ reshares round.now.previous dealer public.now }
{
    match &round.parts().previous {
        None => true,
        Some(output) => match public.as_slice() {
            [] => false,
            [first, ..] => match round.held() {
                Some(values) => fits_known(&output.players, dealer, values, *first),
                None => fits(&output.players, dealer, &output.sharing.poly, *first),
            },
        },
    }
}
