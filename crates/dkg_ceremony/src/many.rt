//! One polynomial at the points of many participants.
//!
//! A round that checks many dealings asks for the values. At each point whose 240th power is y, a polynomial has the value of its remainder by
//! x^240 − y, which has 240 coefficients. As 65,520 = 240 · 273, there are 273 such powers, and 0: so a coefficient is weighed for each of them at
//! most, and not for each point.
ghost use Rattle.std.specs.Prelude.{◌≡◌, ℕ, ◌+◌, ◌*◌, ◌%◌, ◌<◌, ◌≤◌, ◌^◌, IfOk, IfSome, length, slice_index};
ghost use Rattle.std.specs.BTreeMap.{get};
ghost use Rattle.std.specs.Ordering.{nat_cmp};
ghost use Rattle.dkg_ceremony.specs.Polynomials.{AreValues, IsRemainder, power, value_at};

use crate::combine::zeros;
use crate::deal::element_of;
use crate::evaluate::value_among;
use crate::public::Public;
use dkg_values::{Element, Mem};
use std::alloc::Global;
use std::collections::BTreeMap;

/// How many coefficients a remainder has.
const WIDTH: usize = 240;

/// The product of two powers of a point.
fn product(one: u64, other: u64) -> u64
    requires one { one < 65521 }
    requires other { other < 65521 }
    ensures power { (x : ℕ) → (a : ℕ) → (b : ℕ) → one ≡ power x a → other ≡ power x b → result ≡ power x (a + b) }
    ensures below { result < 65521 }
{
    one * other % 65521
}

/// The 240th power of a point, modulo 65,521.
fn power_of(point: u64) -> u64
    ensures power { result ≡ power point 240 }
    ensures below { result < 65521 }
{
    let first = point % 65521;
    let second = product(first, first);
    let fourth = product(second, second);
    let fifth = product(fourth, first);
    let tenth = product(fifth, fifth);
    let fifteenth = product(tenth, fifth);
    let thirtieth = product(fifteenth, fifteenth);
    let sixtieth = product(thirtieth, thirtieth);
    let half = product(sixtieth, sixtieth);
    product(half, half)
}

/// Weighs a remainder by a power, and adds the coefficients from one on.
fn take_row(remainder: &mut Vec<Element>, power: u64, elements: &[Element], start: usize)
    requires long { length remainder.old.items ≡ 240 }
    requires power { power < 65521 }
    requires start { start ≤ 2 ^ 34 }
    ensures long { length remainder.new.items ≡ 240 }
    ensures each { (k : ℕ) → k < 240 → slice_index remainder.new.items k
        ≡ (slice_index elements.now (start + k) + power * slice_index remainder.old.items k) % 65521 }
{
    for i in 0..remainder.len() {
        let coefficient = match elements.get(start + i) {
            Some(element) => u64::from(element.get()),
            None => 0,
        };
        let number = (coefficient + power * u64::from(remainder[i].get())) % 65521;
        remainder[i] = element_of(number as u32);
    }
}

/// The remainder of a polynomial at the points with this 240th power.
fn remainder_of(alloc: Global, elements: &[Element], power: u64) -> Mem<Vec<Element>>
    requires long { length elements.now < 2 ^ 32 }
    requires power { power < 65521 }
    ensures { IfOk result (λ remainder. IsRemainder remainder.items elements.now power) }
{
    let mut remainder = zeros(alloc, WIDTH as u32)?;
    let mut row = elements.len() / WIDTH + 1;
    while row > 0 {
        row -= 1;
        take_row(&mut remainder, power, elements, row * WIDTH);
    }
    Ok(remainder)
}

/// The value at the point of an index. Remainders are kept by their powers.
fn value_by_remainder(
    alloc: Global,
    remainders: &mut BTreeMap<u64, Vec<Element>>,
    elements: &[Element],
    index: u32,
) -> Mem<Element>
    requires long { length elements.now < 2 ^ 32 }
    requires remainders { (y : ℕ) → IfSome (get nat_cmp remainders.old y) (λ remainder. IsRemainder remainder.items elements.now y) }
    ensures remainders { (y : ℕ) → IfSome (get nat_cmp remainders.new y) (λ remainder. IsRemainder remainder.items elements.now y) }
    ensures value { IfOk result (λ value. value ≡ value_at elements.now (index + 1)) }
{
    let power = power_of(u64::from(index) + 1);
    if let Some(remainder) = remainders.get(&power) {
        return Ok(element_of(value_among(remainder, index)));
    }
    let remainder = remainder_of(alloc, elements, power)?;
    let value = element_of(value_among(&remainder, index));
    remainders.insert(power, remainder)?;
    Ok(value)
}

/// The values of a polynomial at the points of so many indices.
pub(crate) fn values_of(alloc: Global, poly: &Public, count: u32) -> Mem<Vec<Element>>
    ensures { IfOk result (λ values. AreValues values.items poly.now count) }
{
    let mut remainders = BTreeMap::new(alloc);
    let mut values = Vec::new(alloc);
    for index in 0..count {
        values.push(value_by_remainder(alloc, &mut remainders, poly.as_slice(), index)?)?;
    }
    Ok(values)
}
