//! The public half of a dealing.
//!
//! A dealer sends it to every player; a sharing has one as its polynomial.
ghost use Rattle.std.specs.Prelude.{◌≡◌, ◌↔◌, ℕ, ◌+◌, ◌*◌, ◌<◌, ◌≤◌, ◌^◌, ◌++◌, IfOk, IsTrue, OnErr, OnOk, length, slice_index, vec_len};
ghost use Rattle.dkg_values.specs.Codec.{StandsInFront};
ghost use Rattle.dkg_values.specs.Lists.{public_spelling, PublicFits};
ghost use Rattle.dkg_ceremony.specs.Coefficients.{coefficients};
ghost use Rattle.dkg_ceremony.specs.Publics.{IsPublic};

use bytes::{BufMut, BytesMut};
use dkg_values::{
    CodecError, Element, EncodeSize, Mem, Read, Reader, Shared, Spelled, Value, Write, read_count,
    read_many, uint_size, write_uint,
};
use std::alloc::Global;
use std::marker::Model;

/// The most coefficients that lie beside the count of those that share them. With them that takes 24 bytes, which is the least that an allocation takes.
const FEW: usize = 6;

/// So many coefficients, and zeros behind them.
#[derive(Debug, Drop)]
struct Short {
    count: u8,
    elements: [Element; 6],
}

impl Model for Short {
    ghost use Rattle.std.specs.Prelude.{List, ℕ, ◌≤◌, take};

    ghost Value = { List ℕ };

    ghost view = { λ s. take s.count s.elements };

    ghost invariant = { λ s. s.count ≤ 6 };
}

/// Where the coefficients lie: few of them in their place, and many apart.
#[derive(Debug, Drop)]
enum Form {
    Few(Short),
    Many(Box<Vec<Element>>),
}

/// The coefficients of a polynomial, from the constant one on: at least one and fewer than 2^32, which contracts see as a list.
/// They lie apart, in memory that copies share.
#[derive(Debug, Drop)]
pub struct Public(Shared<Form>);

impl Model for Public {
    ghost use Rattle.std.specs.Prelude.{List, ℕ};

    ghost Value = { List ℕ };

    ghost use Rattle.dkg_ceremony.specs.Coefficients.{coefficients};
    ghost use Rattle.dkg_ceremony.specs.Publics.{IsPublic};

    ghost view = { λ p. coefficients p.0 };

    ghost invariant = { λ p. IsPublic (coefficients p.0) };
}

/// Each element is below 65,521: to know it, each is read.
fn known(elements: &[Element])
    ensures { (i : ℕ) → slice_index elements.now i < 65521 }
{
    for element in elements {
        let _value = element.get();
    }
}

fn zero() -> Element
    ensures { result ≡ 0 }
{
    match Element::new(0) {
        Some(element) => element,
        None => unreachable!(),
    }
}

/// The element at an index, and zero behind the last.
#[tactic(auto, using(std::proofs::lemmas::List::get_or_past))]
fn coefficient(elements: &[Element], index: usize) -> Element
    ensures { result ≡ slice_index elements.now index }
{
    if index < elements.len() {
        elements[index]
    } else {
        zero()
    }
}

impl Short {
    fn of(elements: &[Element]) -> Short
        requires { length elements.now ≤ 6 }
        ensures { result ≡ elements.now }
    {
        Short {
            count: elements.len() as u8,
            elements: [
                coefficient(elements, 0),
                coefficient(elements, 1),
                coefficient(elements, 2),
                coefficient(elements, 3),
                coefficient(elements, 4),
                coefficient(elements, 5),
            ],
        }
    }

    fn as_slice(&self) -> &[Element]
        ensures items { result.now ≡ self.now }
        ensures bound { length result.now ≤ 6 }
    {
        let (elements, _zeros) = self.elements.split_at(self.count as usize);
        elements
    }
}

impl Form {
    fn of(alloc: Global, elements: Vec<Element>) -> Mem<Form>
        ensures { IfOk result (λ form. coefficients form ≡ elements.items) }
    {
        if elements.len() <= FEW {
            return Ok(Form::Few(Short::of(&elements)));
        }
        Ok(Form::Many(Box::new(alloc, elements)?))
    }

    fn as_slice(&self) -> &[Element]
        ensures { result.now ≡ coefficients self.now }
    {
        match self {
            Form::Few(short) => short.as_slice(),
            Form::Many(elements) => elements.as_slice(),
        }
    }
}

/// The polynomial of coefficients that lie somewhere.
fn formed(form: Shared<Form>) -> Public
    requires { IsPublic (coefficients form) }
    ensures { result ≡ coefficients form }
{
    Public(form)
}

/// The polynomial of these coefficients.
fn public_of(alloc: Global, elements: Vec<Element>) -> Mem<Public>
    requires { IsPublic elements.items }
    ensures { IfOk result (λ made. made ≡ elements.items) }
{
    let lying = Form::of(alloc, elements)?;
    let form = Shared::of(alloc, lying)?;
    Ok(formed(form))
}

/// Whether both are the same coefficients.
fn are_same(one: &[Element], other: &[Element]) -> bool
    ensures { IsTrue result ↔ (one.now ≡ other.now) }
{
    one == other
}

/// How many bytes coefficients take.
#[tactic(auto, using(dkg_values::specs::ListGrammar::public_size))]
fn size_of_all(elements: &[Element]) -> usize
    requires { length elements.now < 2 ^ 32 }
    ensures size { result ≡ length (public_spelling elements.now) }
    ensures bound { result ≤ 2 ^ 34 }
    ensures limit { (most : ℕ) → length elements.now ≤ most → result ≤ 5 + 2 * most }
{
    uint_size(elements.len() as u64) + 2 * elements.len()
}

/// Writes coefficients.
fn put_all(elements: &[Element], out: &mut BytesMut) -> Mem<()>
    ensures ok { OnOk result (out.new.items ≡ out.old.items ++ public_spelling elements.now) }
    ensures err { OnErr result (StandsInFront out.old.items out.new.items) }
{
    write_uint(out, elements.len() as u64)?;
    for element in elements {
        out.put_u16(element.get())?;
    }
    Ok(())
}

impl Public {
    /// The polynomial of these coefficients.
    pub fn new(alloc: Global, elements: Vec<Element>) -> Mem<Public>
        requires some { 1 ≤ vec_len elements }
        requires in_bound { vec_len elements < 2 ^ 32 }
        ensures { IfOk result (λ made. made ≡ elements.items) }
    {
        known(&elements);
        public_of(alloc, elements)
    }

    /// The coefficients, from the constant one on.
    pub fn as_slice(&self) -> &[Element]
        ensures items { result.now ≡ self.now }
        ensures kept { IsPublic self.now }
    {
        self.0.get().as_slice()
    }

    /// A polynomial may be read under each limit that is no less than its length.
    #[tactic(auto, using(crate::specs::Publics::public_fits))]
    pub fn fits_limits(&self)
        ensures { (most : ℕ) → length self.now ≤ most → PublicFits most self.now }
    {
        let _elements = self.as_slice();
    }
}

impl Value for Public {
    fn copy(&self, _alloc: Global) -> Mem<Public> {
        let form = self.0.share()?;
        Ok(formed(form))
    }

    fn same(&self, other: &Public) -> bool {
        are_same(self.as_slice(), other.as_slice())
    }
}

impl Spelled for Public {
    ghost use Rattle.dkg_values.specs.Lists.{public_spelling};

    ghost spelling = { public_spelling };
}

impl EncodeSize for Public {
    fn encode_size(&self) -> usize
        ensures size { result ≡ length (public_spelling self.now) }
        ensures bound { result ≤ 2 ^ 34 }
        ensures limit { (most : ℕ) → length self.now ≤ most → result ≤ 5 + 2 * most }
    {
        size_of_all(self.as_slice())
    }
}

impl Write for Public {
    fn put(&self, out: &mut BytesMut) -> Mem<()> {
        put_all(self.as_slice(), out)
    }
}

impl Read for Public {
    type Cfg = u32;

    ghost use Rattle.dkg_values.specs.Lists.{public_at, PublicFits};
    ghost use Rattle.dkg_values.specs.ListGrammar.{public_grammar};

    ghost fits = { PublicFits };

    ghost read_of = { public_at };

    ghost grammar = { public_grammar };

    fn read_cfg(alloc: Global, input: &mut Reader<'_>, cfg: &u32) -> Result<Public, CodecError> {
        let count = read_count(input, 1, *cfg)?;
        let elements = read_many::<Element>(alloc, input, count, &())?;
        known(&elements);
        Ok(public_of(alloc, elements)?)
    }
}
