//! Reading a segment: its entries, and the place of the gate behind them.
//!
//! Opening a journal calls this on what the disk read.
ghost use Rattle.std.specs.Prelude.{◌≡◌, ◌⊎◌, ◌<◌, ◌≤◌, ◌^◌, ◌+◌, ◌++◌, ◌∷◌, List, ℕ, Some, length, drop, map, IfOk, IfSome, IfNone, IfErr};
ghost use Rattle.dkg_values.specs.declared.name.Name.{Name};
ghost use Rattle.dkg_journal.specs.Records.{HasNoOpenGate, Whole, number32, read32, read64, broken_at};
ghost use Rattle.dkg_journal.specs.Gated.{gated, gated_from};

use crate::JournalError;
use dkg_values::{Blob, Name};
use std::alloc::Global;

/// An entry, and the place of its record's gate in the segment of its section.
#[derive(Debug, Drop)]
pub struct JournalEntry {
    pub section: u64,
    pub place: u64,
    pub body: Blob,
}

/// The number in the first four bytes, and the bytes behind it.
#[tactic(auto, unfolding(crate::specs::Records::read32))]
fn u32_at(bytes: &[u8]) -> Option<(u32, &[u8])>
    ensures found { IfSome result (λ x. (4 ≤ length bytes.now) × (x.0 ≡ read32 bytes.now) × (x.1.now ≡ drop 4 bytes.now)) }
    ensures none { IfNone result (length bytes.now < 4) }
{
    if bytes.len() < 4 {
        return None;
    }
    let (front, rest) = bytes.split_at(4);
    let number = u32::from_be_bytes([front[0], front[1], front[2], front[3]]);
    Some((number, rest))
}

/// The number in the first eight bytes, and the bytes behind it. None of fewer bytes.
#[tactic(auto, unfolding(crate::specs::Records::read64))]
pub fn u64_at(bytes: &[u8]) -> Option<(u64, &[u8])>
    ensures found { IfSome result (λ x. (8 ≤ length bytes.now) × (x.0 ≡ read64 bytes.now) × (x.1.now ≡ drop 8 bytes.now)) }
    ensures none { IfNone result (length bytes.now < 8) }
{
    if bytes.len() < 8 {
        return None;
    }
    let (front, rest) = bytes.split_at(8);
    let number = u64::from_be_bytes([
        front[0], front[1], front[2], front[3], front[4], front[5], front[6], front[7],
    ]);
    Some((number, rest))
}

/// The body behind an open gate, and the bytes behind it.
pub fn split_record(after: &[u8]) -> Option<(&[u8], &[u8])>
    ensures found { IfSome result (λ x. (after.now ≡ number32 (length x.0.now) ++ (x.0.now ++ x.1.now)) × (length x.0.now < 2 ^ 32)) }
    ensures none { IfNone result (length after.now < 4 + read32 after.now) }
{
    let (len, rest) = u32_at(after)?;
    let len = len as usize;
    if rest.len() < len {
        return None;
    }
    Some(rest.split_at(len))
}

/// What stands behind an open gate.
pub fn behind_gate(rest: &[u8]) -> Option<&[u8]>
    ensures open { IfSome result (λ after. rest.now ≡ 1 ∷ after.now) }
    ensures shut { IfNone result (HasNoOpenGate rest.now) }
{
    match rest {
        [1, after @ ..] => Some(after),
        _ => None,
    }
}

/// The error of a record that is not whole.
pub fn corrupt(name: Name, place: u64) -> JournalError
    ensures { result ≡ JournalError.Corrupt name place }
{
    JournalError::Corrupt { name, place }
}

/// Lists the entries of a segment, up to the first gate that is not open or to its end, and gives the place behind its last record.
pub fn parse(
    alloc: Global,
    section: u64,
    bytes: &[u8],
    entries: &mut Vec<JournalEntry>,
) -> Result<u64, JournalError>
    ensures whole { IfOk result (λ place. (bs : List (List ℕ)) × Whole 0 bs place bytes.now
        × (map gated entries.new.items ≡ map gated entries.old.items ++ gated_from section 0 bs)) }
    ensures broken { IfErr result (λ e. (e ≡ JournalError.NoMemory)
        ⊎ ((place : ℕ) × (e ≡ JournalError.Corrupt (Name.Segment section) place) × (broken_at 0 bytes.now ≡ Some place))) }
{
    let mut place = 0u64;
    let mut rest = bytes;
    while let Some(after) = behind_gate(rest) {
        let Some((body, next)) = split_record(after) else {
            return Err(corrupt(Name::Segment(section), place));
        };
        let entry = JournalEntry {
            section,
            place,
            body: Blob::new(Vec::from_slice(alloc, body)?),
        };
        entries.push(entry)?;
        place += 5 + body.len() as u64;
        rest = next;
    }
    Ok(place)
}
