//! Parting a flat file into the segments of its sections.
//!
//! Opening a journal over a disk that has a flat file calls this on what it read.
ghost use Rattle.std.specs.Prelude.{◌≡◌, ◌⊎◌, ◌<◌, ◌^◌, ◌++◌, [], ℕ, List, Some, length, OnOk, IfOk, IfErr};
ghost use Rattle.std.specs.FinMap as map;
ghost use Rattle.dkg_values.specs.declared.name.Name.{Name};
ghost use Rattle.dkg_journal.specs.Records.{Whole, broken_at, record_of};
ghost use Rattle.dkg_journal.specs.Segments.{piece, parted};

use crate::JournalError;
use crate::by_section::BySection;
use crate::opening::{behind_gate, corrupt, split_record, u64_at};
use dkg_values::{Mem, Name};
use std::alloc::{AllocError, Global};
use std::marker::Model;

/// The records of one section, one behind the other.
#[derive(Drop)]
pub struct Piece {
    bytes: Vec<u8>,
}

impl Model for Piece {
    ghost use Rattle.std.specs.Prelude.{List, ℕ};

    ghost Value = { List ℕ };

    ghost view = { λ p. p.bytes.items };
}

impl Piece {
    fn new(alloc: Global) -> Piece
        ensures { result ≡ [] }
    {
        Piece {
            bytes: Vec::new(alloc),
        }
    }

    /// Adds a record of this body.
    #[tactic(auto, unfolding(crate::specs::Records::number32))]
    fn push(&mut self, body: &[u8]) -> Result<(), AllocError>
        requires { length body.now < 2 ^ 32 }
        ensures { OnOk result (self.new ≡ self.old ++ record_of body.now) }
    {
        let len = body.len() as u32;
        self.bytes.push(1)?;
        self.bytes.extend_from_slice(&len.to_be_bytes())?;
        self.bytes.extend_from_slice(body)?;
        Ok(())
    }

    /// A copy of the piece's bytes.
    pub fn copy(&self, alloc: Global) -> Result<Vec<u8>, AllocError>
        ensures { IfOk result (λ bytes. bytes.items ≡ self.now) }
    {
        Vec::from_slice(alloc, &self.bytes)
    }
}

/// Adds a record to the segment of its section.
fn add_record(alloc: Global, segments: &mut BySection<Piece>, section: u64, body: &[u8]) -> Mem<()>
    requires { length body.now < 2 ^ 32 }
    ensures { OnOk result (segments.new ≡ map.insert segments.old section (piece (map.get segments.old section) ++ record_of body.now)) }
{
    let mut records = match segments.take(section) {
        Some(records) => records,
        None => Piece::new(alloc),
    };
    records.push(body)?;
    segments.insert(section, records)
}

/// Reads the records of a flat file up to the first gate that is not open, or to its end, each into the segment of its section.
pub fn part(alloc: Global, bytes: &[u8]) -> Result<BySection<Piece>, JournalError>
    ensures parted { IfOk result (λ m. (bs : List (List ℕ)) × (place : ℕ) × Whole 8 bs place bytes.now × (m ≡ parted bs)) }
    ensures broken { IfErr result (λ e. (e ≡ JournalError.NoMemory)
        ⊎ ((place : ℕ) × (e ≡ JournalError.Corrupt Name.Flat place) × (broken_at 8 bytes.now ≡ Some place))) }
{
    let mut segments = BySection::new(alloc);
    let mut place = 0u64;
    let mut rest = bytes;
    while let Some(after) = behind_gate(rest) {
        let Some((body, next)) = split_record(after) else {
            return Err(corrupt(Name::Flat, place));
        };
        let Some((section, content)) = u64_at(body) else {
            return Err(corrupt(Name::Flat, place));
        };
        add_record(alloc, &mut segments, section, content)?;
        place += 5 + body.len() as u64;
        rest = next;
    }
    Ok(segments)
}
