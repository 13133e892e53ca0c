//! A file in memory, and what a crash leaves of it.
//!
//! The memory disk keeps one for each name. A write keeps what it puts others in place of, and its range, so that a write, a sync and a
//! crash take time in what was written since the last sync, and not in the length of the file.
ghost use Rattle.std.specs.Prelude.{◌≡◌, ◌≤◌, ◌<◌, ◌+◌, ◌-◌, ◌++◌, ◌&&◌, [], ◌∷◌, List, ℕ, length, take, drop, min, max, map, nat_le, nat_lt, replicate, OnOk, OnErr, IfOk};
ghost use Rattle.std.specs.List.{list_any};
ghost use Rattle.std.specs.List.Sorted.{IsNonDecreasingBy};
ghost use Rattle.dkg_journal.specs.Disk.{written};
ghost use Rattle.dkg_journal.specs.Kept.{KeptBytes, Undone, restored, rolled, kept_to, settled, wrote, filled, filled_all, FileImage, AreWithin, loose_by, is_loose, count_below, IsBehind, KeepsFirst, Picked, LeftOver};

use std::alloc::{AllocError, Global};
use std::marker::Model;

/// Bytes that a write put others in place of.
#[derive(Drop)]
struct Undo {
    place: usize,
    old: Vec<u8>,
}

/// The places that a write has touched: from the first up to the second.
#[derive(Clone, Copy, Drop)]
struct Span {
    start: usize,
    end: usize,
}

/// The bytes, how many there were at the last sync, what the writes since have put others in place of, oldest first, and where, in any
/// order.
#[derive(Drop)]
pub struct File {
    bytes: Vec<u8>,
    synced: usize,
    undo: Vec<Undo>,
    spans: Vec<Span>,
}

impl Model for File {
    ghost use Rattle.std.specs.Prelude.{◌≡◌, ◌≤◌, ◌&&◌, ℕ, nat_le, nat_lt, length, map};
    ghost use Rattle.std.specs.List.{list_any};
    ghost use Rattle.dkg_journal.specs.Kept.{KeptBytes, AreWithin, touched};

    ghost Value = { KeptBytes };

    ghost view = { λ f. record { bytes = f.bytes.items; synced = f.synced; undo = map (λ u. (u.place, u.old.items)) f.undo.items } };

    ghost invariant = { λ f. (f.synced ≤ length f.bytes.items) × AreWithin (map (λ u. (u.place, u.old.items)) f.undo.items) (length f.bytes.items)
        × ((i : ℕ) → list_any (λ s. nat_le s.start i && nat_lt i s.end) f.spans.items ≡ touched (map (λ u. (u.place, u.old.items)) f.undo.items) i) };
}

/// Puts old bytes back, from a place on.
fn restore(bytes: &mut Vec<u8>, from: usize, undo: &Undo)
    requires { undo.now.place + length undo.now.old.items ≤ length bytes.old.items }
    ensures { bytes.new.items ≡ restored from (undo.now.place, undo.now.old.items) bytes.old.items }
{
    let skip = from.saturating_sub(undo.place).min(undo.old.len());
    let at = undo.place + skip;
    let end = undo.place + undo.old.len();
    bytes[at..end].copy_from_slice(&undo.old[skip..]);
}

/// Undoes the writes from a place on.
fn roll_back(bytes: &mut Vec<u8>, undo: &mut Vec<Undo>, from: usize)
    requires { AreWithin (map (λ u. (u.place, u.old.items)) undo.old.items) (length bytes.old.items) }
    ensures bytes { bytes.new.items ≡ rolled from (map (λ u. (u.place, u.old.items)) undo.old.items) bytes.old.items }
    ensures undo { undo.new.items ≡ [] }
{
    while let Some(last) = undo.pop() {
        restore(bytes, from, &last);
    }
}

/// The part of the bytes that a write of `n` bytes puts others in place of.
fn overwritten(alloc: Global, bytes: &[u8], place: usize, n: usize) -> Result<Vec<u8>, AllocError>
    requires { place ≤ length bytes.now }
    ensures { IfOk result (λ v. v.items ≡ take n (drop place bytes.now)) }
{
    let rest = &bytes[place..];
    Vec::from_slice(alloc, &rest[..n.min(rest.len())])
}

/// Writes over what is there and past the end, in place.
fn overwrite(bytes: &mut Vec<u8>, place: usize, new: &[u8]) -> Result<(), AllocError>
    requires { place ≤ length bytes.old.items }
    ensures done { OnOk result (bytes.new.items ≡ written place new.now bytes.old.items) }
    ensures kept { OnErr result (bytes.new.items ≡ bytes.old.items) }
{
    let inside = new.len().min(bytes.len() - place);
    bytes.extend_from_slice(&new[inside..])?;
    bytes[place..place + inside].copy_from_slice(&new[..inside]);
    Ok(())
}

/// Writes one byte over a range.
fn fill(bytes: &mut Vec<u8>, place: usize, n: usize, byte: u8)
    requires { place + n ≤ length bytes.old.items }
    ensures { bytes.new.items ≡ written place (replicate n byte) bytes.old.items }
{
    bytes[place..place + n].fill(byte);
}

/// Writes one byte over all that the writes since the last sync have put others in place of.
fn fill_undone(bytes: &mut Vec<u8>, undo: &[Undo], byte: u8)
    requires { AreWithin (map (λ u. (u.place, u.old.items)) undo.now) (length bytes.old.items) }
    ensures { bytes.new.items ≡ filled byte (map (λ u. (u.place, u.old.items)) undo.now) bytes.old.items }
{
    for one in undo {
        fill(bytes, one.place, one.old.len(), byte);
    }
}

/// The place behind the first so many loose bytes, or the file's end, and how many are then left to count. The spans have rising starts.
fn place_behind(spans: &[Span], synced: usize, len: usize, count: u64) -> (usize, u64)
    requires sorted { IsNonDecreasingBy (λ s. s.start) spans.now }
    requires synced { synced ≤ len }
    ensures { IsBehind (loose_by synced (λ i. list_any (λ s. nat_le s.start i && nat_lt i s.end) spans.now)) len count result.0 result.1 }
{
    let mut left = count;
    let mut at = 0;
    for span in spans {
        let start = span.start.min(synced).max(at);
        let end = span.end.min(len);
        if start < end {
            let n = (end - start) as u64;
            if left < n {
                return (start + left as usize, 0);
            }
            left -= n;
            at = end;
        }
    }
    let start = synced.max(at);
    let n = (len - start) as u64;
    if left < n {
        return (start + left as usize, 0);
    }
    (len, left - n)
}

/// Puts spans in the order of their starts.
fn sort_spans(spans: &mut Vec<Span>)
    ensures sorted { IsNonDecreasingBy (λ s. s.start) spans.new.items }
    ensures same { (i : ℕ) → list_any (λ s. nat_le s.start i && nat_lt i s.end) spans.new.items
        ≡ list_any (λ s. nat_le s.start i && nat_lt i s.end) spans.old.items }
{
    spans.sort_unstable_by_key(|span| span.start);
}

impl File {
    /// A file of which nothing is loose.
    pub fn new(bytes: Vec<u8>) -> File
        ensures { result ≡ settled bytes.items }
    {
        let synced = bytes.len();
        let undo = Vec::new(*bytes.allocator());
        let spans = Vec::new(*bytes.allocator());
        File {
            bytes,
            synced,
            undo,
            spans,
        }
    }

    /// The bytes as they are read now, loose ones too.
    pub fn bytes(&self) -> &[u8]
        ensures { result.now ≡ self.now.bytes }
    {
        &self.bytes
    }

    /// Makes sure of all that was written.
    pub fn settle(&mut self)
        ensures settled { self.new ≡ settled self.old.bytes }
        ensures image { FileImage self.old self.new.bytes }
    {
        self.synced = self.bytes.len();
        self.undo.clear();
        self.spans.clear();
    }

    /// Writes in place, and keeps what was there. The place is at most the file's length.
    pub fn write(&mut self, alloc: Global, place: usize, bytes: &[u8]) -> Result<(), AllocError>
        requires { place ≤ length self.old.bytes }
        ensures done { OnOk result (self.new ≡ wrote place bytes.now self.old) }
        ensures kept { OnErr result (self.new ≡ self.old) }
        ensures sound { self.old.synced ≤ length self.old.bytes }
        ensures within { AreWithin self.old.undo (length self.old.bytes) }
    {
        let old = overwritten(alloc, &self.bytes, place, bytes.len())?;
        self.undo.reserve(1)?;
        self.spans.reserve(1)?;
        overwrite(&mut self.bytes, place, bytes)?;
        let span = Span {
            start: place,
            end: place + old.len(),
        };
        let pushed = self.undo.push(Undo { place, old });
        prove!(pushed.is_ok());
        let _ = pushed;
        let noted = self.spans.push(span);
        prove!(noted.is_ok());
        let _ = noted;
        Ok(())
    }

    /// A crash that keeps what was written below a place, and leaves the rest as it was last synced.
    pub fn crash_to(&mut self, from: usize)
        ensures settled { self.new ≡ settled (kept_to from self.old) }
        ensures image { FileImage self.old self.new.bytes }
    {
        let len = self.bytes.len();
        roll_back(&mut self.bytes, &mut self.undo, from);
        self.bytes.truncate(self.synced.max(from.min(len)));
        self.synced = self.bytes.len();
        self.spans.clear();
    }

    /// A crash that leaves one byte in every loose place.
    pub fn crash_filled(&mut self, byte: u8)
        ensures settled { self.new ≡ settled (filled_all byte self.old) }
        ensures image { FileImage self.old self.new.bytes }
    {
        fill_undone(&mut self.bytes, &self.undo, byte);
        let n = self.bytes.len() - self.synced;
        fill(&mut self.bytes, self.synced, n, byte);
        self.synced = self.bytes.len();
        self.undo.clear();
        self.spans.clear();
    }

    /// A crash that keeps the first so many loose bytes, and leaves the rest as it was last synced. What is left of the count is returned.
    fn crash_first(&mut self, count: u64) -> u64
        ensures settled { self.new ≡ settled self.new.bytes }
        ensures image { FileImage self.old self.new.bytes }
        ensures first { KeepsFirst count self.old self.new.bytes }
        ensures left { result ≡ count - count_below (is_loose self.old) (length self.old.bytes) }
    {
        sort_spans(&mut self.spans);
        let (place, left) = place_behind(&self.spans, self.synced, self.bytes.len(), count);
        self.crash_to(place);
        left
    }

    /// What a crash leaves by its pick. `count` is how many loose bytes of this file and those behind it may still be kept; what is left
    /// of it is returned.
    pub fn crash(&mut self, pick: u64, count: u64) -> u64
        ensures image { FileImage self.old self.new.bytes }
        ensures settled { self.new ≡ settled self.new.bytes }
        ensures picked { Picked pick count self.old self.new.bytes }
        ensures left { LeftOver pick count self.old result }
    {
        match pick % 4 {
            0 => {
                self.settle();
                count
            }
            1 => {
                self.crash_to(0);
                count
            }
            2 => self.crash_first(count),
            _ => {
                self.crash_filled((pick / 4 % 256) as u8);
                count
            }
        }
    }
}
