//! What is printed: a line a form, and each case that differs.
ghost use Rattle.std.specs.Prelude.{◌≡◌};
ghost use Rattle.dkg_cases.specs.Counts.{all_agree, no_case, with_case, with_cases};

use crate::cases::Case;
use std::alloc::Global;
use std::io::{self, Write};

/// How many cases were replayed, and how many differ.
#[derive(Drop)]
pub struct Count {
    cases: u64,
    differ: u64,
}

impl Count {
    /// No case yet.
    pub fn new() -> Count
        ensures { result ≡ no_case }
    {
        Count {
            cases: 0,
            differ: 0,
        }
    }

    /// Counts a case. (A count at its last value stays there.)
    pub fn take(&mut self, agrees: bool)
        ensures { self.new ≡ with_case self.old agrees }
    {
        self.cases = self.cases.saturating_add(1);
        if agrees {
            return;
        }
        self.differ = self.differ.saturating_add(1);
    }

    /// Adds another count.
    pub fn add(&mut self, other: &Count)
        ensures { self.new ≡ with_cases self.old other.now }
    {
        self.cases = self.cases.saturating_add(other.cases);
        self.differ = self.differ.saturating_add(other.differ);
    }

    /// Whether there were cases, and none differs.
    pub fn is_clean(&self) -> bool
        ensures { result ≡ all_agree self.now }
    {
        self.cases != 0 && self.differ == 0
    }
}

/// Tells a count.
pub fn tell_count<W: Write>(
    alloc: Global,
    form: &str,
    count: &Count,
    sink: &mut W,
) -> io::Result<()> {
    let line = format!(in alloc; "{form}: {} cases, {} differ\n", count.cases, count.differ)?;
    sink.write_all(line.as_bytes())
}

/// The number of the first line in which two texts differ, from 1, and both lines.
fn first_difference<'a>(wanted: &'a [u8], got: &'a [u8]) -> (u64, &'a [u8], &'a [u8]) {
    let none: &[u8] = &[];
    let mut number = 1u64;
    let mut others = got.split(|byte| *byte == b'\n');
    for line in wanted.split(|byte| *byte == b'\n') {
        let other = others.next().unwrap_or(none);
        if line != other {
            return (number, line, other);
        }
        number = number.saturating_add(1);
    }
    (number, none, others.next().unwrap_or(none))
}

/// Tells the first line in which what was written isn't what is wanted, and both lines.
fn tell_first<W: Write>(alloc: Global, wanted: &[u8], got: &[u8], sink: &mut W) -> io::Result<()> {
    let (number, wanted, got) = first_difference(wanted, got);
    let line = format!(in alloc; "line {number}: wanted ")?;
    sink.write_all(line.as_bytes())?;
    sink.write_all(wanted)?;
    sink.write_all(b", got ")?;
    sink.write_all(got)?;
    sink.write_all(b"\n")
}

/// Tells a case that differs: the first line in which what was told isn't what is wanted, and both lines.
pub(crate) fn tell_difference<W: Write>(
    alloc: Global,
    form: &str,
    name: &str,
    wanted: &[u8],
    got: &[u8],
    sink: &mut W,
) -> io::Result<()> {
    let line = format!(in alloc; "{form} {name}: ")?;
    sink.write_all(line.as_bytes())?;
    tell_first(alloc, wanted, got, sink)
}

/// Tells a case that differs: the status that it ended with, the first line in which what was written isn't what is wanted, and both lines.
pub fn tell_lines<W: Write>(
    alloc: Global,
    form: &str,
    case: &Case<'_>,
    status: u8,
    bytes: &[u8],
    sink: &mut W,
) -> io::Result<()> {
    let line = format!(in alloc;
        "{form} {}: status {status} for {}, ",
        case.name, case.status
    )?;
    sink.write_all(line.as_bytes())?;
    tell_first(alloc, case.transcript, bytes, sink)
}
