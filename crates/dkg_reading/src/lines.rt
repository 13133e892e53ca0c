//! The lines of a text, one after another, each ended by a line feed.
//!
//! The readers of a script look at the line in front, take it where it is one of theirs, and refuse it where what it spells is not
//! allowed there.
ghost use Rattle.std.specs.Prelude.{◌≡◌, ◌<◌, IfSome, IfOk, MatchOption, None, OnOk, Some, length};
ghost use Rattle.dkg_reading.specs.Lines.{ReadsText, ReadsIf, begins, front_of, line_at, named, row_of};
ghost use Rattle.dkg_reading.specs.Rows.{whole_row as whole_of};

use crate::fields::{Fields, Row, cut, whole};
use crate::stop::Stop;
use dkg_ceremony::Mem;
use std::alloc::Global;

/// A line without its line feed: its name, the fields behind that, and the text behind the line.
#[derive(Drop)]
pub(crate) struct Line<'a> {
    pub(crate) name: &'a [u8],
    pub(crate) fields: Fields<'a>,
    pub(crate) behind: &'a [u8],
}

/// The part of a text that is not read yet, and the text from the line on that was taken last.
#[derive(Drop)]
pub(crate) struct Lines<'a> {
    pub(crate) taken: &'a [u8],
    pub(crate) rest: &'a [u8],
}

/// The first line of a text, where it is ended.
#[tactic(auto, unfolding(crate::specs::Lines::front_of))]
fn front(text: &[u8]) -> Option<Line<'_>>
    ensures value { MatchOption result (front_of text.now ≡ None) (λ line. front_of text.now ≡ Some (line.name.now, (line.fields, line.behind.now))) }
    ensures shorter { IfSome result (λ line. length line.behind.now < length text.now) }
{
    let (line, behind) = cut(text, b'\n')?;
    let mut fields = Fields::new(line);
    let name = fields.next()?;
    Some(Line {
        name,
        fields,
        behind,
    })
}

impl<'a> Lines<'a> {
    pub(crate) fn new(text: &'a [u8]) -> Lines<'a>
        ensures { result.rest.now ≡ text.now }
    {
        Lines {
            taken: text,
            rest: text,
        }
    }

    /// The line in front, if it is ended.
    #[inline(always)]
    pub(crate) fn front(&self) -> Option<Line<'a>>
        ensures value { MatchOption result (front_of self.now.rest.now ≡ None)
            (λ line. front_of self.now.rest.now ≡ Some (line.name.now, (line.fields, line.behind.now))) }
        ensures shorter { IfSome result (λ line. length line.behind.now < length self.now.rest.now) }
    {
        front(self.rest)
    }

    /// Whether the line in front has this name.
    #[tactic(auto, unfolding(crate::specs::Lines::begins))]
    pub(crate) fn is_at(&self, name: &[u8]) -> bool
        ensures { result ≡ begins name.now self.now.rest.now }
    {
        match front(self.rest) {
            Some(line) => line.name == name,
            None => false,
        }
    }

    /// That the line in front is not allowed.
    pub(crate) fn stopped(&self) -> Stop
        ensures { result ≡ Stop.Line (length self.now.rest.now) }
    {
        Stop::Line(self.rest.len())
    }

    /// That the line taken last is not allowed.
    pub(crate) fn refused(&self) -> Stop
        ensures { result ≡ Stop.Line (length self.now.taken.now) }
    {
        Stop::Line(self.taken.len())
    }

    /// Goes on with what stands behind the line in front.
    pub(crate) fn pass(&mut self, behind: &'a [u8])
        ensures taken { self.new.taken.now ≡ self.old.rest.now }
        ensures rest { self.new.rest.now ≡ behind.now }
    {
        self.taken = self.rest;
        self.rest = behind;
    }

    /// Reads the line in front where it has this name, looking at it once.
    #[tactic(auto, unfolding(crate::specs::Lines::line_at, crate::specs::Lines::begins))]
    pub(crate) fn take_if<T: Row + Drop>(
        &mut self,
        alloc: Global,
        name: &[u8],
    ) -> Result<Option<T>, Stop>
        ensures reads { ReadsIf (begins name.now) (line_at name.now T.spells) self.old.rest.now result self.new.rest.now }
        ensures taken { IfOk result (λ made. IfSome made (λ _. self.new.taken.now ≡ self.old.rest.now)) }
        ensures on { IfOk result (λ made. IfSome made (λ _. length self.new.rest.now < length self.old.rest.now)) }
    {
        let Some(line) = front(self.rest) else {
            return Ok(None);
        };
        if line.name == name {
            let behind = line.behind;
            let Some(value) = whole(alloc, line.fields)? else {
                return Err(self.stopped());
            };
            self.pass(behind);
            Ok(Some(value))
        } else {
            Ok(None)
        }
    }

    /// Reads a line of this name.
    #[tactic(auto, unfolding(crate::specs::Lines::line_at, crate::specs::Lines::begins))]
    pub(crate) fn take<T: Row + Drop>(&mut self, alloc: Global, name: &[u8]) -> Result<T, Stop>
        ensures reads { ReadsText (line_at name.now T.spells self.old.rest.now) result self.new.rest.now }
        ensures taken { OnOk result (self.new.taken.now ≡ self.old.rest.now) }
        ensures on { OnOk result (length self.new.rest.now < length self.old.rest.now) }
    {
        match self.take_if(alloc, name)? {
            Some(value) => Ok(value),
            None => Err(self.stopped()),
        }
    }
}
