//! The line of a life's step: its event's, or the one that begins the life.
ghost use Rattle.std.specs.Prelude.{◌≡◌, None};
ghost use Rattle.dkg_words.specs.Seek.{is_sought as is_sought_of, lives_after, place_of_step};

use crate::before::events_behind;
use crate::lines::{Walk, go_over, until};
use crate::names::{Name, name_of};

/// What is sought: a step of a life, both from 0; and the lines so far.
#[derive(Clone, Copy, Debug)]
pub(crate) struct Seek {
    pub(crate) life: u64,
    pub(crate) step: u64,
    /// Where the next line begins.
    pub(crate) at: u64,
    /// How many lives have begun.
    pub(crate) lives: u64,
    /// How many events the last one has.
    pub(crate) events: u64,
    pub(crate) found: Option<u64>,
}

fn lives_behind(lives: u64, name: Option<Name>) -> u64
    ensures { result ≡ lives_after lives name }
{
    match name {
        Some(Name::Life) => lives.saturating_add(1),
        _ => lives,
    }
}

/// Whether a line is the one sought, behind which there are so many lives, and so many events of the last.
fn is_sought(seek: &Seek, lives: u64, events: u64) -> bool
    ensures { result ≡ is_sought_of seek.now lives events }
{
    seek.found.is_none() && lives != 0 && lives - 1 == seek.life && events == seek.step
}

impl Walk for Seek {
    ghost use Rattle.dkg_words.specs.Seek.{sought_after as sought_after_line};

    ghost after = { sought_after_line };

    fn pass(&mut self, line: &[u8]) {
        let name = name_of(until(line, b' '));
        let lives = lives_behind(self.lives, name);
        let events = events_behind(self.events, name);
        let found = if is_sought(self, lives, events) {
            Some(self.at)
        } else {
            self.found
        };
        *self = Seek {
            life: self.life,
            step: self.step,
            at: self.at.saturating_add(line.len() as u64).saturating_add(1),
            lives,
            events,
            found,
        };
    }
}

/// Where the line of a life's step begins, if a text has it.
pub(crate) fn step_place(text: &[u8], life: u64, step: u64) -> Option<u64>
    ensures { result ≡ place_of_step text.now life step }
{
    let mut seek = Seek {
        life,
        step,
        at: 0,
        lives: 0,
        events: 0,
        found: None,
    };
    go_over(&mut seek, text);
    seek.found
}
