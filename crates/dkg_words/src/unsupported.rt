//! The line that is said of a script of a form that isn't run yet.
ghost use Rattle.std.specs.Prelude.{◌≡◌, IfOk};
ghost use Rattle.dkg_words.specs.Unsupported.{found_after, named_or as named_or_of, named_place as named_place_of, told_of, unsupported_of, unsupported_text, why_line as why_line_of, why_named as why_named_of, why_words};

use crate::bad::put_line;
use crate::lines::{Walk, go_over, until};
use crate::names::{Name, is_event, name_of};
use crate::put::put;
use dkg_values::Mem;
use std::alloc::Global;

/// What isn't run yet.
#[derive(Clone, Copy, Debug, PartialEq, Eq)]
pub(crate) enum Why {
    Oneshot,
    Addresses,
    Probe,
    Sync,
    Event,
}

fn words(why: Why) -> &'static [u8]
    ensures { result.now ≡ why_words why }
{
    match why {
        Why::Oneshot => b"one-shot mode",
        Why::Addresses => b"addresses",
        Why::Probe => b"a probe",
        Why::Sync => b"a state sync",
        Why::Event => b"this event",
    }
}

/// Why no line of a name is run, where none is.
fn why_named(name: Name) -> Option<Why>
    ensures { result ≡ why_named_of name }
{
    match name {
        Name::Oneshot => Some(Why::Oneshot),
        Name::Address => Some(Why::Addresses),
        Name::Probe => Some(Why::Probe),
        Name::Sync => Some(Why::Sync),
        Name::Peer
        | Name::Final
        | Name::Next
        | Name::Release
        | Name::Info
        | Name::Feed
        | Name::Over
        | Name::Cancel
        | Name::Work => None,
        _ => {
            if is_event(name) {
                Some(Why::Event)
            } else {
                None
            }
        }
    }
}

/// Why a line isn't run whatever stands behind its name.
fn why_line(line: &[u8]) -> Option<Why>
    ensures { result ≡ why_line_of line.now }
{
    match name_of(until(line, b' ')) {
        Some(name) => why_named(name),
        None => None,
    }
}

/// The lines so far, of which the first is sought that isn't run whatever stands behind its name.
#[derive(Clone, Copy, Debug)]
pub(crate) struct Named {
    /// Where the next line begins.
    pub(crate) at: u64,
    /// Where that line begins, and why it isn't run.
    pub(crate) found: Option<(u64, Why)>,
}

/// What is found behind a line that begins at a place and isn't run for some reason, or is.
fn found_behind(found: Option<(u64, Why)>, at: u64, why: Option<Why>) -> Option<(u64, Why)>
    ensures { result ≡ found_after found at why }
{
    match (found, why) {
        (Some(found), _) => Some(found),
        (None, Some(why)) => Some((at, why)),
        (None, None) => None,
    }
}

impl Walk for Named {
    ghost use Rattle.dkg_words.specs.Unsupported.{named_after as named_after_line};

    ghost after = { named_after_line };

    fn pass(&mut self, line: &[u8]) {
        *self = Named {
            at: self.at.saturating_add(line.len() as u64).saturating_add(1),
            found: found_behind(self.found, self.at, why_line(line)),
        };
    }
}

/// The first line that isn't run whatever stands behind its name: where it begins, and why.
fn named_place(text: &[u8]) -> Option<(u64, Why)>
    ensures { result ≡ named_place_of text.now }
{
    let mut named = Named { at: 0, found: None };
    go_over(&mut named, text);
    named.found
}

/// What was found. Where nothing was, the script's directories hold addresses.
fn named_or(named: Option<(u64, Why)>) -> (u64, Why)
    ensures { result ≡ named_or_of named }
{
    match named {
        Some(found) => found,
        None => (0, Why::Addresses),
    }
}

/// The first line of a script that isn't run: where it begins, and why.
#[tactic(auto, unfolding(crate::specs::Unsupported::unsupported_of))]
fn first(text: &[u8]) -> (u64, Why)
    ensures { result ≡ unsupported_of text.now }
{
    named_or(named_place(text))
}

fn line_of(alloc: Global, text: &[u8], its: (u64, Why)) -> Mem<Vec<u8>>
    ensures { IfOk result (λ line. line.items ≡ told_of text.now its) }
{
    let mut out = Vec::new(alloc);
    put_line(&mut out, text, its.0)?;
    put(&mut out, b": not run yet: ")?;
    put(&mut out, words(its.1))?;
    put(&mut out, b"\n")?;
    Ok(out)
}

/// What is said of a script that isn't of the form that is run: its first line that isn't, and what of it.
pub fn unsupported_line(alloc: Global, text: &[u8]) -> Mem<Vec<u8>>
    ensures { IfOk result (λ line. line.items ≡ unsupported_text text.now) }
{
    line_of(alloc, text, first(text))
}
