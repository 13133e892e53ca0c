//! The line that is said of a run that a fault ended.
ghost use Rattle.std.specs.Prelude.{◌≡◌, ◌++◌, ◌+◌, IfOk, OnOk};
ghost use Rattle.dkg_words.specs.Fault.{behind_entries, behind_entry, fault_text, fault_told, spot_of, spot_told, step_told};

use crate::bad::put_line;
use crate::message::put_message;
use crate::put::{put, put_number};
use crate::seek::step_place;
use dkg_infos::{Entry, Fault};
use dkg_values::Mem;
use std::alloc::Global;

/// The step in hand: its life's number, and its own in that life.
#[derive(Clone, Copy, Debug)]
pub(crate) struct Step {
    pub(crate) life: u64,
    pub(crate) step: u64,
}

/// The step in hand behind an entry. A life that was cut is over.
fn behind(step: Step, entry: &Entry) -> Step
    ensures { result ≡ behind_entry step entry.now }
{
    match entry {
        Entry::Opened { life, .. } => Step {
            life: *life,
            step: 0,
        },
        Entry::Step { step: done } => Step {
            life: step.life,
            step: done.saturating_add(1),
        },
        Entry::Cut { .. } => Step {
            life: step.life.saturating_add(1),
            step: 0,
        },
        _ => step,
    }
}

fn behind_all(entries: &[Entry]) -> Step
    ensures { result ≡ behind_entries entries.now }
{
    let mut step = Step { life: 0, step: 0 };
    for entry in entries {
        step = behind(step, entry);
    }
    step
}

/// A step, and where its line begins, if it has one.
#[derive(Clone, Copy, Debug)]
pub(crate) struct Spot {
    pub(crate) step: Step,
    pub(crate) place: Option<u64>,
}

/// The spot of the step in hand. Behind a life's last event it is the opening of the next life.
fn spot_at(text: &[u8], step: Step) -> Spot
    ensures { result ≡ spot_of text.now step }
{
    if let Some(place) = step_place(text, step.life, step.step) {
        return Spot {
            step,
            place: Some(place),
        };
    }
    let next = Step {
        life: step.life.saturating_add(1),
        step: 0,
    };
    match step_place(text, next.life, 0) {
        Some(place) => Spot {
            step: next,
            place: Some(place),
        },
        None => Spot { step, place: None },
    }
}

fn put_step(out: &mut Vec<u8>, step: Step) -> Mem<()>
    ensures { OnOk result (out.new.items ≡ out.old.items ++ step_told step) }
{
    put(out, b"life ")?;
    put_number(out, step.life)?;
    put(out, b", step ")?;
    put_number(out, step.step)
}

fn put_spot(out: &mut Vec<u8>, text: &[u8], spot: Spot) -> Mem<()>
    ensures { OnOk result (out.new.items ≡ out.old.items ++ spot_told text.now spot) }
{
    put_step(out, spot.step)?;
    if let Some(place) = spot.place {
        put(out, b", ")?;
        put_line(out, text, place)?;
    }
    Ok(())
}

fn put_fault(out: &mut Vec<u8>, fault: &Fault) -> Mem<()>
    ensures { OnOk result (out.new.items ≡ out.old.items ++ fault_told fault.now) }
{
    put(out, b": ")?;
    put_message(out, fault)?;
    put(out, b" (fault ")?;
    put_number(out, u64::from(fault.number()))?;
    put(out, b")\n")
}

/// What is said of a run that a fault ended: the life, the step and its line, the fault's message and its number.
pub fn fault_line(alloc: Global, text: &[u8], entries: &[Entry], fault: &Fault) -> Mem<Vec<u8>>
    ensures { IfOk result (λ line. line.items ≡ fault_text text.now entries.now fault.now) }
{
    let mut out = Vec::new(alloc);
    put_spot(&mut out, text, spot_at(text, behind_all(entries)))?;
    put_fault(&mut out, fault)?;
    Ok(out)
}
