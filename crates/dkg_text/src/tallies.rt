//! The summary of a run of the generated script: a line for each thing that is counted over the run's entries.
//!
//! The command that runs the generated script writes it in place of the transcript.
ghost use Rattle.std.specs.Prelude.{◌≡◌, ◌++◌, ◌∷◌, [], IfOk, OnOk, codes};
ghost use Rattle.std.specs.List.{flat_map};
ghost use Rattle.std.specs.Option.{option_copied};
ghost use Rattle.dkg_text.specs.Fields.{number_field};
ghost use Rattle.dkg_text.specs.Summary.{adds as adds_of, all_items, ending_line, item_line, item_name, summary_of, tally as tally_of};

use crate::fault::put_fault;
use crate::text::Text;
use dkg_ceremony::{Mem, NoMemory};
use dkg_infos::{AnswerLine, Entry, Fault};
use std::alloc::Global;

/// What is counted.
#[derive(Clone, Copy, Debug, PartialEq, Eq)]
pub(crate) enum Item {
    Lives,
    Steps,
    Restored,
    Recorded,
    Acks,
    Offers,
    Registered,
    Entered,
    Acknowledged,
    Logs,
    Answers,
    Blocked,
}

/// The items in the order of their lines.
fn items() -> [Item; 12]
    ensures { result ≡ all_items }
{
    [
        Item::Lives,
        Item::Steps,
        Item::Restored,
        Item::Recorded,
        Item::Acks,
        Item::Offers,
        Item::Registered,
        Item::Entered,
        Item::Acknowledged,
        Item::Logs,
        Item::Answers,
        Item::Blocked,
    ]
}

fn name(item: Item) -> &'static [u8]
    ensures { result.now ≡ item_name item }
{
    match item {
        Item::Lives => b"lives",
        Item::Steps => b"steps",
        Item::Restored => b"restored",
        Item::Recorded => b"recorded",
        Item::Acks => b"acks",
        Item::Offers => b"offers",
        Item::Registered => b"registered",
        Item::Entered => b"entered",
        Item::Acknowledged => b"acknowledged",
        Item::Logs => b"logs",
        Item::Answers => b"answers",
        Item::Blocked => b"blocked",
    }
}

/// How much an entry adds to an item.
fn adds(item: Item, entry: &Entry) -> u64
    ensures { result ≡ adds_of item entry.now }
{
    match (item, entry) {
        (Item::Restored, Entry::Opened { restored, .. }) => restored.0.len() as u64,
        (Item::Steps, Entry::Step { step }) => u64::from(*step > 0),
        (Item::Lives, Entry::Opened { .. })
        | (Item::Recorded, Entry::Recorded { .. })
        | (Item::Acks, Entry::Ack { .. })
        | (Item::Offers, Entry::Offer { .. })
        | (Item::Registered, Entry::Registered { .. })
        | (Item::Entered, Entry::Entered { .. })
        | (Item::Acknowledged, Entry::Acked { .. })
        | (
            Item::Logs,
            Entry::Log {
                payload: Some(_),
                ..
            },
        )
        | (
            Item::Answers,
            Entry::Answer {
                answer: AnswerLine::Available(_),
                ..
            },
        )
        | (Item::Blocked, Entry::Blocked { .. }) => 1,
        _ => 0,
    }
}

/// How much the entries add to an item: want of memory is answered where that is past 2^64.
#[tactic(auto, using(crate::proofs::Counted::one_more))]
fn tally(item: Item, entries: &[Entry]) -> Mem<u64>
    ensures { IfOk result (λ n. n ≡ tally_of item entries.now) }
{
    let mut sum = 0u64;
    for entry in entries {
        match sum.checked_add(adds(item, entry)) {
            Some(more) => sum = more,
            None => return Err(NoMemory),
        }
    }
    Ok(sum)
}

fn put_item(text: &mut Text, entries: &[Entry], item: Item) -> Mem<()>
    ensures { OnOk result (text.new ≡ text.old ++ item_line entries.now item) }
{
    let count = tally(item, entries)?;
    text.put(name(item))?;
    text.number(count)?;
    text.put(b"\n")
}

fn put_items(text: &mut Text, entries: &[Entry]) -> Mem<()>
    ensures { OnOk result (text.new ≡ text.old ++ flat_map (item_line entries.now) all_items) }
{
    for item in items() {
        put_item(text, entries, item)?;
    }
    Ok(())
}

fn put_made(text: &mut Text, number: u64) -> Mem<()>
    ensures { OnOk result (text.new ≡ text.old ++ ((codes "made" ++ number_field number) ++ 10 ∷ [])) }
{
    text.put(b"made")?;
    text.number(number)?;
    text.put(b"\n")
}

fn put_ending(text: &mut Text, fault: Option<&Fault>) -> Mem<()>
    ensures { OnOk result (text.new ≡ text.old ++ ending_line (option_copied fault.entry)) }
{
    match fault {
        Some(fault) => put_fault(text, fault)?,
        None => text.put(b"done")?,
    }
    text.put(b"\n")
}

/// The summary of a run of the script that was generated from a number: by the run's entries, and the fault that ended it, if one did.
pub fn summary(alloc: Global, number: u64, entries: &[Entry], fault: Option<&Fault>) -> Mem<Vec<u8>>
    ensures { IfOk result (λ text. text.items ≡ summary_of number entries.now (option_copied fault.entry)) }
{
    let mut text = Text::new(alloc);
    put_made(&mut text, number)?;
    put_items(&mut text, entries)?;
    put_ending(&mut text, fault)?;
    Ok(text.into_bytes())
}
