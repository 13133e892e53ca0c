//! The text of a transcript: a line for each entry, and after an opening one for each dealing that it found.
//!
//! The program writes it. Each kind of entry has a function that writes its line without the line feed.
ghost use Rattle.std.specs.Prelude.{◌≡◌, ◌++◌, IfOk, OnOk};
ghost use Rattle.std.specs.List.{flat_map};
ghost use Rattle.dkg_text.specs.Printing.{answer_fields, dealing_fields, ended_line, field_or, line_of, lines_of, restored_line, why_fields};

use crate::fault::put_fault;
use crate::text::Text;
use crate::words::{blocked_word, part_word, phase_word, role_word, verdict_word};
use dkg_ceremony::{Ack, Blob, Epoch, Height, Key, Mem, Phase, Private, Public, Share};
use dkg_infos::{
    AnswerLine, BlockedWhy, Entry, Part, PreparedLine, Restored, RestoredList, Role, Verdict, Why,
};
use dkg_values::Shared;
use std::alloc::Global;

/// The fields of a dealing: its epoch, whom it is from or to, and its two halves.
fn put_dealing(
    text: &mut Text,
    epoch: Epoch,
    key: Key,
    public: &Public,
    private: &Private,
) -> Mem<()>
    ensures { OnOk result (text.new ≡ text.old ++ dealing_fields epoch key public.now private.now) }
{
    text.number(epoch.0)?;
    text.number(u64::from(key.0))?;
    text.value(public)?;
    text.value(private)
}

fn put_restored(text: &mut Text, dealing: &Restored) -> Mem<()>
    ensures { OnOk result (text.new ≡ text.old ++ restored_line dealing.now) }
{
    text.put(b"\nrestored")?;
    put_dealing(
        text,
        dealing.epoch,
        dealing.dealer,
        &dealing.public,
        &dealing.private,
    )
}

/// The lines of what an opening found.
fn put_found(text: &mut Text, restored: &RestoredList) -> Mem<()>
    ensures { OnOk result (text.new ≡ text.old ++ flat_map restored_line restored.now) }
{
    for dealing in &restored.0 {
        put_restored(text, dealing)?;
    }
    Ok(())
}

fn put_opened(text: &mut Text, life: u64, restored: &RestoredList) -> Mem<()>
    ensures { OnOk result (text.new ≡ text.old ++ line_of (Entry.Opened life restored.now)) }
{
    text.put(b"opened")?;
    text.number(life)?;
    text.number(restored.0.len() as u64)?;
    put_found(text, restored)
}

fn put_committed(text: &mut Text, epoch: Epoch, share: &Option<Share>) -> Mem<()>
    ensures { OnOk result (text.new ≡ text.old ++ line_of (Entry.Committed epoch share.now)) }
{
    text.put(b"committed")?;
    text.number(epoch.0)?;
    match share {
        Some(share) => text.number(u64::from(share.0.get())),
        None => text.word(b"-"),
    }
}

fn put_registered(text: &mut Text, epoch: Epoch, role: Role) -> Mem<()>
    ensures { OnOk result (text.new ≡ text.old ++ line_of (Entry.Registered epoch role)) }
{
    text.put(b"registered")?;
    text.number(epoch.0)?;
    text.word(role_word(role))
}

fn put_setup(text: &mut Text, epoch: Epoch, phase: Phase, part: Part) -> Mem<()>
    ensures { OnOk result (text.new ≡ text.old ++ line_of (Entry.Setup epoch phase part)) }
{
    text.put(b"setup")?;
    text.number(epoch.0)?;
    text.word(phase_word(phase))?;
    text.word(part_word(part))
}

fn put_recorded(
    text: &mut Text,
    epoch: Epoch,
    dealer: Key,
    public: &Public,
    private: &Private,
) -> Mem<()>
    ensures { OnOk result (text.new ≡ text.old ++ line_of (Entry.Recorded epoch dealer public.now private.now)) }
{
    text.put(b"recorded")?;
    put_dealing(text, epoch, dealer, public, private)
}

fn put_ack(text: &mut Text, epoch: Epoch, dealer: Key, ack: &Ack) -> Mem<()>
    ensures { OnOk result (text.new ≡ text.old ++ line_of (Entry.Ack epoch dealer ack.now)) }
{
    text.put(b"ack")?;
    text.number(epoch.0)?;
    text.number(u64::from(dealer.0))?;
    text.value(ack)
}

fn put_offer(
    text: &mut Text,
    epoch: Epoch,
    player: Key,
    public: &Public,
    private: &Private,
) -> Mem<()>
    ensures { OnOk result (text.new ≡ text.old ++ line_of (Entry.Offer epoch player public.now private.now)) }
{
    text.put(b"offer")?;
    put_dealing(text, epoch, player, public, private)
}

fn put_blocked(text: &mut Text, peer: Key, why: BlockedWhy) -> Mem<()>
    ensures { OnOk result (text.new ≡ text.old ++ line_of (Entry.Blocked peer why)) }
{
    text.put(b"blocked")?;
    text.number(u64::from(peer.0))?;
    text.word(blocked_word(why))
}

/// A field of bytes, or a word in their place.
fn put_or(text: &mut Text, bytes: &Option<Blob>, none: &[u8]) -> Mem<()>
    ensures { OnOk result (text.new ≡ text.old ++ field_or bytes.now none.now) }
{
    match bytes {
        Some(bytes) => text.bytes(bytes.as_slice()),
        None => text.word(none),
    }
}

/// The same of bytes that lie apart.
fn put_shared(text: &mut Text, bytes: &Option<Shared<Blob>>, none: &[u8]) -> Mem<()>
    ensures { OnOk result (text.new ≡ text.old ++ field_or bytes.now none.now) }
{
    match bytes {
        Some(bytes) => text.bytes(bytes.get().as_slice()),
        None => text.word(none),
    }
}

fn put_log(text: &mut Text, request: u64, payload: &Option<Shared<Blob>>) -> Mem<()>
    ensures { OnOk result (text.new ≡ text.old ++ line_of (Entry.Log request payload.now)) }
{
    text.put(b"log")?;
    text.number(request)?;
    put_shared(text, payload, b"none")
}

fn put_why(text: &mut Text, why: Why) -> Mem<()>
    ensures { OnOk result (text.new ≡ text.old ++ why_fields why) }
{
    match why {
        Why::Short => text.word(b"short"),
        Why::WrongHeight { awaited, got } => {
            text.word(b"height")?;
            text.number(awaited.0)?;
            text.number(got.0)
        }
        Why::Unlinked { height } => {
            text.word(b"unlinked")?;
            text.number(height.0)
        }
        Why::Detached { height } => {
            text.word(b"detached")?;
            text.number(height.0)
        }
        Why::Following => text.word(b"following"),
        Why::Terminal => text.word(b"terminal"),
        Why::Finished => text.word(b"finished"),
        Why::Held => text.word(b"held"),
    }
}

fn put_unavailable(text: &mut Text, why: Why) -> Mem<()>
    ensures { OnOk result (text.new ≡ text.old ++ answer_fields (AnswerLine.Unavailable why)) }
{
    text.word(b"unavailable")?;
    put_why(text, why)
}

fn put_answer_line(text: &mut Text, answer: &AnswerLine) -> Mem<()>
    ensures { OnOk result (text.new ≡ text.old ++ answer_fields answer.now) }
{
    match answer {
        AnswerLine::Available(payload) => put_shared(text, payload, b"none"),
        AnswerLine::Unavailable(why) => put_unavailable(text, *why),
    }
}

fn put_answer(text: &mut Text, request: u64, answer: &AnswerLine) -> Mem<()>
    ensures { OnOk result (text.new ≡ text.old ++ line_of (Entry.Answer request answer.now)) }
{
    text.put(b"answer")?;
    text.number(request)?;
    put_answer_line(text, answer)
}

fn put_entered(text: &mut Text, epoch: Epoch) -> Mem<()>
    ensures { OnOk result (text.new ≡ text.old ++ line_of (Entry.Entered epoch)) }
{
    text.put(b"entered")?;
    text.number(epoch.0)
}

fn put_hint(text: &mut Text, height: Height, peer: Key) -> Mem<()>
    ensures { OnOk result (text.new ≡ text.old ++ line_of (Entry.Hint height peer)) }
{
    text.put(b"hint")?;
    text.number(height.0)?;
    text.number(u64::from(peer.0))
}

fn put_acked(text: &mut Text, height: Height) -> Mem<()>
    ensures { OnOk result (text.new ≡ text.old ++ line_of (Entry.Acked height)) }
{
    text.put(b"acked")?;
    text.number(height.0)
}

fn put_completed(text: &mut Text, outcome: &Option<Blob>) -> Mem<()>
    ensures { OnOk result (text.new ≡ text.old ++ line_of (Entry.Completed outcome.now)) }
{
    text.put(b"completed")?;
    put_or(text, outcome, b"-")
}

fn put_prepared(text: &mut Text, prepared: &PreparedLine) -> Mem<()>
    ensures { OnOk result (text.new ≡ text.old ++ line_of (Entry.Prepared prepared.now)) }
{
    text.put(b"prepared")?;
    match prepared {
        PreparedLine::Wait => text.word(b"wait"),
        PreparedLine::Ready(block) => put_or(text, block, b"none"),
    }
}

fn put_proposed(text: &mut Text, block: &Option<Blob>) -> Mem<()>
    ensures { OnOk result (text.new ≡ text.old ++ line_of (Entry.Proposed block.now)) }
{
    text.put(b"proposed")?;
    put_or(text, block, b"none")
}

fn put_sent(text: &mut Text, to: Option<Key>, bytes: &Blob) -> Mem<()>
    ensures { OnOk result (text.new ≡ text.old ++ line_of (Entry.Sent to bytes.now)) }
{
    text.put(b"sent")?;
    match to {
        Some(key) => text.number(u64::from(key.0))?,
        None => text.word(b"all")?,
    }
    text.bytes(bytes.as_slice())
}

fn put_artifact(text: &mut Text, info: &Blob, floor: &Shared<Blob>) -> Mem<()>
    ensures { OnOk result (text.new ≡ text.old ++ line_of (Entry.Artifact info.now floor.now)) }
{
    text.put(b"artifact")?;
    text.bytes(info.as_slice())?;
    text.bytes(floor.get().as_slice())
}

fn put_call(text: &mut Text, caller: u64, line: &Blob) -> Mem<()>
    ensures { OnOk result (text.new ≡ text.old ++ line_of (Entry.Call caller line.now)) }
{
    text.put(b"call")?;
    text.number(caller)?;
    text.word(line.as_slice())
}

fn put_cut(text: &mut Text, step: u64, call: u64) -> Mem<()>
    ensures { OnOk result (text.new ≡ text.old ++ line_of (Entry.Cut step call)) }
{
    text.put(b"cut")?;
    text.number(step)?;
    text.number(call)
}

fn put_step(text: &mut Text, step: u64) -> Mem<()>
    ensures { OnOk result (text.new ≡ text.old ++ line_of (Entry.Step step)) }
{
    text.put(b"step")?;
    text.number(step)
}

fn put_verdict(text: &mut Text, verdict: Verdict) -> Mem<()>
    ensures { OnOk result (text.new ≡ text.old ++ line_of (Entry.Verdict verdict)) }
{
    text.put(b"verdict")?;
    text.word(verdict_word(verdict))
}

/// A line, without its line feed; after an opening the lines of what it found.
fn put_entry(text: &mut Text, entry: &Entry) -> Mem<()>
    ensures { OnOk result (text.new ≡ text.old ++ line_of entry.now) }
{
    match entry {
        Entry::Opened { life, restored } => put_opened(text, *life, restored),
        Entry::Committed { epoch, share } => put_committed(text, *epoch, share),
        Entry::Registered { epoch, role } => put_registered(text, *epoch, *role),
        Entry::Setup { epoch, phase, part } => put_setup(text, *epoch, *phase, *part),
        Entry::Recorded {
            epoch,
            dealer,
            public,
            private,
        } => put_recorded(text, *epoch, *dealer, public, private),
        Entry::Ack { epoch, dealer, ack } => put_ack(text, *epoch, *dealer, ack),
        Entry::Offer {
            epoch,
            player,
            public,
            private,
        } => put_offer(text, *epoch, *player, public, private),
        Entry::Blocked { peer, why } => put_blocked(text, *peer, *why),
        Entry::Log { request, payload } => put_log(text, *request, payload),
        Entry::Answer { request, answer } => put_answer(text, *request, answer),
        Entry::Entered { epoch } => put_entered(text, *epoch),
        Entry::Halted => text.put(b"halted"),
        Entry::Hint { height, peer } => put_hint(text, *height, *peer),
        Entry::Acked { height } => put_acked(text, *height),
        Entry::Completed { outcome } => put_completed(text, outcome),
        Entry::Prepared(prepared) => put_prepared(text, prepared),
        Entry::Proposed { block } => put_proposed(text, block),
        Entry::Verdict(verdict) => put_verdict(text, *verdict),
        Entry::Sent { to, bytes } => put_sent(text, *to, bytes),
        Entry::Artifact { info, floor } => put_artifact(text, info, floor),
        Entry::Call { caller, line } => put_call(text, *caller, line),
        Entry::Cut { step, call } => put_cut(text, *step, *call),
        Entry::Step { step } => put_step(text, *step),
        Entry::Fault(fault) => put_fault(text, fault),
    }
}

fn put_line(text: &mut Text, entry: &Entry) -> Mem<()>
    ensures { OnOk result (text.new ≡ text.old ++ ended_line entry.now) }
{
    put_entry(text, entry)?;
    text.put(b"\n")
}

/// The lines of entries, in order.
pub fn print_of(alloc: Global, out: &[Entry]) -> Mem<Vec<u8>>
    ensures { IfOk result (λ text. text.items ≡ lines_of out.now) }
{
    let mut text = Text::new(alloc);
    for entry in out {
        put_line(&mut text, entry)?;
    }
    Ok(text.into_bytes())
}
