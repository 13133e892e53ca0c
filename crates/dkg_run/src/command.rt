//! The top call: it reads a script, runs its lives, and writes their transcript.
ghost use Rattle.std.specs.Prelude.{◌≡◌, ◌≢◌, ◌↔◌, ◌⊎◌, ◌≤◌, ◌++◌, [], ◌∷◌, ℕ, List, true, false, IfNone, IfOk, IfSome, IsTrue, OnOk, Some};
ghost use Rattle.std.specs.Prelude.{codes, drop, length, map, string_bytes};
ghost use Rattle.std.specs.Option.{option_copied};
ghost use Rattle.dkg_journal.specs.Disk.{Rose};
ghost use Rattle.dkg_generator.specs.Made.{made_script};
ghost use Rattle.dkg_text.specs.Fields.{number_field};
ghost use Rattle.dkg_reading.specs.Grammar.{script_of, script_or_place};
ghost use Rattle.dkg_text.specs.Printing.{lines_of};
ghost use Rattle.dkg_text.specs.Writing.{text_of as script_text_of};
ghost use Rattle.dkg_text.specs.declared.script.Script.{Script};
ghost use Rattle.dkg_script.specs.InForm.{ReadsInForm, is_in_form};
ghost use Rattle.dkg_script.specs.Inclusion.{IsFormOfInclusion};
ghost use Rattle.dkg_script.specs.Promise.{Adds};
ghost use Rattle.dkg_run.specs.Command.{IsMake, IsRunOfMade, IsRunOfSource, IsTold};
ghost use Rattle.dkg_promises.specs.Complete.{IsSoundRun, IsValidAnyhow};
ghost use Rattle.dkg_outside.specs.Outside.{TookFew, TookMore};
ghost use Rattle.dkg_promises.specs.Over.{over};
ghost use Rattle.dkg_run.specs.Reports.{Blamed, IsMade, WasRead, Reported, RanByStatus, Summed, fault_status, last_fault as last_fault_of, last_of, summary_by};

use crate::lives::run_lives;
use dkg_ceremony::Mem;
use dkg_generator::make_script;
use dkg_infos::{Entry, Fault, Transcript};
use dkg_journal::Disk;
use dkg_outside::{ReadError, Sink, Source, Status, read_all, write_all};
use dkg_reading::number;
use dkg_script::{ReadError as FormError, Script, print_of, read_in_form};
use dkg_store::SecretStore;
use dkg_text::{script_text, summary};
use itoa::Buffer;
use std::alloc::Global;

fn is_run_word(word: &str) -> bool
    ensures { IsTrue result ↔ (word.now ≡ codes "run") }
{
    word == "run"
}

/// Whether the words are those that run a script.
fn is_run(words: &[String]) -> bool
    ensures { IsTrue result ↔ IsRunOfSource (map string_bytes words.now) }
{
    match words {
        [word] => is_run_word(word.as_str()),
        _ => false,
    }
}

fn is_make_word(word: &str) -> bool
    ensures { IsTrue result ↔ (word.now ≡ codes "make") }
{
    word == "make"
}

fn is_script_word(word: &str) -> bool
    ensures { IsTrue result ↔ (word.now ≡ codes "script") }
{
    word == "script"
}

/// The number whose script is to be written, where the words are those that ask for one.
fn made_number(words: &[String]) -> Option<u64>
    ensures some { IfSome result (λ n. IsMake n (map string_bytes words.now)) }
    ensures none { IfNone result ((n : ℕ) → IsMake n (map string_bytes words.now) → ⊥) }
{
    match words {
        [verb, name, what] => {
            if !is_make_word(verb.as_str()) {
                return None;
            }
            if !is_script_word(what.as_str()) {
                return None;
            }
            number(name.as_str().as_bytes())
        }
        _ => None,
    }
}

/// The number whose script is to be run, where the words are those that ask for that.
fn run_number(words: &[String]) -> Option<u64>
    ensures some { IfSome result (λ n. IsRunOfMade n (map string_bytes words.now)) }
    ensures none { IfNone result ((n : ℕ) → IsRunOfMade n (map string_bytes words.now) → ⊥) }
{
    match words {
        [verb, name] => {
            if !is_make_word(verb.as_str()) {
                return None;
            }
            number(name.as_str().as_bytes())
        }
        _ => None,
    }
}

/// The status of a run that a fault ended.
fn status_of(fault: Fault) -> Status
    ensures { result ≡ fault_status fault }
{
    match fault {
        Fault::NoMemory => Status::NoMemory,
        Fault::Disk | Fault::Secrets => Status::Device,
        other => Status::Fault(other),
    }
}

/// The script that bytes spell which were read of a source. It is given them back.
fn script_in<S: Source>(alloc: Global, source: &mut S, bytes: Vec<u8>) -> Result<Script, FormError>
    ensures reads { ReadsInForm (script_or_place false bytes.items) result }
    ensures form { IfOk result IsFormOfInclusion }
    ensures left { S.left source.new ≡ S.left source.old }
    ensures back { S.has_back source.new bytes.items }
{
    let read = read_in_form(alloc, &bytes, false);
    source.give_back(bytes);
    read
}

/// Runs the lives of a script that was read, or says why none was.
fn run_read<D: Disk, X: SecretStore>(
    alloc: Global,
    read: Result<Script, FormError>,
    disk: &mut D,
    secrets: &mut X,
    out: &mut Transcript,
) -> Status
    requires form { IfOk read IsFormOfInclusion }
    ensures read { (result ≢ Status.ReadFault) × (result ≢ Status.TooLong) }
    ensures ends { (bytes : List ℕ) → ReadsInForm (script_or_place false bytes) read → Adds out.old.entries out.new.entries (RanByStatus (λ its. its ≡ bytes)
        (over D.tells D.files D.image D.faults D.made X.tells X.held X.faults X.made (disk.old, secrets.old) (disk.new, secrets.new))
        out.old.entries result) }
{
    let script = match read {
        Ok(script) => script,
        Err(FormError::Bad { place }) => return Status::BadScript { place },
        Err(FormError::Unsupported) => return Status::Unsupported,
        Err(FormError::NoMemory) => return Status::NoMemory,
    };
    match run_lives(alloc, &script, disk, secrets, out) {
        Ok(()) => Status::Done,
        Err(fault) => status_of(fault),
    }
}

/// Reads a script and runs its lives.
fn run<S: Source, D: Disk, X: SecretStore>(
    alloc: Global,
    source: &mut S,
    disk: &mut D,
    secrets: &mut X,
    out: &mut Transcript,
) -> Status
    ensures read_fault { result ≡ Status.ReadFault → Rose (S.faults source.old) (S.faults source.new) }
    ensures too_long { result ≡ Status.TooLong → IsTrue S.tells → TookMore 16777216 (S.left source.old) (S.left source.new) }
    ensures in_bound { IsTrue S.tells → TookFew 16777217 (S.left source.old) (S.left source.new) }
    ensures ends { Adds out.old.entries out.new.entries (RanByStatus (WasRead (IsTrue S.tells) (S.left source.old) (S.left source.new) (S.has_back source.new))
        (over D.tells D.files D.image D.faults D.made X.tells X.held X.faults X.made (disk.old, secrets.old) (disk.new, secrets.new))
        out.old.entries result) }
{
    let bytes = match read_all(alloc, source) {
        Ok(bytes) => bytes,
        Err(ReadError::Failed) => return Status::ReadFault,
        Err(ReadError::TooLong) => return Status::TooLong,
        Err(ReadError::NoMemory) => return Status::NoMemory,
    };
    let read = script_in(alloc, source, bytes);
    run_read(alloc, read, disk, secrets, out)
}

fn put(text: &mut Vec<u8>, more: &[u8]) -> Mem<()>
    ensures { OnOk result (text.new.items ≡ text.old.items ++ more.now) }
{
    Ok(text.extend_from_slice(more)?)
}

/// The line of a place from which on there is no script.
fn put_bad(text: &mut Vec<u8>, place: u64) -> Mem<()>
    ensures { OnOk result (text.new.items ≡ text.old.items ++ (codes "bad" ++ number_field place ++ 10 ∷ [])) }
{
    let mut buffer = Buffer::new();
    put(text, b"bad ")?;
    put(text, buffer.format(place).as_bytes())?;
    put(text, b"\n")
}

/// The last line of a status, where it has one.
fn put_last(text: &mut Vec<u8>, status: &Status) -> Mem<()>
    ensures { OnOk result (text.new.items ≡ text.old.items ++ last_of status.now) }
{
    match status {
        Status::Done => put(text, b"done\n"),
        Status::Usage => put(text, b"usage\n"),
        Status::BadScript { place } => put_bad(text, *place),
        Status::Unsupported => put(text, b"unsupported\n"),
        _ => Ok(()),
    }
}

/// The lines of the new entries, and the status's last line.
fn text_of(alloc: Global, entries: &[Entry], status: &Status) -> Mem<Vec<u8>>
    ensures { IfOk result (λ text. text.items ≡ lines_of entries.now ++ last_of status.now) }
{
    let mut text = print_of(alloc, entries)?;
    put_last(&mut text, status)?;
    Ok(text)
}

/// Writes what a status has to say: the new entries' lines, and its last line.
fn report<K: Sink>(alloc: Global, sink: &mut K, entries: &[Entry], status: Status) -> Status
    ensures told { IsTold status result (lines_of entries.now ++ last_of status) (IsTrue K.tells) (K.held sink.old) (K.held sink.new) }
    ensures none { (lines_of entries.now ++ last_of status ≡ []) → sink.new ≡ sink.old }
    ensures write_fault { status ≢ Status.WriteFault → result ≡ Status.WriteFault → Rose (K.faults sink.old) (K.faults sink.new) }
{
    let Ok(text) = text_of(alloc, entries, &status) else {
        return Status::NoMemory;
    };
    match write_all(sink, &text) {
        Ok(()) => status,
        Err(_) => Status::WriteFault,
    }
}

/// The text of the made script of a number.
fn made_text(alloc: Global, number: u64) -> Mem<Vec<u8>>
    ensures { IfOk result (λ text. text.items ≡ script_text_of (made_script number)) }
{
    let script = make_script(alloc, number)?;
    script_text(alloc, &script)
}

/// Writes the made script of a number.
fn make<K: Sink>(alloc: Global, sink: &mut K, number: u64) -> Status
    ensures told { IsTold Status.Done result (script_text_of (made_script number)) (IsTrue K.tells) (K.held sink.old) (K.held sink.new) }
    ensures write_fault { result ≡ Status.WriteFault → Rose (K.faults sink.old) (K.faults sink.new) }
{
    let Ok(text) = made_text(alloc, number) else {
        return Status::NoMemory;
    };
    match write_all(sink, &text) {
        Ok(()) => Status::Done,
        Err(_) => Status::WriteFault,
    }
}

/// The made script of a number, read from its text.
fn made_in_form(alloc: Global, number: u64) -> Result<Script, FormError>
    ensures reads { ReadsInForm (script_or_place false (script_text_of (made_script number))) result }
    ensures form { IfOk result IsFormOfInclusion }
{
    let text = made_text(alloc, number)?;
    read_in_form(alloc, &text, false)
}

/// Runs the lives of the made script of a number.
fn run_made<D: Disk, X: SecretStore>(
    alloc: Global,
    number: u64,
    disk: &mut D,
    secrets: &mut X,
    out: &mut Transcript,
) -> Status
    ensures read { (result ≢ Status.ReadFault) × (result ≢ Status.TooLong) }
    ensures ends { Adds out.old.entries out.new.entries (RanByStatus (IsMade number)
        (over D.tells D.files D.image D.faults D.made X.tells X.held X.faults X.made (disk.old, secrets.old) (disk.new, secrets.new))
        out.old.entries result) }
{
    let read = made_in_form(alloc, number);
    run_read(alloc, read, disk, secrets, out)
}

/// The fault that entries end in, if they end in one.
fn last_fault(entries: &[Entry]) -> Option<&Fault>
    ensures { option_copied result ≡ last_fault_of entries.now }
{
    match entries.last() {
        Some(Entry::Fault(fault)) => Some(fault),
        _ => None,
    }
}

/// What there is to write of a run of a made script: its summary, where the lives were run, or the status's last line.
fn summary_text(alloc: Global, number: u64, entries: &[Entry], status: &Status) -> Mem<Vec<u8>>
    ensures { IfOk result (λ text. text.items ≡ summary_by number entries.now status.now) }
{
    match status {
        Status::Done | Status::Fault(_) | Status::Device => {
            summary(alloc, number, entries, last_fault(entries))
        }
        _ => text_of(alloc, &[], status),
    }
}

/// Writes it.
fn sum_up<K: Sink>(
    alloc: Global,
    sink: &mut K,
    number: u64,
    entries: &[Entry],
    status: Status,
) -> Status
    ensures told { IsTold status result (summary_by number entries.now status) (IsTrue K.tells) (K.held sink.old) (K.held sink.new) }
    ensures write_fault { status ≢ Status.WriteFault → result ≡ Status.WriteFault → Rose (K.faults sink.old) (K.faults sink.new) }
{
    let Ok(text) = summary_text(alloc, number, entries, &status) else {
        return Status::NoMemory;
    };
    match write_all(sink, &text) {
        Ok(()) => status,
        Err(_) => Status::WriteFault,
    }
}

/// The entries of a transcript from an index on.
fn entries_from(out: &Transcript, index: usize) -> &[Entry]
    ensures { result.now ≡ drop index out.now.entries }
{
    out.entries().get(index..).unwrap_or(&[])
}

/// Does what the words say. `run` reads a script from the source, runs its lives over the devices, and writes the lines of the new
/// entries and the status's last line to the sink. `make N` runs the made script of the number N over them, and writes a summary;
/// `make N script` writes that script's text. Any other words are Usage.
pub fn run_command<S: Source, K: Sink, D: Disk, X: SecretStore>(
    alloc: Global,
    words: &[String],
    source: &mut S,
    sink: &mut K,
    disk: &mut D,
    secrets: &mut X,
    out: &mut Transcript,
) -> Status
    // Other words read and run nothing.
    ensures usage { (IsRunOfSource (map string_bytes words.now) → ⊥) → ((n : ℕ) → IsMake n (map string_bytes words.now) → ⊥)
        → ((n : ℕ) → IsRunOfMade n (map string_bytes words.now) → ⊥)
        → IsTold Status.Usage result (last_of Status.Usage) (IsTrue K.tells) (K.held sink.old) (K.held sink.new)
        × (source.new ≡ source.old) × (disk.new ≡ disk.old) × (secrets.new ≡ secrets.old) × (out.new ≡ out.old) }
    ensures only_usage { result ≡ Status.Usage
        → (IsRunOfSource (map string_bytes words.now) → ⊥) × ((n : ℕ) → IsMake n (map string_bytes words.now) → ⊥)
        × ((n : ℕ) → IsRunOfMade n (map string_bytes words.now) → ⊥) }
    // `make N script` writes that script's text, and touches nothing but the sink.
    ensures make { (n : ℕ) → IsMake n (map string_bytes words.now)
        → IsTold Status.Done result (script_text_of (made_script n)) (IsTrue K.tells) (K.held sink.old) (K.held sink.new)
        × (source.new ≡ source.old) × (disk.new ≡ disk.old) × (secrets.new ≡ secrets.old) × (out.new ≡ out.old) }
    // `make N` runs that script, of which all holds that holds of one that was read, and the sink took the summary of the new entries.
    ensures sums { (n : ℕ) → IsRunOfMade n (map string_bytes words.now) → (source.new ≡ source.old) × Summed n
        (over D.tells D.files D.image D.faults D.made X.tells X.held X.faults X.made (disk.old, secrets.old) (disk.new, secrets.new))
        out.old.entries out.new.entries result (IsTrue K.tells) (K.held sink.old) (K.held sink.new) }
    // However the words `run` end, the new entries, the devices and what was read are as the status says, with all that `run_lives` promises of the
    // script that the source gave, and the sink took the lines of the entries and the status's last line: all, or a front where a write failed, or
    // nothing where there was no memory for them.
    ensures run { IsRunOfSource (map string_bytes words.now)
        → Reported (WasRead (IsTrue S.tells) (S.left source.old) (S.left source.new) (S.has_back source.new))
        (over D.tells D.files D.image D.faults D.made X.tells X.held X.faults X.made (disk.old, secrets.old) (disk.new, secrets.new))
        out.old.entries out.new.entries result (IsTrue K.tells) (K.held sink.old) (K.held sink.new) }
    ensures silent { (result ≡ Status.ReadFault) ⊎ (result ≡ Status.TooLong) → sink.new ≡ sink.old }
    // What a status blames is so, and no more than one byte above a script's most is taken.
    ensures blamed { Blamed
        (over D.tells D.files D.image D.faults D.made X.tells X.held X.faults X.made (disk.old, secrets.old) (disk.new, secrets.new))
        (Rose (S.faults source.old) (S.faults source.new)) (Rose (K.faults sink.old) (K.faults sink.new))
        (IsTrue S.tells → TookMore 16777216 (S.left source.old) (S.left source.new)) result }
    ensures in_bound { IsTrue S.tells → TookFew 16777217 (S.left source.old) (S.left source.new) }
    // Where the source holds the text of a script of a form that is run, which is valid however it is cut, the devices are valid, and no count rises, every
    // life is run, unless memory runs out.
    ensures complete { IsRunOfSource (map string_bytes words.now) → IsTrue S.tells → (script : Script)
        → script_of false (S.left source.old) ≡ Some script → is_in_form script ≡ true → length (S.left source.old) ≤ 16777216
        → IsSoundRun
        (over D.tells D.files D.image D.faults D.made X.tells X.held X.faults X.made (disk.old, secrets.old) (disk.new, secrets.new))
        (IsValidAnyhow script)
        → (Rose (S.faults source.old) (S.faults source.new) → ⊥) → (Rose (K.faults sink.old) (K.faults sink.new) → ⊥)
        → (result ≡ Status.Done) ⊎ (result ≡ Status.NoMemory) }
{
    if let Some(number) = made_number(words) {
        return make(alloc, sink, number);
    }
    let before = out.entries().len();
    if let Some(number) = run_number(words) {
        let ended = run_made(alloc, number, disk, secrets, out);
        return sum_up(alloc, sink, number, entries_from(out, before), ended);
    }
    if !is_run(words) {
        return report(alloc, sink, &[], Status::Usage);
    }
    let status = run(alloc, source, disk, secrets, out);
    report(alloc, sink, entries_from(out, before), status)
}
