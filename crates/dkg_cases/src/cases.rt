//! The cases of a file: a head line `case NAME STATUS SCRIPT TRANSCRIPT` (the last two in bytes), then the script and the transcript.
ghost use Rattle.std.specs.Prelude.{◌≡◌, ◌≢◌, ◌^◌, All, IfSome, IsUtf8, MatchOption, None, Some};
ghost use Rattle.dkg_text.specs.Fields.{IsCutAt};
ghost use Rattle.dkg_reading.specs.Rows.{cut_at_byte, number_below};
ghost use Rattle.dkg_cases.specs.Cases.{case_at, case_made, head_line, named_numbers, numbers_behind, parted_at as parted_at_of};

use dkg_reading::number;
use memchr::memchr;
use std::str;

/// A script, and what is wanted of it.
#[derive(Drop)]
pub struct Case<'a> {
    pub name: &'a str,
    pub status: u8,
    pub script: &'a [u8],
    pub transcript: &'a [u8],
}

/// The head line of a case.
#[derive(Drop)]
struct Head<'a> {
    name: &'a [u8],
    status: u8,
    script: u64,
    transcript: u64,
}

fn parted(bytes: &[u8], at: u8) -> Option<(&[u8], &[u8])>
    ensures { MatchOption result (All (λ b. b ≢ at) bytes.now) (λ parts. IsCutAt at bytes.now parts.0.now parts.1.now) }
{
    let place = memchr(at, bytes)?;
    Some((&bytes[..place], &bytes[place + 1..]))
}

/// What stands before and behind the first such byte.
fn cut(bytes: &[u8], at: u8) -> Option<(&[u8], &[u8])>
    ensures { MatchOption result (cut_at_byte at bytes.now ≡ None) (λ parts. cut_at_byte at bytes.now ≡ Some (parts.0.now, parts.1.now)) }
{
    parted(bytes, at)
}

/// So many bytes at the front, and those behind them.
fn parted_at(bytes: &[u8], count: u64) -> Option<(&[u8], &[u8])>
    ensures { MatchOption result (parted_at_of count bytes.now ≡ None) (λ parts. parted_at_of count bytes.now ≡ Some (parts.0.now, parts.1.now)) }
{
    bytes.split_at_checked(count as usize)
}

/// The status that a field spells.
#[tactic(auto, unfolding(dkg_reading::specs::Rows::number_below))]
fn status_of(field: &[u8]) -> Option<u8>
    ensures { result ≡ number_below (2 ^ 8) field.now }
{
    let value = number(field)?;
    if value < 256 { Some(value as u8) } else { None }
}

/// The head line of a name and of the numbers behind it.
fn numbered<'a>(name: &'a [u8], fields: &[u8]) -> Option<Head<'a>>
    ensures { MatchOption result (numbers_behind name.now fields.now ≡ None)
        (λ head. numbers_behind name.now fields.now ≡ Some (head.name.now, head.status, head.script, head.transcript)) }
{
    let (status, rest) = cut(fields, b' ')?;
    let (script, transcript) = cut(rest, b' ')?;
    let status = status_of(status)?;
    let script = number(script)?;
    let transcript = number(transcript)?;
    Some(Head {
        name,
        status,
        script,
        transcript,
    })
}

fn named(fields: &[u8]) -> Option<Head<'_>>
    ensures { MatchOption result (named_numbers fields.now ≡ None)
        (λ head. named_numbers fields.now ≡ Some (head.name.now, head.status, head.script, head.transcript)) }
{
    let (name, numbers) = cut(fields, b' ')?;
    numbered(name, numbers)
}

/// What a head line says.
fn head_of(line: &[u8]) -> Option<Head<'_>>
    ensures { MatchOption result (head_line line.now ≡ None)
        (λ head. head_line line.now ≡ Some (head.name.now, head.status, head.script, head.transcript)) }
{
    let (word, fields) = cut(line, b' ')?;
    if word == b"case".as_slice() {
        named(fields)
    } else {
        None
    }
}

/// The case at the front, and what is behind it; none where there is no whole case, or its name isn't UTF-8.
pub fn case_of(bytes: &[u8]) -> Option<(Case<'_>, &[u8])>
    ensures { MatchOption result (IfSome (case_at bytes.now) (λ made. ¬ IsUtf8 made.name))
        (λ made. case_at bytes.now
        ≡ Some (case_made made.0.name.now made.0.status made.0.script.now made.0.transcript.now made.1.now)) }
{
    let (line, rest) = cut(bytes, b'\n')?;
    let head = head_of(line)?;
    let (script, rest) = parted_at(rest, head.script)?;
    let (transcript, rest) = parted_at(rest, head.transcript)?;
    match str::from_utf8(head.name) {
        Ok(name) => {
            let case = Case {
                name,
                status: head.status,
                script,
                transcript,
            };
            Some((case, rest))
        }
        Err(_) => None,
    }
}
