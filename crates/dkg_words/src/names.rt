//! The names of lines.
ghost use Rattle.std.specs.Prelude.{◌≡◌};
ghost use Rattle.dkg_words.specs.Names.{event_by, head_by, is_event_name as is_event_of, is_probing as is_probing_of, life_by, name_by};

/// A line's name.
#[derive(Clone, Copy, Debug, PartialEq, Eq)]
pub(crate) enum Name {
    Dkg,
    Me,
    Blocks,
    Limit,
    Mode,
    Space,
    Oneshot,
    Players,
    Address,
    Probe,
    Block,
    Life,
    End,
    Processed,
    Absent,
    Held,
    Sync,
    Cut,
    Stop,
    Peer,
    Final,
    Next,
    Release,
    Info,
    Feed,
    Over,
    Cancel,
    Work,
    Prepare,
    Propose,
    Verify,
    Later,
    Subscribe,
    Unsubscribe,
    Attach,
    Reply,
    Retry,
}

/// The name of a line outside lives.
#[tactic(auto, unfolding(crate::specs::Names::head_by))]
fn head_name(word: &[u8]) -> Option<Name>
    ensures { result ≡ head_by word.now }
{
    if word == b"dkg".as_slice() {
        return Some(Name::Dkg);
    }
    if word == b"me".as_slice() {
        return Some(Name::Me);
    }
    if word == b"blocks".as_slice() {
        return Some(Name::Blocks);
    }
    if word == b"limit".as_slice() {
        return Some(Name::Limit);
    }
    if word == b"mode".as_slice() {
        return Some(Name::Mode);
    }
    if word == b"space".as_slice() {
        return Some(Name::Space);
    }
    if word == b"oneshot".as_slice() {
        return Some(Name::Oneshot);
    }
    if word == b"players".as_slice() {
        return Some(Name::Players);
    }
    if word == b"address".as_slice() {
        return Some(Name::Address);
    }
    if word == b"probe".as_slice() {
        return Some(Name::Probe);
    }
    if word == b"block".as_slice() {
        return Some(Name::Block);
    }
    if word == b"life".as_slice() {
        return Some(Name::Life);
    }
    if word == b"end".as_slice() {
        return Some(Name::End);
    }
    None
}

/// The name of a line of a life that is no event.
#[tactic(auto, unfolding(crate::specs::Names::life_by))]
fn life_name(word: &[u8]) -> Option<Name>
    ensures { result ≡ life_by word.now }
{
    if word == b"processed".as_slice() {
        return Some(Name::Processed);
    }
    if word == b"absent".as_slice() {
        return Some(Name::Absent);
    }
    if word == b"held".as_slice() {
        return Some(Name::Held);
    }
    if word == b"sync".as_slice() {
        return Some(Name::Sync);
    }
    if word == b"cut".as_slice() {
        return Some(Name::Cut);
    }
    if word == b"stop".as_slice() {
        return Some(Name::Stop);
    }
    None
}

/// The name of an event.
#[tactic(auto, unfolding(crate::specs::Names::event_by))]
fn event_name(word: &[u8]) -> Option<Name>
    ensures { result ≡ event_by word.now }
{
    if word == b"peer".as_slice() {
        return Some(Name::Peer);
    }
    if word == b"final".as_slice() {
        return Some(Name::Final);
    }
    if word == b"next".as_slice() {
        return Some(Name::Next);
    }
    if word == b"release".as_slice() {
        return Some(Name::Release);
    }
    if word == b"info".as_slice() {
        return Some(Name::Info);
    }
    if word == b"feed".as_slice() {
        return Some(Name::Feed);
    }
    if word == b"over".as_slice() {
        return Some(Name::Over);
    }
    if word == b"cancel".as_slice() {
        return Some(Name::Cancel);
    }
    if word == b"work".as_slice() {
        return Some(Name::Work);
    }
    if word == b"prepare".as_slice() {
        return Some(Name::Prepare);
    }
    if word == b"propose".as_slice() {
        return Some(Name::Propose);
    }
    if word == b"verify".as_slice() {
        return Some(Name::Verify);
    }
    if word == b"later".as_slice() {
        return Some(Name::Later);
    }
    if word == b"subscribe".as_slice() {
        return Some(Name::Subscribe);
    }
    if word == b"unsubscribe".as_slice() {
        return Some(Name::Unsubscribe);
    }
    if word == b"attach".as_slice() {
        return Some(Name::Attach);
    }
    if word == b"reply".as_slice() {
        return Some(Name::Reply);
    }
    if word == b"retry".as_slice() {
        return Some(Name::Retry);
    }
    None
}

/// The name that a word is.
pub(crate) fn name_of(word: &[u8]) -> Option<Name>
    ensures { result ≡ name_by word.now }
{
    if let Some(name) = head_name(word) {
        return Some(name);
    }
    if let Some(name) = life_name(word) {
        return Some(name);
    }
    event_name(word)
}

/// Whether a name is an event's that needs a `probe` line.
pub(crate) fn is_probing(name: Name) -> bool
    ensures { result ≡ is_probing_of name }
{
    match name {
        Name::Subscribe | Name::Unsubscribe | Name::Attach | Name::Reply | Name::Retry => true,
        _ => false,
    }
}

/// Whether a name is an event's.
pub(crate) fn is_event(name: Name) -> bool
    ensures { result ≡ is_event_of name }
{
    match name {
        Name::Peer
        | Name::Final
        | Name::Next
        | Name::Release
        | Name::Info
        | Name::Feed
        | Name::Over
        | Name::Cancel
        | Name::Work
        | Name::Prepare
        | Name::Propose
        | Name::Verify
        | Name::Later => true,
        _ => is_probing(name),
    }
}
