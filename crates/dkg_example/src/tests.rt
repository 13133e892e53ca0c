//! Two lives of a node over devices in memory, with a stop inside a recording between them.
//!
//! Who owns devices, a node or a transcript lends them to one call and has no `?` behind it: each exit that drops what is owned is dear to prove.
ghost use Rattle.std.specs.Prelude.{◌≡◌, Contains, IfOk, IsTrue, OnOk};
ghost use Rattle.dkg_journal.specs.Journals.{IsOpen};
ghost use Rattle.dkg_example.specs.Sent.{IsNodePlaying};

use crate::{Answer, Node};
use dkg_ceremony::{Ack, Ceremony, Mode, Reveal, Round, Signer, StandCeremony, StandSigner};
use dkg_infos::Transcript;
use dkg_journal::{Disk, Fuse, MemoryDisk};
use dkg_store::{Devices, MemorySecrets, SecretStore, StoreError};
use dkg_values::{Epoch, Key, Set};
use std::alloc::Global;
use std::fmt::Debug;
use std::num::NonZeroU32;
use std::process::Abort;
use std::test::Fail;

/// Two values are equal. A body at concrete types in which `assert_eq!` stands is proved in seconds for each.
fn is<T: PartialEq + Debug + Drop>(rt: &impl Abort, found: T, want: T) {
    assert_eq!(rt; found, want);
}

const ME: Key = Key(1);

const DEALER: Key = Key(2);

const KEYS: [Key; 4] = [Key(1), Key(2), Key(3), Key(4)];

/// The dealer's 15 + 7x + x², and 23, its value at this node's point.
const FIRST: [u8; 10] = [0, 3, 0, 15, 0, 7, 0, 1, 0, 23];

/// Its 15 + 9x + x², and 25.
const OTHER: [u8; 10] = [0, 3, 0, 15, 0, 9, 0, 1, 0, 25];

fn some_round(alloc: Global) -> Result<Round, Fail> {
    let keys = Set::from_any(alloc, &KEYS)?;
    let mode = Mode::NonZeroCounter;
    Ok(StandCeremony.round(alloc, b"", 0, None, mode, Reveal::V1, &keys, &keys)?)
}

/// A disk and secrets in memory.
#[derive(Drop)]
struct Memory {
    disk: MemoryDisk,
    secrets: MemorySecrets,
}

impl Memory {
    fn new(alloc: Global) -> Memory {
        Memory {
            disk: MemoryDisk::new(alloc),
            secrets: MemorySecrets::new(alloc),
        }
    }

    /// The devices of a life, which nothing cuts.
    fn devices(&mut self) -> Devices<'_, MemoryDisk, MemorySecrets> {
        Devices {
            disk: &mut self.disk,
            secrets: &mut self.secrets,
            fuse: Fuse::never(),
        }
    }
}

/// The node that these devices open.
fn opened<C: Ceremony, D: Disk, X: SecretStore>(
    alloc: Global,
    ceremony: &C,
    devices: &mut Devices<'_, D, X>,
    me: Key,
    round: &Round,
) -> Result<Node, Fail>
    requires playing { Contains round.now.players me }
    ensures seat { IfOk result (λ node. node.player.me ≡ me) }
    ensures open { IfOk result (λ node. IsTrue D.tells → IsOpen node.store.journal (D.files devices.new.disk.now) (D.image devices.new.disk.now)) }
    ensures playing { IfOk result (λ node. IsNodePlaying C.ack_of node) }
{
    let limit = NonZeroU32::new(4).ok_or("no limit")?;
    match Node::open(alloc, ceremony, devices, limit, Epoch(0), me, round)? {
        Some(node) => Ok(node),
        None => Err(Fail::from("the node doesn't play")),
    }
}

/// What the dealer is sent for a message.
fn sent<C: Ceremony, D: Disk, X: SecretStore>(
    alloc: Global,
    ceremony: &C,
    signer: &C::Signer,
    devices: &mut Devices<'_, D, X>,
    node: &mut Node,
    out: &mut Transcript,
    heard: &[u8],
) -> Result<Option<Ack>, StoreError>
    requires playing { IsNodePlaying C.ack_of node.old }
    requires signer { C.Signer.key_of signer.now ≡ node.old.player.me }
    requires open { IsTrue D.tells → IsOpen node.old.store.journal (D.files devices.old.disk.now) (D.image devices.old.disk.now) }
    ensures seat { node.new.player.me ≡ node.old.player.me }
    ensures open { OnOk result (IsTrue D.tells → IsOpen node.new.store.journal (D.files devices.new.disk.now) (D.image devices.new.disk.now)) }
    ensures playing { IsNodePlaying C.ack_of node.new }
{
    match node.hear(alloc, ceremony, signer, devices, out, DEALER, heard)? {
        Answer::Send(ack) => Ok(Some(ack)),
        Answer::Block => Ok(None),
    }
}

/// That for each of three messages, of which the first is heard under this fuse.
fn sent_each<C: Ceremony, D: Disk, X: SecretStore>(
    alloc: Global,
    ceremony: &C,
    signer: &C::Signer,
    devices: &mut Devices<'_, D, X>,
    node: &mut Node,
    out: &mut Transcript,
    fuse: Fuse,
    heard: [&[u8]; 3],
) -> Result<[Option<Ack>; 3], StoreError>
    requires playing { IsNodePlaying C.ack_of node.old }
    requires signer { C.Signer.key_of signer.now ≡ node.old.player.me }
    requires open { IsTrue D.tells → IsOpen node.old.store.journal (D.files devices.old.disk.now) (D.image devices.old.disk.now) }
{
    let [first, second, third] = heard;
    devices.fuse = fuse;
    let one = sent(alloc, ceremony, signer, devices, node, out, first)?;
    devices.fuse = Fuse::never();
    let two = sent(alloc, ceremony, signer, devices, node, out, second)?;
    let three = sent(alloc, ceremony, signer, devices, node, out, third)?;
    Ok([one, two, three])
}

/// That in a life over these devices.
fn live<C: Ceremony, D: Disk, X: SecretStore>(
    alloc: Global,
    ceremony: &C,
    signer: &C::Signer,
    devices: &mut Devices<'_, D, X>,
    round: &Round,
    fuse: Fuse,
    heard: [&[u8]; 3],
) -> Result<Result<[Option<Ack>; 3], StoreError>, Fail> {
    let me = signer.public_key();
    if !round.parts().players.has(me) {
        return Err(Fail::from("the key is no player"));
    }
    let mut node = opened(alloc, ceremony, devices, me, round)?;
    let mut out = Transcript::new(alloc);
    let sent = sent_each(
        alloc, ceremony, signer, devices, &mut node, &mut out, fuse, heard,
    );
    drop(out);
    drop(node);
    Ok(sent)
}

/// That as key 1 of the round, over what was kept.
fn live_over(
    alloc: Global,
    memory: &mut Memory,
    fuse: Fuse,
    heard: [&[u8]; 3],
) -> Result<Result<[Option<Ack>; 3], StoreError>, Fail> {
    let round = some_round(alloc)?;
    let me = StandSigner::new(ME);
    let mut devices = memory.devices();
    let sent = live(
        alloc,
        &StandCeremony,
        &me,
        &mut devices,
        &round,
        fuse,
        heard,
    );
    drop(round);
    sent
}

/// That in a life that nothing cuts.
fn live_on(
    alloc: Global,
    memory: &mut Memory,
    heard: [&[u8]; 3],
) -> Result<[Option<Ack>; 3], Fail> {
    let sent = live_over(alloc, memory, Fuse::never(), heard)?;
    Ok(sent?)
}

/// What the dealer is sent for two dealings and no message, and for the second dealing in the life behind that.
fn sent_in_two_lives(alloc: Global, memory: &mut Memory) -> Result<[Option<Ack>; 4], Fail> {
    let [one, two, three] = live_on(alloc, memory, [&FIRST, &OTHER, &[255]])?;
    let [again, _, _] = live_on(alloc, memory, [&OTHER, &FIRST, &FIRST])?;
    Ok([one, two, three, again])
}

/// That over empty devices.
fn sent_in_memory(alloc: Global) -> Result<[Option<Ack>; 4], Fail> {
    let mut memory = Memory::new(alloc);
    let sent = sent_in_two_lives(alloc, &mut memory);
    drop(memory);
    sent
}

#[test]
fn a_dealer_gets_one_acknowledgement(rt: HostRuntime) -> Result<(), Fail> {
    let [one, two, three, again] = sent_in_memory(rt.alloc())?;
    is(&rt, one.is_some(), true);
    is(&rt, two, one);
    is(&rt, three, None);
    is(&rt, again, one);
    Ok(())
}

/// A life that is cut at the gate's write, the fifth changing call of the step, which is left as it was.
fn cut(alloc: Global, memory: &mut Memory) -> Result<(), Fail> {
    match live_over(alloc, memory, Fuse::at(5, 1), [&FIRST, &FIRST, &FIRST])? {
        Err(StoreError::Cut) => Ok(()),
        Ok(_) | Err(_) => Err(Fail::from("nothing was cut")),
    }
}

/// What the dealer is sent in the life behind that.
fn sent_behind_a_cut(alloc: Global, memory: &mut Memory) -> Result<[Option<Ack>; 3], Fail> {
    cut(alloc, memory)?;
    memory.secrets.crash(1);
    live_on(alloc, memory, [&OTHER, &FIRST, &FIRST])
}

/// That over empty devices.
fn sent_behind_a_cut_in_memory(alloc: Global) -> Result<[Option<Ack>; 3], Fail> {
    let mut memory = Memory::new(alloc);
    let sent = sent_behind_a_cut(alloc, &mut memory);
    drop(memory);
    sent
}

#[test]
fn a_stop_inside_a_recording_sent_nothing(rt: HostRuntime) -> Result<(), Fail> {
    let [one, two, _] = sent_behind_a_cut_in_memory(rt.alloc())?;
    is(&rt, one.is_some(), true);
    is(&rt, two, one);
    Ok(())
}
