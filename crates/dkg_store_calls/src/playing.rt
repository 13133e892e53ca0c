//! A player that is made, hears dealings and ends its round: what its clauses say of the whole, and what it takes from a round.
ghost use Rattle.std.specs.Prelude.{◌≡◌, OnOk, IfOk, IsTrue, Contains};
ghost use Rattle.std.specs.FinMap as map;
ghost use Rattle.dkg_ceremony.specs.Finishes.{AnswersFinish};
ghost use Rattle.dkg_journal.specs.Journals.{IsOpen};
ghost use Rattle.dkg_store.specs.Recorded.{AreChecked, at_epoch};

use crate::asserts::is;
use crate::dealing::{ME, round_of};
use crate::memory::{Memory, opened};
use dkg_ceremony::{
    Ceremony, DealerLog, FinishError, Output, Private, Public, Round, Share, Signer, StandCeremony,
    StandSigner, decode_cfg,
};
use dkg_infos::{Transcript, Unit};
use dkg_journal::{Disk, MemoryDisk};
use dkg_store::{Devices, MemorySecrets, Player, SecretStore, Store};
use dkg_values::{Element, Epoch, Key, Map, Value};
use std::alloc::Global;
use std::test::Fail;

/// A dealing that comes in.
#[derive(Drop)]
struct Heard {
    dealer: Key,
    public: Public,
    private: Private,
}

/// Hands a player one dealing.
fn hear<C: Ceremony, D: Disk, X: SecretStore, Dir: Drop>(
    alloc: Global,
    ceremony: &C,
    signer: &C::Signer,
    devices: &mut Devices<'_, D, X>,
    store: &mut Store<Dir>,
    out: &mut Transcript,
    epoch: Epoch,
    player: &mut Player,
    heard: &Heard,
) -> Result<(), Fail>
    requires playing { Contains player.old.round.players player.old.me }
    requires signer { C.Signer.key_of signer.now ≡ player.old.me }
    requires open { IsTrue D.tells → IsOpen store.old.journal (D.files devices.old.disk.now) (D.image devices.old.disk.now) }
    ensures me { player.new.me ≡ player.old.me }
    ensures round { player.new.round ≡ player.old.round }
    ensures mirrors { map.entries player.old.dealings ≡ at_epoch epoch store.old.dealings
        → map.entries player.new.dealings ≡ at_epoch epoch store.new.dealings }
    ensures passes { AreChecked (C.dealing_of player.old.round player.old.me) player.old.dealings
        → AreChecked (C.dealing_of player.old.round player.old.me) player.new.dealings }
    ensures open { OnOk result (IsTrue D.tells → IsOpen store.new.journal (D.files devices.new.disk.now) (D.image devices.new.disk.now)) }
{
    if heard.public.as_slice().len() != 3 {
        return Err(Fail::from("the polynomial has another degree"));
    }
    let public = heard.public.copy(alloc)?;
    let _ack = player.handle(
        alloc,
        ceremony,
        signer,
        devices,
        store,
        out,
        epoch,
        heard.dealer,
        public,
        heard.private,
    )?;
    Ok(())
}

/// Hands a player one dealing after another.
fn hear_all<C: Ceremony, D: Disk, X: SecretStore, Dir: Drop>(
    alloc: Global,
    ceremony: &C,
    signer: &C::Signer,
    devices: &mut Devices<'_, D, X>,
    store: &mut Store<Dir>,
    out: &mut Transcript,
    epoch: Epoch,
    player: &mut Player,
    heard: &[Heard],
) -> Result<(), Fail>
    requires playing { Contains player.old.round.players player.old.me }
    requires signer { C.Signer.key_of signer.now ≡ player.old.me }
    requires open { IsTrue D.tells → IsOpen store.old.journal (D.files devices.old.disk.now) (D.image devices.old.disk.now) }
    requires mirrors { map.entries player.old.dealings ≡ at_epoch epoch store.old.dealings }
    requires passes { AreChecked (C.dealing_of player.old.round player.old.me) player.old.dealings }
    ensures me { player.new.me ≡ player.old.me }
    ensures round { player.new.round ≡ player.old.round }
    ensures mirrors { map.entries player.new.dealings ≡ at_epoch epoch store.new.dealings }
    ensures passes { AreChecked (C.dealing_of player.old.round player.old.me) player.new.dealings }
{
    for one in heard {
        hear(
            alloc, ceremony, signer, devices, store, out, epoch, player, one,
        )?;
    }
    Ok(())
}

/// Hands a player dealings, and ends its round.
fn ended<C: Ceremony, D: Disk, X: SecretStore, Dir: Drop>(
    alloc: Global,
    ceremony: &C,
    signer: &C::Signer,
    devices: &mut Devices<'_, D, X>,
    store: &mut Store<Dir>,
    epoch: Epoch,
    mut player: Player,
    heard: &[Heard],
    logs: &Map<DealerLog>,
) -> Result<Result<Option<(Output, Share)>, FinishError>, Fail>
    requires playing { Contains player.round.players player.me }
    requires signer { C.Signer.key_of signer.now ≡ player.me }
    requires open { IsTrue D.tells → IsOpen store.old.journal (D.files devices.old.disk.now) (D.image devices.old.disk.now) }
    requires mirrors { map.entries player.dealings ≡ at_epoch epoch store.old.dealings }
    requires passes { AreChecked (C.dealing_of player.round player.me) player.dealings }
    ensures { IfOk result (λ found. AnswersFinish (C.finish_of player.round player.me (at_epoch epoch store.new.dealings) logs.now) found) }
{
    let mut out = Transcript::new(alloc);
    let heard_all = hear_all(
        alloc,
        ceremony,
        signer,
        devices,
        store,
        &mut out,
        epoch,
        &mut player,
        heard,
    );
    drop(out);
    heard_all?;
    Ok(player.finalize(alloc, ceremony, logs))
}

/// Makes a player, hands it dealings, and ends its round. What comes of it is what the ceremony gives over the dealings that the store
/// has of the epoch at the end: the clauses of the three calls say so.
fn played<C: Ceremony, D: Disk, X: SecretStore, Dir: Drop>(
    alloc: Global,
    ceremony: &C,
    signer: &C::Signer,
    devices: &mut Devices<'_, D, X>,
    store: &mut Store<Dir>,
    epoch: Epoch,
    round: &Round,
    heard: &[Heard],
    logs: &Map<DealerLog>,
) -> Result<Result<Option<(Output, Share)>, FinishError>, Fail>
    requires playing { Contains round.now.players (C.Signer.key_of signer.now) }
    requires open { IsTrue D.tells → IsOpen store.old.journal (D.files devices.old.disk.now) (D.image devices.old.disk.now) }
    ensures { IfOk result (λ found. AnswersFinish (C.finish_of round.now (C.Signer.key_of signer.now) (at_epoch epoch store.new.dealings) logs.now) found) }
{
    let me = signer.public_key();
    let player = store.create_player(alloc, ceremony, epoch, me, round)?;
    let player = player.ok_or("no player")?;
    ended(
        alloc, ceremony, signer, devices, store, epoch, player, heard, logs,
    )
}

/// What each dealer deals: 55779 + 1926x + 11950x².
const PUBLIC: [u8; 7] = [3, 217, 227, 7, 134, 46, 174];

/// The acknowledgements of the dealers 1 to 3 by all four players, as an executable model signs them.
const ACKS: [[[u8; 8]; 4]; 3] = [
    [
        [157, 175, 223, 238, 53, 87, 195, 182],
        [86, 116, 41, 205, 101, 20, 133, 159],
        [130, 10, 157, 65, 209, 103, 89, 70],
        [51, 80, 187, 54, 204, 126, 143, 137],
    ],
    [
        [52, 83, 37, 119, 162, 76, 232, 200],
        [217, 1, 158, 104, 205, 206, 203, 143],
        [61, 40, 13, 195, 223, 226, 199, 206],
        [18, 81, 166, 76, 221, 111, 91, 26],
    ],
    [
        [225, 248, 87, 14, 35, 29, 31, 114],
        [186, 11, 144, 171, 8, 64, 60, 246],
        [129, 45, 8, 192, 201, 206, 111, 73],
        [241, 100, 81, 125, 242, 88, 242, 52],
    ],
];

/// Puts a dealer's log, with these acknowledgements.
fn put_log(acks: &[[u8; 8]], bytes: &mut Vec<u8>) -> Result<(), Fail> {
    bytes.extend_from_slice(&PUBLIC)?;
    bytes.push(4)?;
    for ack in acks {
        bytes.push(0)?;
        bytes.extend_from_slice(ack)?;
    }
    Ok(())
}

fn log_of(alloc: Global, acks: &[[u8; 8]]) -> Result<DealerLog, Fail> {
    let mut bytes = Vec::new(alloc);
    put_log(acks, &mut bytes)?;
    Ok(decode_cfg::<DealerLog>(alloc, bytes.as_slice(), &4)?)
}

/// Lists the log of each dealer.
fn list_logs(alloc: Global, pairs: &mut Vec<(Key, DealerLog)>) -> Result<(), Fail> {
    let mut dealer = 0u32;
    for acks in ACKS.iter() {
        dealer = dealer.wrapping_add(1);
        pairs.push((Key(dealer), log_of(alloc, acks)?))?;
    }
    Ok(())
}

fn map_of(alloc: Global, pairs: Vec<(Key, DealerLog)>) -> Result<Map<DealerLog>, Fail> {
    if pairs.len() > 9 {
        return Err(Fail::from("too many logs"));
    }
    Ok(Map::from_any(alloc, pairs)?)
}

/// The logs by dealer.
fn logs(alloc: Global) -> Result<Map<DealerLog>, Fail> {
    let mut pairs = Vec::new(alloc);
    list_logs(alloc, &mut pairs)?;
    map_of(alloc, pairs)
}

/// What a dealer deals to this node.
fn dealing_of(alloc: Global, dealer: u32) -> Result<Heard, Fail> {
    let private = Private(Element::new(4134).ok_or("no element")?);
    Ok(Heard {
        dealer: Key(dealer),
        public: decode_cfg::<Public>(alloc, &PUBLIC, &4)?,
        private,
    })
}

/// Lists what these dealers deal to this node, each one behind the other.
fn list_dealings(alloc: Global, dealers: &[u32], heard: &mut Vec<Heard>) -> Result<(), Fail> {
    for dealer in dealers {
        heard.push(dealing_of(alloc, *dealer)?)?;
    }
    Ok(())
}

fn dealings_of(alloc: Global, dealers: &[u32]) -> Result<Vec<Heard>, Fail> {
    let mut heard = Vec::new(alloc);
    list_dealings(alloc, dealers, &mut heard)?;
    Ok(heard)
}

/// What this node takes from the round, where it hears these dealings.
fn ended_in<C: Ceremony, D: Disk, X: SecretStore, Dir: Drop>(
    alloc: Global,
    ceremony: &C,
    me: &C::Signer,
    heard: &[Heard],
    devices: &mut Devices<'_, D, X>,
    round: &Round,
    logs: &Map<DealerLog>,
) -> Result<Result<Option<(Output, Share)>, FinishError>, Fail> {
    if !round.parts().players.has(me.public_key()) {
        return Err(Fail::from("the key is no player"));
    }
    let mut store: Store<Dir> = opened(alloc, devices)?;
    let ended = played(
        alloc,
        ceremony,
        me,
        devices,
        &mut store,
        Epoch(0),
        round,
        heard,
        logs,
    );
    drop(store);
    ended
}

/// The share in what came of a round.
fn share_in(found: &Option<(Output, Share)>) -> Option<u16> {
    match found {
        None => None,
        Some((_, share)) => Some(share.0.get()),
    }
}

/// The share that comes of these dealings.
fn share_by(
    alloc: Global,
    heard: &[Heard],
    devices: &mut Devices<'_, MemoryDisk, MemorySecrets>,
    round: &Round,
    logs: &Map<DealerLog>,
) -> Result<Result<Option<u16>, FinishError>, Fail> {
    let ended = ended_in::<_, _, _, Unit>(
        alloc,
        &StandCeremony,
        &StandSigner::new(ME),
        heard,
        devices,
        round,
        logs,
    )?;
    match ended {
        Ok(found) => Ok(Ok(share_in(&found))),
        Err(fault) => Ok(Err(fault)),
    }
}

/// The share that comes of these dealers' dealings, over empty devices.
fn share_in_memory(
    alloc: Global,
    dealers: &[u32],
    round: &Round,
    logs: &Map<DealerLog>,
) -> Result<Result<Option<u16>, FinishError>, Fail> {
    let heard = dealings_of(alloc, dealers)?;
    let mut memory = Memory::new(alloc);
    let share = share_by(alloc, heard.as_slice(), &mut memory.devices(), round, logs);
    drop(memory);
    drop(heard);
    share
}

/// That in a round of four.
fn share_among_four(
    alloc: Global,
    dealers: &[u32],
    logs: &Map<DealerLog>,
) -> Result<Result<Option<u16>, FinishError>, Fail> {
    let round = round_of(alloc, &StandCeremony)?;
    let share = share_in_memory(alloc, dealers, &round, logs);
    drop(round);
    share
}

/// That with the logs of the three.
fn share_of(alloc: Global, dealers: &[u32]) -> Result<Result<Option<u16>, FinishError>, Fail> {
    let logs = logs(alloc)?;
    let share = share_among_four(alloc, dealers, &logs);
    drop(logs);
    share
}

#[test]
fn a_player_ends_its_round_from_its_own_dealings(rt: HostRuntime) -> Result<(), Fail> {
    let missing = FinishError::MissingDealing { dealer: Key(2) };
    is(&rt, share_of(rt.alloc(), &[3, 1, 2])?, Ok(Some(12402)));
    is(&rt, share_of(rt.alloc(), &[3, 1])?, Err(missing));
    Ok(())
}

/// Whether a store makes a player of the round beside these logs.
fn plays_beside<C: Ceremony, Dir: Drop>(
    alloc: Global,
    ceremony: &C,
    store: &Store<Dir>,
    round: &Round,
    logs: &Map<DealerLog>,
) -> Result<bool, Fail> {
    if !round.parts().players.has(ME) {
        return Err(Fail::from("the key is no player"));
    }
    let player = store.create_player_with_logs(alloc, ceremony, Epoch(0), ME, round, logs)?;
    Ok(player.is_some())
}

/// That of a store in which nothing is recorded, in a round of four.
fn plays_beside_in<D: Disk, X: SecretStore>(
    alloc: Global,
    devices: &mut Devices<'_, D, X>,
    logs: &Map<DealerLog>,
) -> Result<bool, Fail> {
    let round = round_of(alloc, &StandCeremony)?;
    let store: Store<Unit> = opened(alloc, devices)?;
    plays_beside(alloc, &StandCeremony, &store, &round, logs)
}

/// That over empty devices.
fn plays_beside_these(alloc: Global, logs: &Map<DealerLog>) -> Result<bool, Fail> {
    let mut memory = Memory::new(alloc);
    let plays = plays_beside_in(alloc, &mut memory.devices(), logs);
    drop(memory);
    plays
}

/// That beside the logs of the three.
fn plays_beside_the_logs(alloc: Global) -> Result<bool, Fail> {
    let logs = logs(alloc)?;
    let plays = plays_beside_these(alloc, &logs);
    drop(logs);
    plays
}

/// That beside none.
fn plays_beside_none(alloc: Global) -> Result<bool, Fail> {
    let none = Map::from_any(alloc, Vec::new(alloc))?;
    let plays = plays_beside_these(alloc, &none);
    drop(none);
    plays
}

#[test]
fn whoever_has_lost_what_it_acknowledged_does_not_play(rt: HostRuntime) -> Result<(), Fail> {
    is(&rt, plays_beside_the_logs(rt.alloc())?, false);
    is(&rt, plays_beside_none(rt.alloc())?, true);
    Ok(())
}
