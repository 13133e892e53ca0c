//! A probe whose directory lacks one of the peers.

use crate::asserts::{holds, is};
use dkg_cases::{
    ProbeSetting, TrackCount, four_dealers, probe_info, probe_numbers, probe_of, probe_scheme,
};
use dkg_ceremony::{Height, Key, Mem};
use dkg_infos::{Directory, EpochInfo, Transcript, Unit};
use dkg_probe::{Actor, Blocks, Event, ProbeStop};
use dkg_types::{
    Address, AddressableManager, Addresses, Block, Finalization, Manager, MissingAddress, Scheme,
    Socket, StandScheme,
};
use std::alloc::Global;
use std::test::Fail;

/// The address of key 1 alone.
fn one_address(alloc: Global) -> Result<Addresses, Fail> {
    let socket = Socket { ip: 1, port: 1 };
    let mut pairs = Vec::new(alloc);
    pairs.push((Key(1), Address::Symmetric(socket)))?;
    if pairs.len() > 9 {
        return Err(Fail::from("too many addresses"));
    }
    Ok(Addresses::from_pairs(alloc, pairs)?)
}

/// An info with another directory.
fn with_directory(info: EpochInfo<Unit>, directory: Addresses) -> EpochInfo<Addresses> {
    EpochInfo {
        outcome: info.outcome,
        epoch: info.epoch,
        output: info.output,
        players: info.players,
        next_players: info.next_players,
        directory,
    }
}

/// What a probe of any parts answers to a subscriber and to a retry behind it, and whether it tells nothing.
fn answers<M: Manager<Dir = Dir>, S: Scheme, Dir: Directory + Drop, B: Blocks<Dir>>(
    alloc: Global,
    probe: &mut Actor<M, S, Dir>,
    source: &B,
) -> (Result<(), ProbeStop>, Result<(), ProbeStop>, bool)
where
    Dir::Cfg: Drop,
{
    let mut out = Transcript::new(alloc);
    let first = probe.step(alloc, source, Event::Subscribe, &mut out);
    let second = probe.step(alloc, source, Event::Retry, &mut out);
    (first, second, out.entries().is_empty())
}

/// Genesis, whose directory has the address of key 1 alone.
fn addressed_genesis(alloc: Global) -> Result<EpochInfo<Addresses>, Fail> {
    let directory = one_address(alloc)?;
    let info = probe_info(alloc, 0).ok_or("no info")?;
    Ok(with_directory(info, directory))
}

/// A probe whose directory has the address of key 1 alone.
fn addressed_probe(
    alloc: Global,
) -> Result<Actor<AddressableManager<TrackCount>, StandScheme, Addresses>, Fail> {
    let numbers = probe_numbers(1, None).ok_or("no numbers")?;
    let participants = four_dealers(alloc).ok_or("no participants")?;
    let setting = ProbeSetting {
        manager: AddressableManager::new(TrackCount::new()),
        verifier: probe_scheme(),
        directory: one_address(alloc)?,
        genesis: addressed_genesis(alloc)?,
    };
    Ok(probe_of(alloc, numbers, participants, setting))
}

/// What a probe without the address of a peer answers.
fn answers_without_an_address(
    alloc: Global,
) -> Result<(Result<(), ProbeStop>, Result<(), ProbeStop>, bool), Fail> {
    let mut probe = addressed_probe(alloc)?;
    let found = answers(alloc, &mut probe, &NoBlocks);
    drop(probe);
    Ok(found)
}

/// A source that holds nothing.
#[derive(Drop)]
struct NoBlocks;

impl Blocks<Addresses> for NoBlocks {
    ghost use Rattle.std.specs.Prelude.{None};

    ghost source = { λ _. record { block = λ _. None; finalization = λ _. None; latest = None } };

    fn block(&self, _height: Height) -> Option<&Block<Addresses>> {
        None
    }

    fn finalization(&self, _alloc: Global, _height: Height) -> Mem<Option<Finalization>> {
        Ok(None)
    }

    fn latest(&self, _alloc: Global) -> Mem<Option<Finalization>> {
        Ok(None)
    }
}

#[test]
fn a_peer_without_an_address_stops_the_probe(rt: HostRuntime) -> Result<(), Fail> {
    let (first, second, untold) = answers_without_an_address(rt.alloc())?;
    is(&rt, first, Err(ProbeStop::PeerSet(MissingAddress(Key(2)))));
    is(&rt, second, Err(ProbeStop::Failed));
    holds(&rt, untold);
    Ok(())
}
