//! A worked round of the dealers 2 and 3 and the players 1 to 4: both dealings are acknowledged by the players 2, 3 and 4, and reveal what
//! is dealt to player 1. The bytes are an independent program's.

use dkg_ceremony::{Ceremony, DealerLog, Mode, Reveal, Round};
use dkg_values::{Key, Map, MapCfg, Set, decode_cfg};
use std::alloc::Global;
use std::test::Fail;

/// Key 2's log.
const SECOND: &str = "033f6c4791de4804016554004ff5af45bfe86c4d00c0f17a0fefc115c5009bccbffea38197fb";

/// Key 3's log.
const THIRD: &str = "032703fa7e0a1a04012baa008a23942934bb7b6b00fff9ce644d4d1fac000fd80077ec945c46";

/// The logs that these pairs of digits spell, one behind the other.
fn logs(alloc: Global, pieces: &[&str]) -> Result<Map<DealerLog>, Fail> {
    let mut text = String::new(alloc);
    for piece in pieces {
        text.push_str(piece)?;
    }
    let bytes = hex::decode(alloc, text.as_bytes())?;
    let limits = MapCfg {
        least: 0,
        most: 4,
        value: 4,
    };
    Ok(decode_cfg::<Map<DealerLog>>(alloc, bytes.as_slice(), &limits)?)
}

/// The logs of both dealers, behind their keys.
pub(crate) fn both(alloc: Global) -> Result<Map<DealerLog>, Fail> {
    logs(alloc, &["02", "00000002", "00000003", "02", SECOND, THIRD])
}

/// Key 2's log alone.
pub(crate) fn one(alloc: Global) -> Result<Map<DealerLog>, Fail> {
    logs(alloc, &["01", "00000002", "01", SECOND])
}

pub(crate) fn round<C: Ceremony>(alloc: Global, ceremony: &C) -> Result<Round, Fail> {
    let dealers = Set::from_any(alloc, &[Key(2), Key(3)])?;
    let players = Set::from_any(alloc, &[Key(1), Key(2), Key(3), Key(4)])?;
    let (mode, reveal) = (Mode::NonZeroCounter, Reveal::V1);
    Ok(ceremony.round(alloc, b"", 0, None, mode, reveal, &dealers, &players)?)
}
