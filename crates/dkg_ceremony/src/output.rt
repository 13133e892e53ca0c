//! What a finished round leaves in public: the shared key, who dealt it and who holds it.
//!
//! An epoch's info carries one, and the next round reshares it.
ghost use Rattle.std.specs.Prelude.{◌≡◌, ℕ, ◌+◌, ◌*◌, ◌≤◌, length};
ghost use Rattle.dkg_ceremony.specs.Agreement.{PartsAgree, all_in, parts_agree};
ghost use Rattle.dkg_ceremony.specs.FewParts.{AreFew};

use crate::mode::ModeVersion;
use crate::sharing::Sharing;
use crate::threshold::quorum;
use bytes::BytesMut;
use dkg_values::{
    CodecError, EncodeSize, Mark, Mem, Read, Reader, Set, Spelled, Value, What, Write,
};
use std::alloc::Global;

/// The public outcome of a round.
///
/// There is a player at least, the sharing's total is their number, its polynomial has as many coefficients as a
/// quorum of them, and each revealed key is a player.
#[derive(Drop)]
pub struct Output {
    /// What the round was.
    pub summary: Mark,
    pub sharing: Sharing,
    pub dealers: Set,
    pub players: Set,
    /// The players whose private halves a dealer's log revealed.
    pub revealed: Set,
    pub ghost agree: { PartsAgree sharing.total sharing.poly players revealed },
}

/// Whether each of the keys is among the others.
pub(crate) fn are_all_in(some: &Set, keys: &Set) -> bool
    ensures { result ≡ all_in some.now keys.now }
{
    for key in some.as_slice() {
        if !keys.has(*key) {
            return false;
        }
    }
    true
}

/// How many bytes a mark takes.
fn size_of_mark(mark: &Mark) -> usize
    ensures size { result ≡ length mark.now }
    ensures bound { result ≡ 8 }
{
    let bytes = &mark.0;
    bytes.len()
}

/// An output's coefficients and revealed keys are no more than its players.
pub(crate) fn known(output: &Output)
    ensures { AreFew output.now.sharing.poly output.now.players output.now.revealed }
{
    let _players = output.players.as_slice();
    let _revealed = output.revealed.as_slice();
}

/// Whether the parts make an output.
fn do_agree(sharing: &Sharing, players: &Set, revealed: &Set) -> bool
    ensures { result ≡ parts_agree sharing.now.total sharing.now.poly players.now revealed.now }
{
    let total = sharing.total;
    total == players.len()
        && !players.is_empty()
        && sharing.poly.as_slice().len() == quorum(total) as usize
        && are_all_in(revealed, players)
}

impl Value for Output {
    fn copy(&self, alloc: Global) -> Mem<Output> {
        Ok(Output {
            summary: self.summary,
            sharing: self.sharing.copy(alloc)?,
            dealers: self.dealers.copy(alloc)?,
            players: self.players.copy(alloc)?,
            revealed: self.revealed.copy(alloc)?,
        })
    }

    #[tactic(auto, using(crate::specs::OutputGrammar::output_by_parts))]
    fn same(&self, other: &Output) -> bool {
        self.summary.same(&other.summary)
            && self.sharing.same(&other.sharing)
            && self.dealers.same(&other.dealers)
            && self.players.same(&other.players)
            && self.revealed.same(&other.revealed)
    }
}

impl Spelled for Output {
    ghost use Rattle.dkg_ceremony.specs.Outputs.{output_bytes};

    ghost spelling = { output_bytes };
}

impl EncodeSize for Output {
    ghost use Rattle.std.specs.Prelude.{◌≡◌, ◌^◌, ◌≤◌, length};
    ghost use Rattle.dkg_ceremony.specs.Outputs.{output_bytes};

    fn encode_size(&self) -> usize
        ensures size { result ≡ length (output_bytes self.now) }
        ensures bound { result ≤ 2 ^ 38 }
        ensures limit { (most : ℕ) → length self.now.dealers ≤ most → length self.now.players ≤ most → result ≤ 34 + 14 * most }
    {
        known(self);
        size_of_mark(&self.summary)
            + self.sharing.encode_size()
            + self.dealers.encode_size()
            + self.players.encode_size()
            + self.revealed.encode_size()
    }
}

impl Write for Output {
    fn put(&self, out: &mut BytesMut) -> Mem<()> {
        self.summary.put(out)?;
        self.sharing.put(out)?;
        self.dealers.put(out)?;
        self.players.put(out)?;
        self.revealed.put(out)
    }
}

impl Read for Output {
    type Cfg = (u32, ModeVersion);

    ghost use Rattle.dkg_ceremony.specs.Outputs.{output_at, OutputFits};
    ghost use Rattle.dkg_ceremony.specs.OutputGrammar.{output_grammar};

    ghost fits = { λ cfg. OutputFits cfg.0 cfg.1.0 };

    ghost read_of = { λ cfg. output_at cfg.0 cfg.1.0 };

    ghost grammar = { λ cfg. output_grammar cfg.0 cfg.1.0 };

    fn read_cfg(
        alloc: Global,
        input: &mut Reader<'_>,
        cfg: &(u32, ModeVersion),
    ) -> Result<Output, CodecError> {
        let summary = Mark::read_cfg(alloc, input, &())?;
        let sharing = Sharing::read_cfg(alloc, input, cfg)?;
        let dealers = Set::read_cfg(alloc, input, &cfg.0)?;
        let players = Set::read_cfg(alloc, input, &cfg.0)?;
        let revealed = Set::read_cfg(alloc, input, &cfg.0)?;
        if !do_agree(&sharing, &players, &revealed) {
            return Err(CodecError::Invalid(What::Output));
        }
        Ok(Output {
            summary,
            sharing,
            dealers,
            players,
            revealed,
        })
    }
}
