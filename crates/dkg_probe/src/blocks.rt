//! What a probe serves: the blocks that a node holds.

use dkg_ceremony::{Height, Mem};
use dkg_infos::Directory;
use dkg_types::{Block, Finalization};
use std::alloc::Global;

/// Who holds finalized blocks, as the upstream's marshal does.
pub trait Blocks<Dir: Directory> {
    ghost use Rattle.std.specs.Prelude.{◌≡◌, IfOk};
    ghost use Rattle.std.specs.Option.{option_copied};
    ghost use Rattle.dkg_probe.specs.Sources.{ProbeSource};

    /// What it holds.
    ghost source: { Self → ProbeSource Dir };

    /// The block at a height.
    fn block(&self, height: Height) -> Option<&Block<Dir>>
        ensures { option_copied result ≡ (source self.now).block height };

    /// The finalization of the block at a height.
    fn finalization(&self, alloc: Global, height: Height) -> Mem<Option<Finalization>>
        ensures { IfOk result (λ found. found ≡ (source self.now).finalization height) };

    /// The latest finalization.
    fn latest(&self, alloc: Global) -> Mem<Option<Finalization>>
        ensures { IfOk result (λ found. found ≡ (source self.now).latest) };
}
