//! Who is told of an epoch's scheme. Setup registers each epoch before it is entered.
ghost use Rattle.std.specs.Prelude.{◌≡◌, ℕ, ◌++◌, ◌∷◌, [], List, Bool, OnOk, OnErr, IsTrue};

use crate::scheme::SchemeInfo;
use dkg_ceremony::{Epoch, Mem};
use std::alloc::Global;

/// Who takes the schemes of epochs.
pub trait Registrar {
    ghost use Rattle.std.specs.Prelude.{◌≡◌, ℕ, ◌++◌, ◌∷◌, [], List, Bool, OnOk, OnErr, IsTrue};
    ghost use Rattle.dkg_types.specs.declared.scheme.SchemeInfo.{SchemeInfo};

    /// Whether it tells what it took.
    ghost tells: { Bool };

    /// What it took, in order.
    ghost taken: { Self → List (ℕ × SchemeInfo) };

    fn register(&mut self, alloc: Global, epoch: Epoch, info: SchemeInfo) -> Mem<()>
        ensures ok { IsTrue tells → OnOk result (taken self.new ≡ taken self.old ++ (epoch, info) ∷ []) }
        ensures err { IsTrue tells → OnErr result (taken self.new ≡ taken self.old) };
}

/// Who takes schemes and keeps none.
#[derive(Clone, Copy, Debug, PartialEq, Eq)]
pub struct NoopRegistrar;

impl Registrar for NoopRegistrar {
    ghost use Rattle.std.specs.Prelude.{false, []};

    ghost tells = { false };

    ghost taken = { λ _. [] };

    fn register(&mut self, _alloc: Global, _epoch: Epoch, _info: SchemeInfo) -> Mem<()> {
        Ok(())
    }
}
