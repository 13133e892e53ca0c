//! A public half that lies apart from its fault. Few faults name one, and an entry is a third smaller so.
ghost use Rattle.std.specs.Prelude.{◌≡◌, IfOk};

use dkg_ceremony::{Mem, Public, Value};
use std::alloc::Global;
use std::marker::Model;

/// A public half in memory of its own. Contracts see it as if it lay in its place.
#[derive(Debug, Drop)]
pub struct BoxedPublic(Box<Public>);

impl Model for BoxedPublic {
    ghost use Rattle.std.specs.Prelude.{List, ℕ};

    ghost Value = { List ℕ };

    ghost view = { λ its. its.0.value };
}

impl BoxedPublic {
    /// A public half, moved into memory of its own.
    pub fn of(alloc: Global, public: Public) -> Mem<BoxedPublic>
        ensures { IfOk result (λ made. made ≡ public) }
    {
        Ok(BoxedPublic(Box::new(alloc, public)?))
    }

    /// The public half.
    pub fn get(&self) -> &Public
        ensures { result.now ≡ self.now }
    {
        &self.0
    }
}

impl Value for BoxedPublic {
    fn copy(&self, alloc: Global) -> Mem<BoxedPublic> {
        BoxedPublic::of(alloc, self.get().copy(alloc)?)
    }

    fn same(&self, other: &BoxedPublic) -> bool {
        self.get().same(other.get())
    }
}
