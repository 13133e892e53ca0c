//! A value that lies apart from what names it, in memory that copies share.
ghost use Rattle.std.specs.Prelude.{◌≡◌, IfOk};

use crate::memory::Mem;
use crate::value::Value;
use std::alloc::Global;
use std::marker::Model;
use std::sync::Arc;

/// A value in memory that it shares with its copies: a copy is a pointer. Contracts see it as if it lay in its place.
#[derive(Debug, Drop)]
pub struct Shared<T> {
    held: Arc<T, Global>,
}

impl<T> Model for Shared<T> {
    ghost use Rattle.std.specs.Arc.{arc_value};

    ghost Value = { T };

    ghost view = { λ its. arc_value its.held };
}

impl<T: Drop> Shared<T> {
    /// The value, moved there.
    pub fn of(alloc: Global, value: T) -> Mem<Shared<T>>
        ensures { IfOk result (λ made. made ≡ value) }
    {
        Ok(Shared {
            held: Arc::new(alloc, value)?,
        })
    }
}

impl<T> Shared<T> {
    /// The value.
    pub fn get(&self) -> &T
        ensures { result.now ≡ self.now }
    {
        &self.held
    }

    /// The same value once more. Memory is wanted only past 2^63 of them.
    pub fn share(&self) -> Mem<Shared<T>>
        ensures { IfOk result (λ made. made ≡ self.now) }
    {
        Ok(Shared {
            held: Arc::try_clone(&self.held)?,
        })
    }
}

impl<T: Value> Value for Shared<T> {
    fn copy(&self, _alloc: Global) -> Mem<Shared<T>> {
        self.share()
    }

    fn same(&self, other: &Shared<T>) -> bool {
        self.get().same(other.get())
    }
}
