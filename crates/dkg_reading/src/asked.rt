//! The numbers of the requests that a life named so far, found in logarithmic time, and in constant time where they rise.
//!
//! The reader of events asks these, since a request for an info has a number of its own in its life.
ghost use Rattle.std.specs.Prelude.{◌≡◌, ◌==◌, ◌||◌, ℕ, OnOk, false};
ghost use Rattle.dkg_reading.specs.Asked.{asks, has_number};

use dkg_ceremony::Mem;
use dkg_rising::RisingMap;
use dkg_text::Event;
use std::alloc::Global;

/// The numbers of requests.
#[derive(Drop)]
pub(crate) struct Asked {
    pub(crate) numbers: RisingMap<()>,
}

impl Asked {
    pub(crate) fn new(alloc: Global) -> Asked
        ensures { (request : ℕ) → has_number result.numbers request ≡ false }
    {
        Asked {
            numbers: RisingMap::new(alloc),
        }
    }

    /// Whether a request was named.
    pub(crate) fn has(&self, request: u64) -> bool
        ensures { result ≡ has_number self.now.numbers request }
    {
        self.numbers.has(request)
    }

    fn insert(&mut self, number: u64) -> Mem<()>
        ensures { OnOk result ((request : ℕ) → has_number self.new.numbers request ≡ (number == request || has_number self.old.numbers request)) }
    {
        self.numbers.insert(number, ())?;
        Ok(())
    }

    /// Adds the request that an event names, if it names one.
    pub(crate) fn add(&mut self, event: &Event<'_>) -> Mem<()>
        ensures { OnOk result ((request : ℕ) → has_number self.new.numbers request ≡ (asks request event.now || has_number self.old.numbers request)) }
    {
        match event {
            Event::Next { request, .. } | Event::Info { request } => self.insert(*request),
            _ => Ok(()),
        }
    }
}
