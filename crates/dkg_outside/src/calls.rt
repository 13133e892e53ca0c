//! Calls that fail by their numbers, for sources and sinks in memory.
ghost use Rattle.std.specs.Prelude.{◌≡◌, ◌≤◌, ◌+◌, ◌-◌, ◌^◌, Contains, OnErr, OnOk, min};
ghost use Rattle.dkg_journal.specs.Disk.{Rose};

use crate::source::Failed;

/// Counts calls, and says which of them fail.
#[derive(Drop)]
pub struct Calls {
    made: u64,
    failing: Vec<u64>,
    faults: u64,
}

impl Calls {
    /// Calls of which those with these numbers fail. The first call has number 1.
    pub fn failing(failing: Vec<u64>) -> Calls
        ensures { result ≡ record { made = 0; failing = failing; faults = 0 } }
    {
        Calls {
            made: 0,
            failing,
            faults: 0,
        }
    }

    /// Counts a call. It fails exactly where its number is one of those.
    pub fn make(&mut self) -> Result<(), Failed>
        ensures later { self.old.faults ≤ self.new.faults }
        ensures failed { OnErr result (Rose self.old.faults self.new.faults) }
        ensures ok { OnOk result (self.new.faults ≡ self.old.faults) }
        ensures made { self.new.made ≡ min (self.old.made + 1) (2 ^ 64 - 1) }
        ensures failing { self.new.failing ≡ self.old.failing }
        ensures fails { OnErr result (Contains self.old.failing.items self.new.made) }
        ensures goes { OnOk result (Contains self.old.failing.items self.new.made → ⊥) }
    {
        self.made = self.made.saturating_add(1);
        if self.failing.contains(&self.made) {
            return Err(self.fail());
        }
        Ok(())
    }

    /// Counts a failure of the call that was counted last.
    pub fn fail(&mut self) -> Failed
        ensures later { self.old.faults ≤ self.new.faults }
        ensures failed { Rose self.old.faults self.new.faults }
        ensures once { self.new ≡ record self.old { faults = min (self.old.faults + 1) (2 ^ 64 - 1) } }
    {
        self.faults = self.faults.saturating_add(1);
        Failed
    }
}
