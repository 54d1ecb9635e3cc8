// The calls of an object in memory, of which those on a list fail.
use crate::Failed;
use ken_model::Items;
use std::marker::Model;

#[derive(Debug, Drop)]
pub struct Calls {
    // The numbers of the calls that fail, counted from 1.
    fails: Items<u64>,
    made: u64,
    faults: u64,
}

impl Model for Calls {
    ghost use Rattle.ken_io.specs.Calls.{CallCounts};

    ghost Value = { CallCounts };

    ghost view = { λ c. record { fails = c.fails; made = c.made; faults = c.faults } };
}

impl Calls {
    ghost use Rattle.std.specs.Prelude.{◌≡◌, ◌≤◌, OnOk, OnErr, true, false};
    ghost use Rattle.ken_io.specs.Calls.{no_calls, fails_next, after_call, after_fault};
    ghost use Rattle.ken_io.specs.Causes.{HasCause};

    pub fn new(fails: Items<u64>) -> Self
        ensures { result ≡ no_calls fails }
    {
        Calls {
            fails,
            made: 0,
            faults: 0,
        }
    }

    // Counts a call. One on the list fails.
    pub fn begin(&mut self) -> Result<(), Failed>
        ensures ok { OnOk result ((fails_next self.old ≡ false) × (self.new ≡ after_call self.old)) }
        ensures err { OnErr result ((fails_next self.old ≡ true)
            × (self.new ≡ after_fault (after_call self.old))) }
        ensures cause { HasCause self.old.faults self.new.faults result }
    {
        self.made = self.made.saturating_add(1);
        if self.fails.as_slice().contains(&self.made) {
            return Err(self.fail());
        }
        Ok(())
    }

    // Counts a fault.
    pub fn fail(&mut self) -> Failed
        ensures counted { self.new ≡ after_fault self.old }
        ensures later { self.old.faults ≤ self.new.faults }
    {
        self.faults = self.faults.saturating_add(1);
        Failed
    }
}
