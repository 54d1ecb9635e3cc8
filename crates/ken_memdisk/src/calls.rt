// The calls of a disk, and its cuts.
ghost use Rattle.std.specs.Prelude.{◌≡◌, ◌≤◌, ℕ, length, true, false, OnOk, OnErr, IsErrOf, IfOk};
ghost use Rattle.ken_disk.specs.Causes.{HasCause};
ghost use Rattle.ken_disk.specs.Fates.{Suffers};
ghost use Rattle.ken_memdisk.specs.Calls.{no_calls, first_pick, pick_at, fails_next, after_call, after_cut, after_failed_read, after_restart, fate_of};

use crate::cut::Cut;
use crate::cuts::{by_call, take_pick};
use crate::trace::{Mark, Trace};
use ken_disk::DiskFault;
use std::alloc::{AllocError, Global};
use std::collections::BTreeMap;
use std::marker::Model;

#[derive(Debug, Drop)]
pub(crate) struct Calls {
    // The picks of the cuts ahead, by their calls.
    cuts: BTreeMap<u64, u64>,
    made: u64,
    down: bool,
    hint: u64,
    faults: u64,
    trace: Trace,
}

impl Model for Calls {
    ghost use Rattle.ken_memdisk.specs.Calls.{CallCounts};

    ghost Value = { CallCounts };

    ghost view = { λ c. record {
      cuts = c.cuts.entries;
      made = c.made;
      down = c.down;
      hint = c.hint;
      faults = c.faults;
      origin = c.trace.told.origin;
      picks = c.trace.told.picks;
    } };
}

impl Calls {
    pub(crate) fn new(alloc: Global, node: u8, which: u8, cuts: &[Cut]) -> Result<Self, AllocError>
        ensures none { IfOk result (λ c. c ≡ no_calls node which cuts.now) }
        ensures first { IfOk result (λ c. (call : ℕ) → pick_at c.cuts call ≡ first_pick cuts.now call) }
        ensures few { IfOk result (λ c. length c.cuts ≤ length cuts.now) }
    {
        Ok(Calls {
            cuts: by_call(alloc, cuts)?,
            made: 0,
            down: false,
            hint: 0,
            faults: 0,
            trace: Trace::after(&Mark::Made(node, which, cuts)),
        })
    }

    // The pick of the cut that was met last, or 0.
    pub(crate) fn hint(&self) -> u64
        ensures { result ≡ self.now.hint }
    {
        self.hint
    }

    // Counts a write or a sync, and says whether it fails.
    pub(crate) fn make(&mut self) -> Result<(), DiskFault>
        ensures ok { OnOk result ((fails_next self.old ≡ false) × (self.new ≡ after_call self.old)) }
        ensures err { OnErr result ((fails_next self.old ≡ true) × (self.new ≡ after_cut self.old)) }
        ensures no_memory { IsErrOf result DiskFault.Memory → ⊥ }
        ensures cause { HasCause self.old.faults self.new.faults result }
        ensures fate { Suffers result (fate_of self.old) (fate_of self.new) }
    {
        self.made = self.made.saturating_add(1);
        if let Some(pick) = take_pick(&mut self.cuts, self.made) {
            self.down = true;
            self.hint = pick;
        }
        self.read()
    }

    // Says whether a read fails.
    pub(crate) fn read(&mut self) -> Result<(), DiskFault>
        ensures ok { OnOk result ((self.old.down ≡ false) × (self.new ≡ self.old)) }
        ensures err { OnErr result ((self.old.down ≡ true) × (self.new ≡ after_failed_read self.old)) }
        ensures no_memory { IsErrOf result DiskFault.Memory → ⊥ }
        ensures cause { HasCause self.old.faults self.new.faults result }
        ensures fate { Suffers result (fate_of self.old) (fate_of self.new) }
    {
        if self.down {
            self.faults = self.faults.saturating_add(1);
            return Err(DiskFault::Failed);
        }
        Ok(())
    }

    pub(crate) fn restart(&mut self, pick: u64)
        ensures { self.new ≡ after_restart pick self.old }
    {
        self.down = false;
        self.trace = Trace::after(&Mark::Restarted(&self.trace, pick));
    }
}
