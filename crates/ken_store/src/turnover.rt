// The log goes over to the other disk.
ghost use Rattle.std.specs.Prelude.{◌≡◌, ℕ, ◌+◌, ◌<◌, ◌^◌, length, None, true, OnOk, OnErr, IsErrOf};
ghost use Rattle.ken_log.specs.Formats.{next_header};
ghost use Rattle.ken_record.specs.Spelling.{base_bytes};
ghost use Rattle.ken_record.specs.Versions.{One};
ghost use Rattle.ken_store.specs.Turning.{Turning, log_answer};
ghost use Rattle.ken_store.specs.Turnovers.{base_of, BeginsWith, IsTurned, IsUnturned, ReplacesOn, replaced_disk, kept_disk};

use crate::StoreFault;
use crate::turning::TurnSide;
use ken_disk::Disk;

impl<D: Disk> TurnSide<D> {
    /// Goes over to a log of the next generation on the other disk, by the six calls of a turnover there: a base takes the
    /// place of the records. `settled` is the last turn that is told as settled, 0 for none; `acked` has for each node the
    /// largest number that it acknowledged, and a node that it doesn't have counts as 0; `emitted` is the last output that was
    /// emitted. The base has the messages and outputs above these, and the live pages that last changed after the settled
    /// turn, as they are now. After `Ok` the two disks have changed places. After `Memory` the side goes on as before, and
    /// after `Disk` it takes no more seals; the log's own disk is as it was. `Damaged` is never answered.
    pub fn turnover(&mut self, settled: u64, acked: &[u64], emitted: u64) -> Result<(), StoreFault>
        requires turning { Turning D.told D.size self.old }
        requires idle { self.old.objects.begun ≡ None }
        requires generation { self.old.log.header.generation + 1 < 2 ^ 32 }
        requires length { length (base_bytes One (base_of self.old settled acked.now emitted)) < 2 ^ 32 }
        ensures turned { OnOk result (IsTurned settled acked.now emitted self.old self.new) }
        ensures end { OnOk result (BeginsWith (length (base_bytes One (base_of self.old settled acked.now emitted))) self.old self.new) }
        ensures unturned { OnErr result (IsUnturned self.old self.new) }
        ensures turning { OnOk result (Turning D.told D.size self.new) }
        ensures goes_on { IsErrOf result StoreFault.Memory → Turning D.told D.size self.new }
        ensures spent { IsErrOf result StoreFault.Disk → self.new.log.spent ≡ true }
        ensures log { ReplacesOn D.told D.faults D.fate (log_answer result)
            (next_header self.old.log (base_of self.old settled acked.now emitted))
            (base_of self.old settled acked.now emitted) self.old.other (replaced_disk result self.new) }
        ensures own { kept_disk result self.new ≡ self.old.log.disk }
        ensures sound { (disk place : ℕ) → IsErrOf result (StoreFault.Damaged disk place) → ⊥ }
    {
        let (base, turns) = self.base(settled, acked, emitted)?;
        self.log.turnover(self.alloc, &mut self.other, base)?;
        self.which = self.which.other();
        self.base_turns = turns;
        self.records.clear();
        Ok(())
    }
}
