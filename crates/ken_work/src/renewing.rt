// A log that is full is renewed.
ghost use Rattle.std.specs.Prelude.{◌≡◌, ℕ, ◌≤◌, ◌^◌, OnOk, IsErrOf, None};
ghost use Rattle.ken_store.specs.Turning.{Turning};
ghost use Rattle.ken_model.specs.Handler.{Handler};
ghost use Rattle.ken_store.specs.declared.faults.StoreFault.TheVariants.{Memory};
ghost use Rattle.ken_work.specs.Capped.{IsCapped};
ghost use Rattle.ken_work.specs.Sealing.{Renews};
ghost use Rattle.ken_work.specs.Workers.{Working};

use crate::worker::TurnWorker;
use ken_disk::Disk;
use ken_store::StoreFault;

/// With so many records a log is full.
pub const MOST_RECORDS: u64 = 32;

impl<D: Disk> TurnWorker<D> {
    // Goes over to the other log, with what was told, where this one is full. After `Memory` all goes on as before.
    pub(crate) fn renew(&mut self) -> Result<(), StoreFault>
        requires turning { Turning D.told D.size self.old.side }
        requires idle { self.old.side.objects.begun ≡ None }
        requires open_yet { IsCapped self.old → ⊥ }
        ensures rest { self.new ≡ record self.old { side = self.new.side } }
        ensures renews { Renews D.told D.size D.faults D.fate result self.old self.new.side }
        ensures working { (h : Handler) → Working D.told D.size h self.old → OnOk result (Working D.told D.size h self.new) }
        ensures goes_on { (h : Handler) → Working D.told D.size h self.old → IsErrOf result Memory → Working D.told D.size h self.new }
        ensures end { OnOk result (self.new.side.log.end ≤ 2 ^ 39) }
        ensures sound { (disk place : ℕ) → IsErrOf result (StoreFault.Damaged disk place) → ⊥ }
    {
        if self.side.records() < MOST_RECORDS {
            return Ok(());
        }
        let progress = self.told.progress;
        let acked = progress.acked.as_slice();
        self.side
            .turnover(self.told.settled, acked, progress.emitted)
    }
}
