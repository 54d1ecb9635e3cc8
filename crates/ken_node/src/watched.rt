// A disk whose failures are noted.
ghost use Rattle.std.specs.Prelude.{◌≡◌};
ghost use Rattle.ken_node.specs.Watching.{noted};

use ken_disk::{Disk, DiskFault, MAX_LEN};
use std::alloc::AllocError;

/// A disk that notes whether a call of it failed since it was last restarted. A disk that fails proposes a pick for its restart,
/// and how many calls failed only contracts see: the note tells, while the program runs, whose pick counts.
#[derive(Debug, Drop)]
pub struct Watched<D> {
    disk: D,
    failed: bool,
}

impl<D> Watched<D> {
    ghost use Rattle.std.specs.Prelude.{false};

    /// A disk of which no failure is noted.
    pub fn new(disk: D) -> Self
        ensures { result ≡ record { disk = disk; failed = false } }
    {
        Watched {
            disk,
            failed: false,
        }
    }

    /// Gives the disk back as it is.
    pub fn into_disk(self) -> D
        ensures { result ≡ self.disk }
    {
        let Watched { disk, .. } = self;
        disk
    }

    /// Whether a call of it failed since it was last restarted.
    pub fn has_failed(&self) -> bool
        ensures { result ≡ self.now.failed }
    {
        self.failed
    }

    // Notes an answer of the disk, and passes it on.
    fn noting(&mut self, answer: Result<(), DiskFault>) -> Result<(), DiskFault>
        ensures same { result ≡ answer }
        ensures note { self.new ≡ record self.old { failed = noted answer self.old.failed } }
    {
        if let Err(DiskFault::Failed) = answer {
            self.failed = true;
        }
        answer
    }
}

impl<D: Disk> Disk for Watched<D> {
    ghost use Rattle.std.specs.Prelude.{◌≡◌, ◌+◌, ◌≤◌, length, take, drop, false, OnOk, OnErr, IsErrOf};
    ghost use Rattle.ken_disk.specs.declared.faults.DiskFault.TheVariants.{Memory};
    ghost use Rattle.ken_disk.specs.Causes.{HasCause};
    ghost use Rattle.ken_disk.specs.Fates.{Suffers, Raised};
    ghost use Rattle.ken_disk.specs.Story.{Tells, Follows};
    ghost use Rattle.ken_disk.specs.Steps.{went, after_write, after_sync, WentDown, SizeAfter};

    ghost told = { λ w. D.told w.disk };

    ghost size = { λ w. D.size w.disk };

    ghost fate = { λ w. D.fate w.disk };

    ghost faults = { λ w. D.faults w.disk };

    ghost ready = { λ w. D.ready w.disk };

    ghost hinted = { λ w. D.hinted w.disk };

    ghost sized = { λ w h told. D.sized w.disk h told };

    fn len(&self) -> u64 {
        self.disk.len()
    }

    fn read(&mut self, at: u64, buf: &mut [u8]) -> Result<(), DiskFault>
        requires { at + length buf.old ≤ D.size self.old.disk }
        ensures bytes { Tells (D.told self.old.disk) (λ h. OnOk result (buf.new ≡ take (length buf.old) (drop at h.now.seen))) }
        ensures story { D.told self.new.disk ≡ D.told self.old.disk }
        ensures size { D.size self.new.disk ≡ D.size self.old.disk }
        ensures cause { HasCause (D.faults self.old.disk) (D.faults self.new.disk) result }
        ensures fate { Follows (Suffers result) (D.fate self.old.disk) (D.fate self.new.disk) }

        // It is noted where it failed.
        ensures note { self.new.failed ≡ noted result self.old.failed }
    {
        let answer = self.disk.read(at, buf);
        self.noting(answer)
    }

    fn write(&mut self, at: u64, bytes: &[u8]) -> Result<(), DiskFault>
        requires place { at ≤ D.size self.old.disk }
        requires end { at + length bytes.now ≤ MAX_LEN }
        ensures story { D.told self.new.disk ≡ went (after_write at bytes.now result) (D.told self.old.disk) }
        ensures size { SizeAfter at (length bytes.now) result (D.size self.old.disk) (D.size self.new.disk) }
        ensures ready { OnOk result (D.ready self.new.disk) }
        ensures cause { HasCause (D.faults self.old.disk) (D.faults self.new.disk) result }
        ensures fate { Follows (Suffers result) (D.fate self.old.disk) (D.fate self.new.disk) }

        // It is noted where it failed.
        ensures note { self.new.failed ≡ noted result self.old.failed }
    {
        let answer = self.disk.write(at, bytes);
        self.noting(answer)
    }

    fn sync(&mut self) -> Result<(), DiskFault>
        ensures story { D.told self.new.disk ≡ went (after_sync result) (D.told self.old.disk) }
        ensures size { D.size self.new.disk ≡ D.size self.old.disk }
        ensures ready { D.ready self.old.disk → IsErrOf result Memory → ⊥ }
        ensures cause { HasCause (D.faults self.old.disk) (D.faults self.new.disk) result }
        ensures fate { Follows (Suffers result) (D.fate self.old.disk) (D.fate self.new.disk) }

        // It is noted where it failed.
        ensures note { self.new.failed ≡ noted result self.old.failed }
    {
        let answer = self.disk.sync();
        self.noting(answer)
    }

    fn restart(&mut self, pick: u64) -> Result<(), AllocError>
        ensures story { OnOk result (Follows WentDown (D.told self.old.disk) (D.told self.new.disk)) }
        ensures fate { OnOk result (Follows (Raised pick) (D.fate self.old.disk) (D.fate self.new.disk)) }
        ensures memory { OnErr result (D.told self.new.disk ≡ D.told self.old.disk) }
        ensures no_fall { OnErr result (D.fate self.new.disk ≡ D.fate self.old.disk) }
        ensures size { OnErr result (D.size self.new.disk ≡ D.size self.old.disk) }
        ensures faults { D.faults self.new.disk ≡ D.faults self.old.disk }

        // No failure is noted then. After an error the note is as it was.
        ensures clear { OnOk result (self.new.failed ≡ false) }
        ensures kept { OnErr result (self.new.failed ≡ self.old.failed) }
    {
        self.disk.restart(pick)?;
        self.failed = false;
        Ok(())
    }

    fn hint(&self) -> u64 {
        self.disk.hint()
    }
}
