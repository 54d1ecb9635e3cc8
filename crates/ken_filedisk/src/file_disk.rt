// A file of the system as a disk.
use ken_disk::{Disk, DiskFault, MAX_LEN, write_through};
use ken_memdisk::MemDisk;
use std::alloc::{AllocError, Global};
use std::fs::File;
use std::os::unix::fs::FileExt;

/// A file of the system as a disk, with a copy of its bytes in memory: reads are answered from the copy, and a write goes
/// to both. It tells the story of the copy. From a call that failed on each write and each sync fails, after a restart
/// too.
#[derive(Debug, Drop)]
pub struct FileDisk {
    copy: MemDisk,
    file: File,
    broken: bool,
    faults: u64,
}

impl FileDisk {
    ghost use Rattle.std.specs.Prelude.{◌≡◌, ◌≤◌, length, true, IfOk, Err};
    ghost use Rattle.ken_disk.specs.declared.faults.DiskFault.TheVariants.{Failed};
    ghost use Rattle.ken_disk.specs.Causes.{HasCause};
    ghost use Rattle.ken_disk.specs.Story.{IsAtRest};

    // The disk of an open file that holds just these bytes, and in which nothing is pending.
    pub(crate) fn over(alloc: Global, file: File, bytes: &[u8]) -> Result<Self, AllocError>
        requires { length bytes.now ≤ MAX_LEN }
        ensures bytes { IfOk result (λ d. d.copy.held.story.now.seen ≡ bytes.now) }
        ensures rests { IfOk result (λ d. IsAtRest d.copy.held.story.now) }
        ensures none { IfOk result (λ d. d.faults ≡ 0) }
    {
        let mut copy = MemDisk::new(alloc, &[])?;
        match write_through(&mut copy, 0, bytes) {
            Ok(()) => Ok(FileDisk {
                copy,
                file,
                broken: false,
                faults: 0,
            }),
            Err(DiskFault::Memory) => Err(AllocError),
            Err(DiskFault::Failed) => unreachable!(),
        }
    }

    // Counts a call that failed.
    fn fail(&mut self)
        ensures copy { self.new.copy ≡ self.old.copy }
        ensures broken { self.new.broken ≡ true }
        ensures cause { HasCause {T = Unit {0}} self.old.faults self.new.faults (Err Failed) }
    {
        self.broken = true;
        self.faults = self.faults.saturating_add(1);
    }
}

impl Disk for FileDisk {
    ghost use Rattle.std.specs.Prelude.{◌≡◌, ◌+◌, ◌≤◌, length, true, None, Some, OnOk, OnErr, IsErrOf};
    ghost use Rattle.std.proofs.Common.{ap};
    ghost use Rattle.std.specs.Option.{unwrap_or};
    ghost use Rattle.ken_disk.specs.declared.faults.DiskFault.TheVariants.{Memory};
    ghost use Rattle.ken_disk.specs.Causes.{HasCause};
    ghost use Rattle.ken_disk.specs.Story.{Follows};
    ghost use Rattle.ken_disk.specs.Steps.{went, after_write, after_sync, WentDown, SizeAfter};
    ghost use Rattle.ken_filedisk.specs.Breaks.{Breaks};

    ghost told = { λ d. Some d.copy.held.story };

    ghost size = { λ d. length d.copy.held.story.now.seen };

    ghost fate = { λ _. None };

    ghost faults = { λ d. d.faults };

    ghost ready = { λ d. d.copy.held.ready ≡ true };

    ghost hinted = { λ _. 0 };

    ghost sized = { λ d h told. ap (λ o. length (unwrap_or o h).now.seen) told };

    fn len(&self) -> u64 {
        self.copy.len()
    }

    fn read(&mut self, at: u64, buf: &mut [u8]) -> Result<(), DiskFault> {
        let answer = self.copy.read(at, buf);
        if answer == Err(DiskFault::Failed) {
            self.fail();
        }
        answer
    }

    fn write(&mut self, at: u64, bytes: &[u8]) -> Result<(), DiskFault>
        requires place { at ≤ length self.old.copy.held.story.now.seen }
        requires end { at + length bytes.now ≤ MAX_LEN }
        ensures story { Some self.new.copy.held.story
            ≡ went (after_write at bytes.now result) (Some self.old.copy.held.story) }
        ensures size { SizeAfter at (length bytes.now) result
            (length self.old.copy.held.story.now.seen) (length self.new.copy.held.story.now.seen) }
        ensures ready { OnOk result (self.new.copy.held.ready ≡ true) }
        ensures cause { HasCause self.old.faults self.new.faults result }
        ensures breaks { Breaks result self.old.broken self.new.broken }
    {
        let answer = self.copy.write(at, bytes);
        if answer == Err(DiskFault::Memory) {
            return answer;
        }
        if answer.is_err() || self.broken || self.file.write_all_at(bytes, at).is_err() {
            self.fail();
            return Err(DiskFault::Failed);
        }
        Ok(())
    }

    fn sync(&mut self) -> Result<(), DiskFault>
        ensures story { Some self.new.copy.held.story ≡ went (after_sync result) (Some self.old.copy.held.story) }
        ensures size { length self.new.copy.held.story.now.seen ≡ length self.old.copy.held.story.now.seen }
        ensures ready { self.old.copy.held.ready ≡ true → IsErrOf result Memory → ⊥ }
        ensures cause { HasCause self.old.faults self.new.faults result }
        ensures breaks { Breaks result self.old.broken self.new.broken }
    {
        if self.broken || self.file.sync_all().is_err() {
            self.fail();
            return Err(DiskFault::Failed);
        }
        let answer = self.copy.sync();
        if answer == Err(DiskFault::Failed) {
            self.fail();
        }
        answer
    }

    fn restart(&mut self, _pick: u64) -> Result<(), AllocError>
        ensures story { OnOk result (Follows WentDown (Some self.old.copy.held.story) (Some self.new.copy.held.story)) }
        ensures memory { OnErr result (Some self.new.copy.held.story ≡ Some self.old.copy.held.story) }
        ensures size { OnErr result
            (length self.new.copy.held.story.now.seen ≡ length self.old.copy.held.story.now.seen) }
        ensures faults { self.new.faults ≡ self.old.faults }
        ensures broken { self.new.broken ≡ self.old.broken }
    {
        self.copy.restart(0)
    }

    fn hint(&self) -> u64 {
        0
    }
}
