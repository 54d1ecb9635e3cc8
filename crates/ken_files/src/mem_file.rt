// A file in memory.
ghost use Rattle.std.specs.Prelude.{◌≡◌, ◌+◌, ◌≤◌, length, vec_len, vec_capacity};
ghost use Rattle.ken_disk.specs.Bytes.{overwrite};

use ken_disk::{Disk, DiskFault, MAX_LEN, write_through};
use ken_memdisk::MemDisk;
use std::alloc::{AllocError, Global};
use std::marker::Model;

/// A file in memory: a disk that never fails, with the bytes that a read of it gives. A restart leaves what is written.
#[derive(Debug, Drop)]
pub struct MemFile {
    bytes: Vec<u8>,
    disk: MemDisk,
}

impl Model for MemFile {
    ghost use Rattle.ken_memdisk.specs.Disks.{InMemory};
    ghost use Rattle.ken_files.specs.Held.{HasBytes};

    ghost Value = { InMemory };

    ghost view = { λ f. f.disk };

    ghost invariant = { λ f. HasBytes f.bytes.items f.disk };
}

impl MemFile {
    ghost use Rattle.std.specs.Prelude.{◌≡◌, ◌≤◌, length, IfOk};
    ghost use Rattle.ken_disk.specs.Story.{IsAtRest, blank};

    /// A file with no bytes. The error is want of memory.
    pub(crate) fn new(alloc: Global) -> Result<Self, AllocError>
        ensures blank { IfOk result (λ f. f.held.story ≡ blank) }
        ensures none { IfOk result (λ f. f.calls.faults ≡ 0) }
    {
        Ok(MemFile {
            bytes: Vec::new(alloc),
            disk: MemDisk::new(alloc, &[])?,
        })
    }

    /// A file that holds these bytes, and in which nothing is pending. The error is want of memory.
    pub(crate) fn holding(alloc: Global, bytes: &[u8]) -> Result<Self, AllocError>
        requires { length bytes.now ≤ MAX_LEN }
        ensures bytes { IfOk result (λ f. f.held.story.now.seen ≡ bytes.now) }
        ensures rests { IfOk result (λ f. IsAtRest f.held.story.now) }
        ensures none { IfOk result (λ f. f.calls.faults ≡ 0) }
    {
        let mut disk = MemDisk::new(alloc, &[])?;
        let bytes = Vec::from_slice(alloc, bytes)?;
        match write_through(&mut disk, 0, &bytes) {
            Ok(()) => Ok(MemFile { bytes, disk }),
            Err(DiskFault::Memory) => Err(AllocError),
            Err(DiskFault::Failed) => unreachable!(),
        }
    }

    /// The bytes that a read gives.
    pub fn bytes(&self) -> &[u8]
        ensures bytes { result.now ≡ self.now.held.story.now.seen }
        ensures bound { length result.now ≤ MAX_LEN }
    {
        self.bytes.as_slice()
    }
}

impl Disk for MemFile {
    ghost use Rattle.std.specs.Prelude.{◌≡◌, length, true, None, Some};
    ghost use Rattle.std.proofs.Common.{ap};
    ghost use Rattle.std.specs.Option.{unwrap_or};

    ghost told = { λ f. Some f.held.story };

    ghost size = { λ f. length f.held.story.now.seen };

    ghost fate = { λ _. None };

    ghost faults = { λ f. f.calls.faults };

    ghost ready = { λ f. f.held.ready ≡ true };

    ghost hinted = { λ _. 0 };

    ghost sized = { λ f h told. ap (λ o. length (unwrap_or o h).now.seen) told };

    fn len(&self) -> u64 {
        self.disk.len()
    }

    fn read(&mut self, at: u64, buf: &mut [u8]) -> Result<(), DiskFault> {
        self.disk.read(at, buf)
    }

    fn write(&mut self, at: u64, bytes: &[u8]) -> Result<(), DiskFault> {
        let end = at as usize + bytes.len();
        self.bytes.reserve(end.saturating_sub(self.bytes.len()))?;
        match self.disk.write(at, bytes) {
            Ok(()) => {
                lay_over(&mut self.bytes, at as usize, bytes);
                Ok(())
            }
            Err(DiskFault::Failed) => {
                lay_over(&mut self.bytes, at as usize, bytes);
                Err(DiskFault::Failed)
            }
            Err(DiskFault::Memory) => Err(DiskFault::Memory),
        }
    }

    fn sync(&mut self) -> Result<(), DiskFault> {
        self.disk.sync()
    }

    fn restart(&mut self, _pick: u64) -> Result<(), AllocError> {
        self.disk.restart(0)
    }

    fn hint(&self) -> u64 {
        0
    }
}

// Writes `bytes` from the place `at` on, past the end too. There is room for them.
fn lay_over(old: &mut Vec<u8>, at: usize, bytes: &[u8])
    requires inside { at ≤ vec_len old.old }
    requires room { at + length bytes.now ≤ vec_capacity old.old }
    ensures { old.new.items ≡ overwrite at bytes.now old.old.items }
{
    let over = bytes.len().min(old.len() - at);
    old[at..at + over].copy_from_slice(&bytes[..over]);
    old.extend_from_slice(&bytes[over..]).unwrap();
}
