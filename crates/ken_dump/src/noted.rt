// A file that notes whether a call of it failed.
ghost use Rattle.std.specs.Prelude.{◌≡◌, true, false};
ghost use Rattle.ken_disk.specs.Causes.{Rose};
ghost use Rattle.ken_dump.specs.Noting.{note_after};

use ken_disk::{Disk, DiskFault};
use std::alloc::AllocError;
use std::marker::Model;

/// A file that was opened, and whether a call of it failed since. How many failed only contracts see: the note tells, while the
/// program runs, whether any did.
#[derive(Debug, Drop)]
pub(crate) struct Noted<F: Disk> {
    file: F,
    failed: bool,
}

impl<F: Disk> Model for Noted<F> {
    ghost use Rattle.ken_dump.specs.Noting.{IsNote};

    ghost Value = { F };

    ghost view = { λ n. n.file };

    ghost invariant = { λ n. IsNote n.failed (F.faults n.file) };
}

impl<F: Disk> Noted<F> {
    /// A file of which no call has failed.
    pub(crate) fn new(file: F) -> Self
        requires { F.faults file ≡ 0 }
        ensures { result ≡ file }
    {
        Noted {
            file,
            failed: false,
        }
    }

    /// Whether a call of it failed.
    pub(crate) fn has_failed(&self) -> bool
        ensures some { result ≡ true → Rose 0 (F.faults self.now) }
        ensures none { result ≡ false → F.faults self.now ≡ 0 }
    {
        self.failed
    }

    /// Gives the file back as it is.
    pub(crate) fn into_file(self) -> F
        ensures { result ≡ self }
    {
        self.file
    }
}

impl<F: Disk> Disk for Noted<F> {
    ghost told = { λ n. F.told n };

    ghost size = { λ n. F.size n };

    ghost fate = { λ n. F.fate n };

    ghost faults = { λ n. F.faults n };

    ghost ready = { λ n. F.ready n };

    ghost hinted = { λ n. F.hinted n };

    ghost sized = { λ n h told. F.sized n h told };

    fn len(&self) -> u64 {
        self.file.len()
    }

    fn read(&mut self, at: u64, buf: &mut [u8]) -> Result<(), DiskFault> {
        let answer = self.file.read(at, buf);
        self.failed = note_after(self.failed, &answer);
        answer
    }

    fn write(&mut self, at: u64, bytes: &[u8]) -> Result<(), DiskFault> {
        let answer = self.file.write(at, bytes);
        self.failed = note_after(self.failed, &answer);
        answer
    }

    fn sync(&mut self) -> Result<(), DiskFault> {
        let answer = self.file.sync();
        self.failed = note_after(self.failed, &answer);
        answer
    }

    fn restart(&mut self, pick: u64) -> Result<(), AllocError> {
        self.file.restart(pick)
    }

    fn hint(&self) -> u64 {
        self.file.hint()
    }
}

/// The note after an answer.
fn note_after(failed: bool, answer: &Result<(), DiskFault>) -> bool
    ensures { result ≡ note_after failed answer.now }
{
    match answer {
        Err(DiskFault::Failed) => true,
        _ => failed,
    }
}
