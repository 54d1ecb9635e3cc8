ghost use Rattle.std.specs.Prelude.{◌≡◌, ℕ, ◌+◌, ◌≤◌, length, take, drop, OnOk, OnErr, IsErrOf};
ghost use Rattle.std.specs.declared.option.Option.{Option};
ghost use Rattle.std.specs.declared.option.Option.TheVariants.{Some};
ghost use Rattle.ken_disk.specs.declared.faults.DiskFault.TheVariants.{Memory};
ghost use Rattle.ken_disk.specs.Causes.{HasCause};
ghost use Rattle.ken_disk.specs.Fates.{Fate, Suffers, Raised};
ghost use Rattle.ken_disk.specs.Story.{Story, Tells, Follows};
ghost use Rattle.ken_disk.specs.Steps.{went, after_write, after_sync, WentDown, SizeAfter};

use crate::DiskFault;
use std::alloc::AllocError;

/// The furthest end of a write, in bytes.
pub const MAX_LEN: u64 = 1 << 40;

/// Bytes that a crash may tear. Between two syncs a crash leaves any bytes in the ranges written since, and an end
/// anywhere up to the furthest written one. After a sync that answers Ok it leaves what a read gives.
pub trait Disk {
    /// What it holds and held, where the disk tells.
    ghost told: { Self → Option Story };

    /// How long it is, in bytes. Every disk tells this.
    ghost size: { Self → ℕ };

    /// Whether it is down and how many falls it has left, whose disk it is, and the picks of its restarts, where it tells this:
    /// it then fails only at its falls, and from each of them on until a restart.
    ghost fate: { Self → Option Fate };

    /// How many calls have failed. An implementation may let the count stand at 2^64 - 1.
    ghost faults: { Self → ℕ };

    /// It has the memory that its next sync needs.
    ghost ready: { Self → Type 0 };

    /// The pick that it proposes for its next restart.
    ghost hinted: { Self → ℕ };

    /// How long it is, in bytes.
    fn len(&self) -> u64
        ensures { result ≡ size self.now };

    /// Fills `buf` with the bytes from the place `at` on. After an error nothing is known of `buf`.
    fn read(&mut self, at: u64, buf: &mut [u8]) -> Result<(), DiskFault>
        requires { at + length buf.old ≤ size self.old }
        ensures bytes { Tells (told self.old) (λ h. OnOk result (buf.new ≡ take (length buf.old) (drop at h.now.seen))) }
        ensures story { told self.new ≡ told self.old }
        ensures size { size self.new ≡ size self.old }
        ensures cause { HasCause (faults self.old) (faults self.new) result }
        ensures fate { Follows (Suffers result) (fate self.old) (fate self.new) };

    /// Writes `bytes` from the place `at` on, past the end too. It takes the memory that its sync will need. A write that
    /// fails counts as written, since a crash may leave its bytes. After Memory nothing is written.
    fn write(&mut self, at: u64, bytes: &[u8]) -> Result<(), DiskFault>
        requires place { at ≤ size self.old }
        requires end { at + length bytes.now ≤ MAX_LEN }
        ensures story { told self.new ≡ went (after_write at bytes.now result) (told self.old) }
        ensures size { SizeAfter at (length bytes.now) result (size self.old) (size self.new) }
        ensures ready { OnOk result (ready self.new) }
        ensures cause { HasCause (faults self.old) (faults self.new) result }
        ensures fate { Follows (Suffers result) (fate self.old) (fate self.new) };

    /// Makes safe what a read gives. After an error nothing more is safe than before. A sync straight after a write that
    /// answered Ok wants no memory.
    fn sync(&mut self) -> Result<(), DiskFault>
        ensures story { told self.new ≡ went (after_sync result) (told self.old) }
        ensures size { size self.new ≡ size self.old }
        ensures ready { ready self.old → IsErrOf result Memory → ⊥ }
        ensures cause { HasCause (faults self.old) (faults self.new) result }
        ensures fate { Follows (Suffers result) (fate self.old) (fate self.new) };

    /// Crashes. The disk then holds one of its possible images, which `pick` may choose, nothing is pending, and it is up.
    /// After an error it is as before.
    fn restart(&mut self, pick: u64) -> Result<(), AllocError>
        ensures story { OnOk result (Follows WentDown (told self.old) (told self.new)) }
        ensures fate { OnOk result (Follows (Raised pick) (fate self.old) (fate self.new)) }
        ensures memory { OnErr result (told self.new ≡ told self.old) }
        ensures no_fall { OnErr result (fate self.new ≡ fate self.old) }
        ensures size { OnErr result (size self.new ≡ size self.old) }
        ensures faults { faults self.new ≡ faults self.old };

    /// The pick that a disk which fails proposes for its restart. Nothing is promised of which number it is.
    fn hint(&self) -> u64
        ensures { result ≡ hinted self.now };

    /// The size is that of what a read gives.
    ghost sized: { (disk : Self) (h : Story) → told disk ≡ Some h → size disk ≡ length h.now.seen };
}
