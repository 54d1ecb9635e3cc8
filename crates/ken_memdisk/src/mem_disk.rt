use crate::calls::Calls;
use crate::cut::Cut;
use crate::platter::Platter;
use ken_disk::{Disk, DiskFault, MAX_LEN};
use std::alloc::{AllocError, Global};
use std::marker::Model;

/// A disk in memory. It fails at its cuts, and from a cut on until the next restart. A restart leaves the written bytes for
/// pick 0, the synced bytes for pick 1, and for each other pick a torn image, the same one each time. It always tells its
/// story, which takes no memory. Its `hint` is the pick of the cut that was met last, or 0.
#[derive(Debug, Drop)]
pub struct MemDisk {
    platter: Platter,
    calls: Calls,
}

impl Model for MemDisk {
    ghost use Rattle.ken_memdisk.specs.Disks.{InMemory};

    ghost Value = { InMemory };

    ghost view = { λ d. record { held = d.platter; calls = d.calls } };
}

impl MemDisk {
    ghost use Rattle.std.specs.Prelude.{◌≡◌, ◌≤◌, ℕ, length, IfOk};
    ghost use Rattle.ken_disk.specs.Story.{blank};
    ghost use Rattle.ken_memdisk.specs.Calls.{no_calls, first_pick, pick_at, fate_of};

    /// A disk with no bytes, no faults and no calls, and a fall for each call at which a cut stands. Of two cuts at one call
    /// the first counts. It counts as disk 0 of node 0. An error wants memory.
    pub fn new(alloc: Global, cuts: &[Cut]) -> Result<Self, AllocError>
        ensures story { IfOk result (λ d. d.held.story ≡ blank) }
        ensures calls { IfOk result (λ d. d.calls ≡ no_calls 0 0 cuts.now) }
        ensures first { IfOk result (λ d. (call : ℕ) → pick_at d.calls.cuts call ≡ first_pick cuts.now call) }
        ensures falls { IfOk result (λ d. (fate_of d.calls).falls ≤ length cuts.now) }
    {
        MemDisk::of_node(alloc, 0, 0, cuts)
    }

    /// As `new`, a disk of a node: `which` of its disks it is. Only contracts see whose it is.
    pub fn of_node(alloc: Global, node: u8, which: u8, cuts: &[Cut]) -> Result<Self, AllocError>
        ensures story { IfOk result (λ d. d.held.story ≡ blank) }
        ensures calls { IfOk result (λ d. d.calls ≡ no_calls node which cuts.now) }
        ensures first { IfOk result (λ d. (call : ℕ) → pick_at d.calls.cuts call ≡ first_pick cuts.now call) }
        ensures falls { IfOk result (λ d. (fate_of d.calls).falls ≤ length cuts.now) }
    {
        Ok(MemDisk {
            platter: Platter::new(alloc),
            calls: Calls::new(alloc, node, which, cuts)?,
        })
    }
}

impl Disk for MemDisk {
    ghost use Rattle.std.specs.Prelude.{◌≡◌, ◌+◌, ◌≤◌, length, take, drop, true, false, Some, OnOk, OnErr, IsErrOf};
    ghost use Rattle.std.proofs.Common.{ap};
    ghost use Rattle.std.specs.Option.{unwrap_or};
    ghost use Rattle.ken_disk.specs.declared.faults.DiskFault.TheVariants.{Failed, Memory};
    ghost use Rattle.ken_disk.specs.Causes.{HasCause};
    ghost use Rattle.ken_disk.specs.Fates.{Suffers, Raised};
    ghost use Rattle.ken_disk.specs.Story.{Follows};
    ghost use Rattle.ken_disk.specs.Steps.{went, after_write, after_sync, WentDown, SizeAfter};
    ghost use Rattle.ken_memdisk.specs.Calls.{fails_next, after_call, after_cut, after_failed_read, after_restart, fate_of};
    ghost use Rattle.ken_memdisk.specs.Platters.{restart_at};

    ghost told = { λ d. Some d.held.story };

    ghost size = { λ d. length d.held.story.now.seen };

    ghost fate = { λ d. Some (fate_of d.calls) };

    ghost faults = { λ d. d.calls.faults };

    ghost ready = { λ d. d.held.ready ≡ true };

    ghost hinted = { λ d. d.calls.hint };

    ghost sized = { λ d h told. ap (λ o. length (unwrap_or o h).now.seen) told };

    fn len(&self) -> u64 {
        self.platter.len()
    }

    fn read(&mut self, at: u64, buf: &mut [u8]) -> Result<(), DiskFault>
        requires { at + length buf.old ≤ length self.old.held.story.now.seen }
        ensures bytes { OnOk result (buf.new ≡ take (length buf.old) (drop at self.old.held.story.now.seen)) }
        ensures held { self.new.held ≡ self.old.held }
        ensures cause { HasCause self.old.calls.faults self.new.calls.faults result }
        ensures fate { Follows (Suffers result) (Some (fate_of self.old.calls)) (Some (fate_of self.new.calls)) }

        // It fails just where the disk is down, and then gives nothing.
        ensures ok { OnOk result ((self.old.calls.down ≡ false) × (self.new.calls ≡ self.old.calls)) }
        ensures err { OnErr result ((self.old.calls.down ≡ true) × (self.new.calls ≡ after_failed_read self.old.calls)) }
        ensures none { OnErr result (buf.new ≡ buf.old) }
        ensures no_memory { IsErrOf result Memory → ⊥ }
    {
        self.calls.read()?;
        self.platter.read(at, buf);
        Ok(())
    }

    fn write(&mut self, at: u64, bytes: &[u8]) -> Result<(), DiskFault>
        requires place { at ≤ length self.old.held.story.now.seen }
        requires end { at + length bytes.now ≤ MAX_LEN }
        ensures story { Some self.new.held.story ≡ went (after_write at bytes.now result) (Some self.old.held.story) }
        ensures size { SizeAfter at (length bytes.now) result (length self.old.held.story.now.seen) (length self.new.held.story.now.seen) }
        ensures ready { OnOk result (self.new.held.ready ≡ true) }
        ensures cause { HasCause self.old.calls.faults self.new.calls.faults result }
        ensures fate { Follows (Suffers result) (Some (fate_of self.old.calls)) (Some (fate_of self.new.calls)) }

        // It fails just at a cut, and from there until a restart. One that answers Memory is no call.
        ensures ok { OnOk result ((fails_next self.old.calls ≡ false) × (self.new.calls ≡ after_call self.old.calls)) }
        ensures failed { IsErrOf result Failed → (fails_next self.old.calls ≡ true) × (self.new.calls ≡ after_cut self.old.calls) }
        ensures memory { IsErrOf result Memory → self.new.calls ≡ self.old.calls }
    {
        self.platter.write(at, bytes)?;
        self.calls.make()
    }

    fn sync(&mut self) -> Result<(), DiskFault>
        ensures story { Some self.new.held.story ≡ went (after_sync result) (Some self.old.held.story) }
        ensures size { length self.new.held.story.now.seen ≡ length self.old.held.story.now.seen }
        ensures ready { self.old.held.ready ≡ true → IsErrOf result Memory → ⊥ }
        ensures cause { HasCause self.old.calls.faults self.new.calls.faults result }
        ensures fate { Follows (Suffers result) (Some (fate_of self.old.calls)) (Some (fate_of self.new.calls)) }

        // It fails as a write does.
        ensures ok { OnOk result ((fails_next self.old.calls ≡ false) × (self.new.calls ≡ after_call self.old.calls)) }
        ensures failed { IsErrOf result Failed → (fails_next self.old.calls ≡ true) × (self.new.calls ≡ after_cut self.old.calls) }
        ensures memory { IsErrOf result Memory → self.new.calls ≡ self.old.calls }
    {
        self.platter.make_ready()?;
        self.calls.make()?;
        self.platter.make_safe();
        Ok(())
    }

    fn restart(&mut self, pick: u64) -> Result<(), AllocError>
        ensures story { OnOk result (Follows WentDown (Some self.old.held.story) (Some self.new.held.story)) }
        ensures fate { OnOk result (Follows (Raised pick) (Some (fate_of self.old.calls)) (Some (fate_of self.new.calls))) }
        ensures memory { OnErr result (Some self.new.held.story ≡ Some self.old.held.story) }
        ensures no_fall { OnErr result (Some (fate_of self.new.calls) ≡ Some (fate_of self.old.calls)) }
        ensures size { OnErr result (length self.new.held.story.now.seen ≡ length self.old.held.story.now.seen) }
        ensures faults { self.new.calls.faults ≡ self.old.calls.faults }

        // It leaves the image of its pick, and the disk is up.
        ensures picked { OnOk result (self.new.held.story ≡ restart_at pick self.old.held.story) }
        ensures up { OnOk result (self.new.calls ≡ after_restart pick self.old.calls) }
        ensures calls { OnErr result (self.new.calls ≡ self.old.calls) }
    {
        self.platter.restart(pick)?;
        self.calls.restart(pick);
        Ok(())
    }

    fn hint(&self) -> u64
        ensures { result ≡ self.now.calls.hint }
    {
        self.calls.hint()
    }
}
