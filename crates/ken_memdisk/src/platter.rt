// The bytes of a disk in memory.
ghost use Rattle.std.specs.Prelude.{◌≡◌, ◌+◌, ◌<◌, ◌≤◌, vec_capacity, length, take, drop, true, false, OnOk, OnErr};
ghost use Rattle.ken_disk.specs.Bytes.{IsBytes};
ghost use Rattle.ken_disk.specs.Story.{IsImage, blank};
ghost use Rattle.ken_disk.specs.Steps.{written, made_safe, goes_to};
ghost use Rattle.ken_memdisk.specs.Picks.{picked};
ghost use Rattle.ken_memdisk.specs.Platters.{restart_at};

use crate::story::{Step, Story};
use crate::{bytes, picks};
use ken_disk::MAX_LEN;
use std::alloc::{AllocError, Global};
use std::marker::Model;

#[derive(Debug, Drop)]
pub(crate) struct Platter {
    alloc: Global,
    // What a read gives.
    seen: Vec<u8>,
    synced: Vec<u8>,
    // The start and length of each range that was written since the last sync or restart, oldest first.
    ranges: Vec<(u64, u64)>,
    story: Story,
}

impl Model for Platter {
    ghost use Rattle.std.specs.Prelude.{nat_le, vec_len, vec_capacity};
    ghost use Rattle.ken_memdisk.specs.Disks.{Held};
    ghost use Rattle.ken_memdisk.specs.Platters.{IsKept};

    ghost Value = { Held };

    ghost view = { λ p. record { story = p.story.told; ready = nat_le (vec_len p.seen) (vec_capacity p.synced) } };

    ghost invariant = { λ p. IsKept p.seen.items p.synced.items p.ranges.items p.story.told.now };
}

// Takes memory for `len` bytes in all.
fn reserve_to(bytes: &mut Vec<u8>, len: usize) -> Result<(), AllocError>
    ensures items { bytes.new.items ≡ bytes.old.items }
    ensures capacity { vec_capacity bytes.old ≤ vec_capacity bytes.new }
    ensures ok { OnOk result (len ≤ vec_capacity bytes.new) }
    ensures err { OnErr result (vec_capacity bytes.old < len) }
{
    bytes.reserve(len.saturating_sub(bytes.len()))
}

impl Platter {
    pub(crate) fn new(alloc: Global) -> Self
        ensures { result.story ≡ blank }
    {
        Platter {
            alloc,
            seen: Vec::new(alloc),
            synced: Vec::new(alloc),
            ranges: Vec::new(alloc),
            story: Story::new(),
        }
    }

    pub(crate) fn len(&self) -> u64
        ensures { result ≡ length self.now.story.now.seen }
    {
        self.seen.len() as u64
    }

    pub(crate) fn read(&self, at: u64, buf: &mut [u8])
        requires { at + length buf.old ≤ length self.now.story.now.seen }
        ensures { buf.new ≡ take (length buf.old) (drop at self.now.story.now.seen) }
    {
        let at = at as usize;
        buf.copy_from_slice(&self.seen[at..at + buf.len()]);
    }

    // Writes `bytes` from the place `at` on, and takes the memory that the next sync needs.
    pub(crate) fn write(&mut self, at: u64, bytes: &[u8]) -> Result<(), AllocError>
        requires place { at ≤ length self.old.story.now.seen }
        requires end { at + length bytes.now ≤ MAX_LEN }
        ensures ok { OnOk result (self.new.story ≡ goes_to (written at bytes.now self.old.story.now) self.old.story) }
        ensures ready { OnOk result (self.new.ready ≡ true) }
        ensures err { OnErr result (self.new.story ≡ self.old.story) }
    {
        let end = at as usize + bytes.len();
        self.ranges.reserve(1)?;
        reserve_to(&mut self.seen, end)?;
        reserve_to(&mut self.synced, self.seen.len().max(end))?;
        bytes::lay_over(&mut self.seen, at as usize, bytes);
        self.ranges.push((at, bytes.len() as u64)).unwrap();
        self.story = self.story.then(&Step::Wrote(at, bytes));
        Ok(())
    }

    // Takes the memory that a sync needs.
    pub(crate) fn make_ready(&mut self) -> Result<(), AllocError>
        ensures story { self.new.story ≡ self.old.story }
        ensures ready { OnOk result (self.new.ready ≡ true) }
        ensures err { OnErr result (self.old.ready ≡ false) }
    {
        reserve_to(&mut self.synced, self.seen.len())
    }

    pub(crate) fn make_safe(&mut self)
        requires { self.old.ready ≡ true }
        ensures { self.new.story ≡ goes_to (made_safe self.old.story.now) self.old.story }
    {
        bytes::catch_up(&self.seen, &mut self.synced, &self.ranges);
        self.ranges.clear();
        self.story = self.story.then(&Step::Synced);
    }

    pub(crate) fn restart(&mut self, pick: u64) -> Result<(), AllocError>
        ensures ok { OnOk result (self.new.story ≡ restart_at pick self.old.story) }
        ensures image { OnOk result (IsImage self.old.story.now (picked pick self.old.story.now)) }
        ensures bytes { OnOk result (IsBytes (picked pick self.old.story.now)) }
        ensures err { OnErr result (self.new.story ≡ self.old.story) }
    {
        let image = picks::image(self.alloc, pick, &self.seen, &self.synced, &self.ranges)?;
        reserve_to(&mut self.synced, image.len())?;
        bytes::refill(&mut self.synced, &image);
        self.seen = image;
        self.ranges.clear();
        self.story = self.story.then(&Step::Restarted(pick));
        Ok(())
    }
}
