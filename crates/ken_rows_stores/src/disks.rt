// The three disks of a node, in memory.
ghost use Rattle.std.specs.Prelude.{IfOk};
ghost use Rattle.ken_disk.specs.Story.{IsAtRest};
ghost use Rattle.ken_store.specs.Answers.{AreAtRest};
ghost use Rattle.ken_rows_stores.specs.Stores.{told};

use ken_disk::{Disk, MAX_LEN, write_through};
use ken_memdisk::{Cut, MemDisk};
use ken_rows::{RowFault, Words};
use ken_store::{Disks, Store};
use std::alloc::Global;

pub(crate) type Three = Disks<MemDisk>;

pub(crate) type Kept = Store<MemDisk>;

/// Disks by three words: each is the call at which one without a byte fails, or else the bytes of one that doesn't.
pub(crate) fn read(alloc: Global, is_cut: bool, words: &mut Words<'_>) -> Result<Three, RowFault>
    ensures { IfOk result (λ disks. AreAtRest told disks) }
{
    Ok(Disks {
        log: disk(alloc, is_cut, words)?,
        image: disk(alloc, is_cut, words)?,
        second: disk(alloc, is_cut, words)?,
    })
}

fn disk(alloc: Global, is_cut: bool, words: &mut Words<'_>) -> Result<MemDisk, RowFault>
    ensures { IfOk result (λ disk. IsAtRest disk.held.story.now) }
{
    if is_cut {
        let call = words.number()?;
        return Ok(MemDisk::new(alloc, &[Cut { call, pick: 0 }])?);
    }
    let bytes = words.bytes(alloc)?;
    let mut disk = MemDisk::new(alloc, &[])?;
    if bytes.len() as u64 > MAX_LEN || write_through(&mut disk, 0, &bytes).is_err() {
        return Err(RowFault::Memory);
    }
    Ok(disk)
}

/// The disks after a crash that left this pick of each; without a pick, once they are synced.
pub(crate) fn rested(disks: Three, pick: Option<u64>) -> Result<Three, RowFault>
    ensures { IfOk result (λ disks. AreAtRest told disks) }
{
    Ok(Disks {
        log: at_rest(disks.log, pick)?,
        image: at_rest(disks.image, pick)?,
        second: at_rest(disks.second, pick)?,
    })
}

fn at_rest(mut disk: MemDisk, pick: Option<u64>) -> Result<MemDisk, RowFault>
    ensures { IfOk result (λ disk. IsAtRest disk.held.story.now) }
{
    match pick {
        Some(pick) => disk.restart(pick)?,
        None => disk.sync().map_err(|_| RowFault::Usage)?,
    }
    Ok(disk)
}
