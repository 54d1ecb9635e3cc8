// Blocks of zeros, made in a gap.
ghost use Rattle.std.specs.Prelude.{◌≡◌, ◌+◌, ◌<◌, ◌≤◌, ◌^◌, length, replicate, IsSome, OnOk, OnErr, IsOk};
ghost use Rattle.ken_frame.specs.Written.{written};
ghost use Rattle.ken_model.specs.Heap.{rounded};
ghost use Rattle.ken_alloc.specs.Changes.{with_gap, with_zeros_at};
ghost use Rattle.ken_alloc.specs.Kept.{KeepsOutside};
ghost use Rattle.ken_alloc.specs.Frames.{LosesNone, frames_of, lacks, taken, gap_head, alloc_len};

use crate::head;
use crate::walk::Gap;
use ken_model::{HEAD, Head, rounded};
use ken_pages::PageHeap;
use std::alloc::AllocError;

const ZEROS: [u8; 64] = [0; 64];

// Writes zeros. After an error some of them may stand.
fn fill(pages: &mut PageHeap, at: u64, len: u64) -> Result<(), AllocError>
    requires begun { IsSome pages.old.begun }
    requires within { at + len ≤ length pages.old.bytes }
    requires small { length pages.old.bytes < 2 ^ 32 }
    ensures bytes { OnOk result (pages.new.bytes ≡ written pages.old.bytes at (replicate len 0)) }
    ensures others { KeepsOutside at (at + len) pages.old.bytes pages.new.bytes }
    ensures begun { pages.new.begun ≡ pages.old.begun }
    ensures frames { OnOk result (frames_of pages.new ≡ taken at len (frames_of pages.old)) }
    ensures covered { lacks at len (frames_of pages.old) ≤ pages.old.spare → IsOk result }
    ensures kept { LosesNone (frames_of pages.old) (frames_of pages.new) }
{
    let mut done = 0;
    while done < len {
        let part = (len - done).min(64);
        pages.write(at + done, &ZEROS[..part as usize])?;
        done += part;
    }
    Ok(())
}

// Writes the head of a gap, where there is one between the two places.
fn close(pages: &mut PageHeap, from: u64, to: u64) -> Result<(), AllocError>
    requires begun { IsSome pages.old.begun }
    requires order { from ≤ to }
    requires room { from < to → from + 16 ≤ to }
    requires within { to ≤ length pages.old.bytes }
    requires small { length pages.old.bytes < 2 ^ 32 }
    ensures bytes { OnOk result (pages.new.bytes ≡ with_gap from to pages.old.bytes) }
    ensures others { KeepsOutside from to pages.old.bytes pages.new.bytes }
    ensures begun { pages.new.begun ≡ pages.old.begun }
    ensures frames { OnOk result (frames_of pages.new ≡ taken from (gap_head from to) (frames_of pages.old)) }
    ensures covered { lacks from (gap_head from to) (frames_of pages.old) ≤ pages.old.spare → IsOk result }
    ensures kept { LosesNone (frames_of pages.old) (frames_of pages.new) }
{
    if from == to {
        return Ok(());
    }
    let gap = Head {
        span: (to - from) as u32,
        len: 0,
    };
    head::write(pages, from, gap)
}

// Makes a block of zeros at the beginning of the gap. Its head comes last: after an error the gap still stands.
pub(crate) fn carve(pages: &mut PageHeap, gap: Gap, len: u64) -> Result<(), AllocError>
    requires begun { IsSome pages.old.begun }
    requires some { 1 ≤ len }
    requires fits { gap.from + 16 + rounded len ≤ gap.to }
    requires rest { gap.from + 16 + rounded len < gap.to → gap.from + 32 + rounded len ≤ gap.to }
    requires within { gap.to ≤ length pages.old.bytes }
    requires small { length pages.old.bytes < 2 ^ 32 }
    ensures bytes { OnOk result (pages.new.bytes ≡ with_zeros_at (gap.from + 16) len gap.to pages.old.bytes) }
    ensures stays { OnErr result (KeepsOutside (gap.from + 16) gap.to pages.old.bytes pages.new.bytes) }
    ensures begun { pages.new.begun ≡ pages.old.begun }
    ensures frames { OnOk result
        (frames_of pages.new ≡ taken gap.from (alloc_len (gap.from + 16) len gap.to) (frames_of pages.old)) }
    ensures covered { lacks gap.from (alloc_len (gap.from + 16) len gap.to) (frames_of pages.old) ≤ pages.old.spare →
        IsOk result }
    ensures kept { LosesNone (frames_of pages.old) (frames_of pages.new) }
{
    let span = HEAD + rounded(len);
    close(pages, gap.from + span, gap.to)?;
    fill(pages, gap.from + HEAD, len)?;
    let block = Head {
        span: span as u32,
        len: len as u32,
    };
    head::write(pages, gap.from, block)
}
