// Heads of cells in pages.
ghost use Rattle.std.specs.Prelude.{◌≡◌, ◌+◌, ◌%◌, ◌≤◌, length, drop, IsSome, OnOk, OnErr, IsOk};
ghost use Rattle.byteorder.specs.Endian.{big_number};
ghost use Rattle.ken_frame.specs.Written.{written};
ghost use Rattle.ken_model.specs.Layout.{head_bytes};
ghost use Rattle.ken_alloc.specs.Frames.{HasMoreSpare, frames_of, lacks, taken};

use byteorder::{BigEndian, ByteOrder};
use ken_model::{Head, PAGE};
use ken_pages::PageHeap;
use std::alloc::AllocError;

// The size of a heap in bytes.
pub(crate) fn size(pages: &PageHeap) -> u64
    ensures { result ≡ length pages.now.bytes }
{
    u64::from(pages.pages()) * PAGE
}

// The numbers of the head that these bytes begin with.
pub(crate) fn of(bytes: &[u8]) -> Head
    requires { 8 ≤ length bytes.now }
    ensures span { result.span ≡ big_number 4 bytes.now }
    ensures len { result.len ≡ big_number 4 (drop 4 bytes.now) }
{
    Head {
        span: BigEndian::read_u32(bytes),
        len: BigEndian::read_u32(&bytes[4..]),
    }
}

// The numbers that stand where a head is.
pub(crate) fn read(pages: &PageHeap, at: u64) -> Head
    requires even { at % 16 ≡ 0 }
    requires within { at + 16 ≤ length pages.now.bytes }
    ensures span { result.span ≡ big_number 4 (drop at pages.now.bytes) }
    ensures len { result.len ≡ big_number 4 (drop (at + 4) pages.now.bytes) }
{
    of(pages.rest(at))
}

// Writes a head. After an error no byte has changed.
pub(crate) fn write(pages: &mut PageHeap, at: u64, head: Head) -> Result<(), AllocError>
    requires begun { IsSome pages.old.begun }
    requires within { at + 16 ≤ length pages.old.bytes }
    ensures bytes { OnOk result (pages.new.bytes ≡ written pages.old.bytes at (head_bytes head.span head.len)) }
    ensures begun { pages.new.begun ≡ pages.old.begun }
    ensures unchanged { OnErr result (pages.new.bytes ≡ pages.old.bytes) }
    ensures frames { OnOk result (frames_of pages.new ≡ taken at 16 (frames_of pages.old)) }
    ensures covered { lacks at 16 (frames_of pages.old) ≤ pages.old.spare → IsOk result }
    ensures more { OnErr result (HasMoreSpare (frames_of pages.old) (frames_of pages.new)) }
{
    pages.write(at, &head.bytes())
}
