// Blocks by the bytes that they begin with.
ghost use Rattle.std.specs.Prelude.{◌≡◌, ◌+◌, ◌<◌, ◌≤◌, ◌^◌, length, bytes_eq};
ghost use Rattle.ken_model.specs.Layout.{StandsFor, part};
ghost use Rattle.ken_model.specs.Reading.{value_of};
ghost use Rattle.ken_alloc.specs.Objects.{has_front, place_of_front};
ghost use Rattle.ken_alloc.specs.Walk.{page_rest};

use crate::{head, walk};
use ken_model::{CELLS, HEAD};
use ken_pages::PageHeap;

// Whether these bytes stand from a place on.
fn stand(pages: &PageHeap, at: u64, bytes: &[u8]) -> bool
    requires within { at + length bytes.now ≤ length pages.now.bytes }
    requires small { length pages.now.bytes < 2 ^ 32 }
    ensures { result ≡ bytes_eq (part at (length bytes.now) pages.now.bytes) bytes.now }
{
    let mut done = 0;
    while done < bytes.len() {
        let rest = pages.rest(at + done as u64);
        let count = rest.len().min(bytes.len() - done);
        if rest[..count] != bytes[done..done + count] {
            return false;
        }
        done += count;
    }
    true
}

// Whether bytes that are longer than the key begin with it and then the byte.
fn has_front(bytes: &[u8], key: &[u8], behind: u8) -> bool
    requires { length key.now < length bytes.now }
    ensures { result ≡ has_front key.now behind bytes.now }
{
    bytes[key.len()] == behind && &bytes[..key.len()] == key
}

// Whether the block of a cell does. `rest` are the bytes from the cell's beginning on, up to the end of their page.
fn begins(pages: &PageHeap, rest: &[u8], at: u64, len: u32, key: &[u8], behind: u8) -> bool
    requires rest { rest.now ≡ page_rest at pages.now.bytes }
    requires within { at + 16 + len ≤ length pages.now.bytes }
    requires small { length pages.now.bytes < 2 ^ 32 }
    ensures { result ≡ has_front key.now behind (part (at + 16) len pages.now.bytes) }
{
    let count = key.len();
    if len as usize <= count {
        return false;
    }
    let head = HEAD as usize;
    if head + count < rest.len() {
        return has_front(&rest[head..], key, behind);
    }
    let place = at + HEAD;
    pages.rest(place + count as u64)[0] == behind && stand(pages, place, key)
}

// The place of the first block that begins with the key and then the byte.
pub(crate) fn find(pages: &PageHeap, key: &[u8], behind: u8) -> Option<u64>
    requires { StandsFor pages.now.bytes (value_of pages.now.bytes) }
    ensures { result ≡ place_of_front key.now behind (value_of pages.now.bytes).blocks }
{
    let size = head::size(pages);
    let mut at = CELLS;
    let mut rest = pages.rest(CELLS);
    while at < size {
        let cell = head::of(rest);
        if begins(pages, rest, at, cell.len, key, behind) {
            return Some(at + HEAD);
        }
        let span = u64::from(cell.span);
        rest = walk::past(pages, rest, at, span);
        at += span;
    }
    None
}
