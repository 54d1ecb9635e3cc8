// What a crash leaves of a disk, by a pick.
ghost use Rattle.std.specs.Prelude.{◌≡◌, ◌≤◌, ◌-◌, ◌++◌, reverse, replicate, length, IfOk};
ghost use Rattle.std.specs.List.Sorted.{IsPermutation, IsNonDecreasingBy};
ghost use Rattle.ken_memdisk.specs.Picks.{drawn, after_draw, draw_places, image_of, torn};

use ken_disk::MAX_LEN;
use ken_num::Lcg;
use std::alloc::{AllocError, Global};

// The image of a pick. The ranges are those that were written since the last sync.
pub(crate) fn image(
    alloc: Global,
    pick: u64,
    seen: &[u8],
    synced: &[u8],
    ranges: &[(u64, u64)],
) -> Result<Vec<u8>, AllocError>
    requires within { length synced.now ≤ length seen.now }
    requires bound { length seen.now ≤ MAX_LEN }
    ensures { IfOk result (λ image. image.items ≡ image_of seen.now synced.now (reverse ranges.now) pick) }
{
    match pick {
        0 => Vec::from_slice(alloc, seen),
        1 => Vec::from_slice(alloc, synced),
        _ => torn(alloc, pick, seen, synced, ranges),
    }
}

// A torn image, by the generator that the pick starts.
fn torn(
    alloc: Global,
    pick: u64,
    seen: &[u8],
    synced: &[u8],
    ranges: &[(u64, u64)],
) -> Result<Vec<u8>, AllocError>
    requires within { length synced.now ≤ length seen.now }
    requires bound { length seen.now ≤ MAX_LEN }
    ensures { IfOk result (λ image. image.items ≡ torn seen.now synced.now (reverse ranges.now) pick) }
{
    let mut words = Lcg::new(pick);
    let open = (seen.len() - synced.len() + 1) as u64;
    let len = synced.len() + (words.next() % open) as usize;
    let ranges = by_start(alloc, ranges)?;
    let mut image = filled_up(alloc, synced, len)?;
    draw_ranges(&mut words, &mut image, seen, &ranges);
    Ok(image)
}

// The ranges, with their starts rising.
fn by_start(alloc: Global, ranges: &[(u64, u64)]) -> Result<Vec<(u64, u64)>, AllocError>
    ensures same { IfOk result (λ sorted. IsPermutation ranges.now sorted.items) }
    ensures rising { IfOk result (λ sorted. IsNonDecreasingBy (λ range. range.0) sorted.items) }
{
    let mut sorted = Vec::from_slice(alloc, ranges)?;
    sorted.sort_unstable_by_key(|range| range.0);
    Ok(sorted)
}

// The bytes, and zeros behind them up to that length.
fn filled_up(alloc: Global, bytes: &[u8], len: usize) -> Result<Vec<u8>, AllocError>
    requires { length bytes.now ≤ len }
    ensures { IfOk result (λ all. all.items ≡ bytes.now ++ replicate (len - length bytes.now) 0) }
{
    let mut all = Vec::with_capacity(alloc, len)?;
    all.extend_from_slice(bytes)?;
    all.resize(len, 0)?;
    Ok(all)
}

// Draws each place of the image that is in one of the ranges, in rising order. The image has the safe bytes.
fn draw_ranges(words: &mut Lcg, image: &mut [u8], seen: &[u8], ranges: &[(u64, u64)])
    requires len { length image.old ≤ length seen.now }
    requires rising { IsNonDecreasingBy (λ range. range.0) ranges.now }
    ensures { image.new ≡ (draw_places seen.now image.old ranges.now words.old (length image.old)).bytes }
{
    let len = image.len();
    let mut next: usize = 0;
    for range in ranges {
        let from = next.max(range.0 as usize).min(len);
        let end = range.0.saturating_add(range.1).min(len as u64) as usize;
        let to = from.max(end);
        for place in from..to {
            image[place] = draw(words, image[place], seen[place]);
        }
        next = to;
    }
}

// The byte that the next answer gives a written place.
fn draw(words: &mut Lcg, safe: u8, new: u8) -> u8
    ensures byte { result ≡ drawn safe new words.old }
    ensures generator { words.new ≡ after_draw words.old }
{
    match words.next() % 3 {
        0 => safe,
        1 => new,
        _ => (words.next() % 256) as u8,
    }
}
