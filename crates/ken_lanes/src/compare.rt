ghost use Rattle.std.specs.Prelude.{◌≡◌, ◌+◌, ◌≤◌, ◌↔◌, length, take, drop, IsTrue};
ghost use Rattle.ken_lanes.specs.Differences.{Agree, first_difference};

use std::simd::prelude::*;

// How many bytes are compared at once.
const LANES: usize = 32;

/// Whether two pages, or any two lists of bytes, are the same.
pub fn equal_page(a: &[u8], b: &[u8]) -> bool
    ensures { IsTrue result ↔ (a.now ≡ b.now) }
{
    first_difference(a, b).is_none()
}

/// The first place where two lists of bytes differ, which is where the shorter one ends if not before. None: they are the same.
pub fn first_difference(a: &[u8], b: &[u8]) -> Option<usize>
    ensures { result ≡ first_difference a.now b.now }
{
    let mut at = same_blocks(a, b);
    while at < a.len() && at < b.len() && a[at] == b[at] {
        at += 1;
    }
    if at == a.len() && at == b.len() {
        None
    } else {
        Some(at)
    }
}

// A number of bytes that both begin with, a multiple of what is compared at once.
fn same_blocks(a: &[u8], b: &[u8]) -> usize
    ensures { Agree result a.now b.now }
{
    let mut at = 0;
    while a.len() - at >= LANES && b.len() - at >= LANES && same_lanes(a, b, at) {
        at += LANES;
    }
    at
}

// Whether as many bytes as are compared at once, from a place on, are the same.
#[inline(always)]
fn same_lanes(a: &[u8], b: &[u8], at: usize) -> bool
    requires a { at + 32 ≤ length a.now }
    requires b { at + 32 ≤ length b.now }
    ensures { IsTrue result ↔ (take 32 (drop at a.now) ≡ take 32 (drop at b.now)) }
{
    let apart = u8x32::from_slice(&a[at..]).simd_ne(u8x32::from_slice(&b[at..]));
    apart.to_bitmask() == 0
}
