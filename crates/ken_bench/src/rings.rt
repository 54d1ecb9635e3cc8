// Items through a ring between two workers, whose ends lie in one thread.
ghost use Rattle.std.specs.Prelude.{◌≡◌, ◌+◌, ◌<◌, ◌≤◌, ◌^◌, length, vec_len, IfOk, OnOk};
ghost use Rattle.ken_links.specs.Rings.{pushed, free, SamePushEnd};
ghost use Rattle.ken_bench.specs.Rings.{IsEmptied};

use ken_links::{PopEnd, PushEnd, SLOTS, empty, ring};
use std::alloc::{AllocError, Global};

/// As many items as a worker pushes in a round.
pub(crate) const ROUND: u64 = 48;

// Pushes the numbers from `first` on, so many of them.
fn push_all(push: &mut PushEnd<u64>, first: u64, count: u64)
    requires free { count ≤ free push.old }
    requires last { first + count < 2 ^ 64 }
    ensures end { SamePushEnd push.old push.new }
    ensures pushed { length (pushed push.new) ≡ length (pushed push.old) + count }
    ensures free { free push.old ≡ free push.new + count }
{
    for place in 0..count {
        push.push(first + place);
    }
}

// Pushes so many numbers, and moves them to a list, which holds them alone.
fn round(
    push: &mut PushEnd<u64>,
    pop: &mut PopEnd<u64>,
    list: &mut Vec<u64>,
    first: u64,
    count: u64,
) -> Result<(), AllocError>
    requires emptied { IsEmptied push.old pop.old }
    requires count { count ≤ 64 }
    requires last { first + count < 2 ^ 64 }
    ensures emptied { OnOk result (IsEmptied push.new pop.new) }
    ensures moved { OnOk result (vec_len list.new ≡ count) }
{
    list.clear();
    push_all(push, first, count);
    empty(push, pop, list)
}

/// Sends so many items through a ring, in rounds of 48, and says how many came out.
pub(crate) fn through_ring(alloc: Global, items: u64) -> Result<u64, AllocError>
    ensures { IfOk result (λ moved. moved ≡ items) }
{
    let (mut push, mut pop) = ring(alloc)?;
    let mut list = Vec::with_capacity(alloc, SLOTS)?;
    let mut moved = 0;
    for _ in 0..items / ROUND {
        round(&mut push, &mut pop, &mut list, moved, ROUND)?;
        moved += list.len() as u64;
    }
    round(&mut push, &mut pop, &mut list, moved, items % ROUND)?;
    Ok(moved + list.len() as u64)
}
