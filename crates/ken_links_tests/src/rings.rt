// A ring whose ends lie with two threads.
ghost use Rattle.std.specs.Prelude.{◌≡◌, ◌+◌, ◌≤◌};
ghost use Rattle.ken_links.specs.Rings.{free, SamePushEnd};

use ken_links::{PopEnd, PushEnd, ring};
use std::alloc::{AllocError, Global};
use std::sync::Wait;
use std::thread;
use std::thread::Threads;

const RUNS: u64 = 100;

// As many as a ring holds.
const ITEMS: u64 = 64;

// How often one pops at most.
const POPS: u32 = 1_000_000;

// Pushes the numbers from 0 on, so many of them.
fn push_numbers(push: &mut PushEnd<u64>, count: u64)
    requires { count ≤ free push.old }
    ensures end { SamePushEnd push.old push.new }
    ensures free { free push.old ≡ free push.new + count }
{
    for number in 0..count {
        push.push(number);
    }
}

// Pops until so many numbers came, and tells how many came in order from 0 on.
fn pop_numbers(mut pop: PopEnd<u64>, count: u64) -> u64 {
    let mut next = 0;
    for _ in 0..POPS {
        match pop.pop() {
            Some(number) if number == next => next += 1,
            Some(_) => return next,
            None => thread::yield_now(),
        }
        if next == count {
            break;
        }
    }
    next
}

// How many numbers one thread pops that another pushes.
fn popped<R: Threads + Wait + Sync>(rt: &R, alloc: Global) -> Result<u64, AllocError> {
    let (push, pop) = ring(alloc)?;
    let mut push = push;
    let (_, popped) = thread::join(
        rt,
        move ||
            requires { 64 ≤ free push }
        { push_numbers(&mut push, ITEMS) },
        move || pop_numbers(pop, ITEMS),
    );
    Ok(popped)
}

#[test]
fn what_one_thread_pushes_another_pops(rt: HostRuntime) -> Result<(), AllocError> {
    for _ in 0..RUNS {
        assert_eq!(rt; popped(&rt, rt.alloc())?, ITEMS);
    }
    Ok(())
}
