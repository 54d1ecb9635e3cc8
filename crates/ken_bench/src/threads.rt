// Packets from several senders in threads to the one that takes them.
ghost use Rattle.std.specs.Prelude.{◌<◌};

use std::alloc::{AllocError, Global};
use std::sync::Wait;
use std::sync::atomic::{AtomicU64, Ordering};
use std::thread;
use std::thread::Threads;

/// An end by which packets are put.
pub(crate) trait Puts {
    /// Puts a packet where there is room, and says whether there was.
    fn try_put<R: Wait>(&mut self, rt: &R, alloc: Global) -> Result<bool, AllocError>;
}

/// An end by which packets are taken.
pub(crate) trait Takes {
    /// Takes a packet, and says whether there was one.
    fn try_take<R: Wait>(&mut self, rt: &R) -> bool;
}

// Puts a packet, once there is room for it.
fn put<R: Wait, P: Puts>(rt: &R, alloc: Global, end: &mut P) -> Result<(), AllocError> {
    for _ in rt.forever() {
        if end.try_put(rt, alloc)? {
            return Ok(());
        }
        thread::yield_now();
    }
    unreachable!()
}

// Puts so many packets, and says that it has ended. Where memory is wanting it puts no more.
fn put_all<R: Wait, P: Puts>(rt: &R, alloc: Global, end: &mut P, each: u64, ended: &AtomicU64) {
    for _ in 0..each {
        if put(rt, alloc, end).is_err() {
            break;
        }
    }
    ended.fetch_add(1, Ordering::SeqCst);
}

// Takes until all senders have ended and none is left, and says how many packets were taken.
fn take_all<R: Wait, T: Takes>(rt: &R, end: &mut T, senders: u64, ended: &AtomicU64) -> u64 {
    let mut taken: u64 = 0;
    let mut have_ended = false;
    for _ in rt.forever() {
        if end.try_take(rt) {
            taken = taken.saturating_add(1);
        } else if have_ended {
            return taken;
        } else {
            have_ended = ended.load(Ordering::SeqCst) >= senders;
            thread::yield_now();
        }
    }
    unreachable!()
}

fn put_in_threads<R: Threads + Wait + Sync, P: Puts + Send>(
    rt: &R,
    alloc: Global,
    ends: &mut [P],
    threads: usize,
    each: u64,
    ended: &AtomicU64,
)
    requires { 0 < threads }
{
    thread::for_each_mut(
        rt,
        ends,
        threads,
        &|_, end| { put_all(rt, alloc, end, each, ended) },
    );
}

// As many threads for senders as there are processors beside the one that takes, and at least one.
fn threads_of<R: Threads>(rt: &R) -> usize
    ensures { 0 < result }
{
    match thread::available_parallelism(rt) {
        Ok(processors) => processors.get().saturating_sub(1).max(1),
        Err(_) => 1,
    }
}

/// Puts so many packets by each of these ends, takes them by the other, and says how many were taken.
pub(crate) fn through<R: Threads + Wait + Sync, P: Puts + Send, T: Takes + Send>(
    rt: &R,
    alloc: Global,
    puts: &mut [P],
    take: &mut T,
    each: u64,
) -> u64 {
    let senders = puts.len() as u64;
    let threads = threads_of(rt);
    let ended = AtomicU64::new(0);
    let ((), taken) = thread::join(
        rt,
        || -> ()
            requires { 0 < threads }
        { put_in_threads(rt, alloc, puts, threads, each, &ended) },
        || take_all(rt, take, senders, &ended),
    );
    taken
}
