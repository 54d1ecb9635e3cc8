// The same packets through the queue that a wire stands on.
use crate::mail::mail;
use crate::threads::{Puts, Takes, through};
use crossbeam_queue::ArrayQueue;
use ken_model::{Octets, TryClone};
use ken_wire::MAX_WIRE;
use std::alloc::{AllocError, Global};
use std::sync::Wait;
use std::thread::Threads;

#[derive(Drop)]
struct BarePut<'a> {
    queue: &'a ArrayQueue<Octets>,
    packet: Octets,
}

impl Puts for BarePut<'_> {
    fn try_put<R: Wait>(&mut self, rt: &R, alloc: Global) -> Result<bool, AllocError> {
        let packet = self.packet.try_clone(alloc)?;
        Ok(self.queue.push(rt, packet).is_ok())
    }
}

#[derive(Drop)]
struct BareTake<'a> {
    queue: &'a ArrayQueue<Octets>,
}

impl Takes for BareTake<'_> {
    fn try_take<R: Wait>(&mut self, rt: &R) -> bool {
        self.queue.pop(rt).is_some()
    }
}

/// Puts so many packets into a bare queue by each of so many senders, and says how many were taken.
pub(crate) fn through_bare_queue<R: Threads + Wait + Sync>(
    rt: &R,
    alloc: Global,
    senders: u8,
    each: u64,
) -> Result<u64, AllocError> {
    let queue = ArrayQueue::new(alloc, MAX_WIRE)?;
    let mut puts = Vec::new(alloc);
    for _ in 0..senders {
        puts.push(BarePut {
            queue: &queue,
            packet: mail(alloc, 1, 0)?,
        })?;
    }
    let mut take = BareTake { queue: &queue };
    Ok(through(rt, alloc, puts.as_mut_slice(), &mut take, each))
}
