// Packets through a wire to one node.
ghost use Rattle.std.specs.Prelude.{◌≡◌, ◌<◌, true};
ghost use Rattle.ken_packet.specs.Reading.{packet_of};
ghost use Rattle.ken_net.specs.Puts.{MayPut, is_between};
ghost use Rattle.ken_wire.specs.Ends.{from_of, to_of, SameSender};

use crate::mail::mail;
use crate::threads::{Puts, Takes, through};
use ken_model::{MAX_NODES, Octets, TryClone};
use ken_net::{Handed, what_may_be_put};
use ken_wire::{SendEnd, TakeEnd, Wire};
use std::alloc::{AllocError, Global};
use std::marker::Brand;
use std::sync::Wait;
use std::thread::Threads;

// A sending end with a packet of its own.
#[derive(Drop)]
struct WirePut {
    end: SendEnd,
    packet: Octets,
    ghost own: { is_between (from_of end) (to_of end) (packet_of packet) ≡ true },
}

fn put_as<H: Handed, R: Wait>(rt: &R, end: &mut SendEnd, bytes: Octets) -> bool
    requires { MayPut (from_of end.old) (to_of end.old) H.sealed H.consumed bytes }
    ensures { SameSender end.old end.new }
{
    end.put::<H, R>(rt, bytes).is_ok()
}

fn put_own<R: Wait>(rt: &R, end: &mut SendEnd, bytes: Octets) -> bool
    requires { is_between (from_of end.old) (to_of end.old) (packet_of bytes) ≡ true }
    ensures { SameSender end.old end.new }
{
    what_may_be_put();
    put_as::<Brand, R>(rt, end, bytes)
}

impl Puts for WirePut {
    fn try_put<R: Wait>(&mut self, rt: &R, alloc: Global) -> Result<bool, AllocError> {
        let packet = self.packet.try_clone(alloc)?;
        Ok(put_own(rt, &mut self.end, packet))
    }
}

impl Takes for TakeEnd {
    fn try_take<R: Wait>(&mut self, rt: &R) -> bool {
        self.take(rt).is_some()
    }
}

fn sending(alloc: Global, ends: Vec<SendEnd>) -> Result<Vec<WirePut>, AllocError> {
    let mut puts = Vec::with_capacity(alloc, ends.len())?;
    for end in ends {
        if end.from() < MAX_NODES && end.to() < MAX_NODES {
            let packet = mail(alloc, end.from(), end.to())?;
            puts.push(WirePut { end, packet })?;
        }
    }
    Ok(puts)
}

/// Puts so many packets into a wire by each of so many senders, and says how many were taken.
pub(crate) fn through_wire<R: Threads + Wait + Sync>(
    rt: &R,
    alloc: Global,
    senders: u8,
    each: u64,
) -> Result<u64, AllocError> {
    let (ends, mut take) = Wire::pair(alloc, 0, senders)?;
    let mut puts = sending(alloc, ends)?;
    Ok(through(rt, alloc, puts.as_mut_slice(), &mut take, each))
}
