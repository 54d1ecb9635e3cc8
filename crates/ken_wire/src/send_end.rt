ghost use Rattle.std.specs.Prelude.{◌≡◌, true};
ghost use Rattle.std.specs.Arc.{arc_value};
ghost use Rattle.crossbeam_queue.specs.Passes.{view, IsPassOf, ruled_capacity};
ghost use Rattle.ken_wire.specs.Aims.{all_go_to};

use crate::rule::{Puts, Queue};
use crate::view::View;
use crossbeam_queue::Pass;
use ken_model::Octets;
use ken_net::Handed;
use std::alloc::Global;
use std::sync::{Arc, Wait};

/// The end of a wire by which one node puts packets for another. It may lie with any thread.
#[derive(Drop)]
pub struct SendEnd {
    queue: Arc<Queue, Global>,
    pub(crate) pass: Pass<Octets, View>,
    from: u8,
    to: u8,
    refused: u64,
    ghost tied: { IsPassOf (arc_value queue) pass },
    ghost size: { ruled_capacity (arc_value queue) ≡ 64 },
    ghost sends: { (view pass).sends ≡ true },
    ghost node: { (view pass).from ≡ from },
    ghost aimed: { all_go_to to (view pass).sent.put ≡ true },
}

impl SendEnd {
    ghost use Rattle.std.specs.Prelude.{◌≡◌, OnOk, IfErr, MatchResult};
    ghost use Rattle.std.specs.Arc.{arc_value};
    ghost use Rattle.crossbeam_queue.specs.Passes.{view, IsPassOf, ruled_capacity};
    ghost use Rattle.ken_net.specs.Counts.{risen};
    ghost use Rattle.ken_net.specs.Puts.{MayPut};
    ghost use Rattle.ken_wire.specs.Views.{after_put, sending, nothing};
    ghost use Rattle.ken_wire.specs.Ends.{from_of, to_of, sent_of, refused_by, SameSender};

    pub(crate) fn new(queue: Arc<Queue, Global>, pass: Pass<Octets, View>, from: u8, to: u8) -> Self
        requires tied { IsPassOf (arc_value queue) pass }
        requires size { ruled_capacity (arc_value queue) ≡ 64 }
        requires begun { view pass ≡ sending from nothing }
        ensures { (result.pass ≡ pass) × (result.from ≡ from) × (result.to ≡ to) × (result.refused ≡ 0) }
    {
        SendEnd {
            queue,
            pass,
            from,
            to,
            refused: 0,
        }
    }

    /// Puts a packet behind those in the wire. It must be one of this end's node for the wire's node, a mail or an
    /// acknowledgement that stands in what `H` hands in. Where the wire was full at a moment of the call, the packet comes
    /// back and nothing was put, which is counted.
    pub fn put<H: Handed, R: Wait>(&mut self, rt: &R, bytes: Octets) -> Result<(), Octets>
        requires { MayPut (from_of self.old) (to_of self.old) H.sealed H.consumed bytes }
        ensures end { SameSender self.old self.new }
        ensures put { OnOk result (sent_of self.new ≡ after_put H.sealed H.consumed bytes (sent_of self.old)) }
        ensures full { IfErr result (λ back. (back ≡ bytes) × (sent_of self.new ≡ sent_of self.old)) }
        ensures counted { MatchResult result (λ _. refused_by self.new ≡ refused_by self.old) (λ _. refused_by self.new ≡ risen (refused_by self.old)) }
    {
        let answer = self.queue.push_as::<Puts<H>, R>(rt, &mut self.pass, bytes);
        if answer.is_err() {
            self.refused = self.refused.saturating_add(1);
        }
        answer
    }

    pub(crate) fn into_pass(self) -> Pass<Octets, View>
        ensures { result ≡ self.pass }
    {
        self.pass
    }

    /// The node that puts by this end.
    pub fn from(&self) -> u8
        ensures { result ≡ from_of self.now }
    {
        self.from
    }

    /// The node that the wire goes to.
    pub fn to(&self) -> u8
        ensures { result ≡ to_of self.now }
    {
        self.to
    }

    /// How many packets came back from `put`. The count never falls, and stands still at 2^64 - 1.
    pub fn refused(&self) -> u64
        ensures { result ≡ refused_by self.now }
    {
        self.refused
    }
}
