ghost use Rattle.std.specs.Prelude.{◌≡◌, true};
ghost use Rattle.std.specs.Arc.{arc_value};
ghost use Rattle.crossbeam_queue.specs.Passes.{view, IsPassOf, ruled_capacity};
ghost use Rattle.ken_wire.specs.Aims.{all_sent_to};

use crate::rule::{Joins, Queue, Seats, Takes, Total};
use crate::send_end::SendEnd;
use crate::view::View;
use crossbeam_queue::Pass;
use ken_model::Octets;
use std::alloc::{AllocError, Global};
use std::sync::{Arc, Wait};

/// How many packets a wire holds at most.
pub const MAX_WIRE: usize = 64;

/// The end of a wire by which its node takes packets. It may lie with any thread. It makes the sending ends before the
/// first packet, and takes them back at the close.
#[derive(Drop)]
pub struct TakeEnd {
    queue: Arc<Queue, Global>,
    pub(crate) pass: Pass<Octets, View>,
    to: u8,
    made: u8,
    ghost tied: { IsPassOf (arc_value queue) pass },
    ghost size: { ruled_capacity (arc_value queue) ≡ 64 },
    ghost takes: { (view pass).takes ≡ true },
    ghost count: { (view pass).made ≡ made },
    ghost aimed: { all_sent_to to (view pass).joined ≡ true },
}

impl TakeEnd {
    ghost use Rattle.std.specs.Prelude.{◌≡◌, ◌+◌, ◌<◌, [], ◌∷◌, ◌++◌, length, IfOk, OnErr, MatchOption};
    ghost use Rattle.ken_wire.specs.Views.{nothing};
    ghost use Rattle.ken_wire.specs.Ends.{from_of, sent_of, refused_by, taker_of, heard_of, made_of, joined_of, SameTaker, IsEndOf, Carried, WasHandedIn};

    /// The taking end of a new wire to the node `to`, for which no sending end was made yet.
    pub fn new(alloc: Global, to: u8) -> Result<Self, AllocError>
        ensures { IfOk result (λ t. (taker_of t ≡ to) × (made_of t ≡ 0) × (heard_of t ≡ []) × (joined_of t ≡ [])) }
    {
        let (queue, pass) = Queue::ruled(alloc, MAX_WIRE)?;
        Ok(TakeEnd {
            queue: Arc::new(alloc, queue)?,
            pass,
            to,
            made: 0,
        })
    }

    /// Makes the sending end of the next node, of node 0 first. After an error there is none, and nothing has changed.
    pub fn seat(&mut self) -> Result<SendEnd, AllocError>
        requires { made_of self.old < 255 }
        ensures end { SameTaker self.old self.new × (heard_of self.new ≡ heard_of self.old) × (joined_of self.new ≡ joined_of self.old) }
        ensures made { IfOk result (λ e. IsEndOf self.new e × (from_of e ≡ made_of self.old) × (sent_of e ≡ nothing) × (made_of self.new ≡ made_of self.old + 1)) }
        ensures new { IfOk result (λ e. refused_by e ≡ 0) }
        ensures err { OnErr result (made_of self.new ≡ made_of self.old) }
    {
        let queue = Arc::try_clone(&self.queue)?;
        let pass = self.queue.another::<Seats>(&mut self.pass);
        let from = self.made;
        self.made = from + 1;
        Ok(SendEnd::new(queue, pass, from, self.to))
    }

    /// Takes the oldest packet in the wire. `None` only where the wire was empty at a moment of the call.
    pub fn take<R: Wait>(&mut self, rt: &R) -> Option<Octets>
        ensures end { SameTaker self.old self.new × (made_of self.new ≡ made_of self.old) × (joined_of self.new ≡ joined_of self.old) }
        ensures taken { MatchOption result (heard_of self.new ≡ heard_of self.old) (λ bytes. heard_of self.new ≡ heard_of self.old ++ bytes ∷ []) }
    {
        self.queue.pop_as::<Takes, R>(rt, &mut self.pass)
    }

    /// Takes the next node's sending end back, of node 0 first.
    pub fn join(&mut self, end: SendEnd)
        requires wire { IsEndOf self.old end }
        requires next { from_of end ≡ length (joined_of self.old) }
        ensures end { SameTaker self.old self.new × (made_of self.new ≡ made_of self.old) × (heard_of self.new ≡ heard_of self.old) }
        ensures joined { joined_of self.new ≡ joined_of self.old ++ sent_of end ∷ [] }
    {
        self.queue.absorb::<Joins>(&mut self.pass, end.into_pass());
    }

    /// Tells what the wire carried, once all sending ends are back.
    pub fn total(&mut self)
        requires { length (joined_of self.old) ≡ made_of self.old }
        ensures end { SameTaker self.old self.new × (made_of self.new ≡ made_of self.old) × (heard_of self.new ≡ heard_of self.old) × (joined_of self.new ≡ joined_of self.old) }
        ensures carried { Carried (taker_of self.old) (joined_of self.old) (heard_of self.old) }
        ensures heard { WasHandedIn (taker_of self.old) (joined_of self.old) (heard_of self.old) }
    {
        self.queue.learn_as::<Total>(&mut self.pass);
    }

    /// The node that the wire goes to.
    pub fn to(&self) -> u8
        ensures { result ≡ taker_of self.now }
    {
        self.to
    }
}
