// A wire made whole, and closed.
ghost use Rattle.std.specs.Prelude.{◌≡◌, [], map, length, IfOk};
ghost use Rattle.ken_wire.specs.Ends.{sent_of, taker_of, heard_of, heard_in, sents_in, IsWire, AreNew, Carried, WasHandedIn};

use crate::send_end::SendEnd;
use crate::take_end::TakeEnd;
use std::alloc::{AllocError, Global};

/// A queue of packets from all nodes to one, which holds at most 64.
pub struct Wire;

/// A wire whose ends are all back. What it still holds is lost.
#[derive(Drop)]
pub struct Closed {
    pub(crate) take: TakeEnd,
}

impl Wire {
    /// A new wire to the node `to`, with a sending end for each of so many nodes, by number, and the taking end.
    pub fn pair(alloc: Global, to: u8, nodes: u8) -> Result<(Vec<SendEnd>, TakeEnd), AllocError>
        ensures wire { IfOk result (λ r. IsWire r.0.items r.1) }
        ensures count { IfOk result (λ r. (length r.0.items ≡ nodes) × (taker_of r.1 ≡ to)) }
        ensures new { IfOk result (λ r. AreNew r.0.items × (heard_of r.1 ≡ [])) }
    {
        let mut take = TakeEnd::new(alloc, to)?;
        let mut sends = Vec::with_capacity(alloc, usize::from(nodes))?;
        for _node in 0..nodes {
            sends.push(take.seat()?)?;
        }
        Ok((sends, take))
    }
}

/// Takes all ends of a wire back, and tells what it carried: of each node the packets heard, and then those that were lost
/// in the queue, are just its puts, in order, and there are no others. Takes no memory.
pub fn close(sends: Vec<SendEnd>, mut take: TakeEnd) -> Closed
    requires { IsWire sends.items take }
    ensures closed { (heard_in result ≡ heard_of take) × (sents_in result ≡ map sent_of sends.items) }
    ensures carried { Carried (taker_of take) (map sent_of sends.items) (heard_of take) }
    ensures heard { WasHandedIn (taker_of take) (map sent_of sends.items) (heard_of take) }
{
    for end in sends {
        take.join(end);
    }
    take.total();
    Closed { take }
}
