// The ends of the wires to all nodes, node by node.
ghost use Rattle.std.specs.Prelude.{◌≡◌, ◌+◌, ◌<◌, ℕ, length, IfOk, OnOk};
ghost use Rattle.ken_wire.specs.Nets.{AreFrom};
ghost use Rattle.ken_wire.specs.Rounds.{AreNext, AreUnused, HaveBack, IsSeated, IsBackAt, AtEach, MayComeBack};

use crate::send_end::SendEnd;
use crate::take_end::TakeEnd;
use std::alloc::{AllocError, Global};

/// The taking ends of new wires to each of so many nodes, by number.
pub fn takers(alloc: Global, nodes: u8) -> Result<Vec<TakeEnd>, AllocError>
    ensures count { IfOk result (λ takes. length takes.items ≡ nodes) }
    ensures next { IfOk result (λ takes. AreNext 0 takes.items) }
    ensures new { IfOk result (λ takes. AreUnused takes.items) }
{
    let mut takes = Vec::with_capacity(alloc, usize::from(nodes))?;
    for to in 0..nodes {
        takes.push(TakeEnd::new(alloc, to)?)?;
    }
    Ok(takes)
}

/// The sending ends of a node, one of each wire, by number. The wires must have those of the nodes before it, and no other.
/// After an error some wires may have one end more.
pub fn hand_out(alloc: Global, node: u8, takes: &mut [TakeEnd]) -> Result<Vec<SendEnd>, AllocError>
    requires few { node < 255 }
    requires next { AreNext node takes.old }
    ensures count { IfOk result (λ ends. (length ends.items ≡ length takes.old) × (length takes.new ≡ length takes.old)) }
    ensures next { OnOk result (AreNext (node + 1) takes.new) }
    ensures own { IfOk result (λ ends. AreFrom node ends.items) }
    ensures seated { IfOk result (λ ends. AtEach IsSeated takes.old takes.new ends.items) }
{
    let mut ends = Vec::with_capacity(alloc, takes.len())?;
    for place in 0..takes.len() {
        ends.push(takes[place].seat()?)?;
    }
    Ok(ends)
}

/// Takes the sending ends of the next node back, one of each wire, by number.
pub fn take_back(takes: &mut [TakeEnd], mut ends: Vec<SendEnd>)
    requires count { length ends.items ≡ length takes.old }
    requires next { MayComeBack takes.old ends.items }
    ensures count { length takes.new ≡ length takes.old }
    ensures back { AtEach IsBackAt takes.old takes.new ends.items }
    ensures next { (back : ℕ) → HaveBack back takes.old → HaveBack (back + 1) takes.new }
{
    while let Some(end) = ends.pop() {
        takes[ends.len()].join(end);
    }
}
