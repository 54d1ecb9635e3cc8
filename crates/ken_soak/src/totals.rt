// What the nodes of a run came to.
ghost use Rattle.std.specs.Prelude.{◌≡◌, ◌==◌, if◌then◌else◌, length, map, IfOk};
ghost use Rattle.ken_soak.specs.Totals.{AreTotalsOf, HaveCounted, HaveRoom, at_root, turns_at};

use ken_gen::NodeTotal;
use ken_model::{Lines, TurnLine, Value};
use std::alloc::{AllocError, Global};

/// What each node of a run came to: its turns, counted by their lines, and the root of its heap.
pub(crate) fn totals_of(alloc: Global, lines: &Lines) -> Result<Vec<NodeTotal>, AllocError>
    ensures { IfOk result (λ totals. AreTotalsOf lines.now totals.items) }
{
    let mut totals = at_roots(alloc, lines.heaps.as_slice())?;
    count_turns(&mut totals, lines.turns.as_slice());
    Ok(totals)
}

/// A node for each heap, with its root and no turns yet.
fn at_roots(alloc: Global, heaps: &[Value]) -> Result<Vec<NodeTotal>, AllocError>
    ensures { IfOk result (λ totals. totals.items ≡ map at_root heaps.now) }
{
    let mut totals = Vec::new(alloc);
    for heap in heaps {
        totals.push(NodeTotal {
            turns: 0,
            root: heap.root,
        })?;
    }
    Ok(totals)
}

/// Counts turns, each for its node; those of any other node count nothing.
fn count_turns(totals: &mut [NodeTotal], turns: &[TurnLine])
    requires room { HaveRoom (length turns.now) totals.old }
    ensures { HaveCounted (λ v. turns_at v turns.now) totals.old totals.new }
{
    for turn in turns {
        count_turn(totals, turn.step.node);
    }
}

/// Counts a turn of a node, if it is one of these.
fn count_turn(totals: &mut [NodeTotal], node: u8)
    requires room { HaveRoom 1 totals.old }
    ensures { HaveCounted (λ v. if node == v then 1 else 0) totals.old totals.new }
{
    if usize::from(node) < totals.len() {
        totals[usize::from(node)].turns += 1;
    }
}
