// All nodes of a run, and what comes next on their links.
ghost use Rattle.std.specs.Prelude.{◌≡◌, ℕ, ◌+◌, ◌<◌, ◌≤◌, ◌^◌, None, [], length, map, option_copied, IfOk, IfSome, OnOk, IsErrOf, ◌↔◌};
ghost use Rattle.std.specs.List.{All};
ghost use Rattle.ken_model.specs.Game.{game_of};
ghost use Rattle.ken_model.specs.Limits.{IsWithinLimits};
ghost use Rattle.ken_model.specs.Network.{front, inputs_from};
ghost use Rattle.ken_actors.specs.Held.{held_at, link_of, taken_from, AreHeld};
ghost use Rattle.ken_actors.specs.Nodes.{held_of, new_node, IsGiven};
ghost use Rattle.ken_actors.specs.Next.{IsNext};

use crate::StepFault;
use crate::node::Node;
use ken_model::{Facts, Message, OUTSIDE, Step};
use std::alloc::{AllocError, Global};

/// The nodes at the start, each with its inputs.
pub(crate) fn start(alloc: Global, facts: &Facts) -> Result<Vec<Node>, AllocError>
    requires { IsWithinLimits (game_of facts.now) }
    ensures long { IfOk result (λ nodes. length nodes.items ≡ facts.now.nodes) }
    ensures given { IfOk result (λ nodes. (v : ℕ) → v < facts.now.nodes
        → held_at (map held_of nodes.items) v ≡ new_node facts.now.nodes (inputs_from v 0 facts.now.inputs)) }
{
    let mut nodes = fresh(alloc, facts.nodes)?;
    give_inputs(alloc, facts, &mut nodes)?;
    Ok(nodes)
}

/// Nodes that have made no turn, without their inputs.
fn fresh(alloc: Global, nodes: u8) -> Result<Vec<Node>, AllocError>
    ensures long { IfOk result (λ all. length all.items ≡ nodes) }
    ensures fresh { IfOk result (λ all. All (λ n. held_of n ≡ new_node nodes []) all.items) }
{
    let mut all = Vec::new(alloc);
    for _node in 0..nodes {
        all.push(Node::new(alloc, nodes)?)?;
    }
    Ok(all)
}

/// Gives each node its inputs, in order. After an error the nodes can't be used.
fn give_inputs(alloc: Global, facts: &Facts, nodes: &mut [Node]) -> Result<(), AllocError>
    requires limits { IsWithinLimits (game_of facts.now) }
    requires long { length nodes.old ≡ facts.now.nodes }
    requires fresh { All (λ n. held_of n ≡ new_node facts.now.nodes []) nodes.old }
    ensures { OnOk result ((v : ℕ) → v < facts.now.nodes
        → IsGiven facts.now.nodes (held_at (map held_of nodes.new) v) [] (inputs_from v 0 facts.now.inputs)) }
{
    for input in facts.inputs.as_slice() {
        nodes[usize::from(input.node)].give(alloc, input)?;
    }
    Ok(())
}

/// The message that comes next on the link to a node of the run.
fn front(nodes: &[Node], from: u8, node: u8) -> Option<&Message>
    requires known { node < length nodes.now }
    requires widths { All (λ n. (length n.sent.items ≡ length nodes.now) × (length n.taken.items ≡ length nodes.now)) nodes.now }
    requires few { length nodes.now < 255 }
    ensures front { option_copied result ≡ front (link_of (map held_of nodes.now) from node) }
    ensures sender { IfSome result (λ _. from < 255 → from < length nodes.now) }
    ensures room { IfSome result (λ _. taken_from (held_at (map held_of nodes.now) node) from + 1 < 2 ^ 64) }
{
    let receiver = &nodes[usize::from(node)];
    if from == OUTSIDE {
        return receiver.inputs.get(receiver.inputs_taken);
    }
    let sender = nodes.get(usize::from(from))?;
    sender.sent[usize::from(node)].get(receiver.taken[usize::from(from)])
}

/// The message that a step takes.
pub(crate) fn next<'a>(
    facts: &Facts,
    nodes: &'a [Node],
    step: &Step,
) -> Result<&'a Message, StepFault>
    requires limits { IsWithinLimits (game_of facts.now) }
    requires held { AreHeld facts.now (map held_of nodes.now) }
    ensures next { IfOk result (λ m. IsNext facts.now (map held_of nodes.now) step.now m.now) }
    ensures capped { IsErrOf result StepFault.Capped ↔ facts.now.turns ≤ (held_at (map held_of nodes.now) step.now.node).turns }
    ensures no_message { IsErrOf result StepFault.NoMessage ↔ (((held_at (map held_of nodes.now) step.now.node).turns < facts.now.turns)
        × (front (link_of (map held_of nodes.now) step.now.from step.now.node) ≡ None)) }
    ensures draws { IsErrOf result StepFault.Draws → ⊥ }
{
    let Some(receiver) = nodes.get(usize::from(step.node)) else {
        return Err(StepFault::NoMessage);
    };
    if receiver.turns >= facts.turns {
        return Err(StepFault::Capped);
    }
    front(nodes, step.from, step.node).ok_or(StepFault::NoMessage)
}
