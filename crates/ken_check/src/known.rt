// What is known of each node.
ghost use Rattle.std.specs.Prelude.{◌≡◌, ◌<◌, ◌==◌, ℕ, if◌then◌else◌, length, count_by, IfOk, OnOk};
ghost use Rattle.std.specs.List.{AllByRecursion};
ghost use Rattle.ken_model.specs.declared.facts.Input.{Input};
ghost use Rattle.ken_model.specs.declared.messages.Message.{Message};
ghost use Rattle.ken_check.specs.Counts.{AreFirst, AreFresh, Counted, HaveRoom, HaveTurned, MayTurn};

use ken_model::{Done, Facts, Input, Message, Out};
use std::alloc::{AllocError, Global};

/// What is known of a node, by what the lines of a report told so far.
#[derive(Debug, Drop)]
pub(crate) struct Known {
    /// Its outputs, in the order of their numbers.
    pub outs: Vec<Out>,
    /// How many turns it made.
    pub turns: u64,
    /// How many messages and inputs came for it. Each turn took one.
    pub came: u64,
    /// The largest number of an output that it emitted.
    pub emitted: u64,
    /// How often it was restarted.
    pub restarts: u64,
    /// With how many turns it went on at the last restart.
    pub recovered: u64,
}

/// The nodes of a run before the first line.
pub(crate) fn at_start(alloc: Global, facts: &Facts) -> Result<Vec<Known>, AllocError>
    ensures { IfOk result (λ nodes. AreFirst facts.now nodes.items) }
{
    let mut nodes = fresh(alloc, facts.nodes)?;
    give(&mut nodes, facts.inputs.as_slice());
    Ok(nodes)
}

/// So many nodes for which nothing came.
fn fresh(alloc: Global, count: u8) -> Result<Vec<Known>, AllocError>
    ensures { IfOk result (λ nodes. AreFresh count (λ _. 0) nodes.items) }
{
    let mut nodes = Vec::new(alloc);
    for _node in 0..count {
        nodes.push(Known {
            outs: Vec::new(alloc),
            turns: 0,
            came: 0,
            emitted: 0,
            restarts: 0,
            recovered: 0,
        })?;
    }
    Ok(nodes)
}

/// Counts inputs, each for its node.
fn give(nodes: &mut [Known], inputs: &[Input])
    requires room { HaveRoom (length inputs.now) nodes.old }
    ensures { Counted (λ v. count_by (λ (i : Input). i.node == v) inputs.now) nodes.old nodes.new }
{
    for input in inputs {
        arrive(nodes, input.node);
    }
}

/// Counts messages, each for its receiver.
fn post(nodes: &mut [Known], messages: &[Message])
    requires room { HaveRoom (length messages.now) nodes.old }
    ensures { Counted (λ v. count_by (λ (m : Message). m.to == v) messages.now) nodes.old nodes.new }
{
    for message in messages {
        arrive(nodes, message.to);
    }
}

/// Counts a message or an input that comes for a node, if it is one of these.
fn arrive(nodes: &mut [Known], node: u8)
    requires room { HaveRoom 1 nodes.old }
    ensures { Counted (λ v. if node == v then 1 else 0) nodes.old nodes.new }
{
    if usize::from(node) < nodes.len() {
        nodes[usize::from(node)].came += 1;
    }
}

/// Keeps what a turn of a node did.
pub(crate) fn turned(nodes: &mut [Known], node: u8, done: Done) -> Result<(), AllocError>
    requires known { node < length nodes.old }
    requires room { HaveRoom (length done.sends) nodes.old }
    requires turn { MayTurn nodes.old }
    ensures { OnOk result (HaveTurned node done nodes.old nodes.new) }
{
    post(nodes, done.sends.as_slice());
    let known = &mut nodes[usize::from(node)];
    known.turns += 1;
    known.outs.append(&mut done.outs.into_vec())
}
