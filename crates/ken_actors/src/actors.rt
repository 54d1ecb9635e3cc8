// The abstract network, as a program plays it.
ghost use Rattle.std.specs.Prelude.{◌≡◌, ◌≢◌, ◌<◌, ◌^◌, ◌↔◌, IfOk, IsErrOf, length, map, replicate};
ghost use Rattle.std.specs.List.{AllByRecursion};
ghost use Rattle.ken_model.specs.Limits.{IsWithinLimits};
ghost use Rattle.ken_model.specs.Network.{empty_heap, start};
ghost use Rattle.ken_actors.specs.declared.faults.StepFault.{StepFault};
ghost use Rattle.ken_actors.specs.Decided.{IsDecided};
ghost use Rattle.ken_actors.specs.Playing.{game_for};
ghost use Rattle.ken_actors.specs.Held.{playing_of};
ghost use Rattle.ken_actors.specs.Actors.{AreAlike, IsStep, IsCapped, HasNoMessage, HasWrongDraws};

use crate::node::Node;
use crate::{Played, Player, StepFault, network};
use ken_model::{Done, Facts, Items, Step, Value};
use std::alloc::{AllocError, Global};
use std::marker::Model;

/// The actors of a run: their heaps, stamps and outputs, and all messages that they ever sent.
#[derive(Drop)]
pub struct Actors<'a, P: Player> {
    alloc: Global,
    facts: &'a Facts,
    player: &'a P,
    heaps: Vec<P::Heap>,
    nodes: Vec<Node>,
}

impl<'a, P: Player> Model for Actors<'a, P> {
    ghost use Rattle.std.specs.Prelude.{map};
    ghost use Rattle.ken_actors.specs.Held.{HeldRun};

    ghost Value = { HeldRun P };

    ghost use Rattle.ken_actors.specs.Held.{IsHeldRun};
    ghost use Rattle.ken_actors.specs.Nodes.{held_run};

    ghost view = { λ a. held_run a.player.now a.facts.now (map P.value a.heaps.items) a.nodes.items };

    ghost invariant = { λ a. IsHeldRun (held_run a.player.now a.facts.now (map P.value a.heaps.items) a.nodes.items) };
}

impl<'a, P: Player> Actors<'a, P> {
    /// The network at the start: empty heaps, and all inputs on the links of the outside.
    pub fn start(
        alloc: Global,
        facts: &'a Facts,
        player: &'a P,
    ) -> Result<Actors<'a, P>, AllocError>
        requires limits { IsWithinLimits (game_for (P.handler player.now) facts.now) }
        ensures facts { IfOk result (λ a. a.facts ≡ facts.now) }
        ensures player { IfOk result (λ a. a.player ≡ player.now) }
        ensures start { IfOk result (λ a. AreAlike (playing_of P.handler a).network (start (game_for (P.handler player.now) facts.now))) }
    {
        let heaps = heaps(alloc, facts, player)?;
        let nodes = network::start(alloc, facts)?;
        Ok(Actors {
            alloc,
            facts,
            player,
            heaps,
            nodes,
        })
    }

    /// Makes a step. The refusals are tried in the order in which `StepFault` has them, and after each of the first three
    /// nothing has changed. After `Memory` the actors are to be given up.
    pub fn step(&mut self, step: &Step) -> Result<Done, StepFault>
        ensures facts { self.new.facts ≡ self.old.facts }
        ensures player { self.new.player ≡ self.old.player }
        ensures done { IfOk result (IsStep (playing_of P.handler self.old) (playing_of P.handler self.new) step.now) }
        ensures known { IfOk result (λ done. AllByRecursion (λ m. m.to < self.old.facts.nodes) done.sends) }
        ensures few { IfOk result (λ done. length done.sends < 2 ^ 32) }
        ensures capped { IsErrOf result StepFault.Capped ↔ IsCapped (playing_of P.handler self.old) step.now }
        ensures no_message { IsErrOf result StepFault.NoMessage ↔ HasNoMessage (playing_of P.handler self.old) step.now }
        ensures draws { IsErrOf result StepFault.Draws → IsDecided (P.handler self.old.player)
            → HasWrongDraws (playing_of P.handler self.old) step.now }
        ensures unchanged { (fault : StepFault) → IsErrOf result fault → fault ≢ StepFault.Memory → self.new ≡ self.old }
    {
        let message = network::next(self.facts, &self.nodes, step)?;
        let number = message.number;
        let stamp = self.nodes[usize::from(step.node)].stamp.max(message.stamp) + 1;
        let heap = &mut self.heaps[usize::from(step.node)];
        let draws = step.draws.as_slice();
        are_words(draws);
        let Some(played) = self.player.play(
            self.alloc,
            step.node,
            self.facts.nodes,
            heap,
            message,
            draws,
        )?
        else {
            return Err(StepFault::Draws);
        };
        let node = &mut self.nodes[usize::from(step.node)];
        let made = node.make(self.alloc, step.node, step.from, stamp, played)?;
        Ok(Done {
            stamp,
            number,
            sends: Items::new(made.sends),
            outs: Items::new(made.outs),
        })
    }

    /// The heap of a node of the run, in memory of its own. The error is want of memory.
    pub fn value(&self, node: u8) -> Result<Value, AllocError>
        requires { node < self.now.facts.nodes }
        ensures { IfOk result (λ value. value ≡ ((playing_of P.handler self.now).network.place node).value) }
    {
        self.player
            .value_of(self.alloc, &self.heaps[usize::from(node)])
    }
}

/// Draws are words.
fn are_words(draws: &[u64])
    ensures { AllByRecursion (λ d. d < 2 ^ 64) draws.now }
{
    let _draws = draws;
}

/// An empty heap for each node.
fn heaps<P: Player>(alloc: Global, facts: &Facts, player: &P) -> Result<Vec<P::Heap>, AllocError>
    requires limits { IsWithinLimits (game_for (P.handler player.now) facts.now) }
    ensures { IfOk result (λ heaps. map P.value heaps.items ≡ replicate facts.now.nodes (empty_heap facts.now.size)) }
{
    let mut heaps = Vec::new(alloc);
    for _node in 0..facts.nodes {
        heaps.push(player.empty(alloc, facts.size)?)?;
    }
    Ok(heaps)
}
