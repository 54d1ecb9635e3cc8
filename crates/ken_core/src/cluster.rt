// A group of nodes, as a program plays it.
ghost use Rattle.std.specs.Prelude.{◌≡◌, IfOk, OnErr};
ghost use Rattle.ken_model.specs.Game.{game_of};
ghost use Rattle.ken_model.specs.Limits.{IsWithinLimits};

use crate::Event;
use crate::group::Group;
use ken_model::{Facts, Items, TurnLine};
use std::alloc::{AllocError, Global};

/// A group of nodes, with all packets ever put and all emissions.
#[derive(Debug, Drop)]
pub struct Cluster<'a> {
    group: Group<'a>,
}

impl<'a> Cluster<'a> {
    ghost use Rattle.ken_core.specs.Clusters.{start, Goes, IsHistoryOf};
    ghost use Rattle.ken_core.specs.Accord.{Accord};
    ghost use Rattle.ken_core.specs.Groups.{Plays};
    ghost use Rattle.ken_core.specs.Laws.{IsPlayedBy};
    ghost use Rattle.ken_core.specs.Programs.{facts_of, cluster_of, IsSound};

    /// The group at the start: each node is up, and nothing is sealed, put or emitted.
    pub fn start(alloc: Global, facts: &'a Facts) -> Result<Cluster<'a>, AllocError>
        requires { IsWithinLimits (game_of facts.now) }
        ensures sound { IfOk result IsSound }
        ensures facts { IfOk result (λ c. facts_of c ≡ facts.now) }
        ensures start { IfOk result (λ c. cluster_of c ≡ start (game_of facts.now)) }
        ensures accord { IfOk result (λ c. Accord (game_of facts.now) (cluster_of c)) }
    {
        ken_model::first_is_empty();
        ken_model::reads_what_stands();
        let group = Group::start(alloc, facts)?;
        Ok(Cluster { group })
    }

    /// Lets an event happen: false exactly where it isn't enabled. After that, and after an error, nothing has changed.
    pub fn step(&mut self, alloc: Global, event: &Event) -> Result<bool, AllocError>
        requires { IsSound self.old }
        ensures sound { IsSound self.new }
        ensures plays { IfOk result (Plays (game_of (facts_of self.old)) (cluster_of self.old) event.now (cluster_of self.new)) }
        ensures err { OnErr result (cluster_of self.new ≡ cluster_of self.old) }
        ensures accord { Accord (game_of (facts_of self.old)) (cluster_of self.old) → Accord (game_of (facts_of self.old)) (cluster_of self.new) }
        ensures facts { facts_of self.new ≡ facts_of self.old }
    {
        self.group.step(alloc, event)
    }

    /// Lets events happen, one after the other; those that aren't enabled change nothing.
    pub fn run(
        alloc: Global,
        mut start: Cluster<'a>,
        events: &[Event],
    ) -> Result<Cluster<'a>, AllocError>
        requires { IsSound start }
        ensures sound { IfOk result IsSound }
        ensures goes { IfOk result (λ c. Goes (game_of (facts_of start.entry)) (cluster_of start.entry) events.now (cluster_of c)) }
        ensures accord { IfOk result (λ c. Accord (game_of (facts_of start.entry)) (cluster_of start.entry) → Accord (game_of (facts_of start.entry)) (cluster_of c)) }
        ensures facts { IfOk result (λ c. facts_of c ≡ facts_of start.entry) }
    {
        for event in events {
            start.step(alloc, event)?;
        }
        Ok(start)
    }

    /// The turns of all nodes, in the order of stamps and nodes. Where the group is in accord, they are a legal schedule.
    pub fn history(&self, alloc: Global) -> Result<Items<TurnLine>, AllocError>
        requires sound { IsSound self.now }
        requires accord { Accord (game_of (facts_of self.now)) (cluster_of self.now) }
        ensures history { IfOk result (IsHistoryOf (cluster_of self.now)) }
        ensures played { IfOk result (IsPlayedBy (game_of (facts_of self.now)) (cluster_of self.now)) }
    {
        crate::history_is_legal();
        self.group.history(alloc)
    }
}
