// A group of nodes that rows speak to.
ghost use Rattle.std.specs.Prelude.{◌≡◌, ◌<◌, ◌≤◌};
ghost use Rattle.std.proofs.Props.{props};
ghost use Rattle.ken_model.specs.Game.{game_of};
ghost use Rattle.ken_model.specs.Limits.{IsWithinLimits};
ghost use Rattle.ken_core.specs.Programs.{IsSound};
ghost use Rattle.ken_rows_groups.specs.Once.{pages-prop};

use crate::events::event;
use ken_core::{Cluster, Event};
use ken_model::{Facts, Items, PAGE, TurnLine};
use ken_rows::{RowFault, Words};
use std::alloc::{AllocError, Global};

/// A group, and events that are listed for its history.
#[derive(Drop)]
pub(crate) struct Group<'a> {
    facts: &'a Facts,
    pages: u32,
    cluster: Cluster<'a>,
    listed: Vec<Event>,
    ghost heap: { (0 < pages) × (pages ≤ 4096) },
    ghost limits: { IsWithinLimits (game_of facts.now) } by { Prim.hlevel (props, pages-prop) },
    ghost sound: { IsSound cluster } by { Prim.hlevel (props, pages-prop) },
}

impl<'a> Group<'a> {
    /// The group at its start.
    pub(crate) fn start(alloc: Global, facts: &'a Facts) -> Result<Self, AllocError>
        requires { IsWithinLimits (game_of facts.now) }
    {
        Ok(Group {
            facts,
            pages: (facts.size / PAGE) as u32,
            cluster: Cluster::start(alloc, facts)?,
            listed: Vec::new(alloc),
        })
    }

    fn event(&self, alloc: Global, name: &[u8], words: &mut Words<'_>) -> Result<Event, RowFault> {
        event(alloc, self.pages, name, words)
    }

    /// Lets the event of that name happen, where it is enabled, and says whether it is.
    pub(crate) fn step(
        &mut self,
        alloc: Global,
        name: &[u8],
        words: &mut Words<'_>,
    ) -> Result<bool, RowFault> {
        let event = self.event(alloc, name, words)?;
        Ok(self.cluster.step(alloc, &event)?)
    }

    /// Puts an event behind those that are listed.
    pub(crate) fn list(&mut self, alloc: Global, words: &mut Words<'_>) -> Result<(), RowFault> {
        let name = words.word()?;
        let event = self.event(alloc, name, words)?;
        Ok(self.listed.push(event)?)
    }

    /// What the listed events come to from the start: the turns of all nodes.
    pub(crate) fn history(&self, alloc: Global) -> Result<Items<TurnLine>, AllocError> {
        let start = Cluster::start(alloc, self.facts)?;
        let group = Cluster::run(alloc, start, &self.listed)?;
        group.history(alloc)
    }
}
