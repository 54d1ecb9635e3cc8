// A group of nodes, and the events that happen to it.
ghost use Rattle.std.specs.Prelude.{◌≡◌, ◌<◌, true, false, IfOk, IfSome, IfNone, OnErr, IsTrue, option_copied};
ghost use Rattle.ken_model.specs.Game.{game_of};
ghost use Rattle.ken_model.specs.Limits.{IsWithinLimits};

use crate::machine::Machine;
use crate::sealing::Sealing;
use crate::timeline::Timeline;
use crate::{Event, Outcome, Told};
use ken_model::{Emission, Facts, Items, Message, OUTSIDE, TryClone, TurnLine};
use ken_record::Page;
use std::alloc::{AllocError, Global};

/// A group of nodes, with all packets ever put and all emissions.
#[derive(Debug, Drop)]
pub(crate) struct Group<'a> {
    facts: &'a Facts,
    machines: Vec<Machine>,
    emissions: Vec<Emission>,
}

impl<'a> Group<'a> {
    ghost use Rattle.ken_core.specs.declared.events.Event.TheVariants.{Seal, SealCut, Patch, SyncImage, Turnover, Send, Ack, TakeAck, Emit, Crash, Recover};
    ghost use Rattle.ken_core.specs.Groups.{group_of, AreKept};
    ghost use Rattle.ken_core.specs.Grouped.{game_in, cluster_in, IsKept, Lets, StandsStill};
    ghost use Rattle.ken_core.specs.Clusters.{start, IsHistoryOf};
    ghost use Rattle.ken_core.specs.Accord.{Accord};
    ghost use Rattle.ken_core.specs.Next.{IsNextOf, IsReady, IsUnready};

    /// The group at the start.
    pub(crate) fn start(alloc: Global, facts: &'a Facts) -> Result<Group<'a>, AllocError>
        requires { IsWithinLimits (game_of facts.now) }
        ensures facts { IfOk result (λ g. g.facts.now ≡ facts.now) }
        ensures kept { IfOk result (λ g. AreKept (game_of facts.now) g.machines.items) }
        ensures start { IfOk result (λ g. group_of (game_of facts.now) g.machines.items g.emissions.items ≡ start (game_of facts.now)) }
    {
        let mut machines = Vec::new(alloc);
        for node in 0..facts.nodes {
            machines.push(Machine::first(alloc, facts, node)?)?;
        }
        Ok(Group {
            facts,
            machines,
            emissions: Vec::new(alloc),
        })
    }

    /// Lets an event happen: false exactly where it isn't enabled. After that, and after an error, nothing has changed.
    pub(crate) fn step(&mut self, alloc: Global, event: &Event) -> Result<bool, AllocError>
        requires kept { IsKept self.old }
        ensures plays { IfOk result (Lets event.now self.old self.new) }
        ensures err { OnErr result (StandsStill self.old self.new) }
        ensures kept { AreKept (game_in self.old) self.new.machines.items }
        ensures facts { self.new.facts.now ≡ self.old.facts.now }
    {
        if event.node() >= self.facts.nodes {
            return Ok(false);
        }
        match event {
            Event::Seal {
                node,
                from,
                draws,
                pages,
            } => self.seal(alloc, *node, *from, draws, pages),
            Event::SealCut {
                node,
                from,
                draws,
                pages,
                landed,
            } => self.cut_seal(alloc, *node, *from, draws, pages, *landed),
            Event::Patch { node, page } => Ok(self.patch(*node, *page)),
            Event::SyncImage { node } => Ok(self.sync(*node)),
            Event::Turnover {
                node,
                outcome,
                told,
            } => self.turnover(alloc, *node, *outcome, told),
            Event::Send { node, to, i } => self.send(*node, *to, *i),
            Event::Ack { node, from } => self.acknowledge(*node, *from),
            Event::TakeAck {
                node,
                from,
                through,
            } => Ok(self.take_ack(*node, *from, *through)),
            Event::Emit { node } => self.emit(alloc, *node),
            Event::Crash { node, pages } => self.crash(alloc, *node, pages),
            Event::Recover { node } => self.recover(alloc, *node),
        }
    }

    /// The turns of all nodes, in the order of stamps and nodes.
    pub(crate) fn history(&self, alloc: Global) -> Result<Items<TurnLine>, AllocError>
        requires kept { IsKept self.now }
        requires accord { Accord (game_in self.now) (cluster_in self.now) }
        ensures { IfOk result (IsHistoryOf (cluster_in self.now)) }
    {
        let mut timeline = Timeline::new(alloc);
        for node in 0..self.facts.nodes {
            let machine = &self.machines[usize::from(node)];
            timeline.add(alloc, node, machine.ledger.turns.as_slice())?;
        }
        Ok(Items::new(timeline.into_lines()))
    }

    /// The image of a node is synced.
    fn sync(&mut self, node: u8) -> bool
        requires kept { IsKept self.old }
        requires known { node < self.old.facts.now.nodes }
        ensures plays { Lets (SyncImage node) self.old self.new result }
        ensures kept { AreKept (game_in self.old) self.new.machines.items }
        ensures facts { self.new.facts.now ≡ self.old.facts.now }
    {
        let machine = &mut self.machines[usize::from(node)];
        if !machine.up {
            return false;
        }
        machine.pages.sync();
        true
    }

    /// A page of the oldest record to patch is written to the image.
    fn patch(&mut self, node: u8, page: u32) -> bool
        requires kept { IsKept self.old }
        requires known { node < self.old.facts.now.nodes }
        ensures plays { Lets (Patch node page) self.old self.new result }
        ensures kept { AreKept (game_in self.old) self.new.machines.items }
        ensures facts { self.new.facts.now ≡ self.old.facts.now }
    {
        let machine = &mut self.machines[usize::from(node)];
        if !machine.up {
            return false;
        }
        machine.pages.patch(page)
    }

    /// A node crashes, and the open pages hold these bytes.
    fn crash(&mut self, alloc: Global, node: u8, pages: &Items<Page>) -> Result<bool, AllocError>
        requires kept { IsKept self.old }
        requires known { node < self.old.facts.now.nodes }
        ensures plays { IfOk result (Lets (Crash node pages.now) self.old self.new) }
        ensures err { OnErr result (StandsStill self.old self.new) }
        ensures kept { AreKept (game_in self.old) self.new.machines.items }
        ensures facts { self.new.facts.now ≡ self.old.facts.now }
    {
        let machine = &mut self.machines[usize::from(node)];
        if !machine.pages.are_torn(alloc, pages.as_slice())? {
            return Ok(false);
        }
        machine.pages.crash(pages.as_slice());
        machine.up = false;
        Ok(true)
    }

    /// The mail of the i-th message to a node past the acknowledged number is put.
    fn send(&mut self, node: u8, to: u8, i: u64) -> Result<bool, AllocError>
        requires kept { IsKept self.old }
        requires known { node < self.old.facts.now.nodes }
        ensures plays { IfOk result (Lets (Send node to i) self.old self.new) }
        ensures err { OnErr result (StandsStill self.old self.new) }
        ensures kept { AreKept (game_in self.old) self.new.machines.items }
        ensures facts { self.new.facts.now ≡ self.old.facts.now }
    {
        let machine = &mut self.machines[usize::from(node)];
        if !machine.up {
            return Ok(false);
        }
        machine.put_mail(to, i)
    }

    /// The next output is emitted.
    fn emit(&mut self, alloc: Global, node: u8) -> Result<bool, AllocError>
        requires kept { IsKept self.old }
        requires known { node < self.old.facts.now.nodes }
        ensures plays { IfOk result (Lets (Emit node) self.old self.new) }
        ensures err { OnErr result (StandsStill self.old self.new) }
        ensures kept { AreKept (game_in self.old) self.new.machines.items }
        ensures facts { self.new.facts.now ≡ self.old.facts.now }
    {
        let machine = &mut self.machines[usize::from(node)];
        if !machine.up {
            return Ok(false);
        }
        let Some(due) = machine.due() else {
            return Ok(false);
        };
        let out = due.try_clone(alloc)?;
        self.emissions.push(Emission { node, out })?;
        machine.emitted += 1;
        Ok(true)
    }

    /// What a node consumed from another is acknowledged.
    fn acknowledge(&mut self, node: u8, from: u8) -> Result<bool, AllocError>
        requires kept { IsKept self.old }
        requires known { node < self.old.facts.now.nodes }
        ensures plays { IfOk result (Lets (Ack node from) self.old self.new) }
        ensures err { OnErr result (StandsStill self.old self.new) }
        ensures kept { AreKept (game_in self.old) self.new.machines.items }
        ensures facts { self.new.facts.now ≡ self.old.facts.now }
    {
        let machine = &mut self.machines[usize::from(node)];
        if !machine.up {
            return Ok(false);
        }
        machine.acknowledge(from)
    }

    /// An acknowledgement of a node through a number is taken.
    fn take_ack(&mut self, node: u8, from: u8, through: u64) -> bool
        requires kept { IsKept self.old }
        requires known { node < self.old.facts.now.nodes }
        ensures plays { Lets (TakeAck node from through) self.old self.new result }
        ensures kept { AreKept (game_in self.old) self.new.machines.items }
        ensures facts { self.new.facts.now ≡ self.old.facts.now }
    {
        if !self.has_answered(from, node, through) {
            return false;
        }
        let machine = &mut self.machines[usize::from(node)];
        if !machine.up {
            return false;
        }
        machine.take_ack(from, through);
        true
    }

    /// Whether a node acknowledged what it consumed from another through a number.
    fn has_answered(&self, from: u8, to: u8, through: u64) -> bool
        requires kept { IsKept self.now }
        ensures answer { result ≡ (cluster_in self.now).answer from to through }
        ensures known { IsTrue result → from < self.now.facts.now.nodes }
    {
        let Some(sender) = self.machines.get(usize::from(from)) else {
            return false;
        };
        match sender.answered.get(usize::from(to)) {
            Some(numbers) => numbers.contains(through),
            None => false,
        }
    }

    /// A node recovers.
    fn recover(&mut self, alloc: Global, node: u8) -> Result<bool, AllocError>
        requires kept { IsKept self.old }
        requires known { node < self.old.facts.now.nodes }
        ensures plays { IfOk result (Lets (Recover node) self.old self.new) }
        ensures err { OnErr result (StandsStill self.old self.new) }
        ensures kept { AreKept (game_in self.old) self.new.machines.items }
        ensures facts { self.new.facts.now ≡ self.old.facts.now }
    {
        let machine = &mut self.machines[usize::from(node)];
        if machine.up {
            return Ok(false);
        }
        if !machine.has_none_open() {
            return Ok(false);
        }
        machine.recover(alloc)?;
        Ok(true)
    }

    /// A base takes the place of a node's live records.
    fn turnover(
        &mut self,
        alloc: Global,
        node: u8,
        outcome: Outcome,
        told: &Told,
    ) -> Result<bool, AllocError>
        requires kept { IsKept self.old }
        requires known { node < self.old.facts.now.nodes }
        ensures plays { IfOk result (Lets (Turnover node outcome told.now) self.old self.new) }
        ensures err { OnErr result (StandsStill self.old self.new) }
        ensures kept { AreKept (game_in self.old) self.new.machines.items }
        ensures facts { self.new.facts.now ≡ self.old.facts.now }
    {
        let machine = &mut self.machines[usize::from(node)];
        machine.turn_over(alloc, outcome, told)
    }

    /// The next message of a sender for a node, where it came.
    fn next(&self, node: u8, from: u8) -> Option<&Message>
        requires kept { IsKept self.now }
        requires known { node < self.now.facts.now.nodes }
        ensures { IsNextOf (game_in self.now) self.now.machines.items node from (option_copied result) }
    {
        let receiver = &self.machines[usize::from(node)];
        let count = receiver.ledger.consumed_from(from)?;
        if from == OUTSIDE {
            return receiver.ledger.input_at(count);
        }
        let sender = self.machines.get(usize::from(from))?;
        sender.put_at(node, count)
    }

    /// The turn of a node that takes the next message of a sender: `None` where it may not be sealed. Nothing changes.
    fn sealing(
        &mut self,
        alloc: Global,
        node: u8,
        from: u8,
        draws: &[u64],
        pages: &[Page],
    ) -> Result<Option<Sealing>, AllocError>
        requires kept { IsKept self.old }
        requires known { node < self.old.facts.now.nodes }
        ensures some { IfOk result (λ s. IfSome s (IsReady (game_in self.old) self.new.machines.items self.new.emissions.items node from draws.now pages.now)) }
        ensures none { IfOk result (λ s. IfNone s (IsUnready (game_in self.old) self.new.machines.items self.new.emissions.items node from draws.now pages.now)) }
        ensures same { StandsStill self.old self.new }
        ensures kept { AreKept (game_in self.old) self.new.machines.items }
        ensures facts { self.new.facts.now ≡ self.old.facts.now }
    {
        let Some(message) = self.next(node, from) else {
            return Ok(None);
        };
        let message = message.try_clone(alloc)?;
        let machine = &mut self.machines[usize::from(node)];
        Sealing::prepare(alloc, self.facts, node, machine, &message, draws, pages)
    }

    /// A turn of a node is sealed.
    fn seal(
        &mut self,
        alloc: Global,
        node: u8,
        from: u8,
        draws: &Items<u64>,
        pages: &Items<Page>,
    ) -> Result<bool, AllocError>
        requires kept { IsKept self.old }
        requires known { node < self.old.facts.now.nodes }
        ensures plays { IfOk result (Lets (Seal node from draws.now pages.now) self.old self.new) }
        ensures err { OnErr result (StandsStill self.old self.new) }
        ensures kept { AreKept (game_in self.old) self.new.machines.items }
        ensures facts { self.new.facts.now ≡ self.old.facts.now }
    {
        let sealing = self.sealing(alloc, node, from, draws.as_slice(), pages.as_slice())?;
        let Some(sealing) = sealing else {
            return Ok(false);
        };
        let machine = &mut self.machines[usize::from(node)];
        machine.make_room(&sealing)?;
        machine.seal(sealing);
        Ok(true)
    }

    /// A seal is cut. It landed or not, and the node is down.
    fn cut_seal(
        &mut self,
        alloc: Global,
        node: u8,
        from: u8,
        draws: &Items<u64>,
        pages: &Items<Page>,
        landed: bool,
    ) -> Result<bool, AllocError>
        requires kept { IsKept self.old }
        requires known { node < self.old.facts.now.nodes }
        ensures plays { IfOk result (Lets (SealCut node from draws.now pages.now landed) self.old self.new) }
        ensures err { OnErr result (StandsStill self.old self.new) }
        ensures kept { AreKept (game_in self.old) self.new.machines.items }
        ensures facts { self.new.facts.now ≡ self.old.facts.now }
    {
        let sealing = self.sealing(alloc, node, from, draws.as_slice(), pages.as_slice())?;
        let Some(sealing) = sealing else {
            return Ok(false);
        };
        let machine = &mut self.machines[usize::from(node)];
        if !landed {
            machine.up = false;
            return Ok(true);
        }
        machine.make_room(&sealing)?;
        machine.seal(sealing);
        machine.up = false;
        Ok(true)
    }
}
