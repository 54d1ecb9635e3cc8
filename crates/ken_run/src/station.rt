// A node of a run with all that is its own.
ghost use Rattle.std.specs.Prelude.{◌≡◌, ◌<◌, ◌+◌, ◌^◌, ◌⊎◌, [], length, IfOk, OnOk};
ghost use Rattle.ken_app.specs.Oracles.{HasAnswered};
ghost use Rattle.ken_ship.specs.Causes.{HasCause};
ghost use Rattle.ken_ship.specs.Emitting.{outlet_answer};
ghost use Rattle.ken_ship.specs.Fates.{Follows, Suffers};
ghost use Rattle.ken_node.specs.NodeCalls.{UnlessMemory};
ghost use Rattle.ken_node.specs.Stages.{refusals_in};
ghost use Rattle.ken_work.specs.Parts.{CountsAnew};
ghost use Rattle.ken_run.specs.Ends.{WereGiven};
ghost use Rattle.ken_run.specs.StationClauses.{
  AccountsBack,
  ComesBack,
  EmitsAs,
  FailsDisks,
  HearsAs,
  IsRestartOf,
  KeepsCounts,
  KeepsDisks,
  KeepsEmissions,
  KeepsImageTold,
  KeepsRefusals,
  MayCall,
  MayCallOn,
  MayComeBack,
  MayTurn,
  SendsAs,
  StaysSynced,
  SyncsTurn,
  TurnsAs,
};

use crate::inboxes::{InFlight, end_of, give_back};
use ken_app::{App, Oracle};
use ken_disk::Disk;
use ken_net::Links;
use ken_node::{Node, Watched};
use ken_ship::{Emit, NodeFault, Outlet};
use ken_work::Took;
use std::alloc::{AllocError, Global};

/// A node, its oracle and its outlet, and the links that leave it.
#[derive(Drop)]
pub struct Station<D, O, U> {
    pub node: Node<Watched<D>>,
    pub luck: O,
    pub out: U,
    pub mail: Links,
    pub acks: Links,
    /// How often it was restarted.
    pub restarts: u64,
    /// With how many turns it went on, each time that a restart answered.
    pub lines: Vec<u64>,
}

impl<D: Disk, O: Oracle, U: Outlet> Station<D, O, U> {
    /// A turn of the node. It takes mail, and puts acknowledgements.
    pub(crate) fn turn<A: App>(
        &mut self,
        alloc: Global,
        app: &A,
        waiting: &mut InFlight,
    ) -> Result<Took, NodeFault>
        requires placed { self.old.acks.from < length waiting.old.mail }
        requires to_each { length waiting.old.acks ≡ length self.old.acks.links }
        requires may { MayTurn D.Disk (A.handler app.now) self.old.acks.from (length waiting.old.acks) self.old }
        ensures steps { TurnsAs D.Disk O.Oracle (A.handler app.now)
            waiting.old.mail waiting.new.mail waiting.old.acks waiting.new.acks self.old result self.new }
        ensures emissions { KeepsEmissions self.old self.new }
        ensures disks { FailsDisks D.Disk self.old result self.new }
        ensures synced { SyncsTurn D.Disk (A.handler app.now) self.old result self.new }
        ensures clocks_go_on { HasAnswered (O.telling.clocks self.old.luck) (O.telling.clocks self.new.luck) }
        ensures words_go_on { HasAnswered (O.telling.words self.old.luck) (O.telling.words self.new.luck) }
        ensures origin { O.telling.origin self.new.luck ≡ O.telling.origin self.old.luck }
        ensures undrawn { IfOk result (λ took. (took ≡ Took.Turn) ⊎ (self.new.luck ≡ self.old.luck)) }
        ensures refusals { KeepsRefusals self.old self.new }
        ensures image { KeepsImageTold D.Disk self.old self.new }
        ensures rest { self.new ≡ record self.old { node = self.new.node; luck = self.new.luck; acks = self.new.acks } }
    {
        let mut end = end_of(alloc, &mut self.acks, &mut waiting.mail, &mut waiting.acks);
        let answer = self.node.turn(&mut end, app, &mut self.luck);
        give_back(end, &mut self.acks, &mut waiting.mail, &mut waiting.acks);
        answer
    }

    /// The node sends what is due. It puts mail.
    pub(crate) fn send(&mut self, alloc: Global, waiting: &mut InFlight) -> Result<(), AllocError>
        requires placed { self.old.mail.from < length waiting.old.acks }
        requires to_each { length waiting.old.mail ≡ length self.old.mail.links }
        requires may { MayCallOn D.Disk self.old.mail.from (length waiting.old.mail) self.old }
        ensures steps { SendsAs D.Disk waiting.old.mail waiting.new.mail self.old result self.new }
        ensures emissions { KeepsEmissions self.old self.new }
        ensures refusals { KeepsRefusals self.old self.new }
        ensures given { WereGiven self.old.mail.from 0 waiting.old.acks waiting.new.acks [] }
        ensures disks { KeepsDisks self.old self.new }
        ensures synced { StaysSynced D.Disk self.old self.new }
        ensures rest { self.new ≡ record self.old { node = self.new.node; mail = self.new.mail } }
    {
        let mut end = end_of(alloc, &mut self.mail, &mut waiting.acks, &mut waiting.mail);
        let answer = self.node.send(&mut end);
        give_back(end, &mut self.mail, &mut waiting.acks, &mut waiting.mail);
        answer
    }

    /// The node takes acknowledgements.
    pub(crate) fn hear(&mut self, alloc: Global, waiting: &mut InFlight) -> Result<(), AllocError>
        requires placed { self.old.mail.from < length waiting.old.acks }
        requires to_each { length waiting.old.mail ≡ length self.old.mail.links }
        requires may { MayCallOn D.Disk self.old.mail.from (length waiting.old.mail) self.old }
        ensures steps { HearsAs D.Disk waiting.old.acks waiting.new.acks self.old result self.new }
        ensures emissions { OnOk result (KeepsEmissions self.old self.new) }
        ensures refusals { OnOk result (KeepsRefusals self.old self.new) }
        ensures put { waiting.new.mail ≡ waiting.old.mail }
        ensures disks { KeepsDisks self.old self.new }
        ensures synced { StaysSynced D.Disk self.old self.new }
        ensures rest { self.new ≡ record self.old { node = self.new.node } }
    {
        let mut end = end_of(alloc, &mut self.mail, &mut waiting.acks, &mut waiting.mail);
        let answer = self.node.hear(&mut end);
        give_back(end, &mut self.mail, &mut waiting.acks, &mut waiting.mail);
        answer
    }

    /// The node emits the output that is due.
    pub(crate) fn emit(&mut self) -> Result<Emit, NodeFault>
        requires { MayCall D.Disk self.old }
        ensures steps { EmitsAs D.Disk U.Outlet self.old result self.new }
        ensures disks { KeepsDisks self.old self.new }
        ensures synced { StaysSynced D.Disk self.old self.new }
        ensures cause { UnlessMemory result
            (HasCause (U.faults self.old.out) (U.faults self.new.out) (outlet_answer result)) }
        ensures fate { UnlessMemory result
            (Follows (Suffers (outlet_answer result)) (U.fate self.old.out) (U.fate self.new.out)) }
        ensures rest { self.new ≡ record self.old { node = self.new.node; out = self.new.out } }
    {
        self.node.emit(&mut self.out)
    }

    /// Restarts the node, and keeps with how many turns it goes on. The errors are those of its restart.
    pub(crate) fn restart(&mut self) -> Result<(), NodeFault>
        requires may { MayComeBack D.Disk self.old }
        requires tries { self.old.restarts + 1 < 2 ^ 64 }
        ensures back { ComesBack D.Disk self.old result self.new }
        ensures emissions { KeepsEmissions self.old self.new }
        ensures refusals { CountsAnew result (refusals_in self.old.node.stage) (refusals_in self.new.node.stage) }
        ensures accounts { AccountsBack D.Disk O.Oracle self.old result self.new }
        ensures counts { KeepsCounts D.Disk self.old self.new }
        ensures rest { IsRestartOf self.old self.new }
    {
        self.lines.reserve(1)?;
        self.restarts += 1;
        let turns = self.node.restart()?;
        self.lines.push_reserved(turns);
        Ok(())
    }
}
