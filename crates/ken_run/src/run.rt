// A run of nodes: one after the other on one thread.
ghost use Rattle.std.specs.Prelude.{◌≡◌, ◌⊎◌, ◌<◌, ◌≤◌, ◌+◌, ℕ, false, true, length, slice_index_or, IfOk, IsErrOf, OnOk};
ghost use Rattle.ken_ship.specs.declared.emit.Emit.TheVariants.{Done};
ghost use Rattle.ken_node.specs.NodeCalls.{UnlessMemory};
ghost use Rattle.ken_flow.specs.Standstill.{Emits, Heard, Passed, Posted, Rested, Visited, Written};
ghost use Rattle.ken_run.specs.declared.station.Station.{Station as Stood};
ghost use Rattle.ken_run.specs.Flowing.{work_left};
ghost use Rattle.ken_run.specs.Left.{left_at, outputs_left, pages_left, tries_at, turns_left};
ghost use Rattle.ken_run.specs.Patched.{AllVisited, Changes, HasPatched, HasSettled, IsCall, IsPatchedAt, IsSettledSince, KeepsImage, MakesNone, MaySync, TriesBy, WasRestarted, WasVisited};
ghost use Rattle.ken_run.specs.Clauses.{
  AccountsAgain,
  AccountsNode,
  AccountsRestarted,
  AccountsRun,
  AccountsVisited,
  GoesOn,
  LeavesAgain,
  LeavesNode,
  LeavesRestarted,
  LeavesRun,
  LeavesVisited,
  MovesNode,
  MovesRun,
  RefusesNode,
  RefusesRun,
  RefusesVisited,
  Restarts,
  StopsPass,
  StopsRestarted,
  StopsVisited,
  Works,
};

use crate::faults::RunFault;
use crate::inboxes::InFlight;
use crate::station::Station;
use ken_app::{App, Oracle};
use ken_disk::Disk;
use ken_node::Watched;
use ken_ship::{Emit, NodeFault, Outlet};
use ken_work::Took;
use std::alloc::Global;
use std::mem;

/// The nodes of a run with their devices, and what is on its way between them.
#[derive(Drop)]
pub struct Run<D, O, U, A> {
    pub(crate) alloc: Global,
    pub(crate) nodes: u8,
    /// What all nodes run.
    pub(crate) app: A,
    /// How often a node may be restarted.
    pub(crate) restarts: u64,
    pub(crate) stations: Vec<Station<D, O, U>>,
    pub(crate) waiting: InFlight,
}

impl<D, O, U, A> Run<D, O, U, A> {
    /// How many nodes were made.
    pub fn nodes(&self) -> u8
        ensures { result ≡ self.now.nodes }
    {
        self.nodes
    }

    /// A node, with all that is its own.
    pub fn station(&self, node: u8) -> &Station<D, O, U>
        requires { node < length self.now.stations.items }
        ensures { (d : Stood D O U) → slice_index_or self.now.stations.items node d ≡ result.now }
    {
        &self.stations[usize::from(node)]
    }
}

impl<D, O, U, A> Run<D, O, U, A> {
    /// What all nodes run.
    pub fn app(&self) -> &A
        ensures { result.now ≡ self.now.app }
    {
        &self.app
    }

    /// How often a node may be restarted.
    pub fn restarts(&self) -> u64
        ensures { result ≡ self.now.restarts }
    {
        self.restarts
    }
}

impl<D: Drop, O: Drop, U: Drop, A> Run<D, O, U, A> {
    /// Takes all nodes out, in rising order, for calls of all of them at once. Until `put_stations` the run has none.
    pub fn take_stations(&mut self) -> Vec<Station<D, O, U>>
        ensures taken { result ≡ self.old.stations }
        ensures rest { self.new ≡ record self.old { stations = self.new.stations } }
    {
        mem::replace(&mut self.stations, Vec::new(self.alloc))
    }

    /// Brings back the nodes that were taken out.
    pub fn put_stations(&mut self, stations: Vec<Station<D, O, U>>)
        ensures { self.new ≡ record self.old { stations = stations } }
    {
        self.stations = stations;
    }
}

impl<D, O, U, A: Drop> Run<D, O, U, A> {
    /// All nodes, in rising order.
    pub fn into_stations(self) -> Vec<Station<D, O, U>>
        ensures { result ≡ self.stations }
    {
        let Run { stations, .. } = self;
        stations
    }
}

impl<D: Disk, O: Oracle, U: Outlet, A: App> Run<D, O, U, A> {
    /// A turn of a node.
    fn turn(&mut self, node: u8) -> Result<Took, NodeFault>
        requires { Works D.Disk U.Outlet A.App node self.old }
        ensures leaves { LeavesNode D.Disk U.Outlet A.App node self.old result self.new }
        ensures accounts { AccountsNode D.Disk O.Oracle U.Outlet A.App node self.old result self.new }
        ensures refused { RefusesNode U.Outlet node self.old result self.new }
        ensures fewer { result ≡ Ok Took.Turn
            → left_at turns_left self.new.stations.items node < left_at turns_left self.old.stations.items node }
        ensures moves { MovesNode D.Disk U.Outlet A.App (λ g. Rested g node) node self.old result self.new }
        ensures worked { result ≡ Ok Took.Turn → work_left self.new < work_left self.old }
        ensures less { IsErrOf result NodeFault.Disk → work_left self.new ≤ work_left self.old }
        ensures called { IsCall result (MaySync ⟦<Watched<D> as Disk>⟧.told) node self.old self.new }
        ensures rests { IfOk result (λ took. (took ≡ Took.Turn) ⊎ MakesNone node self.new) }
    {
        self.stations[usize::from(node)].turn(self.alloc, &self.app, &mut self.waiting)
    }

    /// A page of a node is written to its image.
    fn patch(&mut self, node: u8) -> Result<bool, NodeFault>
        requires { Works D.Disk U.Outlet A.App node self.old }
        ensures leaves { LeavesNode D.Disk U.Outlet A.App node self.old result self.new }
        ensures accounts { AccountsNode D.Disk O.Oracle U.Outlet A.App node self.old result self.new }
        ensures refused { RefusesNode U.Outlet node self.old result self.new }
        ensures fewer { result ≡ Ok true
            → left_at pages_left self.new.stations.items node < left_at pages_left self.old.stations.items node }
        ensures moves { MovesNode D.Disk U.Outlet A.App (λ g. Written node) node self.old result self.new }
        ensures less { IsErrOf result NodeFault.Disk → work_left self.new ≤ work_left self.old }
        ensures called { IsCall result (MaySync ⟦<Watched<D> as Disk>⟧.told) node self.old self.new }
        ensures patched { result ≡ Ok false → IsPatchedAt node self.new }
    {
        self.stations[usize::from(node)].node.patch()
    }

    /// The image of a node is synced.
    fn settle(&mut self, node: u8) -> Result<(), NodeFault>
        requires { Works D.Disk U.Outlet A.App node self.old }
        ensures leaves { LeavesNode D.Disk U.Outlet A.App node self.old result self.new }
        ensures accounts { AccountsNode D.Disk O.Oracle U.Outlet A.App node self.old result self.new }
        ensures moves { MovesNode D.Disk U.Outlet A.App (λ g. Written node) node self.old result self.new }
        ensures less { IsErrOf result NodeFault.Disk → work_left self.new ≤ work_left self.old }
        ensures refused { RefusesNode U.Outlet node self.old result self.new }
        ensures called { IsCall result (HasSettled ⟦<Watched<D> as Disk>⟧.told) node self.old self.new }
    {
        self.stations[usize::from(node)].node.settle()
    }

    /// A node sends what is due.
    fn send(&mut self, node: u8) -> Result<(), NodeFault>
        requires { Works D.Disk U.Outlet A.App node self.old }
        ensures leaves { LeavesNode D.Disk U.Outlet A.App node self.old result self.new }
        ensures accounts { AccountsNode D.Disk O.Oracle U.Outlet A.App node self.old result self.new }
        ensures moves { MovesNode D.Disk U.Outlet A.App (λ g. Posted g node) node self.old result self.new }
        ensures less { IsErrOf result NodeFault.Disk → work_left self.new ≤ work_left self.old }
        ensures refused { RefusesNode U.Outlet node self.old result self.new }
        ensures called { IsCall result (KeepsImage ⟦<Watched<D> as Disk>⟧.told) node self.old self.new }
    {
        self.stations[usize::from(node)].send(self.alloc, &mut self.waiting)?;
        Ok(())
    }

    /// A node takes acknowledgements.
    fn hear(&mut self, node: u8) -> Result<(), NodeFault>
        requires { Works D.Disk U.Outlet A.App node self.old }
        ensures leaves { LeavesNode D.Disk U.Outlet A.App node self.old result self.new }
        ensures accounts { AccountsNode D.Disk O.Oracle U.Outlet A.App node self.old result self.new }
        ensures moves { MovesNode D.Disk U.Outlet A.App (λ g. Heard g node) node self.old result self.new }
        ensures less { IsErrOf result NodeFault.Disk → work_left self.new ≤ work_left self.old }
        ensures refused { RefusesNode U.Outlet node self.old result self.new }
        ensures called { IsCall result (KeepsImage ⟦<Watched<D> as Disk>⟧.told) node self.old self.new }
    {
        self.stations[usize::from(node)].hear(self.alloc, &mut self.waiting)?;
        Ok(())
    }

    /// A node emits the output that is due.
    fn emit(&mut self, node: u8) -> Result<Emit, NodeFault>
        requires { Works D.Disk U.Outlet A.App node self.old }
        ensures leaves { LeavesNode D.Disk U.Outlet A.App node self.old result self.new }
        ensures accounts { AccountsNode D.Disk O.Oracle U.Outlet A.App node self.old result self.new }
        ensures refused { RefusesNode U.Outlet node self.old result self.new }
        ensures fewer { (number : ℕ) → result ≡ Ok (Done number)
            → left_at outputs_left self.new.stations.items node < left_at outputs_left self.old.stations.items node }
        ensures moves { MovesNode D.Disk U.Outlet A.App (λ g. Emits node) node self.old result self.new }
        ensures less { IsErrOf result NodeFault.Disk → work_left self.new ≤ work_left self.old }
        ensures called { IsCall result (KeepsImage ⟦<Watched<D> as Disk>⟧.told) node self.old self.new }
    {
        self.stations[usize::from(node)].emit()
    }

    /// All turns that a node can make.
    fn turns(&mut self, node: u8) -> Result<(), NodeFault>
        requires { Works D.Disk U.Outlet A.App node self.old }
        ensures leaves { LeavesNode D.Disk U.Outlet A.App node self.old result self.new }
        ensures accounts { AccountsNode D.Disk O.Oracle U.Outlet A.App node self.old result self.new }
        ensures moves { MovesNode D.Disk U.Outlet A.App (λ g. Rested g node) node self.old result self.new }
        ensures less { IsErrOf result NodeFault.Disk → work_left self.new ≤ work_left self.old }
        ensures refused { RefusesNode U.Outlet node self.old result self.new }
        ensures called { IsCall result (MaySync ⟦<Watched<D> as Disk>⟧.told) node self.old self.new }
        ensures rests { OnOk result (MakesNone node self.new) }
    {
        'turns: while let Took::Turn = self.turn(node)? {}
        Ok(())
    }

    /// All pages that a node has to write.
    fn pages(&mut self, node: u8) -> Result<(), NodeFault>
        requires { Works D.Disk U.Outlet A.App node self.old }
        ensures leaves { LeavesNode D.Disk U.Outlet A.App node self.old result self.new }
        ensures accounts { AccountsNode D.Disk O.Oracle U.Outlet A.App node self.old result self.new }
        ensures moves { MovesNode D.Disk U.Outlet A.App (λ g. Written node) node self.old result self.new }
        ensures less { IsErrOf result NodeFault.Disk → work_left self.new ≤ work_left self.old }
        ensures refused { RefusesNode U.Outlet node self.old result self.new }
        ensures called { IsCall result (HasPatched ⟦<Watched<D> as Disk>⟧.told) node self.old self.new }
    {
        'pages: while self.patch(node)? {}
        Ok(())
    }

    /// All outputs that a node has to emit, until its outlet refuses one.
    fn outputs(&mut self, node: u8) -> Result<(), NodeFault>
        requires { Works D.Disk U.Outlet A.App node self.old }
        ensures leaves { LeavesNode D.Disk U.Outlet A.App node self.old result self.new }
        ensures accounts { AccountsNode D.Disk O.Oracle U.Outlet A.App node self.old result self.new }
        ensures moves { MovesNode D.Disk U.Outlet A.App (λ g. Emits node) node self.old result self.new }
        ensures less { IsErrOf result NodeFault.Disk → work_left self.new ≤ work_left self.old }
        ensures refused { RefusesNode U.Outlet node self.old result self.new }
        ensures called { IsCall result (KeepsImage ⟦<Watched<D> as Disk>⟧.told) node self.old self.new }
    {
        'outputs: while let Emit::Done(_) = self.emit(node)? {}
        Ok(())
    }

    /// All calls of a node in a visit.
    fn work(&mut self, node: u8) -> Result<(), NodeFault>
        requires { Works D.Disk U.Outlet A.App node self.old }
        ensures leaves { LeavesNode D.Disk U.Outlet A.App node self.old result self.new }
        ensures accounts { AccountsNode D.Disk O.Oracle U.Outlet A.App node self.old result self.new }
        ensures moves { MovesNode D.Disk U.Outlet A.App (λ g. Visited g node) node self.old result self.new }
        ensures less { IsErrOf result NodeFault.Disk → work_left self.new ≤ work_left self.old }
        ensures refused { RefusesNode U.Outlet node self.old result self.new }
        ensures called { IsCall result (IsSettledSince ⟦<Watched<D> as Disk>⟧.told) node self.old self.new }
    {
        self.turns(node)?;
        self.pages(node)?;
        self.settle(node)?;
        self.send(node)?;
        self.hear(node)?;
        self.outputs(node)
    }

    /// Restarts a node once. It was restarted less often than it may be.
    fn restart_once(&mut self, node: u8, most: u64) -> Result<(), NodeFault>
        requires may { Restarts D.Disk U.Outlet A.App node self.old }
        requires left { tries_at self.old.stations.items node < most }
        ensures leaves { LeavesAgain D.Disk U.Outlet A.App node self.old result self.new }
        ensures accounts { AccountsAgain D.Disk O.Oracle U.Outlet A.App most node self.old result self.new }
        ensures refused { RefusesNode U.Outlet node self.old result self.new }
        ensures tried { IsErrOf result NodeFault.Disk
            → tries_at self.new.stations.items node ≡ tries_at self.old.stations.items node + 1 }
        ensures same { self.new.restarts ≡ self.old.restarts }
        ensures worked { most ≤ self.old.restarts → UnlessMemory result (work_left self.new < work_left self.old) }
        ensures restarted { Changes (TriesBy result) node self.old self.new }
    {
        self.stations[usize::from(node)].restart()
    }

    /// How often a node was restarted.
    fn tries(&self, node: u8) -> u64
        requires { node < length self.now.stations.items }
        ensures { result ≡ tries_at self.now.stations.items node }
    {
        self.stations[usize::from(node)].restarts
    }

    /// Restarts a node, and again where a disk fails in the restart.
    fn restart(&mut self, node: u8) -> Result<(), RunFault>
        requires { Restarts D.Disk U.Outlet A.App node self.old }
        ensures leaves { LeavesRestarted D.Disk U.Outlet A.App node self.old result self.new }
        ensures accounts { AccountsRestarted D.Disk O.Oracle U.Outlet A.App node self.old result self.new }
        ensures worked { OnOk result (work_left self.new < work_left self.old) }
        ensures refused { RefusesVisited U.Outlet node self.old result self.new }
        ensures stops { StopsRestarted D.Disk O.Oracle U.Outlet A.App node self.old result self.new }
        ensures restarted { OnOk result (Changes WasRestarted node self.old self.new) }
    {
        let most = self.restarts;
        'tries: while self.tries(node) < most {
            match self.restart_once(node, most) {
                Ok(()) => return Ok(()),
                Err(NodeFault::Disk) => (),
                Err(NodeFault::Damaged { disk, place }) => {
                    return Err(RunFault::Damaged { node, disk, place });
                }
                Err(_) => return Err(RunFault::Memory),
            }
        }
        Err(RunFault::Down { node })
    }

    /// Visits a node: it does what there is to do, and is restarted where a disk of it failed.
    fn visit(&mut self, node: u8) -> Result<(), RunFault>
        requires { Works D.Disk U.Outlet A.App node self.old }
        ensures leaves { LeavesVisited D.Disk U.Outlet A.App node self.old result self.new }
        ensures accounts { AccountsVisited D.Disk O.Oracle U.Outlet A.App node self.old result self.new }
        ensures moves { MovesNode D.Disk U.Outlet A.App (λ g. Visited g node) node self.old result self.new }
        ensures refused { RefusesVisited U.Outlet node self.old result self.new }
        ensures stops { StopsVisited D.Disk O.Oracle U.Outlet A.App node self.old result self.new }
        ensures visited { OnOk result (Changes (WasVisited ⟦<Watched<D> as Disk>⟧.told) node self.old self.new) }
    {
        match self.work(node) {
            Ok(()) => Ok(()),
            Err(NodeFault::Disk) => self.restart(node),
            Err(NodeFault::Outlet) => Err(RunFault::Down { node }),
            Err(NodeFault::Damaged { disk, place }) => Err(RunFault::Damaged { node, disk, place }),
            Err(NodeFault::Memory) => Err(RunFault::Memory),
        }
    }

    /// Visits each node once, in rising order: it makes all its turns, writes all its pages, syncs its image, sends what is due,
    /// takes acknowledgements, and emits its outputs until one is refused. A node whose disk fails is restarted, until a restart
    /// answers, and the pass goes on with the next one. `Down`: a disk of that node failed and it has no restart left, or its outlet
    /// refused one output 65 times in a row; the run may not go on. After `Memory` nothing is known of the run.
    pub fn pass(&mut self) -> Result<(), RunFault>
        requires { GoesOn D.Disk U.Outlet A.App self.old }
        ensures leaves { LeavesRun D.Disk U.Outlet A.App self.old result self.new }
        ensures accounts { AccountsRun D.Disk O.Oracle U.Outlet A.App self.old result self.new }
        ensures moves { MovesRun D.Disk U.Outlet A.App Passed self.old result self.new }
        ensures refused { RefusesRun U.Outlet self.old result self.new }
        ensures stops { StopsPass D.Disk O.Oracle U.Outlet A.App self.old result self.new }
        ensures visited { OnOk result (AllVisited ⟦<Watched<D> as Disk>⟧.told self.old self.new) }
    {
        for node in 0..self.nodes {
            self.visit(node)?;
        }
        Ok(())
    }
}
