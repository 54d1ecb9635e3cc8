// The creation of a run, and of its nodes.
ghost use Rattle.std.specs.Prelude.{◌≡◌, ◌^◌, ◌<◌, ◌+◌, [], replicate, IfOk};
ghost use Rattle.ken_node.specs.Stages.{refusals_in};
ghost use Rattle.ken_work.specs.Parts.{CountsAnew};
ghost use Rattle.ken_run.specs.Clauses.{AccountsJoined, AddsStation, JoinsRun, MayAdd, RefusesJoined};
ghost use Rattle.ken_run.specs.StationClauses.{AccountsBegun, AccountsMade, AccountsRaised, Begins, IsMade, IsRaised, IsRestartOf, KeepsCounts, KeepsEmissions, MayBegin, MayComeBack, RefusedNone};

use crate::faults::RunFault;
use crate::inboxes::InFlight;
use crate::run::Run;
use crate::station::Station;
use ken_app::{App, Oracle};
use ken_disk::Disk;
use ken_net::Inboxes;
use ken_node::Watched;
use ken_ship::{NodeFault, Outlet};
use std::alloc::{AllocError, Global};

impl<D: Disk, O: Oracle, U: Outlet> Station<D, O, U> {
    /// Restarts the node, which is down, until a restart answers. The errors are `Disk`: it was restarted `most` times, and is down
    /// still; and `Memory`, after which nothing is known of it.
    pub fn raise(&mut self, most: u64) -> Result<(), NodeFault>
        requires { MayComeBack D.Disk self.old }
        ensures back { IsRaised D.Disk most self.old result self.new }
        ensures accounts { AccountsRaised D.Disk O.Oracle most self.old result self.new }
        ensures counts { KeepsCounts D.Disk self.old self.new }
        ensures emissions { KeepsEmissions self.old self.new }
        ensures refusals { CountsAnew result (refusals_in self.old.node.stage) (refusals_in self.new.node.stage) }
        ensures rest { IsRestartOf self.old self.new }
    {
        'tries: while self.restarts < most {
            match self.restart() {
                Ok(()) => return Ok(()),
                Err(NodeFault::Disk) => (),
                Err(NodeFault::Damaged { disk, place }) => {
                    return Err(NodeFault::Damaged { disk, place });
                }
                Err(_) => return Err(NodeFault::Memory),
            }
        }
        Err(NodeFault::Disk)
    }

    /// Creates the node on its empty disks, and restarts it where one of them fails. `Disk`: it was restarted `most` times, and is
    /// down. The other error is `Memory`.
    pub(crate) fn create(&mut self, most: u64) -> Result<(), NodeFault>
        requires { MayBegin D.Disk self.old }
        ensures creates { IsMade D.Disk most self.old result self.new }
        ensures accounts { AccountsMade D.Disk O.Oracle most self.old result self.new }
        ensures refusals { RefusedNone D.Disk self.old self.new }
        ensures rest { IsRestartOf self.old self.new }
    {
        match self.node.create() {
            Ok(()) => Ok(()),
            Err(NodeFault::Disk) => self.raise(most),
            Err(fault) => Err(fault),
        }
    }

    /// Creates the node of that number, as `create` does, and answers as a run does.
    pub(crate) fn start(&mut self, node: u8, most: u64) -> Result<(), RunFault>
        requires { MayBegin D.Disk self.old }
        ensures creates { Begins D.Disk node most self.old result self.new }
        ensures accounts { AccountsBegun D.Disk O.Oracle most self.old result self.new }
        ensures refusals { RefusedNone D.Disk self.old self.new }
        ensures rest { IsRestartOf self.old self.new }
    {
        match self.create(most) {
            Ok(()) => Ok(()),
            Err(NodeFault::Disk) => Err(RunFault::Down { node }),
            Err(NodeFault::Damaged { disk, place }) => Err(RunFault::Damaged { node, disk, place }),
            Err(_) => Err(RunFault::Memory),
        }
    }
}

impl<D: Disk + Drop, O: Oracle + Drop, U: Outlet + Drop, A: App + Drop> Run<D, O, U, A> {
    /// A run for so many nodes, none of which was made, each of which may be restarted so often.
    pub fn new(alloc: Global, app: A, nodes: u8, restarts: u64) -> Result<Self, AllocError>
        ensures app { IfOk result (λ r. r.app ≡ app) }
        ensures most { IfOk result (λ r. r.restarts ≡ restarts) }
        ensures none { IfOk result (λ r. (r.nodes ≡ 0) × (r.stations.items ≡ [])) }
        ensures mail { IfOk result (λ r. r.waiting.mail ≡ replicate nodes []) }
        ensures acks { IfOk result (λ r. r.waiting.acks ≡ replicate nodes []) }
    {
        Ok(Run {
            alloc,
            nodes: 0,
            app,
            restarts,
            stations: Vec::new(alloc),
            waiting: InFlight {
                mail: Inboxes::new(alloc, nodes)?,
                acks: Inboxes::new(alloc, nodes)?,
            },
        })
    }

    /// Creates the next node of the run. `Down`: its disks failed once more than it may be restarted, and it has joined still.
    pub fn join(&mut self, mut station: Station<D, O, U>) -> Result<(), RunFault>
        requires { MayAdd D.Disk U.Outlet A.App station self.old }
        ensures joins { JoinsRun D.Disk U.Outlet A.App station self.old result self.new }
        ensures adds { AddsStation D.Disk U.Outlet A.App station self.old result self.new }
        ensures accounts { AccountsJoined D.Disk O.Oracle U.Outlet A.App station self.old result self.new }
        ensures refused { RefusesJoined D.Disk U.Outlet A.App station self.old result self.new }
        ensures most { self.new.restarts ≡ self.old.restarts }
    {
        self.stations.reserve(1)?;
        let started = station.start(self.nodes, self.restarts);
        self.stations.push_reserved(station);
        self.nodes += 1;
        started
    }
}
