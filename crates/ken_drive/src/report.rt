// What a run that has ended says.
ghost use Rattle.std.specs.Prelude.{◌≡◌, ◌≢◌, ◌<◌, ◌++◌, [], ℕ, length, map, IfOk, OnOk};
ghost use Rattle.ken_core.specs.Timeline.{StampsRise};
ghost use Rattle.ken_core.specs.Turns.{effects_line};
ghost use Rattle.ken_model.specs.Game.{Game};
ghost use Rattle.ken_model.specs.History.{lines_by};
ghost use Rattle.ken_node.specs.Stages.{IsCreated, emissions_in, turns_in};
ghost use Rattle.ken_drive.specs.Ended.{AddsHeap, AreWords, HaveSaid, ending_of, restart_lines, waits_for, waits_in};
ghost use Rattle.ken_drive.specs.Clauses.{Over, ReportsRun, Tells};

use ken_app::{App, Oracle};
use ken_core::Timeline;
use ken_disk::Disk;
use ken_model::{Emission, Ending, Items, Lines, OUTSIDE, RestartLine, TryClone, Value};
use ken_node::Watched;
use ken_run::{Run, Station};
use ken_ship::Outlet;
use std::alloc::{AllocError, Global};

/// What the nodes so far say together.
#[derive(Drop)]
pub(crate) struct Summary {
    timeline: Timeline,
    emissions: Vec<Emission>,
    restarts: Vec<RestartLine>,
    /// The heap of each node.
    heaps: Vec<Value>,
}

impl Summary {
    fn new(alloc: Global) -> Self
        ensures timeline { result.timeline ≡ [] }
        ensures emissions { result.emissions.items ≡ [] }
        ensures restarts { result.restarts.items ≡ [] }
        ensures heaps { result.heaps.items ≡ [] }
    {
        Summary {
            timeline: Timeline::new(alloc),
            emissions: Vec::new(alloc),
            restarts: Vec::new(alloc),
            heaps: Vec::new(alloc),
        }
    }

    /// Adds all that a node says which has no turns here yet. After an error some of it may be missing.
    fn add<D: Disk, O, U>(
        &mut self,
        alloc: Global,
        node: u8,
        station: &Station<D, O, U>,
    ) -> Result<(), AllocError>
        requires created { IsCreated station.now.node.stage }
        requires rise { StampsRise 0 (map (effects_line node) (turns_in station.now.node.stage)) }
        requires fresh { lines_by node self.old.timeline ≡ [] }
        ensures its_turns { OnOk result (lines_by node self.new.timeline ≡ map (effects_line node)
            (turns_in station.now.node.stage)) }
        ensures others { OnOk result ((v : ℕ) → v ≢ node
            → lines_by v self.new.timeline ≡ lines_by v self.old.timeline) }
        ensures emissions { OnOk result (self.new.emissions.items
            ≡ self.old.emissions.items ++ emissions_in station.now.node.stage) }
        ensures restarts { OnOk result (self.new.restarts.items
            ≡ self.old.restarts.items ++ restart_lines node station.now.lines.items) }
        ensures words { OnOk result (AreWords self.old.restarts.items → AreWords self.new.restarts.items) }
        ensures heap { OnOk result (AddsHeap station.now.node.stage self.old.heaps.items self.new.heaps.items) }
    {
        self.timeline.add(alloc, node, station.node.turns())?;
        add_emissions(alloc, station.node.emissions(), &mut self.emissions)?;
        add_restarts(node, station.lines.as_slice(), &mut self.restarts)?;
        self.heaps.push(station.node.value(alloc)?)?;
        Ok(())
    }
}

/// Adds copies of what a node has emitted.
fn add_emissions(
    alloc: Global,
    emissions: &[Emission],
    all: &mut Vec<Emission>,
) -> Result<(), AllocError>
    ensures { OnOk result (all.new.items ≡ all.old.items ++ emissions.now) }
{
    for emission in emissions {
        all.push(emission.try_clone(alloc)?)?;
    }
    Ok(())
}

/// Adds a line for each restart of a node that answered, by the turns with which it went on.
fn add_restarts(node: u8, turns: &[u64], all: &mut Vec<RestartLine>) -> Result<(), AllocError>
    ensures lines { OnOk result (all.new.items ≡ all.old.items ++ restart_lines node turns.now) }
    ensures words { OnOk result (AreWords all.old.items → AreWords all.new.items) }
{
    for turns in turns {
        all.push(RestartLine {
            node,
            turns: *turns,
        })?;
    }
    Ok(())
}

/// The ending of a run in which so much waits.
fn ending_of(waiting: u64) -> Ending
    ensures { result ≡ ending_of waiting }
{
    if waiting == 0 {
        Ending::Settled
    } else {
        Ending::Cut
    }
}

/// What all nodes say.
fn gather<D: Disk, O: Oracle, U: Outlet, A: App>(
    alloc: Global,
    run: &Run<D, O, U, A>,
) -> Result<Summary, AllocError>
    requires { Tells D.Disk U.Outlet A.App run.now }
    ensures { IfOk result (HaveSaid (length run.now.stations.items) run.now.stations.items) }
{
    let mut summary = Summary::new(alloc);
    for node in 0..run.nodes() {
        summary.add(alloc, node, run.station(node))?;
    }
    Ok(summary)
}

/// How many messages and inputs wait for a node.
fn waiting_for<D: Disk, O: Oracle, U: Outlet, A: App>(run: &Run<D, O, U, A>, node: u8) -> u64
    requires ended { Tells D.Disk U.Outlet A.App run.now }
    requires known { node < run.now.nodes }
    ensures { (g : Game) (e : Over D.Disk U.Outlet A.App g run.now) → result ≡ waits_for g e.running.nodes node }
{
    let receiver = &run.station(node).node;
    let mut waiting = receiver.inputs() - receiver.consumed(OUTSIDE);
    for sender in 0..run.nodes() {
        let sent = run.station(sender).node.sent(node);
        waiting += sent - receiver.consumed(sender);
    }
    waiting
}

/// How many messages and inputs wait.
fn waiting<D: Disk, O: Oracle, U: Outlet, A: App>(run: &Run<D, O, U, A>) -> u64
    requires { Tells D.Disk U.Outlet A.App run.now }
    ensures { (g : Game) (e : Over D.Disk U.Outlet A.App g run.now) → result ≡ waits_in g e.running.nodes }
{
    let mut waiting = 0;
    for node in 0..run.nodes() {
        waiting += waiting_for(run, node);
    }
    waiting
}

/// How a run has ended: `Settled` where nothing waits, and else `Cut`.
pub fn end<D: Disk, O: Oracle, U: Outlet, A: App>(run: &Run<D, O, U, A>) -> Ending
    requires { Tells D.Disk U.Outlet A.App run.now }
    ensures { (g : Game) (e : Over D.Disk U.Outlet A.App g run.now)
        → result ≡ ending_of (waits_in g e.running.nodes) }
{
    ending_of(waiting(run))
}

/// The lines of a run's report: the turns of all nodes in the order of their stamps, and at equal stamps of their nodes; what
/// each node has emitted and how it was restarted, node by node; the heaps; and how the run has ended.
pub fn lines<D: Disk, O: Oracle, U: Outlet, A: App>(
    alloc: Global,
    run: &Run<D, O, U, A>,
) -> Result<Lines, AllocError>
    requires { Tells D.Disk U.Outlet A.App run.now }
    ensures { ReportsRun D.Disk U.Outlet A.App run.now result }
{
    let summary = gather(alloc, run)?;
    let turns = summary.timeline.into_lines();
    let waiting = waiting(run);
    Ok(Lines {
        turns: Items::new(turns),
        emissions: Items::new(summary.emissions),
        restarts: Items::new(summary.restarts),
        heaps: Items::new(summary.heaps),
        ending: ending_of(waiting),
        waiting,
    })
}
