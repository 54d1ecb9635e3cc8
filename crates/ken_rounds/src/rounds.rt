// Rounds of threads over the nodes of a run.
ghost use Rattle.std.specs.Prelude.{◌≡◌, ◌*◌, ◌≤◌, length};
ghost use Rattle.ken_run.specs.Clauses.{Drains};
ghost use Rattle.ken_run.specs.Patched.{AddStates};
ghost use Rattle.ken_rounds.specs.Clauses.{AccountsRounds, KeepsRest, LeavesRounds, QuotaRounds, RefusesRounds, StopsRounds};
ghost use Rattle.ken_rounds.specs.Growth.{GrowsRounds};
ghost use Rattle.ken_rounds.specs.Heeded.{HeedsRounds};
ghost use Rattle.ken_rounds.specs.Raising.{AnswersBy, MayAnswer};

use crate::lending::{bring_all_back, lend_all};
use crate::raising::raise_all;
use ken_app::{App, Oracle};
use ken_disk::Disk;
use ken_node::Watched;
use ken_run::{Run, RunFault, Station};
use ken_ship::{NodeFault, Outlet};
use ken_threads::{Gate, round};
use std::alloc::{AllocError, Global};
use std::sync::Wait;
use std::thread::Threads;

// The answer of a round that ran or didn't: want of memory, or what becomes of the nodes by their faults.
fn answer_for<D: Disk, O: Oracle, U: Outlet>(
    ran: Result<(), AllocError>,
    stations: &mut Vec<Station<D, O, U>>,
    faults: &[Option<NodeFault>],
    most: u64,
) -> Result<(), RunFault>
    requires few { length stations.old.items ≤ 8 }
    requires count { length faults.now ≡ length stations.old.items }
    requires may { MayAnswer D.Disk ran faults.now stations.old.items }
    ensures { AnswersBy D.Disk O.Oracle most ran faults.now result stations.old.items stations.new.items }
{
    ran?;
    if faults.contains(&Some(NodeFault::Memory)) {
        return Err(RunFault::Memory);
    }
    raise_all(stations, faults, most)
}

/// A round of the workers of all nodes, as threads. Then the workers of each node meet, and the faults that they kept are looked at:
/// after want of memory of any the round has ended; and else, in rising order of the nodes, one whose outlet refused an output once too
/// often is down, and one whose disks failed is restarted, until a restart answers. The errors are those of a pass of the run: `Down`,
/// after which other nodes may be down too, and were not looked at if they come later; and `Memory`, after which nothing is known.
fn one_round<R, D, O, U, A, G>(
    rt: &R,
    alloc: Global,
    run: &mut Run<D, O, U, A>,
    gate: &G,
) -> Result<(), RunFault>
where
    R: Threads + Wait + Sync,
    D: Disk + Send + Drop,
    O: Oracle + Send + Drop,
    U: Outlet + Send + Drop,
    A: App + Sync,
    G: Gate + Sync,
    requires { Drains D.Disk U.Outlet A.App run.old }
    ensures leaves { LeavesRounds D.Disk U.Outlet A.App run.old result run.new }
    ensures accounts { AccountsRounds D.Disk O.Oracle U.Outlet A.App run.old result run.new }
    ensures refused { RefusesRounds D.Disk U.Outlet A.App run.old result run.new }
    ensures stops { StopsRounds D.Disk O.Oracle U.Outlet A.App run.old result run.new }
    ensures heeds { HeedsRounds U.Outlet run.old result run.new }
    ensures quota { QuotaRounds D.Disk U.Outlet A.App 1 run.old result run.new }
    ensures growth { GrowsRounds 1 run.old result run.new }
    ensures states { AddStates ⟦<Watched<D> as Disk>⟧.told 16 run.old result run.new }
    ensures rest { KeepsRest run.old run.new }
{
    let nodes = usize::from(run.nodes());
    let mut crews = Vec::with_capacity(alloc, nodes)?;
    let mut tallies = Vec::with_capacity(alloc, nodes)?;
    let mut stations = Vec::with_capacity(alloc, nodes)?;
    let mut faults = Vec::with_capacity(alloc, nodes)?;
    lend_all(run.take_stations(), &mut crews, &mut tallies);
    let ran = round(rt, alloc, run.app(), &mut crews, gate);
    bring_all_back(crews, tallies, &mut stations, &mut faults);
    let answer = answer_for(ran, &mut stations, faults.as_slice(), run.restarts());
    run.put_stations(stations);
    answer
}

/// So many rounds of the workers of all nodes, as threads: see [`round`]. After each the workers of a node meet; a node whose disks
/// failed in it is restarted, until a restart answers, and the others go on. The errors are those of a pass of the run. `Down`: a disk
/// of that node failed and it has no restart left, or its outlet refused one output 65 times in a row; the nodes before it went on,
/// and those after it weren't looked at, so some of them may be down too. After `Memory` nothing is known of the run. Rounds may wait
/// where a wire is in another thread's hands.
pub fn threaded<R, D, O, U, A, G>(
    rt: &R,
    alloc: Global,
    run: &mut Run<D, O, U, A>,
    rounds: u64,
    gate: &G,
) -> Result<(), RunFault>
where
    R: Threads + Wait + Sync,
    D: Disk + Send + Drop,
    O: Oracle + Send + Drop,
    U: Outlet + Send + Drop,
    A: App + Sync,
    G: Gate + Sync,
    requires { Drains D.Disk U.Outlet A.App run.old }
    ensures leaves { LeavesRounds D.Disk U.Outlet A.App run.old result run.new }
    ensures accounts { AccountsRounds D.Disk O.Oracle U.Outlet A.App run.old result run.new }
    ensures refused { RefusesRounds D.Disk U.Outlet A.App run.old result run.new }
    ensures stops { StopsRounds D.Disk O.Oracle U.Outlet A.App run.old result run.new }
    ensures heeds { HeedsRounds U.Outlet run.old result run.new }
    ensures quota { QuotaRounds D.Disk U.Outlet A.App rounds run.old result run.new }
    ensures growth { GrowsRounds rounds run.old result run.new }
    ensures states { AddStates ⟦<Watched<D> as Disk>⟧.told (16 * rounds) run.old result run.new }
    ensures rest { KeepsRest run.old run.new }
{
    for _round in 0..rounds {
        one_round(rt, alloc, run, gate)?;
    }
    Ok(())
}
