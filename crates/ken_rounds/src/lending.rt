// The workers of all nodes, lent to a round and brought back.
ghost use Rattle.std.specs.Prelude.{◌≡◌, ◌≤◌, length, vec_capacity, vec_len};
ghost use Rattle.ken_net.specs.Standings.{KeepsOwn};
ghost use Rattle.ken_node.specs.Stages.{IsCreated};
ghost use Rattle.ken_work.specs.Meeting.{AreJoined};
ghost use Rattle.ken_rounds.specs.Faults.{ComeTo};
ghost use Rattle.ken_rounds.specs.Lending.{AreAllCreated, AreAllJoined, AreLent, HasCome, HaveCome, IsTallied, KeepOwn};
ghost use Rattle.ken_rounds.specs.Manned.{IsMannedBy};

use ken_disk::Disk;
use ken_net::Links;
use ken_node::{Node, Watched};
use ken_run::Station;
use ken_ship::NodeFault;
use ken_threads::{Crew, Faults};
use ken_work::meet;

/// What a node's station keeps while its workers are at a round: how often it was restarted, and with how many turns it went on.
#[derive(Drop)]
pub(crate) struct Tally {
    pub restarts: u64,
    pub lines: Vec<u64>,
}

/// What a node's faults come to: want of memory, else an outlet that refused once too often, else a disk that failed.
fn come_to(faults: &Faults) -> Option<NodeFault>
    ensures { ComeTo faults.now result }
{
    let memory = Some(NodeFault::Memory);
    if faults.handler == memory || faults.patcher == memory || faults.externaliser == memory {
        return memory;
    }
    if faults.externaliser == Some(NodeFault::Outlet) {
        return Some(NodeFault::Outlet);
    }
    let disk = Some(NodeFault::Disk);
    if faults.handler == disk || faults.patcher == disk {
        return disk;
    }
    None
}

// What links keep is packets of their node.
fn keep_own(links: &Links)
    ensures { KeepsOwn links.now }
{
    links.node();
}

// Lends the workers of a node, with all that they work on.
fn lend<D: Disk, O, U>(station: Station<D, O, U>) -> (Crew<Watched<D>, O, U>, Tally)
    requires { IsCreated station.node.stage }
    ensures crew { IsMannedBy result.0 station }
    ensures tally { IsTallied result.1 station }
    ensures own { KeepOwn station }
{
    let Station {
        node,
        luck,
        out,
        mail,
        acks,
        restarts,
        lines,
    } = station;
    keep_own(&mail);
    keep_own(&acks);
    let (turns, patches, sends) = node.split();
    let faults = Faults {
        handler: None,
        patcher: None,
        externaliser: None,
    };
    let crew = Crew {
        turns,
        patches,
        sends,
        oracle: luck,
        outlet: out,
        mail,
        acks,
        faults,
    };
    (crew, Tally { restarts, lines })
}

// Brings the workers of a node back, and has them meet: what their faults come to, and want of memory where they couldn't.
fn bring_back<D: Disk, O, U>(
    crew: Crew<Watched<D>, O, U>,
    tally: Tally,
) -> (Station<D, O, U>, Option<NodeFault>)
    requires { AreJoined crew.turns crew.patches crew.sends }
    ensures { HasCome ⟦<Watched<D> as Disk>⟧ crew tally result.0 result.1 }
{
    let Crew {
        mut turns,
        mut patches,
        mut sends,
        oracle,
        outlet,
        mail,
        acks,
        faults,
    } = crew;
    let met = meet(&mut turns, &mut patches, &mut sends);
    let station = Station {
        node: Node::join(turns, patches, sends),
        luck: oracle,
        out: outlet,
        mail,
        acks,
        restarts: tally.restarts,
        lines: tally.lines,
    };
    match met {
        Ok(()) => (station, come_to(&faults)),
        Err(_refused) => (station, Some(NodeFault::Memory)),
    }
}

/// Lends the workers of all nodes, by number. There is room for them.
pub(crate) fn lend_all<D: Disk + Drop, O: Drop, U: Drop>(
    stations: Vec<Station<D, O, U>>,
    crews: &mut Vec<Crew<Watched<D>, O, U>>,
    tallies: &mut Vec<Tally>,
)
    requires created { AreAllCreated stations.items }
    requires crews { (vec_len crews.old ≡ 0) × (length stations.items ≤ vec_capacity crews.old) }
    requires tallies { (vec_len tallies.old ≡ 0) × (length stations.items ≤ vec_capacity tallies.old) }
    ensures { AreLent stations.items crews.new.items tallies.new.items }
{
    for station in stations {
        let (crew, tally) = lend(station);
        crews.push_reserved(crew);
        tallies.push_reserved(tally);
    }
}

/// Brings the workers of all nodes back, by number, with what their faults come to. There is room for them.
pub(crate) fn bring_all_back<D: Disk + Drop, O: Drop, U: Drop>(
    crews: Vec<Crew<Watched<D>, O, U>>,
    tallies: Vec<Tally>,
    stations: &mut Vec<Station<D, O, U>>,
    faults: &mut Vec<Option<NodeFault>>,
)
    requires joined { AreAllJoined crews.items }
    requires tallies { length tallies.items ≡ length crews.items }
    requires stations { (vec_len stations.old ≡ 0) × (length crews.items ≤ vec_capacity stations.old) }
    requires faults { (vec_len faults.old ≡ 0) × (length crews.items ≤ vec_capacity faults.old) }
    ensures { HaveCome ⟦<Watched<D> as Disk>⟧ crews.items tallies.items stations.new.items faults.new.items }
{
    for (crew, tally) in crews.into_iter().zip(tallies) {
        let (station, fault) = bring_back(crew, tally);
        stations.push_reserved(station);
        faults.push_reserved(fault);
    }
}
