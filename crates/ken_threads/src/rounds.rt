// A round: the workers of all nodes at once, over wires of its own.
ghost use Rattle.std.specs.Prelude.{◌≡◌, ◌<◌, ◌≤◌, length, OnErr, OnOk};
ghost use Rattle.ken_threads.specs.Rounds.{AreReady, AreWires, Rounded};

use crate::crew::Crew;
use crate::gate::Gate;
use crate::seating::{RoundNet, seat_all, unseat_all};
use crate::team::run_teams;
use crate::wiring::Wiring;
use ken_app::{App, Oracle};
use ken_disk::Disk;
use ken_net::Net;
use ken_ship::Outlet;
use std::alloc::{AllocError, Global};
use std::sync::Wait;
use std::thread::Threads;

// What is known of a node's ends of the networks of a round.
fn ends_over_wires<'a, R: Wait + 'a>()
    ensures { AreWires ⟦<RoundNet<'a, R> as Net>⟧ }
{}

/// A round of the workers of all nodes, given by number, as threads: up to three of each node at once. A handler's step takes a turn, a
/// patcher's writes a page or, where none is to be written, syncs the image, and an externaliser's sends what is due, takes
/// acknowledgements and emits an output. Each worker makes sixteen steps, fewer only where one fails: its fault is kept, and it makes no other. Before
/// each step of a worker the gate is asked. What nodes send to each other goes over wires of the round, with their own links; what
/// these hold at its end is lost. After the error, which is want of memory, nothing ran. A round may wait where a wire is in another
/// thread's hands.
pub fn round<'a, R, D, A, O, U, G>(
    rt: &'a R,
    alloc: Global,
    app: &'a A,
    crews: &mut Vec<Crew<D, O, U>>,
    gate: &G,
) -> Result<(), AllocError>
where
    R: Threads + Wait + Sync,
    D: Disk + Send + Drop,
    A: App + Sync,
    O: Oracle + Send + Drop,
    U: Outlet + Send + Drop,
    G: Gate + Sync,
    requires few { (0 < length crews.old.items) × (length crews.old.items ≤ 8) }
    requires ready { AreReady D.Disk (A.handler app.now) crews.old.items }
    ensures ok { OnOk result (Rounded D.Disk ⟦<RoundNet<'a, R> as Net>⟧ O.Oracle U.Outlet (A.handler app.now) crews.old.items crews.new.items) }
    ensures err { OnErr result (crews.new.items ≡ crews.old.items) }
{
    ends_over_wires::<R>();
    let nodes = crews.len();
    let mut teams = Vec::with_capacity(alloc, nodes)?;
    let mut mail = Wiring::new(alloc, nodes as u8)?;
    let mut acks = Wiring::new(alloc, nodes as u8)?;
    seat_all(rt, app, crews, &mut mail, &mut acks, &mut teams);
    let mut teams = run_teams(rt, teams, gate);
    unseat_all(&mut teams, crews, &mut mail, &mut acks);
    mail.close();
    acks.close();
    Ok(())
}
