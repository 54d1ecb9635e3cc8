// That what nodes send to each other within a round gets there. All workers begin each step together: so what a turn
// sends is on its wire after the next step at the latest, and is taken by the one after that.
use crate::meeting::{Meeting, WORKERS};
use crate::runs::{rounds_of, started, turns};
use ken_threads::STEPS;
use std::alloc::{AllocError, Global};
use std::test::Fail;

// Three nodes pass a count of 7 on, from node 0. That makes eight turns, at most two steps apart.
const RING: &str = "{\"nodes\":3,\"kind\":\"ring\",\"inputs\":[[0,\"7\"]]}";

// How often all workers meet in a round.
const MEETINGS: u64 = STEPS as u64;

#[test]
fn a_count_goes_round_within_a_round(rt: HostRuntime) -> Result<(), Fail> {
    let alloc = rt.alloc();
    let gate = Meeting::of(STEPS);
    let mut run = started(alloc, RING)?;
    rounds_of(&rt, alloc, &mut run, 1, &gate)?;
    assert_eq!(rt; gate.told(), (WORKERS * MEETINGS, 0));
    assert_eq!(rt; turns(run), [3, 3, 2]);
    Ok(())
}

// How much of its mail a node sends to another that acknowledges none.
const UNHEARD: u64 = 16;

// Node 0 makes as many turns as two rounds allow. Each sends a mail to node 1.
fn sending(alloc: Global) -> Result<String, AllocError> {
    let mut inputs = String::from_str(alloc, "[0,\"1\"]")?;
    for _input in 1..2 * STEPS {
        inputs.push_str(",[0,\"1\"]")?;
    }
    format!(in alloc; "{{\"nodes\":3,\"kind\":\"ring\",\"inputs\":[{inputs}]}}")
}

#[test]
fn acknowledgements_come_back_within_rounds(rt: HostRuntime) -> Result<(), Fail> {
    let alloc = rt.alloc();
    let gate = Meeting::of(STEPS);
    let mut run = started(alloc, &sending(alloc)?)?;
    rounds_of(&rt, alloc, &mut run, 2, &gate)?;
    assert_eq!(rt; gate.told(), (WORKERS * MEETINGS * 2, 0));
    let [first, second, third] = turns(run);
    assert_eq!(rt;
        (first, second > UNHEARD, third),
        (2 * MEETINGS, true, 0),
        "node 1 made {second} turns"
    );
    Ok(())
}
