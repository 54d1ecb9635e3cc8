// Rounds in which several workers fail.
use crate::runs::{faultless, report, restarts, rounds_of, started};
use ken_drive::RunFault;
use ken_threads::OpenGate;
use std::alloc::{AllocError, Global};
use std::test::Fail;

// A script without its cuts, and cuts of its disks.
struct Row {
    script: &'static str,
    cuts: &'static str,
    rounds: u64,
    restarts: &'static str,
}

// Nodes 0 and 1 have two inputs each, and only node 1 sends: a mail to node 2.
const THREE: &str =
    "\"nodes\":3,\"kind\":\"ring\",\"inputs\":[[0,\"0\"],[1,\"1\"],[0,\"0\"],[1,\"0\"]]";

// Nodes of one page each, so two calls make the image, and the third is the first of its patcher.
const ONE: &str = "\"nodes\":2,\"kind\":\"ring\",\"pages\":1,\"inputs\":[[0,\"1\"]]";

const TWO: &str = "\"nodes\":2,\"kind\":\"ring\",\"pages\":1,\"inputs\":[[0,\"0\"],[1,\"0\"]]";

const TWENTY: &str = "\
        \"nodes\":2,\"kind\":\"ring\",\"pages\":1,\"inputs\":[\
        [0,\"0\"],[0,\"0\"],[0,\"0\"],[0,\"0\"],[0,\"0\"],[0,\"0\"],[0,\"0\"],[0,\"0\"],[0,\"0\"],[0,\"0\"],\
        [0,\"0\"],[0,\"0\"],[0,\"0\"],[0,\"0\"],[0,\"0\"],[0,\"0\"],[0,\"0\"],[0,\"0\"],[0,\"0\"],[0,\"0\"]]";

const ROWS: [Row; 8] = [
    // The logs of two nodes fail in one round. Call 9 opens the gate of the first record, which is lost, or stands;
    Row {
        script: THREE,
        cuts: "[0,0,9,1],[1,0,9,1]",
        rounds: 4,
        restarts: "restart 0 at 0\nrestart 1 at 0\n",
    },
    Row {
        script: THREE,
        cuts: "[0,0,9,0],[1,0,9,0]",
        rounds: 4,
        restarts: "restart 0 at 1\nrestart 1 at 1\n",
    },
    // and call 13 that of the second.
    Row {
        script: THREE,
        cuts: "[0,0,13,1],[1,0,13,1]",
        rounds: 4,
        restarts: "restart 0 at 1\nrestart 1 at 1\n",
    },
    Row {
        script: THREE,
        cuts: "[0,0,13,0],[1,0,13,0]",
        rounds: 4,
        restarts: "restart 0 at 2\nrestart 1 at 2\n",
    },
    // The handler and the patcher of a node fail in one round, and it is restarted once;
    Row {
        script: ONE,
        cuts: "[0,0,9,1],[0,1,3,1]",
        rounds: 1,
        restarts: "restart 0 at 0\n",
    },
    Row {
        script: ONE,
        cuts: "[0,0,9,1],[0,1,3,1]",
        rounds: 4,
        restarts: "restart 0 at 0\n",
    },
    // and so are two such nodes.
    Row {
        script: TWO,
        cuts: "[0,0,9,1],[0,1,3,1],[1,0,9,1],[1,1,3,1]",
        rounds: 1,
        restarts: "restart 0 at 0\nrestart 1 at 0\n",
    },
    // A patcher fails at its first step, and the handler makes sixteen turns beside it, which is all that it makes in a round.
    Row {
        script: TWENTY,
        cuts: "[0,1,3,1]",
        rounds: 1,
        restarts: "restart 0 at 16\n",
    },
];

#[test]
fn nodes_are_restarted_after_their_round(rt: HostRuntime) -> Result<(), Fail> {
    let alloc = rt.alloc();
    for row in &ROWS {
        let (script, cuts) = (row.script, row.cuts);
        let whole = format!(in alloc; "{{{script}}}")?;
        let whole = report(&rt, alloc, &whole, 0, &OpenGate)?;
        let text = format!(in alloc; "{{{script},\"cuts\":[{cuts}]}}")?;
        let report = report(&rt, alloc, &text, row.rounds, &OpenGate)?;
        assert_eq!(rt;
            (
                restarts(alloc, &report)?.as_str(),
                faultless(alloc, &report)?.as_str()
            ),
            (row.restarts, whole.as_str()),
            "{} rounds of {text}",
            row.rounds
        );
    }
    Ok(())
}

// A script of one turn of node 1, whose outlet fails at its first calls.
fn refusing(alloc: Global, refusals: u64) -> Result<String, AllocError> {
    let mut fails = String::new(alloc);
    for call in 1..=refusals {
        let comma = if call == 1 { "" } else { "," };
        fails.push_str(&format!(in alloc; "{comma}[1,{call}]")?)?;
    }
    format!(in alloc;
        "{{\"nodes\":2,\"kind\":\"ring\",\"inputs\":[[1,\"0\"]],\"outlets\":[{fails}]}}"
    )
}

// In each round but the first an externaliser offers an output 16 times, so that six make 65 offers.
const ENOUGH: u64 = 6;

#[test]
fn an_output_is_refused_too_often_in_rounds(rt: HostRuntime) -> Result<(), Fail> {
    let alloc = rt.alloc();
    let mut run = started(alloc, &refusing(alloc, 65)?)?;
    let answer = rounds_of(&rt, alloc, &mut run, ENOUGH, &OpenGate);
    assert_eq!(rt; answer.err(), Some(RunFault::Down { node: 1 }));
    Ok(())
}
