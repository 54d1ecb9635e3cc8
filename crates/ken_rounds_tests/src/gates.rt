// That the workers of all nodes are at work at one time.
use crate::meeting::{Meeting, WORKERS};
use crate::runs::report;
use std::test::Fail;

// Three nodes pass a count of 2 on, from node 0.
const RING: &str = "{\"nodes\":3,\"kind\":\"ring\",\"inputs\":[[0,\"2\"]]}";

const RING_REPORT: &str = "\
turn 1 0 out 1 -
turn 2 1 0 1 -
turn 3 2 1 1 -
emit 0 1 2
emit 1 1 1
emit 2 1 0
heap 0 1
heap 1 1
heap 2 1
end settled 3
";

// How often runs meet.
const RUNS: u64 = 100;

#[test]
fn all_workers_meet_in_a_round(rt: HostRuntime) -> Result<(), Fail> {
    for run in 1..=RUNS {
        let gate = Meeting::of(1);
        let report = report(&rt, rt.alloc(), RING, 1, &gate)?;
        assert_eq!(rt;
            (gate.told(), report.as_str()),
            ((WORKERS, 0), RING_REPORT),
            "run {run}"
        );
    }
    Ok(())
}
