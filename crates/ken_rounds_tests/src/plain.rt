// Runs whose report doesn't tell by how many threads they were made.
use crate::runs::report;
use ken_threads::OpenGate;
use std::test::Fail;

// Runs in which each message that a node takes is the only one that it may take then, so that their turns have one order. The first
// packets of links are lost, repeated or held.
const ORDERED: [&str; 7] = [
    // A count of 99 makes 50 turns at one of two nodes, so logs are renewed.
    "\
        {\"nodes\":2,\"kind\":\"ring\",\"inputs\":[[0,\"99\"]],\"mail\":[[0,1,1,\"lose\"],[0,1,3,\"repeat\"],\
        [1,0,2,3]],\"acks\":[[1,0,1,\"lose\"],[0,1,2,\"repeat\"]]}",
    // All that the first round sends from node 0 is lost.
    "\
        {\"nodes\":3,\"kind\":\"ring\",\"inputs\":[[0,\"9\"]],\"mail\":[[0,1,1,\"lose\"],[0,1,2,\"lose\"],\
        [0,1,3,\"lose\"],[0,1,4,\"lose\"],[0,1,5,\"lose\"],[0,1,6,\"lose\"],[0,1,7,\"lose\"],[0,1,8,\"lose\"],\
        [0,1,9,\"lose\"],[0,1,10,\"lose\"],[0,1,11,\"lose\"],[0,1,12,\"lose\"],[0,1,13,\"lose\"],\
        [0,1,14,\"lose\"],[0,1,15,\"lose\"],[0,1,16,\"lose\"]]}",
    "\
        {\"nodes\":3,\"kind\":\"tally\",\"inputs\":[[0,\"1\"],[0,\"2\"],[0,\"3\"]],\"mail\":[[0,1,1,\"lose\"],\
        [0,1,2,4],[0,2,1,\"repeat\"],[0,2,4,\"lose\"]],\"acks\":[[1,0,1,\"repeat\"],[2,0,1,\"lose\"]]}",
    "\
        {\"nodes\":3,\"kind\":\"share\",\"inputs\":[[0,\"100\"]],\"mail\":[[0,1,1,\"lose\"],[1,2,1,\"repeat\"],\
        [2,0,1,8]],\"acks\":[[1,0,1,\"lose\"],[0,2,1,2]]}",
    "\
        {\"nodes\":3,\"kind\":\"mix\",\"seed\":7,\"inputs\":[[0,\"40\"]],\"mail\":[[0,1,1,\"lose\"],\
        [1,2,1,\"repeat\"],[2,0,1,2],[0,0,1,\"lose\"]],\"acks\":[[1,0,1,\"lose\"],[0,2,1,\"repeat\"]]}",
    "\
        {\"nodes\":2,\"kind\":\"kv\",\"inputs\":[[0,\"put a 1\"],[1,\"put a 2\"],[0,\"put b 3\"],[1,\"get a\"],\
        [0,\"del a\"],[1,\"get b\"]]}",
    "\
        {\"nodes\":2,\"kind\":\"bank\",\"inputs\":[[0,\"open x 10\"],[0,\"move x 4 1 y\"],[0,\"move x 1 1 y\"]],\
        \"mail\":[[0,1,1,\"lose\"],[0,1,2,\"repeat\"]],\"acks\":[[1,0,1,\"lose\"]]}",
];

#[test]
fn ordered_runs_are_reported_alike_after_rounds(rt: HostRuntime) -> Result<(), Fail> {
    for text in ORDERED {
        let alone = report(&rt, rt.alloc(), text, 0, &OpenGate)?;
        let report = report(&rt, rt.alloc(), text, 8, &OpenGate)?;
        assert_eq!(rt; report.as_str(), alone.as_str(), "{text}");
    }
    Ok(())
}
