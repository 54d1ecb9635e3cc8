// The script of a number.
ghost use Rattle.std.specs.Prelude.{◌≡◌, ◌<◌, ◌≤◌, IfOk};
ghost use Rattle.ken_model.specs.declared.facts.TheConstants.{MAX_INPUTS, MAX_NODES};
ghost use Rattle.ken_script.specs.declared.scripts.TheConstants.{MAX_ROUNDS};
ghost use Rattle.ken_script.specs.Within.{KeepsRules};
ghost use Rattle.ken_gen.specs.Generated.{script_of};

use crate::inputs::draw_inputs;
use crate::mishaps::{draw_acts, draw_cuts};
use ken_model::{Facts, Items, Kind, PAGE};
use ken_num::Lcg;
use ken_script::Script;
use std::alloc::{AllocError, Global};

/// The pages of each heap.
const PAGES: u64 = 4;

/// The most turns of a node.
const TURNS: u64 = 100_000;

/// The most restarts of a node.
const RESTARTS: u64 = 64;

/// How many cuts are drawn.
const CUTS: u8 = 6;

/// How many acts on puts of messages are drawn.
const MAIL: u8 = 32;

/// How many acts on puts of acknowledgements are drawn.
const ACKS: u8 = 16;

/// The script of a seed, for a run of so many nodes with so many inputs and rounds. It keeps the rules of a script that is read.
#[tactic(auto, using(crate::proofs::Keeps::keeps_rules))]
pub fn script_of(
    alloc: Global,
    seed: u64,
    nodes: u8,
    inputs: u16,
    rounds: u64,
) -> Result<Script, AllocError>
    requires some { 0 < nodes }
    requires few_nodes { nodes ≤ MAX_NODES }
    requires few_inputs { inputs ≤ MAX_INPUTS }
    requires few_rounds { rounds ≤ MAX_ROUNDS }
    ensures made { IfOk result (λ script. script ≡ script_of seed nodes inputs rounds) }
    ensures keeps { IfOk result KeepsRules }
{
    let mut generator = Lcg::new(seed);
    let inputs = draw_inputs(alloc, &mut generator, nodes, inputs)?;
    let cuts = draw_cuts(alloc, &mut generator, nodes, CUTS)?;
    let mail = draw_acts(alloc, &mut generator, nodes, MAIL)?;
    let acks = draw_acts(alloc, &mut generator, nodes, ACKS)?;
    Ok(Script {
        facts: Facts {
            nodes,
            kind: Kind::Share,
            size: PAGES * PAGE,
            turns: TURNS,
            inputs: Items::new(inputs),
        },
        seed,
        rounds,
        restarts: RESTARTS,
        cuts: Items::new(cuts),
        mail: Items::new(mail),
        acks: Items::new(acks),
        outlets: Items::new(Vec::new(alloc)),
    })
}
