// The summary of a soak run.
ghost use Rattle.std.specs.Prelude.{◌≡◌, ◌<◌, ◌≤◌, ◌^◌, ◌∷◌, ◌++◌, map, decimal, IfOk, OnOk};
ghost use Rattle.ken_model.specs.declared.facts.TheConstants.{MAX_INPUTS, MAX_NODES};
ghost use Rattle.ken_model.specs.Report.{line};
ghost use Rattle.ken_gen.specs.Summary.{all_roots, all_turns, node_lines, summary, summary_of};

use crate::inputs::draw_inputs;
use crate::walks::follow_all;
use ken_model::Octets;
use ken_num::{Lcg, put_decimal};
use std::alloc::{AllocError, Global};

/// What a node came to.
#[derive(Clone, Copy, Debug, PartialEq, Eq)]
pub struct NodeTotal {
    /// How many turns it made.
    pub turns: u64,
    /// The root of its heap.
    pub root: u64,
}

/// The summary of a run that has settled, from its words and what its nodes came to. 64 bits must hold the sums of all
/// turns and of all roots.
#[tactic(auto, unfolding(crate::specs::Summary::summary_of))]
pub fn summary_of(
    alloc: Global,
    seed: u64,
    inputs: u16,
    totals: &[NodeTotal],
) -> Result<Octets, AllocError>
    requires few_turns { all_turns totals.now < 2 ^ 64 }
    requires small_roots { all_roots totals.now < 2 ^ 64 }
    ensures text { IfOk result (λ text. text ≡ summary_of seed inputs totals.now) }
{
    let mut out = Vec::new(alloc);
    put_line(
        &mut out,
        b"soak",
        &[seed, totals.len() as u64, u64::from(inputs)],
    )?;
    put_nodes(&mut out, totals)?;
    put_line(&mut out, b"turns", &[sum_turns(totals)])?;
    put_line(&mut out, b"sum", &[sum_roots(totals)])?;
    put_line(&mut out, b"settled", &[])?;
    Ok(Octets::new(out))
}

/// The summary of a seed, so many nodes and so many inputs, by the inputs' paths alone: no run is made.
#[tactic(auto, using(crate::proofs::Keeps::inputs_length), unfolding(crate::specs::Summary::summary))]
pub fn summary(alloc: Global, seed: u64, nodes: u8, inputs: u16) -> Result<Octets, AllocError>
    requires some { 0 < nodes }
    requires few_nodes { nodes ≤ MAX_NODES }
    requires few_inputs { inputs ≤ MAX_INPUTS }
    ensures text { IfOk result (λ text. text ≡ summary seed nodes inputs) }
{
    let drawn = draw_inputs(alloc, &mut Lcg::new(seed), nodes, inputs)?;
    let totals = follow_all(alloc, nodes, drawn.as_slice())?;
    summary_of(alloc, seed, inputs, totals.as_slice())
}

/// The turns of all nodes.
fn sum_turns(totals: &[NodeTotal]) -> u64
    requires { all_turns totals.now < 2 ^ 64 }
    ensures { result ≡ all_turns totals.now }
{
    totals.iter().map(|total| total.turns).sum()
}

/// The roots of all nodes, added up.
fn sum_roots(totals: &[NodeTotal]) -> u64
    requires { all_roots totals.now < 2 ^ 64 }
    ensures { result ≡ all_roots totals.now }
{
    totals.iter().map(|total| total.root).sum()
}

/// Appends the line of each node.
fn put_nodes(out: &mut Vec<u8>, totals: &[NodeTotal]) -> Result<(), AllocError>
    ensures { OnOk result (out.new.items ≡ out.old.items ++ node_lines 0 totals.now) }
{
    for (node, total) in totals.iter().enumerate() {
        put_line(out, b"node", &[node as u64, total.turns, total.root])?;
    }
    Ok(())
}

/// Appends a line of a name and numbers, with a space between two words and a line feed at the end.
#[tactic(auto, unfolding(ken_model::specs::Report::line))]
fn put_line(out: &mut Vec<u8>, name: &[u8], numbers: &[u64]) -> Result<(), AllocError>
    ensures { OnOk result (out.new.items ≡ out.old.items ++ line (name.now ∷ map decimal numbers.now)) }
{
    out.extend_from_slice(name)?;
    for number in numbers {
        out.push(b' ')?;
        put_decimal(out, *number)?;
    }
    Ok(out.push(b'\n')?)
}
