// Share paths, followed.
ghost use Rattle.std.specs.Prelude.{◌≡◌, ℕ, ◌+◌, ◌*◌, ◌<◌, ◌≤◌, ◌==◌, ◌^◌, if◌then◌else◌, length, map, IfOk};
ghost use Rattle.std.specs.List.{AllByRecursion, range_with_len};
ghost use Rattle.ken_model.specs.declared.facts.Input.{Input};
ghost use Rattle.ken_model.specs.declared.facts.TheConstants.{MAX_INPUTS, MAX_NODES};
ghost use Rattle.ken_num.specs.Numbers.{num};
ghost use Rattle.ken_gen.specs.Shares.{counted, left, path, path_of, visits};
ghost use Rattle.ken_gen.specs.Summary.{all_roots, all_turns, total_by};

use crate::NodeTotal;
use ken_model::Input;
use ken_num::num;
use std::alloc::{AllocError, Global};

/// The most visits of a number's path.
const MOST: u8 = 30;

/// What a visit of `node` counts at `place`.
fn visit(node: u8, left: u64, place: u8) -> NodeTotal
    ensures turns { result.turns ≡ (if node == place then 1 else 0) }
    ensures root { result.root ≡ (if node == place then left else 0) }
    ensures one { result.turns ≤ 1 }
    ensures least { result.root ≤ left }
{
    if node == place {
        NodeTotal {
            turns: 1,
            root: left,
        }
    } else {
        NodeTotal { turns: 0, root: 0 }
    }
}

/// What the path of a number counts at `place`, for at most so many visits.
#[tactic(auto, using(crate::proofs::Followed::turns_end, crate::proofs::Followed::root_end, crate::proofs::Followed::turns_on, crate::proofs::Followed::root_on))]
fn follow(most: u8, nodes: u8, node: u8, number: u64, place: u8) -> NodeTotal
    requires known { node < nodes }
    requires few_nodes { nodes ≤ MAX_NODES }
    ensures turns { result.turns ≡ counted (λ v. 1) place (path most nodes node number) }
    ensures root { result.root ≡ counted (λ v. v.left) place (path most nodes node number) }
    ensures few { result.turns ≤ most }
    ensures small { result.root ≤ number }
{
    if most == 0 {
        return NodeTotal { turns: 0, root: 0 };
    }
    let half = number / 2;
    let here = visit(node, number - half, place);
    if half == 0 {
        return here;
    }
    let rest = follow(most - 1, nodes, (node + 1) % nodes, half, place);
    NodeTotal {
        turns: here.turns + rest.turns,
        root: here.root + rest.root,
    }
}

/// What an input's path counts at `place`.
fn follow_input(nodes: u8, input: &Input, place: u8) -> NodeTotal
    requires known { input.now.node < nodes }
    requires few_nodes { nodes ≤ MAX_NODES }
    ensures turns { result.turns ≡ counted (λ v. 1) place (path_of nodes input.now.node (num input.now.text)) }
    ensures root { result.root ≡ counted (λ v. v.left) place (path_of nodes input.now.node (num input.now.text)) }
    ensures few { result.turns ≤ 30 }
    ensures small { result.root ≤ 10 ^ 9 }
{
    match num(input.text.as_slice()) {
        Some(number) => follow(MOST, nodes, input.node, number, place),
        None => visit(input.node, 0, place),
    }
}

/// What the paths of inputs count at `place`.
#[tactic(auto, using(crate::proofs::Followed::counted_next, crate::proofs::Followed::counted_all, crate::proofs::Followed::known_at))]
fn total_at(nodes: u8, inputs: &[Input], place: u8) -> NodeTotal
    requires known { AllByRecursion (λ (i : Input). i.node < nodes) inputs.now }
    requires few_nodes { nodes ≤ MAX_NODES }
    requires few_inputs { length inputs.now ≤ MAX_INPUTS }
    ensures turns { result.turns ≡ visits nodes place inputs.now }
    ensures root { result.root ≡ left nodes place inputs.now }
    ensures few { result.turns ≤ 300000 }
    ensures small { result.root ≤ 10 ^ 13 }
{
    let mut turns = 0;
    let mut root = 0;
    for input in inputs {
        let counted = follow_input(nodes, input, place);
        turns += counted.turns;
        root += counted.root;
    }
    NodeTotal { turns, root }
}

/// What the paths of inputs count at each node.
#[tactic(auto, using(crate::proofs::Followed::totals_next, crate::proofs::Followed::turns_push, crate::proofs::Followed::roots_push))]
pub(crate) fn follow_all(
    alloc: Global,
    nodes: u8,
    inputs: &[Input],
) -> Result<Vec<NodeTotal>, AllocError>
    requires known { AllByRecursion (λ (i : Input). i.node < nodes) inputs.now }
    requires few_nodes { nodes ≤ MAX_NODES }
    requires few_inputs { length inputs.now ≤ MAX_INPUTS }
    ensures totals { IfOk result (λ totals. totals.items ≡ map (total_by nodes inputs.now) (range_with_len 0 nodes)) }
    ensures few_turns { IfOk result (λ totals. all_turns totals.items < 2 ^ 64) }
    ensures small_roots { IfOk result (λ totals. all_roots totals.items < 2 ^ 64) }
{
    let mut totals = Vec::new(alloc);
    for place in 0..nodes {
        totals.push(total_at(nodes, inputs, place))?;
    }
    Ok(totals)
}
