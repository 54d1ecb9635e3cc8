// What a group is of.
ghost use Rattle.std.specs.Prelude.{◌≡◌, ◌<◌, ◌≤◌, length, IfOk};
ghost use Rattle.std.specs.List.{AllByRecursion};
ghost use Rattle.ken_model.specs.declared.facts.Input.{Input};
ghost use Rattle.ken_model.specs.Game.{game_of};
ghost use Rattle.ken_model.specs.Limits.{IsWithinLimits};

use crate::values::next_named;
use ken_model::{
    Facts, Input, Items, Kind, MAX_INPUTS, MAX_NODES, MAX_PAGES, MAX_TEXT, MAX_TURNS, Octets, PAGE,
};
use ken_num::decimal;
use ken_rows::{RowFault, Words};
use std::alloc::Global;

/// Facts of a row: how many nodes, their kind, the pages of their heaps, and each input as `NODE=TEXT`.
pub(crate) fn facts(alloc: Global, words: &mut Words<'_>) -> Result<Facts, RowFault>
    ensures { IfOk result (λ f. IsWithinLimits (game_of f)) }
{
    let nodes = words.within(1, u64::from(MAX_NODES))? as u8;
    let kind = Kind::of(words.word()?).ok_or(RowFault::Usage)?;
    let pages = words.within(1, MAX_PAGES)?;
    let inputs = inputs(alloc, nodes, words)?;
    Ok(Facts {
        nodes,
        kind,
        size: PAGE * pages,
        turns: MAX_TURNS,
        inputs: Items::new(inputs),
    })
}

fn inputs(alloc: Global, nodes: u8, words: &mut Words<'_>) -> Result<Vec<Input>, RowFault>
    ensures few { IfOk result (λ is. length is.items ≤ 10000) }
    ensures each { IfOk result (λ is. AllByRecursion (λ (i : Input). (i.node < nodes) × (length i.text ≤ 512)) is.items) }
{
    let mut inputs = Vec::new(alloc);
    for _ in 0..MAX_INPUTS {
        if !words.has_next() {
            break;
        }
        inputs.push(input(alloc, nodes, words)?)?;
    }
    Ok(inputs)
}

fn input(alloc: Global, nodes: u8, words: &mut Words<'_>) -> Result<Input, RowFault>
    ensures { IfOk result (λ i. (i.node < nodes) × (length i.text ≤ 512)) }
{
    let mut given = next_named(words)?;
    let text = given.value.bytes(alloc)?;
    match decimal(given.name) {
        Some(node) if node < u64::from(nodes) && text.len() <= MAX_TEXT => Ok(Input {
            node: node as u8,
            text: Octets::new(text),
        }),
        _ => Err(RowFault::Usage),
    }
}
