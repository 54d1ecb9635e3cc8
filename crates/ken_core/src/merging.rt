// Turns of a node, merged with lines of others.
ghost use Rattle.std.specs.Prelude.{◌≡◌, ◌++◌, map, IfOk, OnOk};
ghost use Rattle.ken_core.specs.Timeline.{is_before, count_before, merged};
ghost use Rattle.ken_core.specs.Turns.{effects_line};

use crate::copies;
use ken_model::TurnLine;
use ken_record::Effects;
use std::alloc::{AllocError, Global};

/// Lines, and before each those of a node's turns that come before it.
pub(crate) fn merged(
    alloc: Global,
    lines: Vec<TurnLine>,
    node: u8,
    turns: &[Effects],
) -> Result<Vec<TurnLine>, AllocError>
    ensures { IfOk result (λ all. all.items ≡ merged lines.items (map (effects_line node) turns.now)) }
{
    let mut all = Vec::with_capacity(alloc, lines.len() + turns.len())?;
    let mut left = turns;
    for line in lines {
        let (before, behind) = left.split_at(count_before(node, left, &line));
        put_turns(alloc, node, before, &mut all)?;
        all.push(line)?;
        left = behind;
    }
    put_turns(alloc, node, left, &mut all)?;
    Ok(all)
}

/// How many turns of a node, from the first on, come before a line.
fn count_before(node: u8, turns: &[Effects], line: &TurnLine) -> usize
    ensures { result ≡ count_before line.now (map (effects_line node) turns.now) }
{
    for place in 0..turns.len() {
        if !is_before(node, &turns[place], line) {
            return place;
        }
    }
    turns.len()
}

/// Whether a turn of a node comes before a line: by stamp, and at equal stamps by node.
fn is_before(node: u8, turn: &Effects, line: &TurnLine) -> bool
    ensures { result ≡ is_before (effects_line node turn.now) line.now }
{
    turn.stamp < line.stamp || turn.stamp == line.stamp && node < line.step.node
}

/// Puts the lines of a node's turns behind others.
fn put_turns(
    alloc: Global,
    node: u8,
    turns: &[Effects],
    all: &mut Vec<TurnLine>,
) -> Result<(), AllocError>
    ensures { OnOk result (all.new.items ≡ all.old.items ++ map (effects_line node) turns.now) }
{
    for turn in turns {
        all.push(copies::line(alloc, node, turn)?)?;
    }
    Ok(())
}
