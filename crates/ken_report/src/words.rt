// The words of each kind of line, and how they are spelled.
ghost use Rattle.std.specs.Prelude.{◌≡◌, ◌++◌, map, IfOk, OnOk};
ghost use Rattle.std.specs.List.{join_with_byte};
ghost use Rattle.ken_model.specs.Report.{line, draws_word, block_word, turn_words, emit_words, restart_words, heap_words};
ghost use Rattle.ken_report.specs.Words.{spelled};

use ken_model::{Block, Emission, OUTSIDE, Out, RestartLine, TurnLine, Value};
use ken_num::put_decimal;
use std::alloc::{AllocError, Global};

/// A word of a line.
#[derive(Clone, Copy, Debug)]
pub enum Word<'a> {
    /// These bytes.
    Text(&'a [u8]),
    /// A number, in decimal.
    Number(u64),
    /// A node, or `out`.
    Sender(u8),
    /// Numbers with commas between them, or `-`.
    Draws(&'a [u64]),
    /// A block's place and length, with a colon between them.
    Block(&'a Block),
}

pub(crate) fn turn_words(turn: &TurnLine) -> [Word<'_>; 6]
    ensures { map spelled result ≡ turn_words turn.now }
{
    [
        Word::Text(b"turn"),
        Word::Number(turn.stamp),
        Word::Number(turn.step.node as u64),
        Word::Sender(turn.step.from),
        Word::Number(turn.number),
        Word::Draws(turn.step.draws.as_slice()),
    ]
}

pub(crate) fn emit_words(emission: &Emission) -> [Word<'_>; 4]
    ensures { map spelled result ≡ emit_words emission.now }
{
    output_words(emission.node, &emission.out)
}

/// The words of an output that a node emitted.
pub(crate) fn output_words(node: u8, out: &Out) -> [Word<'_>; 4]
    ensures { map spelled result ≡ emit_words (record { node = node; out = out.now }) }
{
    [
        Word::Text(b"emit"),
        Word::Number(node as u64),
        Word::Number(out.number),
        Word::Text(out.text.as_slice()),
    ]
}

pub(crate) fn restart_words(restart: &RestartLine) -> [Word<'static>; 4]
    ensures { map spelled result ≡ restart_words restart.now }
{
    [
        Word::Text(b"restart"),
        Word::Number(restart.node as u64),
        Word::Text(b"at"),
        Word::Number(restart.turns),
    ]
}

/// The words of a node's heap: one for each block, after three others.
pub(crate) fn heap_words(
    alloc: Global,
    node: u64,
    heap: &Value,
) -> Result<Vec<Word<'_>>, AllocError>
    ensures { IfOk result (λ words. map spelled words.items ≡ heap_words node heap.now) }
{
    let mut words = Vec::new(alloc);
    words.push(Word::Text(b"heap"))?;
    words.push(Word::Number(node))?;
    words.push(Word::Number(heap.root))?;
    for block in heap.blocks.as_slice() {
        words.push(Word::Block(block))?;
    }
    Ok(words)
}

/// Appends a line of these words, with a space between two and a line feed at the end. The error is want of memory; what was put
/// before it stays there.
#[tactic(auto, unfolding(ken_model::specs::Report::line))]
pub fn put_line(out: &mut Vec<u8>, words: &[Word<'_>]) -> Result<(), AllocError>
    ensures { OnOk result (out.new.items ≡ out.old.items ++ line (map spelled words.now)) }
{
    put_words(out, words)?;
    Ok(out.push(b'\n')?)
}

fn put_words(out: &mut Vec<u8>, words: &[Word<'_>]) -> Result<(), AllocError>
    ensures { OnOk result (out.new.items ≡ out.old.items ++ join_with_byte 32 (map spelled words.now)) }
{
    let Some((first, rest)) = words.split_first() else {
        return Ok(());
    };
    put_word(out, first)?;
    for word in rest {
        out.push(b' ')?;
        put_word(out, word)?;
    }
    Ok(())
}

fn put_word(out: &mut Vec<u8>, word: &Word<'_>) -> Result<(), AllocError>
    ensures { OnOk result (out.new.items ≡ out.old.items ++ spelled word.now) }
{
    match *word {
        Word::Text(text) => out.extend_from_slice(text),
        Word::Number(number) => put_decimal(out, number),
        Word::Sender(OUTSIDE) => out.extend_from_slice(b"out"),
        Word::Sender(node) => put_decimal(out, node as u64),
        Word::Draws(draws) => put_draws(out, draws),
        Word::Block(block) => put_block(out, block),
    }
}

fn put_draws(out: &mut Vec<u8>, draws: &[u64]) -> Result<(), AllocError>
    ensures { OnOk result (out.new.items ≡ out.old.items ++ draws_word draws.now) }
{
    let Some((first, rest)) = draws.split_first() else {
        return Ok(out.push(b'-')?);
    };
    put_decimal(out, *first)?;
    for draw in rest {
        out.push(b',')?;
        put_decimal(out, *draw)?;
    }
    Ok(())
}

fn put_block(out: &mut Vec<u8>, block: &Block) -> Result<(), AllocError>
    ensures { OnOk result (out.new.items ≡ out.old.items ++ block_word block.now) }
{
    put_decimal(out, block.place)?;
    out.push(b':')?;
    put_decimal(out, block.bytes.len() as u64)
}
