// A line of each kind, put after other bytes. What was put before an error stays there.
ghost use Rattle.std.specs.Prelude.{◌≡◌, ◌++◌, OnOk};
ghost use Rattle.ken_model.specs.Report.{line, turn_words, emit_words, restart_words, heap_words, end_words};

use crate::words::{Word, heap_words, output_words, put_line, restart_words, turn_words};
use ken_model::{Ending, Out, RestartLine, TurnLine, Value};
use std::alloc::{AllocError, Global};

/// Appends the line of a turn.
pub fn put_turn(out: &mut Vec<u8>, turn: &TurnLine) -> Result<(), AllocError>
    ensures { OnOk result (out.new.items ≡ out.old.items ++ line (turn_words turn.now)) }
{
    put_line(out, &turn_words(turn))
}

/// Appends the line of an output that a node emitted.
pub fn put_emission(out: &mut Vec<u8>, node: u8, output: &Out) -> Result<(), AllocError>
    ensures { OnOk result (out.new.items ≡ out.old.items ++ line (emit_words (record { node = node; out = output.now }))) }
{
    put_line(out, &output_words(node, output))
}

/// Appends the line of a restart.
pub fn put_restart(out: &mut Vec<u8>, restart: &RestartLine) -> Result<(), AllocError>
    ensures { OnOk result (out.new.items ≡ out.old.items ++ line (restart_words restart.now)) }
{
    put_line(out, &restart_words(restart))
}

/// Appends the line of a node's heap.
pub fn put_heap(alloc: Global, out: &mut Vec<u8>, node: u64, heap: &Value) -> Result<(), AllocError>
    ensures { OnOk result (out.new.items ≡ out.old.items ++ line (heap_words node heap.now)) }
{
    let words = heap_words(alloc, node, heap)?;
    put_line(out, words.as_slice())
}

/// Appends the line of the end of a run, after so many turns and with so much that waits.
pub fn put_end(
    out: &mut Vec<u8>,
    ending: Ending,
    turns: u64,
    waiting: u64,
) -> Result<(), AllocError>
    ensures { OnOk result (out.new.items ≡ out.old.items ++ line (end_words ending turns waiting)) }
{
    let (end, turns) = (Word::Text(b"end"), Word::Number(turns));
    match ending {
        Ending::Settled => put_line(out, &[end, Word::Text(b"settled"), turns]),
        Ending::Cut => put_line(
            out,
            &[end, Word::Text(b"cut"), turns, Word::Number(waiting)],
        ),
    }
}
