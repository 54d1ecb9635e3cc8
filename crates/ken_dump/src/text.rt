// The text of what a node's log and heap tell.
ghost use Rattle.std.specs.Prelude.{◌≡◌, ◌++◌, ◌∷◌, [], codes, decimal, IfOk, OnOk};
ghost use Rattle.ken_model.specs.Report.{line};
ghost use Rattle.ken_report.specs.Words.{spelled};
ghost use Rattle.ken_dump.specs.StateText.{
  node_words,
  place_word,
  count_line,
  count_lines,
  waiting_words,
  waiting_lines,
  due_words,
  due_lines,
  state_text,
};

use ken_model::{MAX_NODES, Message, Octets, Out, State, Value};
use ken_report::{Word, put_heap, put_line};
use std::alloc::{AllocError, Global};

/// The text where there is no log.
#[tactic(auto, unfolding(ken_model::specs::Report::line))]
pub(crate) fn fresh_text(alloc: Global) -> Result<Octets, AllocError>
    ensures { IfOk result (λ text. text ≡ line (codes "fresh" ∷ [])) }
{
    Octets::copied(alloc, b"fresh\n")
}

/// The text of a state and a heap's value: of node `node`.
#[tactic(auto, using(std::proofs::Common::append_assoc))]
pub(crate) fn state_text(
    alloc: Global,
    node: u8,
    state: &State,
    value: &Value,
) -> Result<Octets, AllocError>
    ensures { IfOk result (λ text. text ≡ state_text node state.now value.now) }
{
    let mut out = Vec::new(alloc);
    put_node(&mut out, node, state)?;
    put_heap(alloc, &mut out, node as u64, value)?;
    put_consumed(&mut out, state.consumed.as_slice())?;
    put_sent(&mut out, state.sent.as_slice())?;
    put_waiting(&mut out, state.messages.as_slice())?;
    put_due(&mut out, state.outs.as_slice())?;
    Ok(Octets::new(out))
}

/// Appends the line of a node's counts.
fn put_node(out: &mut Vec<u8>, node: u8, state: &State) -> Result<(), AllocError>
    ensures { OnOk result (out.new.items ≡ out.old.items ++ line (node_words node state.now)) }
{
    let words = [
        Word::Text(b"node"),
        Word::Number(node as u64),
        Word::Text(b"turns"),
        Word::Number(state.turns),
        Word::Text(b"stamp"),
        Word::Number(state.stamp),
        Word::Text(b"outputs"),
        Word::Number(state.outputs),
    ];
    put_line(out, &words)
}

/// Appends a line for each sender of which messages were consumed.
#[tactic(auto, using(crate::proofs::Counts::next_count, crate::proofs::Counts::no_count, std::proofs::Common::append_assoc))]
fn put_consumed(out: &mut Vec<u8>, counts: &[u64]) -> Result<(), AllocError>
    ensures { OnOk result (out.new.items ≡ out.old.items ++ count_lines (codes "from") place_word 0 counts.now) }
{
    for (place, count) in counts.iter().enumerate() {
        put_count(out, b"from", place_word(place), *count)?;
    }
    Ok(())
}

/// Appends a line for each node to which messages were sent.
#[tactic(auto, using(crate::proofs::Counts::next_count, crate::proofs::Counts::no_count, std::proofs::Common::append_assoc))]
fn put_sent(out: &mut Vec<u8>, counts: &[u64]) -> Result<(), AllocError>
    ensures { OnOk result (out.new.items ≡ out.old.items ++ count_lines (codes "sent") decimal 0 counts.now) }
{
    for (place, count) in counts.iter().enumerate() {
        put_count(out, b"sent", Word::Number(place as u64), *count)?;
    }
    Ok(())
}

/// Appends the line of a number that isn't 0.
fn put_count<'a>(
    out: &mut Vec<u8>,
    word: &'a [u8],
    name: Word<'a>,
    count: u64,
) -> Result<(), AllocError>
    ensures { OnOk result (out.new.items ≡ out.old.items ++ count_line word.now (spelled name.entry) count) }
{
    if count == 0 {
        return Ok(());
    }
    put_line(out, &[Word::Text(word), name, Word::Number(count)])
}

/// The word of a sender by its place: nodes 0 to 7, then the outside.
fn place_word(place: usize) -> Word<'static>
    ensures { spelled result ≡ place_word place }
{
    if place < usize::from(MAX_NODES) {
        Word::Number(place as u64)
    } else {
        Word::Text(b"out")
    }
}

/// Appends the lines of messages that may still be asked for.
fn put_waiting(out: &mut Vec<u8>, messages: &[Message]) -> Result<(), AllocError>
    ensures { OnOk result (out.new.items ≡ out.old.items ++ waiting_lines messages.now) }
{
    for message in messages {
        put_message(out, message)?;
    }
    Ok(())
}

/// Appends the lines of outputs that may still have to be emitted.
fn put_due(out: &mut Vec<u8>, outs: &[Out]) -> Result<(), AllocError>
    ensures { OnOk result (out.new.items ≡ out.old.items ++ due_lines outs.now) }
{
    for output in outs {
        put_output(out, output)?;
    }
    Ok(())
}

fn put_message(out: &mut Vec<u8>, message: &Message) -> Result<(), AllocError>
    ensures { OnOk result (out.new.items ≡ out.old.items ++ line (waiting_words message.now)) }
{
    let words = [
        Word::Text(b"waiting"),
        Word::Number(message.to as u64),
        Word::Number(message.number),
        Word::Number(message.bytes.len() as u64),
    ];
    put_line(out, &words)
}

fn put_output(out: &mut Vec<u8>, output: &Out) -> Result<(), AllocError>
    ensures { OnOk result (out.new.items ≡ out.old.items ++ line (due_words output.now)) }
{
    let words = [
        Word::Text(b"due"),
        Word::Number(output.number),
        Word::Text(output.text.as_slice()),
    ];
    put_line(out, &words)
}
