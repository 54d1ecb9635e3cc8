// The key-value store: texts are kept by keys, in the blocks of the heap.
ghost use Rattle.std.specs.Prelude.{◌≡◌, ◌<◌, length, Some, OnOk};
ghost use Rattle.ken_model.specs.declared.facts.TheConstants.{MAX_TEXT};
ghost use Rattle.ken_model.specs.declared.kinds.Kind.TheVariants.{Kv};
ghost use Rattle.ken_model.specs.Kinds.{handler_of};
ghost use Rattle.ken_model.specs.KeyValue.{Put, Get, Delete, kv};
ghost use Rattle.ken_app.specs.Turning.{turning, oracle_of, IsOneTurn, IsFresh, IsAllowed, Allows, IsHandled};

use crate::pairs;
use ken_app::{Oracle, Turn};
use ken_model::{Command, MAX_TEXT};
use std::alloc::AllocError;

/// A pair is put into the first gap that it fits into, and answered `ok` or `full`; a key's text is output, or `none`
/// where it has none; a pair is deleted, and answered `ok` or `none`. A message that is longer than one may be is answered
/// `bad`, and of a text that is longer than an output may be the front is output.
#[tactic(auto, unfolding(ken_model::specs::Kinds::after))]
pub(crate) fn on_message<O: Oracle>(turn: &mut Turn<'_, O>) -> Result<(), AllocError>
    requires { IsFresh (turning turn.old) }
    ensures handled { OnOk result (Allows (handler_of Kv) (turning turn.old) (turning turn.new).draws → IsHandled (handler_of Kv) (turning turn.old) (turning turn.new)) }
    ensures undrawn { OnOk result ((turning turn.new).draws ≡ (turning turn.old).draws) }
    ensures oracle { oracle_of turn.new ≡ oracle_of turn.old }
    ensures begun { (turning turn.new).heap.begun ≡ (turning turn.old).heap.begun }
    ensures same { IsOneTurn turn.old turn.new }
{
    if turn.message().bytes.len() > MAX_TEXT {
        return turn.output_text(b"bad");
    }
    match Command::of(turn.message().bytes.as_slice()) {
        None => turn.output_text(b"bad"),
        Some(Command::Put { key, pair }) => put(turn, key, pair),
        Some(Command::Get { key }) => get(turn, key),
        Some(Command::Delete { key }) => delete(turn, key),
    }
}

/// Keeps a pair.
fn put<O: Oracle>(turn: &mut Turn<'_, O>, key: &[u8], pair: &[u8]) -> Result<(), AllocError>
    requires fresh { IsFresh (turning turn.old) }
    requires short { length key.now < MAX_TEXT }
    requires some { 0 < length pair.now }
    ensures effect { OnOk result (kv (turning turn.old).heap.value (Some (Put key.now pair.now))
        ≡ record { value = (turning turn.new).heap.value; sends = (turning turn.new).sends; outs = (turning turn.new).outs }) }
    ensures rest { OnOk result (turning turn.new ≡ record (turning turn.old) { heap = (turning turn.new).heap; outs = (turning turn.new).outs }) }
    ensures oracle { oracle_of turn.new ≡ oracle_of turn.old }
    ensures begun { (turning turn.new).heap.begun ≡ (turning turn.old).heap.begun }
    ensures same { IsOneTurn turn.old turn.new }
{
    let kept = pairs::put(turn.objects(), key, pair)?;
    turn.output_text(if kept { b"ok" } else { b"full" })
}

/// Outputs the text of a key, or as much of it as an output may have.
fn get<O: Oracle>(turn: &mut Turn<'_, O>, key: &[u8]) -> Result<(), AllocError>
    requires fresh { IsFresh (turning turn.old) }
    requires short { length key.now < MAX_TEXT }
    ensures effect { OnOk result (IsAllowed (turning turn.old).nodes (kv (turning turn.old).heap.value (Some (Get key.now))) → kv (turning turn.old).heap.value (Some (Get key.now))
        ≡ record { value = (turning turn.new).heap.value; sends = (turning turn.new).sends; outs = (turning turn.new).outs }) }
    ensures rest { OnOk result (turning turn.new ≡ record (turning turn.old) { heap = (turning turn.new).heap; outs = (turning turn.new).outs }) }
    ensures oracle { oracle_of turn.new ≡ oracle_of turn.old }
    ensures begun { (turning turn.new).heap.begun ≡ (turning turn.old).heap.begun }
    ensures same { IsOneTurn turn.old turn.new }
{
    let mut buf = [0; MAX_TEXT];
    match pairs::get(turn.objects(), key, &mut buf) {
        Some(text) => turn.output_text(text),
        None => turn.output_text(b"none"),
    }
}

/// Lets a key's pair go.
fn delete<O: Oracle>(turn: &mut Turn<'_, O>, key: &[u8]) -> Result<(), AllocError>
    requires fresh { IsFresh (turning turn.old) }
    requires short { length key.now < MAX_TEXT }
    ensures effect { OnOk result (kv (turning turn.old).heap.value (Some (Delete key.now))
        ≡ record { value = (turning turn.new).heap.value; sends = (turning turn.new).sends; outs = (turning turn.new).outs }) }
    ensures rest { OnOk result (turning turn.new ≡ record (turning turn.old) { heap = (turning turn.new).heap; outs = (turning turn.new).outs }) }
    ensures oracle { oracle_of turn.new ≡ oracle_of turn.old }
    ensures begun { (turning turn.new).heap.begun ≡ (turning turn.old).heap.begun }
    ensures same { IsOneTurn turn.old turn.new }
{
    let gone = pairs::delete(turn.objects(), key)?;
    turn.output_text(if gone { b"ok" } else { b"none" })
}
