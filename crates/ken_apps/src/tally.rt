// The tally: numbers are added up, and those from outside at each node.
ghost use Rattle.std.specs.Prelude.{◌≡◌, ◌<◌, ◌≤◌, [], length, OnOk};
ghost use Rattle.ken_model.specs.declared.facts.TheConstants.{MAX_NODES, MAX_TEXT};
ghost use Rattle.ken_model.specs.declared.kinds.Kind.TheVariants.{Tally};
ghost use Rattle.ken_model.specs.Kinds.{handler_of};
ghost use Rattle.ken_model.specs.Kinds.{to_others};
ghost use Rattle.ken_app.specs.Turning.{turning, oracle_of, IsOneTurn, IsFresh, IsHandled};

use ken_app::{Oracle, Turn};
use ken_model::OUTSIDE;
use ken_num::num;
use std::alloc::AllocError;

/// A number is added to the root, and the sum is output. One from outside goes on to all other nodes, as it came.
#[tactic(auto, unfolding(ken_model::specs::Kinds::after))]
pub(crate) fn on_message<O: Oracle>(turn: &mut Turn<'_, O>) -> Result<(), AllocError>
    requires { IsFresh (turning turn.old) }
    ensures handled { OnOk result (IsHandled (handler_of Tally) (turning turn.old) (turning turn.new)) }
    ensures undrawn { OnOk result ((turning turn.new).draws ≡ (turning turn.old).draws) }
    ensures oracle { oracle_of turn.new ≡ oracle_of turn.old }
    ensures begun { (turning turn.new).heap.begun ≡ (turning turn.old).heap.begun }
    ensures same { IsOneTurn turn.old turn.new }
{
    let message = turn.message();
    let Some(amount) = num(message.bytes.as_slice()) else {
        return turn.output_text(b"bad");
    };
    let sum = turn.objects().root().wrapping_add(amount);
    turn.objects().set_root(sum)?;
    turn.output_number(sum)?;
    if message.from == OUTSIDE {
        send_to_others(turn, message.bytes.as_slice())?;
    }
    Ok(())
}

/// Sends a text to all nodes but the turn's own, where nothing was sent yet.
fn send_to_others<O: Oracle>(turn: &mut Turn<'_, O>, text: &[u8]) -> Result<(), AllocError>
    requires short { length text.now ≤ MAX_TEXT }
    requires few { (turning turn.old).nodes ≤ MAX_NODES }
    requires none { (turning turn.old).sends ≡ [] }
    ensures ok { OnOk result (turning turn.new ≡ record (turning turn.old) { sends = to_others (turning turn.old).node (turning turn.old).nodes text.now }) }
    ensures oracle { oracle_of turn.new ≡ oracle_of turn.old }
    ensures heap { (turning turn.new).heap ≡ (turning turn.old).heap }
    ensures same { IsOneTurn turn.old turn.new }
{
    for to in 0..turn.nodes() {
        if to != turn.node() {
            turn.send_text(to, text)?;
        }
    }
    Ok(())
}
