// The share: a number is halved from node to node, and each keeps its half.
ghost use Rattle.std.specs.Prelude.{◌≡◌, OnOk};
ghost use Rattle.ken_model.specs.declared.kinds.Kind.TheVariants.{Share};
ghost use Rattle.ken_model.specs.Kinds.{handler_of};
ghost use Rattle.ken_app.specs.Turning.{turning, oracle_of, IsOneTurn, IsFresh, IsHandled};

use ken_app::{Oracle, Turn};
use ken_num::num;
use std::alloc::AllocError;

/// The smaller half of a number goes on to the next node, if it isn't 0, and the rest is added to the root.
#[tactic(auto, unfolding(ken_model::specs::Kinds::after))]
pub(crate) fn on_message<O: Oracle>(turn: &mut Turn<'_, O>) -> Result<(), AllocError>
    requires { IsFresh (turning turn.old) }
    ensures handled { OnOk result (IsHandled (handler_of Share) (turning turn.old) (turning turn.new)) }
    ensures undrawn { OnOk result ((turning turn.new).draws ≡ (turning turn.old).draws) }
    ensures oracle { oracle_of turn.new ≡ oracle_of turn.old }
    ensures begun { (turning turn.new).heap.begun ≡ (turning turn.old).heap.begun }
    ensures same { IsOneTurn turn.old turn.new }
{
    let Some(amount) = num(turn.message().bytes.as_slice()) else {
        return turn.output_text(b"bad");
    };
    let half = amount / 2;
    let root = turn.objects().root();
    turn.objects().set_root(root.wrapping_add(amount - half))?;
    turn.output_number(amount)?;
    if half > 0 {
        let next = (turn.node() + 1) % turn.nodes();
        turn.send_number(next, half)?;
    }
    Ok(())
}
