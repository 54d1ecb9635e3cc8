// The ring: a count goes round the nodes, and falls by one at each.
ghost use Rattle.std.specs.Prelude.{◌≡◌, OnOk};
ghost use Rattle.ken_model.specs.declared.kinds.Kind.TheVariants.{Ring};
ghost use Rattle.ken_model.specs.Kinds.{handler_of};
ghost use Rattle.ken_app.specs.Turning.{turning, oracle_of, IsOneTurn, IsFresh, IsHandled};

use ken_app::{Oracle, Turn};
use ken_num::num;
use std::alloc::AllocError;

/// A count adds 1 to the root, and what is left of it goes on to the next node.
#[tactic(auto, unfolding(ken_model::specs::Kinds::after))]
pub(crate) fn on_message<O: Oracle>(turn: &mut Turn<'_, O>) -> Result<(), AllocError>
    requires { IsFresh (turning turn.old) }
    ensures handled { OnOk result (IsHandled (handler_of Ring) (turning turn.old) (turning turn.new)) }
    ensures undrawn { OnOk result ((turning turn.new).draws ≡ (turning turn.old).draws) }
    ensures oracle { oracle_of turn.new ≡ oracle_of turn.old }
    ensures begun { (turning turn.new).heap.begun ≡ (turning turn.old).heap.begun }
    ensures same { IsOneTurn turn.old turn.new }
{
    let Some(count) = num(turn.message().bytes.as_slice()) else {
        return turn.output_text(b"bad");
    };
    let root = turn.objects().root();
    turn.objects().set_root(root.wrapping_add(1))?;
    turn.output_number(count)?;
    if count > 0 {
        let next = (turn.node() + 1) % turn.nodes();
        turn.send_number(next, count - 1)?;
    }
    Ok(())
}
