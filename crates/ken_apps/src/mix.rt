// The mix: a count goes from node to node by random words, and each turn keeps a reading of the clock.
ghost use Rattle.std.specs.Prelude.{◌≡◌, OnOk};
ghost use Rattle.ken_model.specs.declared.kinds.Kind.TheVariants.{Mix};
ghost use Rattle.ken_model.specs.Kinds.{handler_of, clocks_in, words_in};
ghost use Rattle.ken_app.specs.Oracles.{Answers, HasAnswered};
ghost use Rattle.ken_app.specs.Turning.{turning, oracle_of, IsOneTurn, IsFresh, IsHandled};

use ken_app::{Oracle, Turn};
use ken_num::num;
use std::alloc::AllocError;

/// A count draws a reading of the clock, which becomes the root, and a word: its last three digits are output, and what
/// is left of the count goes on to the node that the word picks.
#[tactic(auto, unfolding(ken_model::specs::Kinds::after))]
pub(crate) fn on_message<O: Oracle>(turn: &mut Turn<'_, O>) -> Result<(), AllocError>
    requires { IsFresh (turning turn.old) }
    ensures handled { OnOk result (IsHandled (handler_of Mix) (turning turn.old) (turning turn.new)) }
    ensures clocks { OnOk result (Answers (O.telling.clocks (oracle_of turn.old)) (O.telling.clocks (oracle_of turn.new)) (clocks_in Mix (turning turn.new).draws)) }
    ensures words { OnOk result (Answers (O.telling.words (oracle_of turn.old)) (O.telling.words (oracle_of turn.new)) (words_in Mix (turning turn.new).draws)) }
    ensures answers { OnOk result (Answers (O.telling.answers (oracle_of turn.old)) (O.telling.answers (oracle_of turn.new)) (turning turn.new).draws) }
    ensures clocks_go_on { HasAnswered (O.telling.clocks (oracle_of turn.old)) (O.telling.clocks (oracle_of turn.new)) }
    ensures words_go_on { HasAnswered (O.telling.words (oracle_of turn.old)) (O.telling.words (oracle_of turn.new)) }
    ensures origin { O.telling.origin (oracle_of turn.new) ≡ O.telling.origin (oracle_of turn.old) }
    ensures begun { (turning turn.new).heap.begun ≡ (turning turn.old).heap.begun }
    ensures same { IsOneTurn turn.old turn.new }
{
    let Some(count) = num(turn.message().bytes.as_slice()) else {
        return turn.output_text(b"bad");
    };
    let (Ok(reading), Ok(word)) = (turn.clock(), turn.word()) else {
        unreachable!()
    };
    turn.objects().set_root(reading)?;
    turn.output_number(word % 1000)?;
    if count > 0 {
        let to = (word % u64::from(turn.nodes())) as u8;
        turn.send_number(to, count - 1)?;
    }
    Ok(())
}
