// What an application is, and how its turns are made.
ghost use Rattle.std.specs.Prelude.{◌≡◌, ◌<◌, ◌^◌, Some, OnOk, IfOk, IsSome};
ghost use Rattle.std.specs.List.{AllByRecursion};
ghost use Rattle.ken_model.specs.Handler.{Handler};
ghost use Rattle.ken_alloc.specs.Objects.{heap_in};
ghost use Rattle.ken_app.specs.Oracles.{Answers, HasAnswered};
ghost use Rattle.ken_app.specs.Turning.{turning, oracle_of, IsOneTurn, IsPlaced, IsFresh, Allows, IsHandled, first_turning};

use crate::oracle::Oracle;
use crate::turn::{Made, Turn};
use ken_alloc::Objects;
use ken_model::Message;
use std::alloc::{AllocError, Global};

/// An application: a handler that is called with each message.
pub trait App {
    /// The handler function that it meets.
    ghost handler: { Self → Handler };

    /// Makes a turn. Where it keeps the limits of a turn, the heap, what is sent and what is output become what the handler
    /// function makes of the message and of what was drawn; beyond them the call returns, and no more is said. After an
    /// error the turn is to be given up, and its heap taken back.
    fn on_message<O: Oracle>(&self, turn: &mut Turn<'_, O>) -> Result<(), AllocError>
        requires { IsFresh (turning turn.old) }
        ensures handled { OnOk result (Allows (handler self.now) (turning turn.old) (turning turn.new).draws → IsHandled (handler self.now) (turning turn.old) (turning turn.new)) }
        ensures begun { (turning turn.new).heap.begun ≡ (turning turn.old).heap.begun }
        ensures clocks { OnOk result (Answers (O.telling.clocks (oracle_of turn.old)) (O.telling.clocks (oracle_of turn.new)) ((handler self.now).clocks (turning turn.new).draws)) }
        ensures words { OnOk result (Answers (O.telling.words (oracle_of turn.old)) (O.telling.words (oracle_of turn.new)) ((handler self.now).words (turning turn.new).draws)) }
        ensures answers { OnOk result (Answers (O.telling.answers (oracle_of turn.old)) (O.telling.answers (oracle_of turn.new)) (turning turn.new).draws) }
        ensures clocks_go_on { HasAnswered (O.telling.clocks (oracle_of turn.old)) (O.telling.clocks (oracle_of turn.new)) }
        ensures words_go_on { HasAnswered (O.telling.words (oracle_of turn.old)) (O.telling.words (oracle_of turn.new)) }
        ensures origin { O.telling.origin (oracle_of turn.new) ≡ O.telling.origin (oracle_of turn.old) }
        ensures same { IsOneTurn turn.old turn.new };
}

/// Makes the turn in which node `node` of `nodes` takes a message: the heap is changed, and what was drawn, sent and
/// output is handed back. A turn of the heap is begun, and stays so. The message may be of any length, and so may the
/// blocks of the heap. After an error the heap's turn is to be taken back, and what the oracle answered is lost.
pub fn take_turn<A: App, O: Oracle>(
    alloc: Global,
    app: &A,
    node: u8,
    nodes: u8,
    message: &Message,
    objects: &mut Objects,
    oracle: &mut O,
) -> Result<Made, AllocError>
    requires placed { IsPlaced node nodes }
    requires begun { objects.old.begun ≡ Some objects.old.bytes }
    ensures handled { IfOk result (λ made. Allows (A.handler app.now) (first_turning node nodes message.now (heap_in objects.old)) made.draws.items
        → (A.handler app.now).after node nodes objects.old.value message.now made.draws.items
        ≡ Some (record { value = objects.new.value; sends = made.sends.items; outs = made.outs.items })) }
    ensures drawn { IfOk result (λ made. AllByRecursion (λ d. d < 2 ^ 64) made.draws.items) }
    ensures begun { objects.new.begun ≡ objects.old.begun }
    ensures clocks { IfOk result (λ made. Answers (O.telling.clocks oracle.old) (O.telling.clocks oracle.new) ((A.handler app.now).clocks made.draws.items)) }
    ensures words { IfOk result (λ made. Answers (O.telling.words oracle.old) (O.telling.words oracle.new) ((A.handler app.now).words made.draws.items)) }
    ensures answers { IfOk result (λ made. Answers (O.telling.answers oracle.old) (O.telling.answers oracle.new) made.draws.items) }
    ensures clocks_go_on { HasAnswered (O.telling.clocks oracle.old) (O.telling.clocks oracle.new) }
    ensures words_go_on { HasAnswered (O.telling.words oracle.old) (O.telling.words oracle.new) }
    ensures origin { O.telling.origin oracle.new ≡ O.telling.origin oracle.old }
{
    objects.stands();
    let mut made = Made::new(alloc);
    let mut turn = Turn::new(node, nodes, message, objects, oracle, &mut made);
    app.on_message(&mut turn)?;
    are_words(made.draws.as_slice());
    Ok(made)
}

// What was drawn is words.
pub(crate) fn are_words(draws: &[u64])
    ensures { AllByRecursion (λ d. d < 2 ^ 64) draws.now }
{
    let _draws = draws;
}
