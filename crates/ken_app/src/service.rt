// A service of one's own, within the limits of a turn.
ghost use Rattle.std.specs.Prelude.{◌≡◌, ◌<◌, ◌^◌, Some, OnOk, IfOk};
ghost use Rattle.std.specs.List.{AllByRecursion};
ghost use Rattle.ken_model.specs.Handler.{Handler};
ghost use Rattle.ken_app.specs.Oracles.{Answers, HasAnswered};
ghost use Rattle.ken_app.specs.Turning.{turning, oracle_of, IsOneTurn, IsPlaced, IsFresh, IsHandled};
ghost use Rattle.ken_app.specs.Limited.{limited};
ghost use Rattle.ken_app.specs.Laws.{LimitedKeepsLimits, LimitedKeepsLines};

use crate::app::{App, are_words};
use crate::oracle::Oracle;
use crate::turn::{Made, Turn};
use ken_alloc::Objects;
use ken_model::Message;
use std::alloc::{AllocError, Global};

/// A service: what its author writes. `Limited` makes an application of it.
pub trait Service {
    /// The handler function that it meets, which may come to anything.
    ghost handler: { Self → Handler };

    /// Makes a turn: the heap, what is sent and what is output become just what the handler function makes of the message and
    /// of what was drawn, within the limits of a turn or not. After an error the turn is to be given up, and its heap taken back.
    fn on_message<O: Oracle>(&self, turn: &mut Turn<'_, O>) -> Result<(), AllocError>
        requires { IsFresh (turning turn.old) }
        ensures handled { OnOk result (IsHandled (handler self.now) (turning turn.old) (turning turn.new)) }
        ensures begun { (turning turn.new).heap.begun ≡ (turning turn.old).heap.begun }
        ensures clocks { OnOk result (Answers (O.telling.clocks (oracle_of turn.old)) (O.telling.clocks (oracle_of turn.new)) ((handler self.now).clocks (turning turn.new).draws)) }
        ensures words { OnOk result (Answers (O.telling.words (oracle_of turn.old)) (O.telling.words (oracle_of turn.new)) ((handler self.now).words (turning turn.new).draws)) }
        ensures answers { OnOk result (Answers (O.telling.answers (oracle_of turn.old)) (O.telling.answers (oracle_of turn.new)) (turning turn.new).draws) }
        ensures clocks_go_on { HasAnswered (O.telling.clocks (oracle_of turn.old)) (O.telling.clocks (oracle_of turn.new)) }
        ensures words_go_on { HasAnswered (O.telling.words (oracle_of turn.old)) (O.telling.words (oracle_of turn.new)) }
        ensures origin { O.telling.origin (oracle_of turn.new) ≡ O.telling.origin (oracle_of turn.old) }
        ensures same { IsOneTurn turn.old turn.new };
}

/// A service as an application: its turns within the limits, and for each other turn one that changes nothing, sends nothing,
/// and outputs `beyond the limits`.
#[derive(Clone, Copy, Debug, Drop)]
pub struct Limited<S> {
    pub service: S,
}

impl<S: Service> App for Limited<S> {
    ghost handler = { λ app. limited (S.handler app.service) };

    fn on_message<O: Oracle>(&self, turn: &mut Turn<'_, O>) -> Result<(), AllocError> {
        judged(&self.service, turn)
    }
}

// Makes a turn of a service, and takes back one that is beyond the limits.
fn judged<S: Service, O: Oracle>(service: &S, turn: &mut Turn<'_, O>) -> Result<(), AllocError>
    requires { IsFresh (turning turn.old) }
    ensures handled { OnOk result (IsHandled (limited (S.handler service.now)) (turning turn.old) (turning turn.new)) }
    ensures begun { (turning turn.new).heap.begun ≡ (turning turn.old).heap.begun }
    ensures clocks { OnOk result (Answers (O.telling.clocks (oracle_of turn.old)) (O.telling.clocks (oracle_of turn.new)) ((S.handler service.now).clocks (turning turn.new).draws)) }
    ensures words { OnOk result (Answers (O.telling.words (oracle_of turn.old)) (O.telling.words (oracle_of turn.new)) ((S.handler service.now).words (turning turn.new).draws)) }
    ensures answers { OnOk result (Answers (O.telling.answers (oracle_of turn.old)) (O.telling.answers (oracle_of turn.new)) (turning turn.new).draws) }
    ensures clocks_go_on { HasAnswered (O.telling.clocks (oracle_of turn.old)) (O.telling.clocks (oracle_of turn.new)) }
    ensures words_go_on { HasAnswered (O.telling.words (oracle_of turn.old)) (O.telling.words (oracle_of turn.new)) }
    ensures origin { O.telling.origin (oracle_of turn.new) ≡ O.telling.origin (oracle_of turn.old) }
    ensures same { IsOneTurn turn.old turn.new }
{
    service.on_message(turn)?;
    if turn.fits() {
        return Ok(());
    }
    turn.take_back();
    turn.output_text(b"beyond the limits")
}

/// Makes a turn of a service within the limits, as `take_turn` makes one of `Limited`: what comes of a message of any length is said
/// without a premise.
pub fn take_service_turn<S: Service, O: Oracle>(
    alloc: Global,
    service: &S,
    node: u8,
    nodes: u8,
    message: &Message,
    objects: &mut Objects,
    oracle: &mut O,
) -> Result<Made, AllocError>
    requires placed { IsPlaced node nodes }
    requires begun { objects.old.begun ≡ Some objects.old.bytes }
    ensures handled { IfOk result (λ made. (limited (S.handler service.now)).after node nodes objects.old.value message.now made.draws.items
        ≡ Some (record { value = objects.new.value; sends = made.sends.items; outs = made.outs.items })) }
    ensures drawn { IfOk result (λ made. AllByRecursion (λ d. d < 2 ^ 64) made.draws.items) }
    ensures begun { objects.new.begun ≡ objects.old.begun }
    ensures answers { IfOk result (λ made. Answers (O.telling.answers oracle.old) (O.telling.answers oracle.new) made.draws.items) }
{
    objects.stands();
    let mut made = Made::new(alloc);
    let mut turn = Turn::new(node, nodes, message, objects, oracle, &mut made);
    judged(service, &mut turn)?;
    are_words(made.draws.as_slice());
    Ok(made)
}

/// A limited handler keeps the limits of a turn, whatever it comes to: so nodes can run it.
pub fn limited_keeps_limits()
    ensures { LimitedKeepsLimits }
{}

/// What it sends and outputs holds no line feed: so a report of its run can be printed.
pub fn limited_keeps_lines()
    ensures { LimitedKeepsLines }
{}
