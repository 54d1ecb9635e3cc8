// The leases.
ghost use Rattle.ken_leases.specs.Leases.{leases};

use crate::commands::{command_of, is_answer};
use crate::keeper::decide;
use ken_app::{Oracle, Service, Turn};
use ken_model::OUTSIDE;
use std::alloc::AllocError;

/// Nodes grant leases of names. From outside a node is asked for one, and asks the name's keeper; the keeper goes by its own
/// clock alone, and its answer is output by the node that asked.
#[derive(Clone, Copy, Debug)]
pub struct Leases;

impl Service for Leases {
    ghost handler = { λ _. leases };

    #[tactic(auto, unfolding(crate::specs::Leases::leases_after))]
    fn on_message<O: Oracle>(&self, turn: &mut Turn<'_, O>) -> Result<(), AllocError> {
        let message = turn.message();
        let text = message.bytes.as_slice();
        let command = command_of(text);
        if message.from == OUTSIDE {
            let Some(command) = command else {
                return turn.output_text(b"bad");
            };
            let keeper = command.name[0] % turn.nodes();
            return turn.send_text(keeper, text);
        }
        let Some(command) = command else {
            return turn.output_text(if is_answer(text) { text } else { b"bad" });
        };
        let Ok(reading) = turn.clock() else {
            unreachable!()
        };
        let answer = decide(
            turn.objects(),
            message.from,
            reading,
            command.name,
            command.action,
        )?;
        turn.send_text(message.from, answer.as_slice())
    }
}
