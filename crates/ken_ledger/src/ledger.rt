// The ledger.
ghost use Rattle.std.specs.Prelude.{◌≡◌, decimal, OnOk, IsSome};
ghost use Rattle.ken_app.specs.Turning.{turning, oracle_of, with_output, IsOneTurn};
ghost use Rattle.ken_ledger.specs.Ledger.{ledger, payment_of};

use ken_app::{Oracle, Service, Turn};
use ken_model::OUTSIDE;
use ken_num::num;
use std::alloc::AllocError;

/// Each node keeps a balance, in units of 1, below 2^64. From outside it takes deposits and payments to other nodes, and from
/// a node the payments of that node.
#[derive(Clone, Copy, Debug)]
pub struct Ledger;

/// The payment that a text is: to which node, and how much.
fn payment(text: &[u8]) -> Option<(u8, u64)>
    ensures { result ≡ payment_of text.now }
{
    let [digit @ b'0'..=b'9', b' ', amount @ ..] = text else {
        return None;
    };
    Some((*digit - b'0', num(amount)?))
}

/// Keeps a balance, and outputs it with the reading of the clock.
fn keep<O: Oracle>(turn: &mut Turn<'_, O>, balance: u64, reading: u64) -> Result<(), AllocError>
    requires begun { IsSome (turning turn.old).heap.begun }
    ensures ok { OnOk result (turning turn.new ≡ record (with_output (decimal reading) (with_output (decimal balance) (turning turn.old))) { heap = (turning turn.new).heap }) }
    ensures value { OnOk result ((turning turn.new).heap.value ≡ record (turning turn.old).heap.value { root = balance }) }
    ensures rest { turning turn.new ≡ record (turning turn.old) { heap = (turning turn.new).heap; outs = (turning turn.new).outs } }
    ensures begun { (turning turn.new).heap.begun ≡ (turning turn.old).heap.begun }
    ensures oracle { oracle_of turn.new ≡ oracle_of turn.old }
    ensures same { IsOneTurn turn.old turn.new }
{
    turn.objects().set_root(balance)?;
    turn.output_number(balance)?;
    turn.output_number(reading)
}

impl Service for Ledger {
    ghost handler = { λ _. ledger };

    #[tactic(auto, unfolding(crate::specs::Ledger::ledger_after))]
    fn on_message<O: Oracle>(&self, turn: &mut Turn<'_, O>) -> Result<(), AllocError> {
        let message = turn.message();
        let text = message.bytes.as_slice();
        let balance = turn.objects().root();
        if message.from == OUTSIDE
            && let Some((to, amount)) = payment(text)
        {
            if to >= turn.nodes() || amount > balance {
                return turn.output_text(b"refused");
            }
            let Ok(reading) = turn.clock() else {
                unreachable!()
            };
            keep(turn, balance - amount, reading)?;
            return turn.send_number(to, amount);
        }
        let Some(amount) = num(text) else {
            return turn.output_text(b"bad");
        };
        let Some(after) = balance.checked_add(amount) else {
            return turn.output_text(b"full");
        };
        let Ok(reading) = turn.clock() else {
            unreachable!()
        };
        keep(turn, after, reading)
    }
}
