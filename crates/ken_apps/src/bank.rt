// The bank: amounts are moved between accounts, which are blocks of the heaps.
ghost use Rattle.std.specs.Prelude.{◌≡◌, ◌+◌, length, Some, OnOk};
ghost use Rattle.ken_model.specs.declared.kinds.Kind.TheVariants.{Bank};
ghost use Rattle.ken_model.specs.Bank.{Open, Move, bank, with_credit, account_of};
ghost use Rattle.ken_model.specs.Heap.{first_gap};
ghost use Rattle.ken_model.specs.Kinds.{handler_of};
ghost use Rattle.ken_model.specs.Orders.{IsNameLong};
ghost use Rattle.ken_app.specs.Turning.{turning, oracle_of, IsOneTurn, IsFresh, IsHandled};

use crate::accounts;
use ken_app::{Oracle, Turn};
use ken_model::{OUTSIDE, Order};
use std::alloc::AllocError;

/// An account is opened, and answered `ok`, `there` or `full`; an amount leaves an account as a credit for one of some node,
/// and is answered `ok`, `none` or `short`; a credit of another node is added to its account, which is made where there is
/// none, or to the root where no gap fits. Anything else is answered `bad`.
#[tactic(auto, unfolding(ken_model::specs::Kinds::after))]
pub(crate) fn on_message<O: Oracle>(turn: &mut Turn<'_, O>) -> Result<(), AllocError>
    requires { IsFresh (turning turn.old) }
    ensures handled { OnOk result (IsHandled (handler_of Bank) (turning turn.old) (turning turn.new)) }
    ensures undrawn { OnOk result ((turning turn.new).draws ≡ (turning turn.old).draws) }
    ensures oracle { oracle_of turn.new ≡ oracle_of turn.old }
    ensures begun { (turning turn.new).heap.begun ≡ (turning turn.old).heap.begun }
    ensures same { IsOneTurn turn.old turn.new }
{
    let message = turn.message();
    match Order::of(message.bytes.as_slice()) {
        Some(Order::Open { name, amount }) => open(turn, name, amount),
        Some(
            Order::Move {
                name,
                amount,
                to,
                other,
            },
        ) => transfer(turn, name, amount, to, other),
        Some(Order::Credit { name, amount }) => {
            if message.from == OUTSIDE {
                turn.output_text(b"bad")
            } else {
                credit(turn, name, amount)?;
                turn.output_text(b"got")
            }
        }
        None => turn.output_text(b"bad"),
    }
}

/// Makes an account, where the name has none.
fn open<O: Oracle>(turn: &mut Turn<'_, O>, name: &[u8], amount: u64) -> Result<(), AllocError>
    requires fresh { IsFresh (turning turn.old) }
    requires name { IsNameLong name.now }
    ensures effect { OnOk result (bank (turning turn.old).nodes (turning turn.old).heap.value (turning turn.old).message (Some (Open name.now amount))
        ≡ record { value = (turning turn.new).heap.value; sends = (turning turn.new).sends; outs = (turning turn.new).outs }) }
    ensures rest { OnOk result (turning turn.new ≡ record (turning turn.old) { heap = (turning turn.new).heap; sends = (turning turn.new).sends; outs = (turning turn.new).outs }) }
    ensures oracle { oracle_of turn.new ≡ oracle_of turn.old }
    ensures begun { (turning turn.new).heap.begun ≡ (turning turn.old).heap.begun }
    ensures same { IsOneTurn turn.old turn.new }
{
    if accounts::find(turn.objects(), name).is_some() {
        return turn.output_text(b"there");
    }
    let made = accounts::open(turn.objects(), name, amount)?;
    turn.output_text(if made.is_some() { b"ok" } else { b"full" })
}

/// Takes an amount from an account, and sends it on.
fn transfer<O: Oracle>(
    turn: &mut Turn<'_, O>,
    name: &[u8],
    amount: u64,
    to: u64,
    other: &[u8],
) -> Result<(), AllocError>
    requires fresh { IsFresh (turning turn.old) }
    requires name { IsNameLong name.now }
    requires other { IsNameLong other.now }
    ensures effect { OnOk result (bank (turning turn.old).nodes (turning turn.old).heap.value (turning turn.old).message (Some (Move name.now amount to other.now))
        ≡ record { value = (turning turn.new).heap.value; sends = (turning turn.new).sends; outs = (turning turn.new).outs }) }
    ensures rest { OnOk result (turning turn.new ≡ record (turning turn.old) { heap = (turning turn.new).heap; sends = (turning turn.new).sends; outs = (turning turn.new).outs }) }
    ensures oracle { oracle_of turn.new ≡ oracle_of turn.old }
    ensures begun { (turning turn.new).heap.begun ≡ (turning turn.old).heap.begun }
    ensures same { IsOneTurn turn.old turn.new }
{
    if to >= u64::from(turn.nodes()) {
        return turn.output_text(b"bad");
    }
    let Some(account) = accounts::find(turn.objects(), name) else {
        return turn.output_text(b"none");
    };
    if account.balance < amount {
        return turn.output_text(b"short");
    }
    accounts::set_balance(turn.objects(), name, account, account.balance - amount)?;
    turn.send_text(to as u8, accounts::credit_text(other, amount).as_slice())?;
    turn.output_text(b"ok")
}

/// Adds an amount to an account, which it makes where there is none, or to the root where no gap fits.
fn credit<O: Oracle>(turn: &mut Turn<'_, O>, name: &[u8], amount: u64) -> Result<(), AllocError>
    requires fresh { IsFresh (turning turn.old) }
    requires name { IsNameLong name.now }
    ensures value { OnOk result ((turning turn.new).heap.value ≡ with_credit (turning turn.old).heap.value name.now amount
        (account_of name.now (turning turn.old).heap.value.blocks)
        (first_gap (turning turn.old).heap.value (length name.now + 9))) }
    ensures rest { turning turn.new ≡ record (turning turn.old) { heap = (turning turn.new).heap } }
    ensures oracle { oracle_of turn.new ≡ oracle_of turn.old }
    ensures begun { (turning turn.new).heap.begun ≡ (turning turn.old).heap.begun }
    ensures same { IsOneTurn turn.old turn.new }
{
    if let Some(account) = accounts::find(turn.objects(), name) {
        let sum = account.balance.wrapping_add(amount);
        return accounts::set_balance(turn.objects(), name, account, sum);
    }
    if accounts::open(turn.objects(), name, amount)?.is_none() {
        let root = turn.objects().root();
        turn.objects().set_root(root.wrapping_add(amount))?;
    }
    Ok(())
}
