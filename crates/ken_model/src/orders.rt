// What the payloads of kind bank ask for.
ghost use Rattle.std.specs.Prelude.{◌≡◌, option_map, option_copied, IfSome};
ghost use Rattle.ken_model.specs.Bank.{name_of, at_name, at_num, named_amount, move_of, order_of};
ghost use Rattle.ken_model.specs.Commands.{parts_view};
ghost use Rattle.ken_model.specs.Orders.{order_view, named_view, numbered_view, IsNameLong, HasNames};

use crate::commands::{Parts, at_space};
use ken_num::num;

/// The most bytes of an account's name.
pub const MAX_NAME: usize = 32;

/// A payload of kind bank. A name is 1 to `MAX_NAME` bytes without a space, and an amount is below 10^9.
#[derive(Clone, Copy, Debug, PartialEq, Eq)]
pub enum Order<'a> {
    /// An account is to be there, with that amount.
    Open {
        name: &'a [u8],
        amount: u64,
    },
    /// An amount is to go from an account to the account `other` of node `to`.
    Move {
        name: &'a [u8],
        amount: u64,
        to: u64,
        other: &'a [u8],
    },
    /// An amount is to be added to an account.
    Credit {
        name: &'a [u8],
        amount: u64,
    },
}

/// A name and an amount.
#[derive(Clone, Copy)]
struct Named<'a> {
    name: &'a [u8],
    amount: u64,
}

/// A number, and what stands after the space that ends it.
#[derive(Clone, Copy)]
struct Numbered<'a> {
    number: u64,
    after: &'a [u8],
}

impl<'a> Order<'a> {
    /// The order that a payload is.
    pub fn of(payload: &'a [u8]) -> Option<Order<'a>>
        ensures order { option_map order_view result ≡ order_of payload.now }
        ensures names { IfSome result HasNames }
    {
        let Parts { before, after } = at_space(payload)?;
        if before == b"open".as_slice() {
            let Named { name, amount } = named_amount(after)?;
            Some(Order::Open { name, amount })
        } else if before == b"move".as_slice() {
            move_of(after)
        } else if before == b"credit".as_slice() {
            let Named { name, amount } = named_amount(after)?;
            Some(Order::Credit { name, amount })
        } else {
            None
        }
    }
}

/// The order of a name, an amount, a node and another name.
fn move_of(bytes: &[u8]) -> Option<Order<'_>>
    ensures order { option_map order_view result ≡ move_of bytes.now }
    ensures names { IfSome result HasNames }
{
    let name = at_name(bytes)?;
    let amount = at_num(name.after)?;
    let to = at_num(amount.after)?;
    let other = name_of(to.after)?;
    Some(Order::Move {
        name: name.before,
        amount: amount.number,
        to: to.number,
        other,
    })
}

/// The bytes, where they are a name and an amount.
fn named_amount(bytes: &[u8]) -> Option<Named<'_>>
    ensures named { option_map named_view result ≡ named_amount bytes.now }
    ensures long { IfSome result (λ n. IsNameLong n.name.now) }
{
    let Parts { before, after } = at_name(bytes)?;
    let amount = num(after)?;
    Some(Named {
        name: before,
        amount,
    })
}

/// A name before the first space, and what stands after it.
fn at_name(bytes: &[u8]) -> Option<Parts<'_>>
    ensures parts { option_map parts_view result ≡ at_name bytes.now }
    ensures long { IfSome result (λ p. IsNameLong p.before.now) }
{
    let Parts { before, after } = at_space(bytes)?;
    let name = name_of(before)?;
    Some(Parts {
        before: name,
        after,
    })
}

/// A number before the first space, and what stands after it.
fn at_num(bytes: &[u8]) -> Option<Numbered<'_>>
    ensures { option_map numbered_view result ≡ at_num bytes.now }
{
    let Parts { before, after } = at_space(bytes)?;
    let number = num(before)?;
    Some(Numbered { number, after })
}

/// The bytes, where they are a name.
fn name_of(bytes: &[u8]) -> Option<&[u8]>
    ensures name { option_copied result ≡ name_of bytes.now }
    ensures long { IfSome result (λ name. IsNameLong name.now) }
{
    match at_space(bytes) {
        Some(_) => None,
        None => (!bytes.is_empty() && bytes.len() <= MAX_NAME).then_some(bytes),
    }
}
