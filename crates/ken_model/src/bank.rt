// What a handler of kind bank makes of a message.
ghost use Rattle.std.specs.Prelude.{◌≡◌, List, ◌+◌, ◌<◌, ◌≤◌, nat_lt, if◌then◌else◌, [], ◌∷◌, option_copied, length, codes, IfOk, IfSome};
ghost use Rattle.std.specs.List.{AllByRecursion};
ghost use Rattle.ken_model.specs.Answers.{changed, effect_by};
ghost use Rattle.ken_model.specs.Bank.{bank, opened, moved, with_credit, account, account_of, balance_of, credit_text, order_of};
ghost use Rattle.ken_model.specs.Effects.{answered, refused};
ghost use Rattle.ken_model.specs.Heap.{IsHeap, first_gap, with_block, with_bytes};
ghost use Rattle.ken_model.specs.declared.values.Block.{Block};
ghost use Rattle.ken_model.specs.Orders.{IsNameLong};

use crate::handler::{Answer, BAD, BlockChange, alone};
use crate::key_value::{FULL, NONE, OK, told};
use crate::{Block, Message, OUTSIDE, Octets, Order, Send, Value};
use byteorder::{BigEndian, ByteOrder};
use ken_num::{put_decimal, put_u64};
use std::alloc::{AllocError, Global};

/// The answer to an open of an account that is there.
const THERE: &[u8] = b"there";

/// The answer to a move of more than the balance.
const SHORT: &[u8] = b"short";

/// The answer to a credit.
const GOT: &[u8] = b"got";

/// How many bytes a balance takes.
const BALANCE: usize = 8;

/// How many bytes an account has beside its name.
const BESIDE_NAME: usize = 9;

/// What a node of `nodes` with that heap is to do about a message.
pub(crate) fn answer(
    alloc: Global,
    nodes: u8,
    value: &Value,
    message: &Message,
) -> Result<Answer, AllocError>
    requires heap { IsHeap value.now }
    ensures effect { IfOk result (λ a. bank nodes value.now message.now (order_of message.now.bytes) ≡ effect_by value.now a) }
    ensures known { IfOk result (λ a. AllByRecursion (λ s. s.to < nodes) a.sends.items) }
{
    match Order::of(message.bytes.as_slice()) {
        Some(Order::Open { name, amount }) => open(alloc, value, name, amount),
        Some(
            Order::Move {
                name,
                amount,
                to,
                other,
            },
        ) => transfer(alloc, nodes, value, name, amount, to, other),
        Some(Order::Credit { name, amount }) => {
            if message.from == OUTSIDE {
                told(alloc, value, BlockChange::Keep, BAD)
            } else {
                credit(alloc, value, name, amount)
            }
        }
        None => told(alloc, value, BlockChange::Keep, BAD),
    }
}

/// Makes an account in the first gap, where the name has none.
fn open(alloc: Global, value: &Value, name: &[u8], amount: u64) -> Result<Answer, AllocError>
    requires heap { IsHeap value.now }
    requires name { IsNameLong name.now }
    ensures effect { IfOk result (λ a. opened value.now name.now amount (account_of name.now value.now.blocks) (first_gap value.now (length name.now + 9)) ≡ effect_by value.now a) }
{
    if account(value, name).is_some() {
        return told(alloc, value, BlockChange::Keep, THERE);
    }
    match value.first_gap(name.len() + BESIDE_NAME) {
        Some(place) => told(alloc, value, new_account(alloc, place, name, amount)?, OK),
        None => told(alloc, value, BlockChange::Keep, FULL),
    }
}

/// Takes an amount from an account, and sends it on.
fn transfer(
    alloc: Global,
    nodes: u8,
    value: &Value,
    name: &[u8],
    amount: u64,
    to: u64,
    other: &[u8],
) -> Result<Answer, AllocError>
    ensures effect { IfOk result (λ a. (if nat_lt to nodes
        then moved value.now name.now amount to other.now (account_of name.now value.now.blocks)
        else refused value.now) ≡ effect_by value.now a) }
    ensures known { IfOk result (λ a. AllByRecursion (λ s. s.to < nodes) a.sends.items) }
{
    if to >= u64::from(nodes) {
        return told(alloc, value, BlockChange::Keep, BAD);
    }
    let Some(account) = account(value, name) else {
        return told(alloc, value, BlockChange::Keep, NONE);
    };
    let balance = balance(account.bytes.as_slice());
    if balance < amount {
        return told(alloc, value, BlockChange::Keep, SHORT);
    }
    Ok(Answer {
        root: value.root,
        blocks: new_balance(alloc, account.place, name, balance - amount)?,
        sends: credit_to(alloc, to as u8, other, amount)?,
        outs: alone(alloc, Octets::new(Vec::from_slice(alloc, OK)?))?,
    })
}

/// Adds an amount to an account, which it makes where there is none, or to the root where no gap fits.
fn credit(alloc: Global, value: &Value, name: &[u8], amount: u64) -> Result<Answer, AllocError>
    requires heap { IsHeap value.now }
    requires name { IsNameLong name.now }
    ensures effect { IfOk result (λ a. answered
        (with_credit value.now name.now amount (account_of name.now value.now.blocks)
        (first_gap value.now (length name.now + 9))) (codes "got") ≡ effect_by value.now a) }
{
    if let Some(account) = account(value, name) {
        let sum = balance(account.bytes.as_slice()).wrapping_add(amount);
        return told(
            alloc,
            value,
            new_balance(alloc, account.place, name, sum)?,
            GOT,
        );
    }
    match value.first_gap(name.len() + BESIDE_NAME) {
        Some(place) => told(alloc, value, new_account(alloc, place, name, amount)?, GOT),
        None => Ok(Answer {
            root: value.root.wrapping_add(amount),
            blocks: BlockChange::Keep,
            sends: Vec::new(alloc),
            outs: alone(alloc, Octets::new(Vec::from_slice(alloc, GOT)?))?,
        }),
    }
}

/// The account of a name.
#[tactic(auto, using(crate::proofs::Edits::pair_found))]
fn account<'a>(value: &'a Value, name: &[u8]) -> Option<&'a Block>
    ensures account { option_copied result ≡ account_of name.now value.now.blocks }
    ensures long { IfSome result (λ b. length b.now.bytes ≡ length name.now + 9) }
{
    let pair = value.pair_of(name)?;
    if pair.bytes.len() == name.len() + BESIDE_NAME {
        Some(pair)
    } else {
        None
    }
}

/// The balance in an account's bytes.
fn balance(account: &[u8]) -> u64
    requires { 8 ≤ length account.now }
    ensures { result ≡ balance_of account.now }
{
    BigEndian::read_u64(&account[account.len() - BALANCE..])
}

/// An account more.
fn new_account(
    alloc: Global,
    place: u64,
    name: &[u8],
    balance: u64,
) -> Result<BlockChange, AllocError>
    ensures { IfOk result (λ change. (bs : List Block) → changed change bs ≡ with_block (record { place = place; bytes = account name.now balance }) bs) }
{
    Ok(BlockChange::Put {
        place,
        bytes: account_bytes(alloc, name, balance)?,
        old: None,
    })
}

/// Another balance in the account at a place.
fn new_balance(
    alloc: Global,
    place: u64,
    name: &[u8],
    balance: u64,
) -> Result<BlockChange, AllocError>
    ensures { IfOk result (λ change. (bs : List Block) → changed change bs ≡ with_bytes place (account name.now balance) bs) }
{
    Ok(BlockChange::Rewrite {
        place,
        bytes: account_bytes(alloc, name, balance)?,
    })
}

/// The bytes of an account.
fn account_bytes(alloc: Global, name: &[u8], balance: u64) -> Result<Octets, AllocError>
    ensures { IfOk result (λ bytes. bytes ≡ account name.now balance) }
{
    let mut bytes = Vec::from_slice(alloc, name)?;
    bytes.push(b' ')?;
    put_u64(&mut bytes, balance)?;
    Ok(Octets::new(bytes))
}

/// A credit for an account of a node.
fn credit_to(alloc: Global, to: u8, name: &[u8], amount: u64) -> Result<Vec<Send>, AllocError>
    ensures { IfOk result (λ sends. sends.items ≡ record { to = to; bytes = credit_text name.now amount } ∷ []) }
{
    let mut text = Vec::from_slice(alloc, b"credit ".as_slice())?;
    text.extend_from_slice(name)?;
    text.push(b' ')?;
    put_decimal(&mut text, amount)?;
    let mut sends = Vec::new(alloc);
    sends.push(Send {
        to,
        bytes: Octets::new(text),
    })?;
    Ok(sends)
}
