// What a handler makes of a message.
ghost use Rattle.std.specs.Prelude.{◌≡◌, ◌+◌, ◌-◌, ◌<◌, ◌^◌, [], ◌∷◌, decimal, IfOk};
ghost use Rattle.std.specs.Option.{option_map_or};
ghost use Rattle.std.specs.List.{All, AllByRecursion};
ghost use Rattle.ken_model.specs.Kinds.{to_others, tally_counts};
ghost use Rattle.ken_model.specs.Heap.{IsHeap};
ghost use Rattle.ken_model.specs.Tasks.{task_of, effect_of};
ghost use Rattle.ken_model.specs.Answers.{effect_by};
ghost use Rattle.ken_num.specs.Numbers.{num};

use crate::{Kind, Message, OUTSIDE, Octets, Send, Value, bank, key_value};
use ken_num::{num, put_decimal};
use std::alloc::{AllocError, Global};

/// The answer to a payload that the kind doesn't know.
pub(crate) const BAD: &[u8] = b"bad";

/// What mix outputs is below this.
const MIX_OUTPUTS: u64 = 1000;

/// What a message asks of a node, with what was drawn for it.
#[derive(Clone, Copy, Debug, PartialEq, Eq)]
pub(crate) enum Task {
    /// The kind doesn't know the payload.
    Refuse,
    Ring { count: u64 },
    Tally { amount: u64 },
    Share { amount: u64 },
    Mix { count: u64, clock: u64, word: u64 },
    /// The payload is a command, or none.
    KeyValue,
    /// The payload is an order, or none.
    Bank,
}

/// What becomes of the blocks of a heap.
#[derive(Debug, Drop)]
pub(crate) enum BlockChange {
    Keep,
    /// A new block comes, and then the one at `old` goes.
    Put {
        place: u64,
        bytes: Octets,
        old: Option<u64>,
    },
    Delete {
        place: u64,
    },
    /// The block at `place` gets other bytes.
    Rewrite {
        place: u64,
        bytes: Octets,
    },
}

/// What a node is to change, send and output.
#[derive(Debug, Drop)]
pub(crate) struct Answer {
    /// The root of the heap from now on.
    pub root: u64,
    pub blocks: BlockChange,
    pub sends: Vec<Send>,
    pub outs: Vec<Octets>,
}

impl Task {
    /// The task of a payload: none where the kind takes another number of draws for it. The draws' type says that they are
    /// words, and callers learn it here.
    pub(crate) fn of(kind: Kind, payload: &[u8], draws: &[u64]) -> Option<Task>
        ensures task { result ≡ task_of kind (num payload.now) draws.now }
        ensures words { All (λ d. d < 2 ^ 64) draws.now }
    {
        match (kind, num(payload), draws) {
            (Kind::Kv, _, []) => Some(Task::KeyValue),
            (Kind::Bank, _, []) => Some(Task::Bank),
            (_, None, []) => Some(Task::Refuse),
            (Kind::Ring, Some(count), []) => Some(Task::Ring { count }),
            (Kind::Tally, Some(amount), []) => Some(Task::Tally { amount }),
            (Kind::Share, Some(amount), []) => Some(Task::Share { amount }),
            (Kind::Mix, Some(count), [clock, word]) => Some(Task::Mix {
                count,
                clock: *clock,
                word: *word,
            }),
            _ => None,
        }
    }

    /// What node `node` of `nodes` with that heap is to do about it. It is the task of the message.
    pub(crate) fn answer(
        self,
        alloc: Global,
        node: u8,
        nodes: u8,
        value: &Value,
        message: &Message,
    ) -> Result<Answer, AllocError>
        requires nodes { (0 < nodes) × (node < 255) }
        requires heap { IsHeap value.now }
        ensures effect { IfOk result (λ a. effect_of node nodes value.now message.now self ≡ effect_by value.now a) }
        ensures known { IfOk result (λ a. AllByRecursion (λ s. s.to < nodes) a.sends.items) }
    {
        match self {
            Task::Refuse => key_value::told(alloc, value, BlockChange::Keep, BAD),
            Task::KeyValue => key_value::answer(alloc, value, message.bytes.as_slice()),
            Task::Bank => bank::answer(alloc, nodes, value, message),
            Task::Ring { count } => Ok(Answer {
                root: value.root.wrapping_add(1),
                blocks: BlockChange::Keep,
                sends: number_to(alloc, count.checked_sub(1), (node + 1) % nodes)?,
                outs: alone(alloc, decimal_text(alloc, count)?)?,
            }),
            Task::Tally { amount } => tally(alloc, node, nodes, value, message, amount),
            Task::Share { amount } => Ok(Answer {
                root: value.root.wrapping_add(amount - amount / 2),
                blocks: BlockChange::Keep,
                sends: number_to(
                    alloc,
                    (amount > 1).then_some(amount / 2),
                    (node + 1) % nodes,
                )?,
                outs: alone(alloc, decimal_text(alloc, amount)?)?,
            }),
            Task::Mix { count, clock, word } => Ok(Answer {
                root: clock,
                blocks: BlockChange::Keep,
                sends: number_to(alloc, count.checked_sub(1), (word % u64::from(nodes)) as u8)?,
                outs: alone(alloc, decimal_text(alloc, word % MIX_OUTPUTS)?)?,
            }),
        }
    }
}

/// The sum, and a number from outside for all other nodes.
fn tally(
    alloc: Global,
    node: u8,
    nodes: u8,
    value: &Value,
    message: &Message,
    amount: u64,
) -> Result<Answer, AllocError>
    ensures effect { IfOk result (λ a. tally_counts node nodes value.now message.now amount ≡ effect_by value.now a) }
    ensures known { IfOk result (λ a. AllByRecursion (λ s. s.to < nodes) a.sends.items) }
{
    let root = value.root.wrapping_add(amount);
    let sends = if message.from == OUTSIDE {
        to_others(alloc, node, nodes, message.bytes.as_slice())?
    } else {
        Vec::new(alloc)
    };
    let outs = alone(alloc, decimal_text(alloc, root)?)?;
    Ok(Answer {
        root,
        blocks: BlockChange::Keep,
        sends,
        outs,
    })
}

/// A text for each node but one.
fn to_others(alloc: Global, node: u8, nodes: u8, text: &[u8]) -> Result<Vec<Send>, AllocError>
    ensures sends { IfOk result (λ v. v.items ≡ to_others node nodes text.now) }
    ensures known { IfOk result (λ v. AllByRecursion (λ s. s.to < nodes) v.items) }
{
    let mut sends = Vec::new(alloc);
    for to in 0..nodes {
        if to != node {
            let bytes = Octets::new(Vec::from_slice(alloc, text)?);
            sends.push(Send { to, bytes })?;
        }
    }
    Ok(sends)
}

/// A number for a node, where there is one.
fn number_to(alloc: Global, number: Option<u64>, to: u8) -> Result<Vec<Send>, AllocError>
    ensures { IfOk result (λ v. v.items ≡ option_map_or (λ n. record { to = to; bytes = decimal n } ∷ []) number []) }
{
    let mut sends = Vec::new(alloc);
    if let Some(number) = number {
        sends.push(Send {
            to,
            bytes: decimal_text(alloc, number)?,
        })?;
    }
    Ok(sends)
}

/// One output.
pub(crate) fn alone(alloc: Global, text: Octets) -> Result<Vec<Octets>, AllocError>
    ensures { IfOk result (λ v. v.items ≡ text ∷ []) }
{
    let mut outs = Vec::new(alloc);
    outs.push(text)?;
    Ok(outs)
}

/// A number in decimal.
fn decimal_text(alloc: Global, n: u64) -> Result<Octets, AllocError>
    ensures { IfOk result (λ t. t ≡ decimal n) }
{
    let mut text = Vec::new(alloc);
    put_decimal(&mut text, n)?;
    Ok(Octets::new(text))
}
