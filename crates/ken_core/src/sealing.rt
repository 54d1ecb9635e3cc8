// A turn that can be sealed.
ghost use Rattle.std.specs.Prelude.{◌≡◌, ◌+◌, ◌^◌, ◌<◌, ◌↔◌, max, ℕ, length, map, slice_index, IfOk, IfSome, IfNone, IsTrue};
ghost use Rattle.std.specs.List.{All, AllByRecursion};
ghost use Rattle.ken_model.specs.Posted.{posted_after};
ghost use Rattle.ken_model.specs.Network.{Turn, outputs_from};
ghost use Rattle.ken_model.specs.Game.{game_of};
ghost use Rattle.ken_model.specs.Limits.{IsWithinLimits};
ghost use Rattle.ken_core.specs.Turns.{sent_of, stamp_after};
ghost use Rattle.ken_core.specs.Groups.{node_in, IsKept};

use crate::bytes::are_changed;
use crate::copies;
use crate::machine::Machine;
use ken_cover::Layer;
use ken_model::{Block, Facts, Message, Octets, Out, Send, Shared, TryClone, Value};
use ken_record::{Effects, Page, Sent};
use std::alloc::{AllocError, Global};

/// A turn that can be sealed, with all that its node will keep of it.
#[derive(Debug, Drop)]
pub(crate) struct Sealing {
    /// What the heap stands for after it.
    pub value: Value,
    pub live: Layer,
    pub ahead: Layer,
    pub effects: Effects,
    pub mails: Vec<Message>,
    pub outs: Vec<Out>,
}

impl Sealing {
    ghost use Rattle.ken_core.specs.Sealings.{MakesTurn, IsSealing, Keeps};

    /// The turn of node `node` that takes this message with these draws and changes these pages: `None` where its handler
    /// doesn't make it so, or the node may make none. The node stays as it is, after an error too.
    pub(crate) fn prepare(
        alloc: Global,
        facts: &Facts,
        node: u8,
        machine: &mut Machine,
        message: &Message,
        draws: &[u64],
        pages: &[Page],
    ) -> Result<Option<Sealing>, AllocError>
        requires limits { IsWithinLimits (game_of facts.now) }
        requires known { node < facts.now.nodes }
        requires kept { (made : ℕ) × IsKept (game_of facts.now) made node machine.old }
        requires early { max (stamp_after 0 machine.old.ledger.turns.items) message.now.stamp + 1 < 2 ^ 64 }
        ensures some { IfOk result (λ s. IfSome s (IsSealing (game_of facts.now) node (node_in machine.old) message.now draws.now pages.now)) }
        ensures none { IfOk result (λ s. IfNone s ((t : Turn) → MakesTurn (game_of facts.now) node (node_in machine.old) message.now draws.now pages.now t → ⊥)) }
        ensures same { machine.new ≡ machine.old }
    {
        if !machine.up {
            return Ok(None);
        }
        if machine.ledger.turns.len() as u64 >= facts.turns {
            return Ok(None);
        }
        if !are_changed(machine.pages.heap.as_slice(), pages) {
            return Ok(None);
        }
        let Some(value) = machine.pages.heap.take_value(alloc)? else {
            return Ok(None);
        };
        let reaction = facts
            .kind
            .react(alloc, node, facts.nodes, value, message, draws)?;
        let Some(reaction) = reaction else {
            return Ok(None);
        };
        let Some(now) = machine.pages.heap.value_under(alloc, pages)? else {
            return Ok(None);
        };
        if !is_same(&now, &reaction.value) {
            return Ok(None);
        }
        let sealing = Sealing::of(
            alloc,
            node,
            machine,
            message,
            draws,
            pages,
            now,
            reaction.sends.as_slice(),
            reaction.outs.as_slice(),
        )?;
        Ok(Some(sealing))
    }

    /// What a node keeps of a turn that sends and outputs this, and leaves this value.
    fn of(
        alloc: Global,
        node: u8,
        machine: &Machine,
        message: &Message,
        draws: &[u64],
        pages: &[Page],
        value: Value,
        sends: &[Send],
        outs: &[Octets],
    ) -> Result<Sealing, AllocError>
        requires known { AllByRecursion (λ s. s.to < length machine.now.ledger.sent.items) sends.now }
        requires early { max (stamp_after 0 machine.now.ledger.turns.items) message.now.stamp + 1 < 2 ^ 64 }
        ensures { IfOk result (Keeps node machine.now message.now draws.now pages.now value sends.now outs.now) }
    {
        let turn = machine.ledger.turns.len() as u64 + 1;
        let stamp = machine.ledger.stamp().max(message.stamp) + 1;
        let counts = counts(alloc, machine.ledger.sent.as_slice())?;
        let mails = mails(alloc, node, stamp, counts, sends)?;
        let outs = numbered(alloc, machine.ledger.outs.len(), outs)?;
        let effects = Effects {
            from: message.from,
            number: message.number,
            stamp,
            draws: copies::draws(alloc, draws)?,
            sends: sents(alloc, mails.as_slice())?,
            outs: copies::outputs(alloc, outs.as_slice())?,
        };
        Ok(Sealing {
            value,
            live: copies::layer(alloc, turn, pages)?,
            ahead: copies::layer(alloc, turn, pages)?,
            effects,
            mails,
            outs,
        })
    }
}

/// Whether two values are the same.
fn is_same(a: &Value, b: &Value) -> bool
    ensures { IsTrue result ↔ (a.now ≡ b.now) }
{
    a.size == b.size && a.root == b.root && are_same(a.blocks.as_slice(), b.blocks.as_slice())
}

/// Whether two lists of blocks are the same.
fn are_same(a: &[Block], b: &[Block]) -> bool
    ensures { IsTrue result ↔ (a.now ≡ b.now) }
{
    if a.len() != b.len() {
        return false;
    }
    for place in 0..a.len() {
        if !is_same_block(&a[place], &b[place]) {
            return false;
        }
    }
    true
}

fn is_same_block(a: &Block, b: &Block) -> bool
    ensures { IsTrue result ↔ (a.now ≡ b.now) }
{
    a.place == b.place && a.bytes.as_slice() == b.bytes.as_slice()
}

/// How many messages were sent to each node.
fn counts(alloc: Global, sent: &[Vec<Message>]) -> Result<Vec<u64>, AllocError>
    ensures { IfOk result (λ counts. counts.items ≡ map (λ list. length list.items) sent.now) }
{
    let mut counts = Vec::with_capacity(alloc, sent.len())?;
    for list in sent {
        counts.push(list.len() as u64)?;
    }
    Ok(counts)
}

/// What is sent, as messages with their numbers.
fn mails(
    alloc: Global,
    node: u8,
    stamp: u64,
    mut counts: Vec<u64>,
    sends: &[Send],
) -> Result<Vec<Message>, AllocError>
    requires known { AllByRecursion (λ s. s.to < length counts.items) sends.now }
    requires room { (w : ℕ) → slice_index counts.items w < 2 ^ 63 }
    ensures { IfOk result (λ mails. mails.items ≡ posted_after node stamp (λ w. slice_index counts.items w) sends.now) }
{
    let mut mails = Vec::with_capacity(alloc, sends.len())?;
    for send in sends {
        let to = usize::from(send.to);
        let number = counts[to] + 1;
        counts[to] = number;
        mails.push(Message {
            from: node,
            to: send.to,
            number,
            stamp,
            bytes: send.bytes.try_clone(alloc)?,
        })?;
    }
    Ok(mails)
}

/// Messages, as their sender's turn keeps them.
fn sents(alloc: Global, mails: &[Message]) -> Result<Shared<Sent>, AllocError>
    ensures { IfOk result (λ sends. sends ≡ map sent_of mails.now) }
{
    let mut sends = Vec::with_capacity(alloc, mails.len())?;
    for mail in mails {
        sends.push(Sent {
            to: mail.to,
            number: mail.number,
            bytes: mail.bytes.try_clone(alloc)?,
        })?;
    }
    Shared::new(alloc, sends)
}

/// Outputs, numbered on from `before`.
#[tactic(auto, unfolding(ken_model::specs::Network::outputs_from))]
fn numbered(alloc: Global, before: usize, texts: &[Octets]) -> Result<Vec<Out>, AllocError>
    requires { before + length texts.now < 2 ^ 64 }
    ensures { IfOk result (λ outs. outs.items ≡ outputs_from before texts.now) }
{
    let mut outs = Vec::with_capacity(alloc, texts.len())?;
    for text in texts {
        let number = (before + outs.len()) as u64 + 1;
        outs.push(Out {
            number,
            text: text.try_clone(alloc)?,
        })?;
    }
    Ok(outs)
}
