// A node of the abstract network without its heap, as a program holds it.
ghost use Rattle.std.specs.Prelude.{◌≡◌, ℕ, ◌+◌, ◌<◌, ◌≤◌, ◌^◌, ◌++◌, ◌==◌, [], ◌∷◌, if◌then◌else◌, length, map, slice_index_or, vec_len, vec_capacity, IfOk, IsOk, OnOk, OnErr};
ghost use Rattle.std.specs.List.{All};
ghost use Rattle.ken_model.specs.Network.{input_at, numbered, outputs_from};
ghost use Rattle.ken_model.specs.Posted.{posted_after, count_at};
ghost use Rattle.ken_actors.specs.Held.{taken_from};
ghost use Rattle.ken_actors.specs.Nodes.{held_of, new_node, IsMade};
ghost use Rattle.ken_actors.specs.Letters.{send_of, copy_of};

use crate::Played;
use ken_model::{Input, Message, OUTSIDE, Octets, Out, Send, TryClone};
use std::alloc::{AllocError, Global};

#[derive(Debug, Drop)]
pub(crate) struct Node {
    pub stamp: u64,
    /// How many turns it made.
    pub turns: u64,
    pub outs: Vec<Octets>,
    /// All messages that it sent, by receiver.
    pub sent: Vec<Vec<Message>>,
    /// How many messages of each node it took.
    pub taken: Vec<usize>,
    /// All inputs for it.
    pub inputs: Vec<Message>,
    /// How many of them it took.
    pub inputs_taken: usize,
}

/// What a turn sent and output, with its numbers.
#[derive(Debug, Drop)]
pub(crate) struct Made {
    pub sends: Vec<Message>,
    pub outs: Vec<Out>,
}

/// What is to be sent, with a copy of its bytes.
#[derive(Debug, Drop)]
struct Letter {
    send: Send,
    copy: Octets,
}

impl Node {
    /// One of `nodes` nodes, which has made no turn and has no input.
    pub(crate) fn new(alloc: Global, nodes: u8) -> Result<Self, AllocError>
        ensures { IfOk result (λ n. held_of n ≡ new_node nodes []) }
    {
        let mut sent = Vec::new(alloc);
        for _node in 0..nodes {
            sent.push(Vec::new(alloc))?;
        }
        Ok(Node {
            stamp: 0,
            turns: 0,
            outs: Vec::new(alloc),
            sent,
            taken: Vec::from_elem(alloc, 0, usize::from(nodes))?,
            inputs: Vec::new(alloc),
            inputs_taken: 0,
        })
    }

    /// Puts an input with the others. After an error the node can't be used.
    pub(crate) fn give(&mut self, alloc: Global, input: &Input) -> Result<(), AllocError>
        ensures rest { self.new ≡ record self.old { inputs = self.new.inputs } }
        ensures inputs { OnOk result (self.new.inputs.items ≡ self.old.inputs.items
            ++ input_at (length self.old.inputs.items + 1) input.now ∷ []) }
    {
        let number = self.inputs.len() as u64 + 1;
        self.inputs.push(Message {
            from: OUTSIDE,
            to: input.node,
            number,
            stamp: 0,
            bytes: input.text.try_clone(alloc)?,
        })?;
        Ok(())
    }

    /// Counts the turn that took a message of `from`, and posts what it sent. After an error nothing has changed.
    pub(crate) fn make(
        &mut self,
        alloc: Global,
        node: u8,
        from: u8,
        stamp: u64,
        played: Played,
    ) -> Result<Made, AllocError>
        requires known { All (λ s. s.to < length self.old.sent.items) played.sends }
        requires turns { self.old.turns + 1 < 2 ^ 64 }
        requires waits { taken_from (held_of self.old) from + 1 < 2 ^ 64 }
        requires sender { from < 255 → from < length self.old.taken.items }
        ensures made { IfOk result (IsMade node from stamp played.sends played.outs (held_of self.old) (held_of self.new)) }
        ensures err { OnErr result (held_of self.new ≡ held_of self.old) }
    {
        let sends = played.sends.into_vec();
        let mut outs = played.outs.into_vec();
        let copies = numbered_outs(alloc, self.outs.len(), &outs)?;
        let letters = letters(alloc, sends)?;
        let mut mail = Vec::with_capacity(alloc, letters.len())?;
        reserve(&mut self.sent, letters.len())?;
        self.outs.reserve(outs.len())?;
        self.outs.append(&mut outs)?;
        post_all(&mut self.sent, node, stamp, letters, &mut mail)?;
        self.take(from);
        self.stamp = stamp;
        self.turns += 1;
        Ok(Made {
            sends: mail,
            outs: copies,
        })
    }

    /// Counts a message of `from` as taken.
    fn take(&mut self, from: u8)
        requires waits { taken_from (held_of self.old) from + 1 < 2 ^ 64 }
        requires sender { from < 255 → from < length self.old.taken.items }
        ensures taken { (u : ℕ) → taken_from (held_of self.new) u ≡ (if u == from then taken_from (held_of self.old) u + 1 else taken_from (held_of self.old) u) }
        ensures width { length self.new.taken.items ≡ length self.old.taken.items }
        ensures rest { self.new ≡ record self.old { taken = self.new.taken; inputs_taken = self.new.inputs_taken } }
    {
        if from == OUTSIDE {
            self.inputs_taken += 1;
        } else {
            self.taken[usize::from(from)] += 1;
        }
    }
}

/// Copies of outputs, numbered on from `before`.
#[tactic(auto, unfolding(ken_model::specs::Network::outputs_from))]
fn numbered_outs(alloc: Global, before: usize, texts: &[Octets]) -> Result<Vec<Out>, AllocError>
    requires { before + length texts.now < 2 ^ 64 }
    ensures { IfOk result (λ v. v.items ≡ outputs_from before texts.now) }
{
    let mut outs = Vec::new(alloc);
    for text in texts {
        let number = (before + outs.len()) as u64 + 1;
        outs.push(Out {
            number,
            text: text.try_clone(alloc)?,
        })?;
    }
    Ok(outs)
}

/// What is to be sent, with copies.
fn letters(alloc: Global, sends: Vec<Send>) -> Result<Vec<Letter>, AllocError>
    ensures sends { IfOk result (λ v. map send_of v.items ≡ sends.items) }
    ensures copies { IfOk result (λ v. map copy_of v.items ≡ sends.items) }
{
    let mut letters = Vec::new(alloc);
    for send in sends {
        let copy = send.bytes.try_clone(alloc)?;
        letters.push(Letter { send, copy })?;
    }
    Ok(letters)
}

/// Makes room in each list for `count` messages more. No list changes.
fn reserve(sent: &mut [Vec<Message>], count: usize) -> Result<(), AllocError>
    ensures same { map (λ v. v.items) sent.new ≡ map (λ v. v.items) sent.old }
    ensures room { OnOk result (All (λ v. vec_len v + count ≤ vec_capacity v) sent.new) }
{
    for list in sent.iter_mut() {
        list.reserve(count)?;
    }
    Ok(())
}

/// Numbers all messages of a turn, in order, and puts them where there is room for them: on their links, and into `mail`.
/// It can't fail.
fn post_all(
    sent: &mut [Vec<Message>],
    node: u8,
    stamp: u64,
    letters: Vec<Letter>,
    mail: &mut Vec<Message>,
) -> Result<(), AllocError>
    requires known { All (λ l. l.send.to < length sent.old) letters.items }
    requires room { All (λ v. vec_len v + length letters.items ≤ vec_capacity v) sent.old }
    requires mail_room { vec_len mail.old + length letters.items ≤ vec_capacity mail.old }
    ensures ok { IsOk result }
    ensures sent { (w : ℕ) → slice_index_or (map (λ v. v.items) sent.new) w []
        ≡ slice_index_or (map (λ v. v.items) sent.old) w [] ++ numbered node w (count_at (map (λ v. v.items) sent.old) w) stamp (map send_of letters.items) }
    ensures mail { mail.new.items ≡ mail.old.items ++ posted_after node stamp (count_at (map (λ v. v.items) sent.old)) (map copy_of letters.items) }
{
    for letter in letters {
        let to = letter.send.to;
        let list = &mut sent[usize::from(to)];
        let number = list.len() as u64 + 1;
        list.push(Message {
            from: node,
            to,
            number,
            stamp,
            bytes: letter.send.bytes,
        })?;
        mail.push(Message {
            from: node,
            to,
            number,
            stamp,
            bytes: letter.copy,
        })?;
    }
    Ok(())
}
