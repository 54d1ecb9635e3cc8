ghost use Rattle.std.specs.Prelude.{◌≡◌, ◌≢◌, ◌<◌, ◌≤◌, ◌+◌, [], ◌++◌, ℕ, List, drop, length, map, slice_get, slice_index_or, slice_set, option_copied, option_map, IfOk, OnOk, OnErr, Option, Some};
ghost use Rattle.std.specs.VecDeque.{deque_len, deque_capacity};
ghost use Rattle.ken_outbox.specs.Waiting.{nothing, resumed, with_sends, acked_by, next_number, no_line, AreFor};

use crate::line::Line;
use crate::lines;
use ken_model::{Items, Message, Octets, Out, State, TryClone, copies_of};
use std::alloc::{AllocError, Global};
use std::collections::VecDeque;
use std::marker::Model;

/// What a node has sent and output and may still have to send or emit.
#[derive(Debug, Drop)]
pub struct Outbox {
    lines: Vec<Line>,
    emitted: u64,
    outs: VecDeque<Out>,
}

impl Model for Outbox {
    ghost use Rattle.std.specs.Prelude.{map};
    ghost use Rattle.ken_outbox.specs.Waiting.{Waiting};
    ghost use Rattle.ken_outbox.specs.Lines.{shown};

    ghost Value = { Waiting };

    ghost view = { λ o. record { lines = map shown o.lines.items; emitted = o.emitted; outs = o.outs.items } };
}

impl Outbox {
    /// A node of a run of so many nodes that has sent and output nothing.
    pub fn new(alloc: Global, nodes: u8) -> Result<Self, AllocError>
        ensures { IfOk result (λ o. o ≡ nothing nodes) }
    {
        Ok(Outbox {
            lines: lines::new(alloc, nodes)?,
            emitted: 0,
            outs: VecDeque::new(alloc),
        })
    }

    /// A node of a run of so many nodes, at most 8, with the messages and outputs of a state. Of the messages and outputs
    /// that the state counts, those that it doesn't hold were acknowledged and emitted.
    pub fn resume(alloc: Global, nodes: u8, state: &State) -> Result<Self, AllocError>
        requires nodes { nodes ≤ length state.now.sent }
        requires messages { AreFor nodes state.now.messages }
        ensures state { IfOk result (λ o. o ≡ resumed nodes state.now) }
        ensures nodes { IfOk result (λ o. length o.lines ≡ nodes) }
    {
        let waiting = state.messages.as_slice();
        let mut outbox = Outbox {
            lines: lines::resumed(alloc, nodes, state.sent.as_slice(), waiting)?,
            emitted: state.outputs.saturating_sub(state.outs.len() as u64),
            outs: VecDeque::new(alloc),
        };
        outbox.add(
            copies_of(alloc, waiting)?,
            copies_of(alloc, state.outs.as_slice())?,
        )?;
        Ok(outbox)
    }

    /// Puts what a turn sent and output behind what was there. After an error nothing has changed.
    #[tactic(auto, using(crate::proofs::Sends::sends_length))]
    pub fn add(&mut self, sends: Items<Message>, outs: Items<Out>) -> Result<(), AllocError>
        requires { AreFor (length self.old.lines) sends }
        ensures ok { OnOk result (self.new ≡ record self.old { lines = with_sends 0 self.old.lines sends; outs = self.old.outs ++ outs }) }
        ensures err { OnErr result (self.new ≡ self.old) }
        ensures nodes { length self.new.lines ≡ length self.old.lines }
    {
        let mut sends = VecDeque::from_vec(sends.into_vec());
        self.outs.reserve(outs.len())?;
        lines::reserve_for(&mut self.lines, &sends)?;
        lines::push_all(&mut self.lines, &mut sends);
        push_outs(&mut self.outs, outs.into_vec());
        Ok(())
    }

    /// Puts what a turn sent and output behind what was there: the messages move, and the outputs are copied. After an error
    /// nothing has changed.
    #[tactic(auto, using(crate::proofs::Sends::sends_length))]
    pub fn take_over(
        &mut self,
        alloc: Global,
        sends: &mut VecDeque<Message>,
        outs: &[Out],
    ) -> Result<(), AllocError>
        requires { AreFor (length self.old.lines) sends.old.items }
        ensures ok { OnOk result (self.new ≡ record self.old { lines = with_sends 0 self.old.lines sends.old.items; outs = self.old.outs ++ outs.now }) }
        ensures moved { OnOk result (sends.new.items ≡ []) }
        ensures err { OnErr result ((self.new ≡ self.old) × (sends.new.items ≡ sends.old.items)) }
        ensures nodes { length self.new.lines ≡ length self.old.lines }
    {
        lines::reserve_for(&mut self.lines, sends)?;
        copy_outs(alloc, &mut self.outs, outs)?;
        lines::push_all(&mut self.lines, sends);
        Ok(())
    }

    /// The i-th oldest message to a node of the run that isn't acknowledged, from 0; `None` exactly where there are no
    /// more than i.
    pub fn due(&self, to: u8, i: usize) -> Option<&Message>
        requires { to < length self.now.lines }
        ensures { option_copied result ≡ slice_get (slice_index_or self.now.lines to no_line).messages i }
    {
        self.lines[usize::from(to)].messages.get(i)
    }

    /// Node `to` of the run has consumed the messages up to number `through`: they are let go, oldest first. A number that
    /// isn't larger than each before changes nothing.
    pub fn acked(&mut self, to: u8, through: u64)
        requires { to < length self.old.lines }
        ensures { self.new ≡ record self.old { lines = slice_set self.old.lines to (acked_by through (slice_index_or self.old.lines to no_line)) } }
    {
        self.lines[usize::from(to)].acknowledge(through);
    }

    /// The oldest output that wasn't emitted, with its number; `None` exactly where there is none.
    pub fn next_out(&self) -> Option<(u64, &Octets)>
        ensures { option_map (λ x. record { number = x.0; text = x.1.now }) result ≡ slice_get self.now.outs 0 }
    {
        let out = self.outs.front()?;
        Some((out.number, &out.text))
    }

    /// The output that comes next, which has this number, was emitted.
    pub fn emitted(&mut self, number: u64)
        requires { next_number self.old.outs ≡ Some number }
        ensures { self.new ≡ record self.old { emitted = number; outs = drop 1 self.old.outs } }
    {
        self.emitted = number;
        self.outs.pop_front();
    }

    /// Takes the output that comes next, which was emitted.
    pub fn pop_out(&mut self) -> Out
        requires { self.old.outs ≢ [] }
        ensures first { slice_get self.old.outs 0 ≡ Some result }
        ensures rest { self.new ≡ record self.old { emitted = result.number; outs = drop 1 self.old.outs } }
    {
        let Some(out) = self.outs.pop_front() else {
            unreachable!()
        };
        self.emitted = out.number;
        out
    }
}

// There is room for all of them.
fn push_outs(queue: &mut VecDeque<Out>, outs: Vec<Out>)
    requires { deque_len queue.old + length outs.items ≤ deque_capacity queue.old }
    ensures { queue.new.items ≡ queue.old.items ++ outs.items }
{
    for out in outs {
        queue.push_back_reserved(out);
    }
}

// Puts copies of outputs behind the others. After an error some are there.
fn push_copies(alloc: Global, queue: &mut VecDeque<Out>, outs: &[Out]) -> Result<(), AllocError>
    ensures front { (some : List Out) × (queue.new.items ≡ queue.old.items ++ some) }
    ensures ok { OnOk result (queue.new.items ≡ queue.old.items ++ outs.now) }
{
    for out in outs {
        queue.push_back(out.try_clone(alloc)?)?;
    }
    Ok(())
}

// Puts copies of outputs behind the others, or after an error none.
fn copy_outs(alloc: Global, queue: &mut VecDeque<Out>, outs: &[Out]) -> Result<(), AllocError>
    ensures ok { OnOk result (queue.new.items ≡ queue.old.items ++ outs.now) }
    ensures err { OnErr result (queue.new.items ≡ queue.old.items) }
{
    let before = queue.len();
    let pushed = push_copies(alloc, queue, outs);
    if pushed.is_err() {
        queue.truncate(before);
    }
    pushed
}
