// Room for a turn in a ledger, and the turn itself.
ghost use Rattle.std.specs.Prelude.{◌≡◌, ◌≢◌, ◌+◌, ◌<◌, ◌≤◌, ◌^◌, ◌++◌, ◌==◌, [], ℕ, if◌then◌else◌, length, map, filter, slice_index_or, vec_len, vec_capacity, OnOk};
ghost use Rattle.std.specs.List.{All, AllByRecursion};
ghost use Rattle.ken_core.specs.Ledgers.{counted_from, IsSealed, IsSameLedger, HasRoom};

use crate::ledger::Ledger;
use ken_model::{Message, OUTSIDE, Out};
use ken_record::Effects;
use std::alloc::AllocError;

impl Ledger {
    /// Makes room for a turn with so many messages and outputs. Nothing else changes.
    pub(crate) fn make_room(&mut self, mails: usize, outs: usize) -> Result<(), AllocError>
        ensures same { IsSameLedger self.old self.new }
        ensures room { OnOk result (HasRoom mails outs self.new) }
    {
        self.turns.reserve(1)?;
        self.outs.reserve(outs)?;
        reserve(&mut self.sent, mails)
    }

    /// Seals a turn, for which there is room.
    pub(crate) fn seal(&mut self, effects: Effects, mails: Vec<Message>, outs: Vec<Out>)
        requires room { HasRoom (length mails.items) (length outs.items) self.old }
        requires known { All (λ m. m.to < length self.old.sent.items) mails.items }
        requires waits { counted_from self.old effects.from + 1 < 2 ^ 64 }
        requires sender { effects.from < 255 → effects.from < length self.old.consumed.items }
        ensures { IsSealed effects mails.items outs.items self.old self.new }
    {
        self.count(effects.from);
        post(&mut self.sent, mails);
        append(&mut self.outs, outs);
        self.turns.push_reserved(effects);
    }

    /// Counts a message of `from` as consumed.
    fn count(&mut self, from: u8)
        requires waits { counted_from self.old from + 1 < 2 ^ 64 }
        requires sender { from < 255 → from < length self.old.consumed.items }
        ensures counted { (u : ℕ) → counted_from self.new u ≡ (if u == from then counted_from self.old u + 1 else counted_from self.old u) }
        ensures width { length self.new.consumed.items ≡ length self.old.consumed.items }
        ensures rest { self.new ≡ record self.old { consumed = self.new.consumed; inputs_consumed = self.new.inputs_consumed } }
    {
        if from == OUTSIDE {
            self.inputs_consumed += 1;
        } else {
            self.consumed[usize::from(from)] += 1;
        }
    }
}

/// Makes room in each list for `count` messages more. No list changes.
fn reserve(sent: &mut [Vec<Message>], count: usize) -> Result<(), AllocError>
    ensures same { map (λ v. v.items) sent.new ≡ map (λ v. v.items) sent.old }
    ensures room { OnOk result (All (λ v. vec_len v + count ≤ vec_capacity v) sent.new) }
{
    for list in sent.iter_mut() {
        list.reserve(count)?;
    }
    Ok(())
}

/// Puts messages at the ends of their receivers' lists, which have room for them.
fn post(sent: &mut [Vec<Message>], mails: Vec<Message>)
    requires known { All (λ m. m.to < length sent.old) mails.items }
    requires room { All (λ v. vec_len v + length mails.items ≤ vec_capacity v) sent.old }
    ensures { (w : ℕ) → slice_index_or (map (λ v. v.items) sent.new) w [] ≡ slice_index_or (map (λ v. v.items) sent.old) w [] ++ filter (λ m. m.to == w) mails.items }
{
    for mail in mails {
        let list = &mut sent[usize::from(mail.to)];
        list.push_reserved(mail);
    }
}

/// Puts outputs behind others, where there is room for them.
fn append(outs: &mut Vec<Out>, more: Vec<Out>)
    requires { vec_len outs.old + length more.items ≤ vec_capacity outs.old }
    ensures { outs.new.items ≡ outs.old.items ++ more.items }
{
    for out in more {
        outs.push_reserved(out);
    }
}
