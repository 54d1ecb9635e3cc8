// Whether a turn may be sealed: a test before the seal of what it asks.
ghost use Rattle.std.specs.Prelude.{◌≡◌, ◌+◌, ◌≤◌, ◌<◌, ◌^◌, ◌↔◌, [], IsTrue};
ghost use Rattle.ken_record.specs.Grammar.{AtMost, HasLists, IsOut, IsRecord, IsSent, IsWord, are_numbered};
ghost use Rattle.std.specs.List.{AllByRecursion};
ghost use Rattle.ken_record.specs.Versions.{One};
ghost use Rattle.ken_store.specs.Turning.{MaySeal, record_of};

use crate::store::Store;
use crate::turning::TurnSide;
use ken_disk::{Disk, MAX_LEN};
use ken_model::{MAX_NODES, MAX_TEXT, OUTSIDE, Out};
use ken_record::{Effects, MAX_DRAWS, MAX_FIELDS, MAX_OUTS, MAX_SENDS, Sent};

/// The most bytes that a seal writes: the longest record with its length, and two gates.
pub const SEAL_ROOM: u64 = MAX_FIELDS as u64 + 6;

impl<D: Disk> TurnSide<D> {
    /// Whether a turn with these effects may be sealed: they have a spelling, their numbers go on with the side's, and the log has
    /// room for the longest record.
    pub fn may_seal(&self, effects: &Effects) -> bool
        ensures { IsTrue result ↔ MaySeal self.now effects.now }
    {
        fit(self.numbers.turns, effects)
            && self.numbers.follow(&self.owner, effects)
            && self.log.end() <= MAX_LEN - SEAL_ROOM
    }
}

impl<D: Disk> Store<D> {
    /// Whether a turn with these effects may be sealed: they have a spelling, their numbers go on with the store's, and the log has
    /// room for the longest record.
    pub fn may_seal(&self, effects: &Effects) -> bool
        ensures { IsTrue result ↔ MaySeal self.now.turns effects.now }
    {
        self.turns.may_seal(effects)
    }
}

// Whether the turn after so many has a spelling with these effects, and no pages.
fn fit(turns: u64, effects: &Effects) -> bool
    ensures { IsTrue result ↔ IsRecord One (record_of (turns + 1) effects.now []) }
{
    let sender = effects.from < MAX_NODES || effects.from == OUTSIDE;
    turns < u64::MAX
        && effects.stamp > 0
        && sender
        && effects.number > 0
        && lists_fit(effects)
        && are_numbered(effects.outs.as_slice())
}

fn lists_fit(effects: &Effects) -> bool
    ensures { IsTrue result ↔ HasLists One (record_of 1 effects.now []) }
{
    let sends = effects.sends.as_slice();
    let outs = effects.outs.as_slice();
    few_draws(effects.draws.as_slice())
        && sends.len() <= MAX_SENDS
        && sends_fit(sends)
        && outs.len() <= MAX_OUTS
        && outs_fit(outs)
}

// Whether they are few enough: each fits.
fn few_draws(draws: &[u64]) -> bool
    ensures { IsTrue result ↔ AtMost 16 IsWord draws.now }
{
    draws.len() <= MAX_DRAWS
}

fn sends_fit(sends: &[Sent]) -> bool
    ensures { IsTrue result ↔ AllByRecursion IsSent sends.now }
{
    for send in sends {
        if send.to >= MAX_NODES || send.number == 0 || send.bytes.len() > MAX_TEXT {
            return false;
        }
    }
    true
}

fn outs_fit(outs: &[Out]) -> bool
    ensures { IsTrue result ↔ AllByRecursion IsOut outs.now }
{
    for out in outs {
        let _number = out.number;
        if out.text.len() > MAX_TEXT {
            return false;
        }
    }
    true
}

// Whether each output is numbered from 1.
fn are_numbered(outs: &[Out]) -> bool
    ensures { result ≡ are_numbered outs.now }
{
    for out in outs {
        if out.number == 0 {
            return false;
        }
    }
    true
}
