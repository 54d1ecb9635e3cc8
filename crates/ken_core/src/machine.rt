// A node as a program keeps it.
ghost use Rattle.std.specs.Prelude.{◌≡◌, ◌↔◌, ℕ, ◌<◌, ◌+◌, ◌^◌, length, slice_index, slice_set, max, true, false, IfOk, OnOk, OnErr, IsTrue, option_copied};
ghost use Rattle.ken_core.specs.Sets.{has, has_at};

use crate::ledger::Ledger;
use crate::number_set::{Numbers, add_at};
use crate::pages::Pages;
use ken_model::{Message, Out};
use std::alloc::{AllocError, Global};

/// A node, with what it put into the network.
#[derive(Debug, Drop)]
pub(crate) struct Machine {
    pub up: bool,
    pub ledger: Ledger,
    pub pages: Pages,
    /// The retired numbers: of the messages to each node, and of its outputs.
    pub retired: Vec<u64>,
    pub retired_outs: u64,
    /// The acknowledged number of the messages to each node.
    pub acked: Vec<u64>,
    pub emitted: u64,
    /// The numbers of the messages to each node whose mail it put.
    pub mailed: Vec<Numbers>,
    /// The numbers through which it acknowledged the messages of each node.
    pub answered: Vec<Numbers>,
}

impl Machine {
    ghost use Rattle.ken_core.specs.Packets.{due};
    ghost use Rattle.ken_core.specs.Groups.{shown, node_in};
    ghost use Rattle.ken_core.specs.Marking.{IsSomeKept, PutsMail, HasNoMail, IsSame, Acknowledges, HasConsumedNone, IsAlike, KeepsRest};
    ghost use Rattle.ken_core.specs.Steps.{recovered_node};

    /// The output that is due.
    pub(crate) fn due(&self) -> Option<&Out>
        requires { IsSomeKept self.now }
        ensures { option_copied result ≡ due (node_in self.now) }
    {
        self.ledger.outs.get(self.emitted as usize)
    }

    /// The message to a node whose mail was put and that comes after so many.
    pub(crate) fn put_at(&self, to: u8, count: u64) -> Option<&Message>
        requires { count + 1 < 2 ^ 64 }
        ensures { option_copied result ≡ (shown self.now).mail to (count + 1) }
    {
        let numbers = self.mailed.get(usize::from(to))?;
        if numbers.contains(count + 1) {
            self.ledger.sent_at(to, count)
        } else {
            None
        }
    }

    /// Puts the mail of the i-th message to a node past the acknowledged number: false where there is none. After that,
    /// and after an error, nothing has changed.
    pub(crate) fn put_mail(&mut self, to: u8, i: u64) -> Result<bool, AllocError>
        requires { IsSomeKept self.old }
        ensures made { IfOk result (λ yes. IsTrue yes → PutsMail to i self.old self.new) }
        ensures none { IfOk result (λ yes. yes ≡ false → HasNoMail to i self.old) }
        ensures same { IfOk result (λ yes. yes ≡ false → IsSame self.old self.new) }
        ensures err { OnErr result (IsSame self.old self.new) }
    {
        let Some(acked) = self.acked.get(usize::from(to)) else {
            return Ok(false);
        };
        let Some(place) = acked.checked_add(i) else {
            return Ok(false);
        };
        if self.ledger.sent_at(to, place).is_none() {
            return Ok(false);
        }
        add_at(&mut self.mailed, to, place + 1)?;
        Ok(true)
    }

    /// Takes an acknowledgement of a node through a number.
    pub(crate) fn take_ack(&mut self, from: u8, through: u64)
        requires { from < length self.old.acked.items }
        ensures rest { self.new ≡ record self.old { acked = self.new.acked } }
        ensures acked { self.new.acked.items ≡ slice_set self.old.acked.items from (max (slice_index self.old.acked.items from) through) }
    {
        let acked = &mut self.acked[usize::from(from)];
        *acked = (*acked).max(through);
    }

    /// Acknowledges what it consumed from a node: false where that is nothing. After that, and after an error, nothing has
    /// changed.
    pub(crate) fn acknowledge(&mut self, from: u8) -> Result<bool, AllocError>
        requires { IsSomeKept self.old }
        ensures made { IfOk result (λ yes. IsTrue yes → Acknowledges from self.old self.new) }
        ensures none { IfOk result (λ yes. yes ≡ false → HasConsumedNone from self.old) }
        ensures same { IfOk result (λ yes. yes ≡ false → IsAlike self.old self.new) }
        ensures err { OnErr result (IsAlike self.old self.new) }
    {
        let Some(count) = self.ledger.consumed.get(usize::from(from)) else {
            return Ok(false);
        };
        let through = *count;
        if through == 0 {
            return Ok(false);
        }
        add_at(&mut self.answered, from, through)?;
        Ok(true)
    }

    /// Whether no page of the image is open.
    pub(crate) fn has_none_open(&self) -> bool
        ensures { IsTrue result ↔ ((p : ℕ) → has self.now.pages.opened p ≡ false) }
    {
        self.pages.opened.is_empty()
    }

    /// Recovers. After an error nothing has changed.
    pub(crate) fn recover(&mut self, alloc: Global) -> Result<(), AllocError>
        requires { IsSomeKept self.old }
        ensures ok { OnOk result (node_in self.new ≡ recovered_node (node_in self.old)) }
        ensures err { OnErr result (node_in self.new ≡ node_in self.old) }
        ensures rest { KeepsRest self.old self.new }
    {
        let acked = Vec::from_slice(alloc, self.retired.as_slice())?;
        self.pages.recover(alloc)?;
        self.up = true;
        self.acked = acked;
        self.emitted = self.retired_outs;
        Ok(())
    }
}
