// Whether the base of the log after this one is short.
ghost use Rattle.std.specs.Prelude.{◌≡◌, ℕ, ◌+◌, ◌≤◌, ◌<◌, ◌^◌, ◌++◌, ◌↔◌, List, length, IsTrue};
ghost use Rattle.std.specs.List.{AllByRecursion, flat_map};
ghost use Rattle.ken_record.specs.Grammar.{IsDue, IsOut, IsRecord};
ghost use Rattle.ken_record.specs.declared.record.Record.{Record};
ghost use Rattle.ken_record.specs.Spelling.{due, out, base_bytes};
ghost use Rattle.ken_record.specs.Versions.{One};
ghost use Rattle.ken_store.specs.Turning.{Turning};
ghost use Rattle.ken_store.specs.Turnovers.{record_dues, all_due, outs_above, base_of};

use crate::base_size::{DUE, FIELDS, OUT, PAGE};
use crate::kept::Kept;
use crate::turning::TurnSide;
use crate::waiting;
use ken_disk::Disk;
use ken_model::{MAX_NODES, MAX_TEXT, Out};
use ken_record::{Due, MAX_OUTS, MAX_SENDS};

// A header has four bytes for the length of a base.
const SHORT: u64 = 1 << 32;

impl<D: Disk> TurnSide<D> {
    /// Whether the base that a turnover would write with these has less than 2^32 bytes, as a header wants it. It takes no memory.
    /// Where the log is short it doesn't look at its records.
    pub fn has_short_base(&self, settled: u64, acked: &[u64], emitted: u64) -> bool
        requires turning { Turning D.told D.size self.now }
        requires end { self.now.log.end ≤ 2 ^ 40 }
        ensures { IsTrue result ↔ (length (base_bytes One (base_of self.now settled acked.now emitted)) < 2 ^ 32) }
    {
        self.longest_base() < SHORT || self.base_size(settled, acked, emitted) < SHORT
    }

    // No base that a turnover would write is longer, whatever it was told.
    fn longest_base(&self) -> u64
        requires turning { Turning D.told D.size self.now }
        requires end { self.now.log.end ≤ 2 ^ 40 }
        ensures { (settled : ℕ) (acked : List ℕ) (emitted : ℕ) → length (base_bytes One (base_of self.now settled acked emitted)) ≤ result }
    {
        let messages = longest_dues(waiting::base_messages(&self.log), &self.records);
        let outs = longest_outs(waiting::base_outs(&self.log), &self.records);
        FIELDS + messages + outs + PAGE * u64::from(self.owner.pages)
    }
}

// What all messages take at most, each counted for each node.
fn longest_dues(base: &[Due], records: &[Kept]) -> u64
    requires few { length base.now < 2 ^ 32 }
    requires base { AllByRecursion IsDue base.now }
    requires many { length records.now ≤ 2 ^ 40 }
    requires records { AllByRecursion (IsRecord One) records.now }
    ensures longest { (acked : List ℕ) → length (flat_map due (all_due acked (base.now ++ flat_map record_dues records.now))) ≤ result }
    ensures most { result ≤ 2 ^ 60 }
{
    let count = base.len() as u64 + MAX_SENDS as u64 * records.len() as u64;
    MAX_NODES as u64 * (DUE + MAX_TEXT as u64) * count
}

// What all outputs take at most.
fn longest_outs(base: &[Out], records: &[Kept]) -> u64
    requires few { length base.now < 2 ^ 32 }
    requires base { AllByRecursion IsOut base.now }
    requires many { length records.now ≤ 2 ^ 40 }
    requires records { AllByRecursion (IsRecord One) records.now }
    ensures longest { (emitted : ℕ) → length (flat_map out (outs_above emitted (base.now ++ flat_map (λ (r : Record). r.outs) records.now))) ≤ result }
    ensures most { result ≤ 2 ^ 56 }
{
    let count = base.len() as u64 + MAX_OUTS as u64 * records.len() as u64;
    (OUT + MAX_TEXT as u64) * count
}
