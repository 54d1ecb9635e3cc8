// How long the base of the log after this one is.
ghost use Rattle.std.specs.Prelude.{◌≡◌, ℕ, ◌+◌, ◌*◌, ◌≤◌, ◌<◌, ◌^◌, ◌++◌, ◌==◌, ◌&&◌, nat_lt, None, Option, List, length, filter, option_map, slice_index, slice_index_or, if◌then◌else◌};
ghost use Rattle.std.specs.List.{AllByRecursion, flat_map, range_with_len};
ghost use Rattle.ken_cover.specs.declared.layers.Change.{Change};
ghost use Rattle.ken_cover.specs.Sides.{base_change};
ghost use Rattle.ken_record.specs.Grammar.{IsDue, IsOut, IsRecord};
ghost use Rattle.ken_record.specs.declared.record.Record.{Record};
ghost use Rattle.ken_record.specs.Spelling.{due, out, base_bytes};
ghost use Rattle.ken_record.specs.Versions.{One};
ghost use Rattle.ken_store.specs.Turning.{Turning};
ghost use Rattle.ken_store.specs.Turnovers.{record_dues, is_due, unacked_to, all_due, outs_above, turn_in, changes_kept, base_of};

use crate::base_of::{is_due, note_all, stays};
use crate::kept::Kept;
use crate::turning::TurnSide;
use crate::waiting;
use ken_disk::Disk;
use ken_model::{MAX_NODES, MAX_PAGES, Out};
use ken_record::Due;

// The bytes of a base without its items.
pub(crate) const FIELDS: u64 = 162;

// The bytes of a message without its text, of an output without its text, and of a page.
pub(crate) const DUE: u64 = 19;

pub(crate) const OUT: u64 = 10;

pub(crate) const PAGE: u64 = 260;

impl<D: Disk> TurnSide<D> {
    /// The length in bytes of the base that a turnover would write with these. It takes no memory.
    pub fn base_size(&self, settled: u64, acked: &[u64], emitted: u64) -> u64
        requires turning { Turning D.told D.size self.now }
        requires end { self.now.log.end ≤ 2 ^ 40 }
        ensures { result ≡ length (base_bytes One (base_of self.now settled acked.now emitted)) }
    {
        let messages = due_size(acked, waiting::base_messages(&self.log), &self.records);
        let outs = outs_size(emitted, waiting::base_outs(&self.log), &self.records);
        FIELDS + messages + outs + PAGE * self.kept_count(settled) as u64
    }

    // How many pages go into the base.
    fn kept_count(&self, settled: u64) -> usize
        requires { Turning D.told D.size self.now }
        ensures count { result ≡ length (changes_kept self.now settled) }
        ensures most { result ≤ 4096 }
    {
        let mut last = [None; MAX_PAGES as usize];
        self.count_in(settled, &mut last)
    }

    // The same, where the list has nothing for each page that there may be.
    fn count_in(&self, settled: u64, last: &mut [Option<u64>]) -> usize
        requires turning { Turning D.told D.size self.now }
        requires wide { self.now.owner.pages ≤ length last.old }
        requires none { (p : ℕ) → slice_index_or last.old p None ≡ None }
        ensures count { result ≡ length (changes_kept self.now settled) }
        ensures most { result ≤ self.now.owner.pages }
    {
        let base = waiting::base_pages(&self.log);
        note_all(last, &self.base_turns, base, &self.records);
        count_kept(settled, last, self.owner.pages)
    }
}

// How many of so many pages go into a base, by the turns that last changed them.
fn count_kept(settled: u64, last: &[Option<u64>], pages: u32) -> usize
    requires { pages ≤ length last.now }
    ensures count { (heap : List ℕ) (f : ℕ → Option Change)
        → ((p : ℕ) → slice_index_or last.now p None ≡ option_map turn_in (f p))
        → result ≡ length (flat_map (λ p. base_change settled heap p (f p)) (range_with_len 0 pages)) }
    ensures most { result ≤ pages }
{
    let mut count = 0;
    for page in 0..pages {
        count += kept_one(settled, last[page as usize]);
    }
    count
}

// One, where a page goes into a base by the turn that last changed it.
fn kept_one(settled: u64, turn: Option<u64>) -> usize
    ensures count { (heap : List ℕ) (p : ℕ) (last : Option Change) → turn ≡ option_map turn_in last → result ≡ length (base_change settled heap p last) }
    ensures most { result ≤ 1 }
{
    match turn {
        Some(turn) if stays(settled, turn) => 1,
        _ => 0,
    }
}

// The bytes of all messages that aren't acknowledged.
fn due_size(acked: &[u64], base: &[Due], records: &[Kept]) -> u64
    requires few { length base.now < 2 ^ 32 }
    requires base { AllByRecursion IsDue base.now }
    requires many { length records.now ≤ 2 ^ 40 }
    requires records { AllByRecursion (IsRecord One) records.now }
    ensures size { result ≡ length (flat_map due (all_due acked.now (base.now ++ flat_map record_dues records.now))) }
    ensures most { result ≤ 2 ^ 60 }
{
    let mut size = 0;
    for to in 0..MAX_NODES {
        size += due_size_to(acked, base, records, to);
    }
    size
}

// Of those to one node.
fn due_size_to(acked: &[u64], base: &[Due], records: &[Kept], to: u8) -> u64
    requires few { length base.now < 2 ^ 32 }
    requires base { AllByRecursion IsDue base.now }
    requires many { length records.now ≤ 2 ^ 40 }
    requires records { AllByRecursion (IsRecord One) records.now }
    ensures size { result ≡ length (flat_map due (unacked_to acked.now (base.now ++ flat_map record_dues records.now) to)) }
    ensures most { result ≤ 2 ^ 56 }
{
    let mut size = due_sum(acked, base, to);
    for item in records {
        size += sent_sum(acked, item, to);
    }
    size
}

fn due_sum(acked: &[u64], messages: &[Due], to: u8) -> u64
    requires few { length messages.now < 2 ^ 32 }
    requires fit { AllByRecursion IsDue messages.now }
    ensures size { result ≡ length (flat_map due (filter (is_due acked.now to) messages.now)) }
    ensures most { result ≤ 531 * length messages.now }
{
    let mut size = 0;
    for message in messages {
        size += due_len(acked, to, message.to, message.number, message.bytes.len());
    }
    size
}

fn sent_sum(acked: &[u64], item: &Kept, to: u8) -> u64
    requires { IsRecord One item.now }
    ensures size { result ≡ length (flat_map due (filter (is_due acked.now to) (record_dues item.now))) }
    ensures most { result ≤ 8496 }
{
    let mut size = 0;
    for sent in item.sends() {
        size += due_len(acked, to, sent.to, sent.number, sent.bytes.len());
    }
    size
}

// The bytes of a message, and none where it goes to another node or is acknowledged.
fn due_len(acked: &[u64], node: u8, to: u8, number: u64, text: usize) -> u64
    requires { text ≤ 512 }
    ensures size { result ≡ (if (to == node) && nat_lt (slice_index acked.now node) number then 19 + text else 0) }
    ensures most { result ≤ 531 }
{
    if is_due(acked, node, to, number) {
        DUE + text as u64
    } else {
        0
    }
}

// The bytes of all outputs that aren't emitted.
fn outs_size(emitted: u64, base: &[Out], records: &[Kept]) -> u64
    requires few { length base.now < 2 ^ 32 }
    requires base { AllByRecursion IsOut base.now }
    requires many { length records.now ≤ 2 ^ 40 }
    requires records { AllByRecursion (IsRecord One) records.now }
    ensures size { result ≡ length (flat_map out (outs_above emitted (base.now ++ flat_map (λ (r : Record). r.outs) records.now))) }
    ensures most { result ≤ 2 ^ 56 }
{
    let mut size = outs_sum(emitted, base);
    for item in records {
        size += outs_sum(emitted, item.outs());
    }
    size
}

fn outs_sum(emitted: u64, outs: &[Out]) -> u64
    requires few { length outs.now < 2 ^ 32 }
    requires fit { AllByRecursion IsOut outs.now }
    ensures size { result ≡ length (flat_map out (outs_above emitted outs.now)) }
    ensures most { result ≤ 522 * length outs.now }
{
    let mut size = 0;
    for out in outs {
        size += out_len(emitted, out.number, out.text.len());
    }
    size
}

// The bytes of an output, and none where it is emitted.
fn out_len(emitted: u64, number: u64, text: usize) -> u64
    requires { text ≤ 512 }
    ensures size { result ≡ (if nat_lt emitted number then 10 + text else 0) }
    ensures most { result ≤ 522 }
{
    if emitted < number {
        OUT + text as u64
    } else {
        0
    }
}
