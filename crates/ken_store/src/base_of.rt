// The base of the log after this one.
ghost use Rattle.std.specs.Prelude.{◌≡◌, ℕ, ◌+◌, ◌*◌, ◌<◌, ◌≤◌, ◌++◌, ◌==◌, ◌&&◌, nat_lt, None, Option, length, map, filter, option_map, slice_index, slice_index_or, IfOk, OnOk};
ghost use Rattle.std.specs.List.{AllByRecursion, flat_map, range_with_len, zip};
ghost use Rattle.std.specs.Option.{option_or};
ghost use Rattle.ken_cover.specs.declared.layers.Change.{Change};
ghost use Rattle.ken_cover.specs.Overlay.{newest_by};
ghost use Rattle.ken_cover.specs.Sides.{last_change, stays, base_change, base_changes, changes_at};
ghost use Rattle.ken_pages.specs.Paged.{page_of};
ghost use Rattle.ken_record.specs.declared.page.Page.{Page};
ghost use Rattle.ken_record.specs.declared.record.Record.{Record};
ghost use Rattle.ken_store.specs.Kept.{base_messages, base_outs, base_pages, outs_in};
ghost use Rattle.ken_store.specs.Turning.{Turning, turn_pages, changed_in};
ghost use Rattle.ken_store.specs.Turnovers.{due_of, record_dues, dues_in, is_due, unacked_to, all_due, outs_above, page_in, turn_in, changes_kept, base_of};

use crate::kept::{Kept, KeptPage};
use crate::turning::TurnSide;
use crate::waiting;
use ken_alloc::Objects;
use ken_disk::Disk;
use ken_model::{Items, MAX_NODES, Out, TryClone};
use ken_record::{Base, Due, Page, PageBytes};
use std::alloc::{AllocError, Global};

impl<D: Disk> TurnSide<D> {
    // The base of the log after this one, and the turns that last changed its pages.
    pub(crate) fn base(
        &self,
        settled: u64,
        acked: &[u64],
        emitted: u64,
    ) -> Result<(Base, Vec<u64>), AllocError>
        requires turning { Turning D.told D.size self.now }
        requires idle { self.now.objects.begun ≡ None }
        ensures base { IfOk result (λ x. x.0 ≡ base_of self.now settled acked.now emitted) }
        ensures turns { IfOk result (λ x. x.1.items ≡ map turn_in (changes_kept self.now settled)) }
    {
        let kept = self.kept(settled)?;
        let base = Base {
            stamp: self.numbers.stamp,
            consumed: Items::new(Vec::from_slice(self.alloc, &self.numbers.consumed)?),
            sent: Items::new(Vec::from_slice(self.alloc, &self.numbers.sent)?),
            outputs: self.numbers.outputs,
            messages: all_due(
                self.alloc,
                acked,
                waiting::base_messages(&self.log),
                &self.records,
            )?,
            outs: outs_above(
                self.alloc,
                emitted,
                waiting::base_outs(&self.log),
                &self.records,
            )?,
            pages: Items::new(kept.pages),
        };
        Ok((base, kept.turns))
    }

    // The pages that go into the base, rising.
    fn kept(&self, settled: u64) -> Result<KeptPages, AllocError>
        requires turning { Turning D.told D.size self.now }
        requires idle { self.now.objects.begun ≡ None }
        ensures pages { IfOk result (λ kept. kept.pages.items ≡ map page_in (changes_kept self.now settled)) }
        ensures turns { IfOk result (λ kept. kept.turns.items ≡ map turn_in (changes_kept self.now settled)) }
    {
        let base = waiting::base_pages(&self.log);
        let last = last_turns(
            self.alloc,
            &self.base_turns,
            base,
            &self.records,
            self.owner.pages,
        )?;
        kept_pages(self.alloc, &self.objects, settled, &last)
    }
}

// All messages that aren't acknowledged, by the node that they go to.
fn all_due(
    alloc: Global,
    acked: &[u64],
    base: &[Due],
    records: &[Kept],
) -> Result<Items<Due>, AllocError>
    ensures { IfOk result (λ messages. messages ≡ all_due acked.now (base.now ++ flat_map record_dues records.now)) }
{
    let mut messages = Vec::with_capacity(alloc, base.len().saturating_add(records.len()))?;
    for to in 0..MAX_NODES {
        put_due_to(alloc, &mut messages, acked, base, records, to)?;
    }
    Ok(Items::new(messages))
}

// Appends those to one node, oldest first.
fn put_due_to(
    alloc: Global,
    messages: &mut Vec<Due>,
    acked: &[u64],
    base: &[Due],
    records: &[Kept],
    to: u8,
) -> Result<(), AllocError>
    ensures { OnOk result (messages.new.items ≡ messages.old.items ++ unacked_to acked.now (base.now ++ flat_map record_dues records.now) to) }
{
    put_due(alloc, messages, acked, base, to)?;
    for item in records {
        put_sent(alloc, messages, acked, item, to)?;
    }
    Ok(())
}

fn put_due(
    alloc: Global,
    messages: &mut Vec<Due>,
    acked: &[u64],
    due: &[Due],
    to: u8,
) -> Result<(), AllocError>
    ensures { OnOk result (messages.new.items ≡ messages.old.items ++ filter (is_due acked.now to) due.now) }
{
    for message in due {
        if is_due(acked, to, message.to, message.number) {
            messages.push(message.try_clone(alloc)?)?;
        }
    }
    Ok(())
}

fn put_sent(
    alloc: Global,
    messages: &mut Vec<Due>,
    acked: &[u64],
    item: &Kept,
    to: u8,
) -> Result<(), AllocError>
    ensures { OnOk result (messages.new.items ≡ messages.old.items ++ filter (is_due acked.now to) (record_dues item.now)) }
{
    for sent in item.sends() {
        if is_due(acked, to, sent.to, sent.number) {
            messages.push(Due {
                to: sent.to,
                number: sent.number,
                stamp: item.stamp(),
                bytes: sent.bytes.try_clone(alloc)?,
            })?;
        }
    }
    Ok(())
}

// Whether a message goes to a node that hasn't acknowledged its number.
pub(crate) fn is_due(acked: &[u64], node: u8, to: u8, number: u64) -> bool
    ensures { result ≡ ((to == node) && nat_lt (slice_index acked.now node) number) }
{
    to == node && acked.get(node as usize).copied().unwrap_or(0) < number
}

// All outputs that aren't emitted.
fn outs_above(
    alloc: Global,
    emitted: u64,
    base: &[Out],
    records: &[Kept],
) -> Result<Items<Out>, AllocError>
    ensures { IfOk result (λ outs. outs ≡ outs_above emitted (base.now ++ flat_map (λ (r : Record). r.outs) records.now)) }
{
    let mut outs = Vec::with_capacity(alloc, base.len().saturating_add(records.len()))?;
    put_outs(alloc, &mut outs, emitted, base)?;
    for item in records {
        put_outs(alloc, &mut outs, emitted, item.outs())?;
    }
    Ok(Items::new(outs))
}

fn put_outs(
    alloc: Global,
    outs: &mut Vec<Out>,
    emitted: u64,
    items: &[Out],
) -> Result<(), AllocError>
    ensures { OnOk result (outs.new.items ≡ outs.old.items ++ outs_above emitted items.now) }
{
    for out in items {
        if out.number > emitted {
            outs.push(out.try_clone(alloc)?)?;
        }
    }
    Ok(())
}

// Of each page of a heap of so many the turn that last changed it in a base or in records.
fn last_turns(
    alloc: Global,
    turns: &[u64],
    base: &[Page],
    records: &[Kept],
    pages: u32,
) -> Result<Vec<Option<u64>>, AllocError>
    requires turns { length turns.now ≡ length base.now }
    requires base { AllByRecursion (λ (e : Page). e.page < pages) base.now }
    requires records { AllByRecursion (λ (r : Record). AllByRecursion (λ (e : Page). e.page < pages) r.pages) records.now }
    ensures width { IfOk result (λ last. length last.items ≡ pages) }
    ensures turns { IfOk result (λ last. (p : ℕ) → slice_index_or last.items p None
        ≡ option_map turn_in (newest_by page_in p
        (map changed_in (zip turns.now base.now) ++ flat_map (λ (r : Record). changes_at r.turn r.pages) records.now))) }
{
    let mut last = Vec::from_elem(alloc, None, pages as usize)?;
    note_all(&mut last, turns, base, records);
    Ok(last)
}

// Notes the turns of a base's pages, and then those of records.
pub(crate) fn note_all(last: &mut [Option<u64>], turns: &[u64], base: &[Page], records: &[Kept])
    requires turns { length turns.now ≡ length base.now }
    requires base { AllByRecursion (λ (e : Page). e.page < length last.old) base.now }
    requires records { AllByRecursion (λ (r : Record). AllByRecursion (λ (e : Page). e.page < length last.old) r.pages) records.now }
    ensures { (p : ℕ) → slice_index_or last.new p None
        ≡ option_or (option_map turn_in (newest_by page_in p
        (map changed_in (zip turns.now base.now) ++ flat_map (λ (r : Record). changes_at r.turn r.pages) records.now)))
        (slice_index_or last.old p None) }
{
    note_base(last, turns, base);
    for item in records {
        note_pages(last, item.turn(), item.pages());
    }
}

// Notes the turns of a base's pages.
fn note_base(last: &mut [Option<u64>], turns: &[u64], pages: &[Page])
    requires turns { length turns.now ≡ length pages.now }
    requires within { AllByRecursion (λ (e : Page). e.page < length last.old) pages.now }
    ensures { (p : ℕ) → slice_index_or last.new p None ≡ option_or (option_map turn_in (newest_by page_in p (map changed_in (zip turns.now pages.now)))) (slice_index_or last.old p None) }
{
    for index in 0..pages.len() {
        last[pages[index].page as usize] = Some(turns[index]);
    }
}

// Notes the turn of a record's pages.
fn note_pages(last: &mut [Option<u64>], turn: u64, pages: &[KeptPage])
    requires { AllByRecursion (λ (e : Page). e.page < length last.old) pages.now }
    ensures { (p : ℕ) → slice_index_or last.new p None ≡ option_or (option_map turn_in (newest_by page_in p (changes_at turn pages.now))) (slice_index_or last.old p None) }
{
    for page in pages {
        last[page.number() as usize] = Some(turn);
    }
}

// Whether a page that last changed in a turn goes into a base.
pub(crate) fn stays(settled: u64, turn: u64) -> bool
    ensures { result ≡ stays settled turn }
{
    settled == 0 || settled < turn
}

// A page of the heap as it is now. It shares the heap's frame.
fn page_of(objects: &Objects, page: u32) -> Result<Page, AllocError>
    requires { 256 * page + 256 ≤ length objects.now.bytes }
    ensures { IfOk result (λ e. e ≡ record { page = page; bytes = page_of objects.now.bytes page }) }
{
    Ok(Page {
        page,
        bytes: PageBytes::shared(objects.lend_page(page)?),
    })
}

// Pages with the turns that last changed them.
#[derive(Debug, Drop)]
pub(crate) struct KeptPages {
    pub pages: Vec<Page>,
    pub turns: Vec<u64>,
}

// The pages that go into a base, rising.
fn kept_pages(
    alloc: Global,
    objects: &Objects,
    settled: u64,
    last: &[Option<u64>],
) -> Result<KeptPages, AllocError>
    requires size { length objects.now.bytes ≡ 256 * length last.now }
    requires few { length last.now ≤ 4096 }
    ensures pages { IfOk result (λ kept. (f : ℕ → Option Change)
        → ((p : ℕ) → slice_index_or last.now p None ≡ option_map turn_in (f p)) → kept.pages.items
        ≡ map page_in (flat_map (λ p. base_change settled objects.now.bytes p (f p)) (range_with_len 0 (length last.now)))) }
    ensures turns { IfOk result (λ kept. (f : ℕ → Option Change)
        → ((p : ℕ) → slice_index_or last.now p None ≡ option_map turn_in (f p)) → kept.turns.items
        ≡ map turn_in (flat_map (λ p. base_change settled objects.now.bytes p (f p)) (range_with_len 0 (length last.now)))) }
{
    let mut kept = KeptPages {
        pages: Vec::new(alloc),
        turns: Vec::new(alloc),
    };
    for page in 0..last.len() {
        kept.put(objects, settled, page as u32, last[page])?;
    }
    Ok(kept)
}

impl KeptPages {
    // Puts a page of the heap with the turn that last changed it, or leaves it out.
    fn put(
        &mut self,
        objects: &Objects,
        settled: u64,
        page: u32,
        turn: Option<u64>,
    ) -> Result<(), AllocError>
        requires { 256 * page + 256 ≤ length objects.now.bytes }
        ensures pages { OnOk result ((last : Option Change) → turn ≡ option_map turn_in last → self.new.pages.items
            ≡ self.old.pages.items ++ map page_in (base_change settled objects.now.bytes page last)) }
        ensures turns { OnOk result ((last : Option Change) → turn ≡ option_map turn_in last → self.new.turns.items
            ≡ self.old.turns.items ++ map turn_in (base_change settled objects.now.bytes page last)) }
    {
        let Some(turn) = turn else {
            return Ok(());
        };
        if !stays(settled, turn) {
            return Ok(());
        }
        self.pages.push(page_of(objects, page)?)?;
        self.turns.push(turn)?;
        Ok(())
    }
}
