// What a side keeps of a record that is in its log: what a later base needs. For clauses it is the record.
ghost use Rattle.std.specs.Prelude.{◌≡◌, IfOk};
ghost use Rattle.ken_store.specs.Ahead.{frame_page, frame_pages};
ghost use Rattle.ken_store.specs.Keeping.{pages_in};
ghost use Rattle.ken_store.specs.Turning.{record_of};

use ken_frame::Frame;
use ken_model::{Out, Shared, TryClone};
use ken_record::{Effects, Page, PageBytes, Record, Sent};
use std::alloc::{AllocError, Global};
use std::fmt;
use std::marker::Model;
use std::snapshot::Snapshot;
use std::sync::Arc;

// Where the bytes of a page stood, for clauses alone.
#[derive(Drop)]
pub(crate) enum Bytes {
    Frozen(Snapshot<Frame>),
    Read(Snapshot<PageBytes>),
}

/// A page that a record changed: its number, and for clauses its bytes.
#[derive(Drop)]
pub(crate) struct KeptPage {
    page: u32,
    bytes: Bytes,
}

impl Model for KeptPage {
    ghost use Rattle.ken_record.specs.declared.page.Page.{Page};

    ghost Value = { Page };

    ghost use Rattle.ken_store.specs.KeptBytes.{bytes_in};

    ghost view = { λ p. record { page = p.page; bytes = bytes_in p.bytes } };
}

impl KeptPage {
    pub(crate) fn number(&self) -> u32
        ensures { result ≡ self.now.page }
    {
        self.page
    }

    fn frozen(page: &(u32, Arc<Frame>)) -> Self
        ensures { result ≡ frame_page page.now }
    {
        let frame: &Frame = &page.1;
        KeptPage {
            page: page.0,
            bytes: Bytes::Frozen(Snapshot::of(frame)),
        }
    }

    fn read(page: &Page) -> Self
        ensures { result ≡ page.now }
    {
        KeptPage {
            page: page.page,
            bytes: Bytes::Read(Snapshot::of(&page.bytes)),
        }
    }
}

// The pages that a record changed. Up to four take no memory.
#[derive(Drop)]
pub(crate) enum PageList {
    None,
    One([KeptPage; 1]),
    Two([KeptPage; 2]),
    Three([KeptPage; 3]),
    Four([KeptPage; 4]),
    Many(Vec<KeptPage>),
}

impl PageList {
    // Those in frames.
    fn frozen(alloc: Global, frames: &[(u32, Arc<Frame>)]) -> Result<Self, AllocError>
        ensures { IfOk result (λ pages. pages_in pages ≡ frame_pages frames.now) }
    {
        match frames {
            [] => Ok(PageList::None),
            [a] => Ok(PageList::One([KeptPage::frozen(a)])),
            [a, b] => Ok(PageList::Two([KeptPage::frozen(a), KeptPage::frozen(b)])),
            [a, b, c] => Ok(PageList::Three([
                KeptPage::frozen(a),
                KeptPage::frozen(b),
                KeptPage::frozen(c),
            ])),
            [a, b, c, d] => Ok(PageList::Four([
                KeptPage::frozen(a),
                KeptPage::frozen(b),
                KeptPage::frozen(c),
                KeptPage::frozen(d),
            ])),
            _ => frozen_pages(alloc, frames),
        }
    }

    // Those of a record that was read.
    fn read(alloc: Global, pages: &[Page]) -> Result<Self, AllocError>
        ensures { IfOk result (λ kept. pages_in kept ≡ pages.now) }
    {
        let mut kept = Vec::with_capacity(alloc, pages.len())?;
        for page in pages {
            kept.push(KeptPage::read(page))?;
        }
        Ok(PageList::Many(kept))
    }

    fn as_slice(&self) -> &[KeptPage]
        ensures { result.now ≡ pages_in self.now }
    {
        match self {
            PageList::None => &[],
            PageList::One(pages) => pages,
            PageList::Two(pages) => pages,
            PageList::Three(pages) => pages,
            PageList::Four(pages) => pages,
            PageList::Many(pages) => pages.as_slice(),
        }
    }
}

fn frozen_pages(alloc: Global, frames: &[(u32, Arc<Frame>)]) -> Result<PageList, AllocError>
    ensures { IfOk result (λ pages. pages_in pages ≡ frame_pages frames.now) }
{
    let mut pages = Vec::with_capacity(alloc, frames.len())?;
    for page in frames {
        pages.push(KeptPage::frozen(page))?;
    }
    Ok(PageList::Many(pages))
}

// Where the rest of a record stood, for clauses alone.
#[derive(Drop)]
pub(crate) enum Told {
    Sealed(Snapshot<Effects>),
    Read(Snapshot<Record>),
}

/// What is kept of a record.
#[derive(Drop)]
pub(crate) struct Kept {
    turn: u64,
    stamp: u64,
    sends: Shared<Sent>,
    outs: Shared<Out>,
    pages: PageList,
    told: Told,
}

impl Model for Kept {
    ghost use Rattle.ken_record.specs.declared.record.Record.{Record};

    ghost Value = { Record };

    ghost use Rattle.ken_store.specs.Keeping.{draws_in, from_in, number_in, pages_in};

    ghost view = { λ k. record {
      turn = k.turn;
      stamp = k.stamp;
      from = from_in k.told;
      number = number_in k.told;
      draws = draws_in k.told;
      sends = k.sends;
      outs = k.outs;
      pages = pages_in k.pages;
    } };
}

impl Kept {
    /// Of the record of a turn that changed these pages.
    pub(crate) fn sealed(
        alloc: Global,
        turn: u64,
        effects: &Effects,
        frames: &[(u32, Arc<Frame>)],
    ) -> Result<Self, AllocError>
        ensures { IfOk result (λ kept. kept ≡ record_of turn effects.now (frame_pages frames.now)) }
    {
        Ok(Kept {
            turn,
            stamp: effects.stamp,
            sends: effects.sends.try_clone(alloc)?,
            outs: effects.outs.try_clone(alloc)?,
            pages: PageList::frozen(alloc, frames)?,
            told: Told::Sealed(Snapshot::of(effects)),
        })
    }

    /// Of a record that was read.
    pub(crate) fn read(alloc: Global, item: &Record) -> Result<Self, AllocError>
        ensures { IfOk result (λ kept. kept ≡ item.now) }
    {
        Ok(Kept {
            turn: item.turn,
            stamp: item.stamp,
            sends: item.sends.try_clone(alloc)?,
            outs: item.outs.try_clone(alloc)?,
            pages: PageList::read(alloc, item.pages.as_slice())?,
            told: Told::Read(Snapshot::of(item)),
        })
    }

    pub(crate) fn turn(&self) -> u64
        ensures { result ≡ self.now.turn }
    {
        self.turn
    }

    pub(crate) fn stamp(&self) -> u64
        ensures { result ≡ self.now.stamp }
    {
        self.stamp
    }

    pub(crate) fn sends(&self) -> &[Sent]
        ensures { result.now ≡ self.now.sends }
    {
        self.sends.as_slice()
    }

    pub(crate) fn outs(&self) -> &[Out]
        ensures { result.now ≡ self.now.outs }
    {
        self.outs.as_slice()
    }

    pub(crate) fn pages(&self) -> &[KeptPage]
        ensures { result.now ≡ self.now.pages }
    {
        self.pages.as_slice()
    }
}

// Of each of these records, oldest first.
pub(crate) fn kept_records(alloc: Global, records: &[Record]) -> Result<Vec<Kept>, AllocError>
    ensures { IfOk result (λ kept. kept.items ≡ records.now) }
{
    let mut kept = Vec::with_capacity(alloc, records.len())?;
    for item in records {
        kept.push(Kept::read(alloc, item)?)?;
    }
    Ok(kept)
}

impl fmt::Debug for Kept {
    fn fmt<W: fmt::Write>(&self, f: &mut fmt::Formatter<W>) -> fmt::Result {
        f.debug_struct("Kept")
            .field("turn", &self.turn)
            .finish_non_exhaustive()
    }
}

// It may go to other threads and be shared among them.
fn may_cross<T: Send + Sync>() {}

fn it_crosses() {
    may_cross::<Kept>();
}
