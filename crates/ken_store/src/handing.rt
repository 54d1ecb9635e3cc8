// What a recovery finds to patch.
ghost use Rattle.std.specs.Prelude.{◌≡◌, ◌≤◌, ◌++◌, [], length, map, IsTrue, IfOk, OnOk};
ghost use Rattle.std.specs.List.{All, AllByRecursion};
ghost use Rattle.ken_record.specs.Grammar.{rise_from, page_rank};
ghost use Rattle.ken_store.specs.declared.patching.Origin.TheVariants.{Base};
ghost use Rattle.ken_store.specs.Ahead.{AreFound, MayAdd, ahead_layers, frame_pages, origins, page_layers, page_origins, record_layers, record_origins};
ghost use Rattle.ken_store.specs.Kept.{HasPagesWithin};
ghost use Rattle.ken_cover.specs.Overlay.{AreWithin};

use crate::patching::{Ahead, Origin};
use ken_frame::{FRAME, Frame};
use ken_record::{Page, Record};
use std::alloc::{AllocError, Global};
use std::collections::VecDeque;
use std::sync::Arc;

// The pages of a log's base, and then those of its records.
pub(crate) fn ahead_of(
    alloc: Global,
    turns: u64,
    base: &[Page],
    records: &[Record],
    count: u32,
) -> Result<VecDeque<Ahead>, AllocError>
    requires base { AreWithin count base.now }
    requires records { AllByRecursion (HasPagesWithin count) records.now }
    requires rising { IsTrue (rise_from page_rank 0 base.now) }
    requires turns { All (λ r. 1 ≤ r.turn) records.now }
    requires rise { All (λ r. IsTrue (rise_from page_rank 0 r.pages)) records.now }
    ensures found { IfOk result (λ ahead. AreFound ahead.items) }
    ensures layers { IfOk result (λ ahead. ahead_layers ahead.items ≡ page_layers turns base.now ++ record_layers records.now) }
    ensures origins { IfOk result (λ ahead. origins ahead.items ≡ page_origins Base base.now ++ record_origins records.now) }
{
    let mut ahead = VecDeque::new(alloc);
    put_ahead(alloc, &mut ahead, turns, Origin::Base, base, count)?;
    for record in records {
        let pages = record.pages.as_slice();
        put_ahead(alloc, &mut ahead, record.turn, Origin::Record, pages, count)?;
    }
    Ok(ahead)
}

// Appends pages, if there are some.
fn put_ahead(
    alloc: Global,
    ahead: &mut VecDeque<Ahead>,
    turn: u64,
    origin: Origin,
    pages: &[Page],
    count: u32,
) -> Result<(), AllocError>
    requires pages { AreWithin count pages.now }
    requires rising { IsTrue (rise_from page_rank 0 pages.now) }
    ensures found { OnOk result (MayAdd origin turn ahead.old.items → AreFound ahead.new.items) }
    ensures layers { OnOk result (ahead_layers ahead.new.items ≡ ahead_layers ahead.old.items ++ page_layers turn pages.now) }
    ensures origins { OnOk result (origins ahead.new.items ≡ origins ahead.old.items ++ page_origins origin pages.now) }
{
    if !pages.is_empty() {
        let pages = frames_of(alloc, pages, count)?;
        ahead.push_back(Ahead {
            turn,
            origin,
            pages,
        })?;
    }
    Ok(())
}

// The pages in frames.
fn frames_of(
    alloc: Global,
    pages: &[Page],
    count: u32,
) -> Result<VecDeque<(u32, Arc<Frame>)>, AllocError>
    requires { AreWithin count pages.now }
    ensures { IfOk result (λ frames. frame_pages frames.items ≡ pages.now) }
{
    let mut frames = VecDeque::new(alloc);
    for page in pages {
        let mut frame = Frame::zeroed(alloc)?;
        fill(&mut frame, page.bytes.as_slice());
        frames.push_back((page.page, Arc::new(alloc, frame)?))?;
    }
    Ok(frames)
}

// Makes a frame have these bytes.
pub(crate) fn fill(frame: &mut Frame, bytes: &[u8])
    requires { length bytes.now ≡ 256 }
    ensures { frame.new ≡ bytes.now }
{
    prove!(frame.as_slice().len() == FRAME);
    frame.write(0, bytes);
}
