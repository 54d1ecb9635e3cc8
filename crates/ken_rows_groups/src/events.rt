// Events of a row.
ghost use Rattle.std.specs.Prelude.{◌<◌, ◌≤◌};

use crate::pages::{Turn, turn_of};
use crate::values::{sender, small, value_of};
use ken_core::{Event, Outcome, Told};
use ken_model::Items;
use ken_rows::{RowFault, Words};
use std::alloc::Global;

/// The event of that name in a group whose heaps have so many pages.
pub(crate) fn event(
    alloc: Global,
    pages: u32,
    name: &[u8],
    words: &mut Words<'_>,
) -> Result<Event, RowFault>
    requires { (0 < pages) × (pages ≤ 4096) }
{
    let node = small(words)?;
    match name {
        b"seal" => seal(alloc, pages, node, words),
        b"cut" => cut(alloc, pages, node, words),
        b"patch" => Ok(Event::Patch {
            node,
            page: words.within(0, u64::from(u32::MAX))? as u32,
        }),
        b"sync" => Ok(Event::SyncImage { node }),
        b"turnover" => turnover(alloc, node, words),
        b"send" => Ok(Event::Send {
            node,
            to: small(words)?,
            i: words.number()?,
        }),
        b"ack" => Ok(Event::Ack {
            node,
            from: small(words)?,
        }),
        b"take" => Ok(Event::TakeAck {
            node,
            from: small(words)?,
            through: words.number()?,
        }),
        b"emit" => Ok(Event::Emit { node }),
        b"crash" => Ok(Event::Crash {
            node,
            pages: turn_of(alloc, pages, words)?.pages,
        }),
        b"recover" => Ok(Event::Recover { node }),
        _ => Err(RowFault::Usage),
    }
}

fn seal(alloc: Global, pages: u32, node: u8, words: &mut Words<'_>) -> Result<Event, RowFault>
    requires { (0 < pages) × (pages ≤ 4096) }
{
    let from = sender(words)?;
    let Turn { draws, pages } = turn_of(alloc, pages, words)?;
    Ok(Event::Seal {
        node,
        from,
        draws,
        pages,
    })
}

fn cut(alloc: Global, pages: u32, node: u8, words: &mut Words<'_>) -> Result<Event, RowFault>
    requires { (0 < pages) × (pages ≤ 4096) }
{
    let from = sender(words)?;
    let landed = match words.word()? {
        b"landed" => true,
        b"lost" => false,
        _ => return Err(RowFault::Usage),
    };
    let Turn { draws, pages } = turn_of(alloc, pages, words)?;
    Ok(Event::SealCut {
        node,
        from,
        draws,
        pages,
        landed,
    })
}

fn turnover(alloc: Global, node: u8, words: &mut Words<'_>) -> Result<Event, RowFault> {
    let outcome = match words.word()? {
        b"whole" => Outcome::Whole,
        b"landed" => Outcome::Landed,
        b"lost" => Outcome::Lost,
        _ => return Err(RowFault::Usage),
    };
    let told = Told {
        settled: value_of(words, b"settled")?.number()?,
        acked: Items::new(value_of(words, b"acked")?.numbers(alloc)?),
        emitted: value_of(words, b"emitted")?.number()?,
    };
    Ok(Event::Turnover {
        node,
        outcome,
        told,
    })
}
