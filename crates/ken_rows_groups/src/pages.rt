// Pages of a row, and what a turn drew.
ghost use Rattle.std.specs.Prelude.{◌<◌, ◌≤◌};

use crate::values::next_named;
use ken_model::{Head, Items, Octets, PAGE, empty_header};
use ken_num::{decimal, put_u64};
use ken_record::{Page, PageBytes};
use ken_rows::{RowFault, Words};
use std::alloc::{AllocError, Global};

/// The draws and pages of a turn.
#[derive(Drop)]
pub(crate) struct Turn {
    pub draws: Items<u64>,
    pub pages: Items<Page>,
}

/// The words that are left: `draws=1,2`, `root=1` for the first page of a heap of so many pages without blocks that has that
/// root, and other pages as `PAGE=BYTES`.
pub(crate) fn turn_of(alloc: Global, pages: u32, words: &mut Words<'_>) -> Result<Turn, RowFault>
    requires { (0 < pages) × (pages ≤ 4096) }
{
    let mut draws = Vec::new(alloc);
    let mut changed = Vec::new(alloc);
    for _ in 0..u64::MAX {
        if !words.has_next() {
            break;
        }
        let mut given = next_named(words)?;
        match given.name {
            b"draws" => draws = given.value.numbers(alloc)?,
            b"root" => changed.push(first_page(alloc, pages, given.value.number()?)?)?,
            name => changed.push(Page {
                page: page_number(name)?,
                bytes: PageBytes::own(Octets::new(given.value.bytes(alloc)?)),
            })?,
        }
    }
    Ok(Turn {
        draws: Items::new(draws),
        pages: Items::new(changed),
    })
}

fn page_number(word: &[u8]) -> Result<u32, RowFault> {
    match decimal(word) {
        Some(page) if page <= u64::from(u32::MAX) => Ok(page as u32),
        _ => Err(RowFault::Usage),
    }
}

/// The first page of a heap of so many, which is one gap, with that root.
fn first_page(alloc: Global, pages: u32, root: u64) -> Result<Page, AllocError>
    requires { (0 < pages) × (pages ≤ 4096) }
{
    let gap = Head {
        span: pages * PAGE as u32 - 16,
        len: 0,
    };
    let mut bytes = Vec::with_capacity(alloc, PAGE as usize)?;
    put_u64(&mut bytes, root)?;
    bytes.extend_from_slice(&empty_header(pages)[8..])?;
    bytes.extend_from_slice(&gap.bytes())?;
    bytes.resize(PAGE as usize, 0)?;
    Ok(Page {
        page: 0,
        bytes: PageBytes::own(Octets::new(bytes)),
    })
}
