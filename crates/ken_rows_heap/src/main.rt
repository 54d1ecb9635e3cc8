//! Rows of Ken's lowest layer: the pages and the blocks of a heap, turns that handlers make on it, and runs of abstract actors.
#![tactic(auto)]

mod blocks;
mod oracle;
mod pages;
mod row;
mod run;

use blocks::Blocks;
use ken_alloc::Objects;
use ken_lanes::first_difference;
use ken_num::Lcg;
use ken_pages::{MAX_PAGES, PageHeap};
use ken_rows::{Answer, Layer, RowFault, Words, transcribe};
use pages::Pages;
use row::{Answered, Row};
use run::Run;
use std::alloc::Global;
use std::mem;
use std::process::ExitCode;

fn main(rt: HostRuntime) -> ExitCode {
    let mut state = State {
        alloc: rt.alloc(),
        heap: Heap::None,
        run: None,
    };
    transcribe(&rt, &mut state)
}

#[derive(Drop)]
enum Heap {
    None,
    Pages(Pages),
    Blocks(Blocks),
}

/// What the rows speak to: a heap, as pages or as blocks, and a run of abstract actors.
#[derive(Drop)]
struct State {
    alloc: Global,
    heap: Heap,
    run: Option<Run>,
}

impl State {
    // The heap in another form. Broken pages are let go.
    fn form(&mut self, command: &[u8], row: &mut Row<'_, '_>) -> Answered {
        self.heap = match mem::replace(&mut self.heap, Heap::None) {
            Heap::Pages(pages) if command == b"format".as_slice() => {
                Heap::Blocks(Blocks::new(Objects::format(pages.kept())?))
            }
            Heap::Pages(pages) if command == b"adopt".as_slice() => {
                match Objects::adopt(pages.kept()) {
                    Ok(heap) => Heap::Blocks(Blocks::new(heap)),
                    Err(broken) => return Ok(row.answer.named("broken", broken.place)?),
                }
            }
            Heap::Blocks(blocks) if command == b"into-pages".as_slice() => {
                Heap::Pages(Pages::new(blocks.kept()))
            }
            _other => return Err(RowFault::Usage),
        };
        Ok(())
    }
}

impl Layer for State {
    fn answer(&mut self, command: &[u8], words: &mut Words<'_>, answer: &mut Answer) -> Answered {
        let row = &mut Row {
            alloc: self.alloc,
            words,
            answer,
        };
        match command {
            b"new" => {
                let pages = row.words.within(1, u64::from(MAX_PAGES))? as u32;
                self.heap = Heap::Pages(Pages::new(PageHeap::new(self.alloc, pages)?));
            }
            b"format" | b"adopt" | b"into-pages" => self.form(command, row)?,
            b"run" => self.run = Some(Run::start(row)?),
            b"step" => self.run.as_mut().ok_or(RowFault::Usage)?.step(row)?,
            b"differ" => differ(row)?,
            b"random" => random(row)?,
            _ => match &mut self.heap {
                Heap::Pages(pages) => pages.answer(command, row)?,
                Heap::Blocks(blocks) => blocks.answer(command, row)?,
                Heap::None => return Err(RowFault::Usage),
            },
        }
        Ok(())
    }
}

// A B: where two lists of bytes differ first.
fn differ(row: &mut Row<'_, '_>) -> Answered {
    let (a, b) = (row.words.bytes(row.alloc)?, row.words.bytes(row.alloc)?);
    let place = first_difference(&a, &b).map(|at| at as u64);
    Ok(row.answer.numbers(place.as_slice())?)
}

// STATE COUNT: words of a generator.
fn random(row: &mut Row<'_, '_>) -> Answered {
    let mut generator = Lcg::new(row.words.number()?);
    for _ in 0..row.words.number()? {
        row.answer.number(generator.next())?;
    }
    Ok(())
}
