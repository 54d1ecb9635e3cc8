// Rows of blocks in a heap.
ghost use Rattle.std.specs.Prelude.{◌≡◌, None, IsSome, IfOk};
ghost use Rattle.ken_alloc.specs.Objects.{IsBlock};

use crate::oracle::Fixed;
use crate::row::{Answered, Row};
use ken_alloc::Objects;
use ken_app::{App, Limited, take_turn};
use ken_apps::KindApp;
use ken_ledger::Ledger;
use ken_model::{Kind, Message};
use ken_pages::PageHeap;
use ken_rows::RowFault;

/// Blocks of which a turn is always begun, and the oracle of the handlers that make turns on them.
#[derive(Drop)]
pub(crate) struct Blocks {
    heap: Objects,
    oracle: Fixed,
    ghost begun: { IsSome heap.begun },
}

impl Blocks {
    pub(crate) fn new(mut heap: Objects) -> Self
        requires { heap.begun ≡ None }
    {
        heap.begin();
        let oracle = Fixed::default();
        Blocks { heap, oracle }
    }

    pub(crate) fn answer(&mut self, command: &[u8], row: &mut Row<'_, '_>) -> Answered {
        match command {
            b"alloc" => {
                let size = row.words.within(1, u64::MAX)?;
                row.answer.numbers(self.heap.alloc(size)?.as_slice())?;
            }
            b"free" => {
                let place = self.place(row)?;
                self.heap.free(place)?;
            }
            b"put" => self.put(row)?,
            b"set-root" => self.heap.set_root(row.words.number()?)?,
            b"oracle" => {
                self.oracle.reading = row.words.number()?;
                self.oracle.word = row.words.number()?;
            }
            b"turn" => self.turn(row)?,
            b"reserve" => self.heap.reserve(row.words.within(0, 1 << 32)? as usize)?,
            b"freeze" => row.answer.number(self.heap.freeze()?.len() as u64)?,
            b"commit" => {
                self.heap.commit();
                self.heap.begin();
            }
            b"abort" => {
                self.heap.abort();
                self.heap.begin();
            }
            _ => self.tell(command, row)?,
        }
        Ok(())
    }

    // PLACE AT BYTES
    fn put(&mut self, row: &mut Row<'_, '_>) -> Answered {
        let place = self.place(row)?;
        let len = self.heap.len_of(place);
        let at = row.words.within(0, len)?;
        let bytes = row.bytes(len - at)?;
        Ok(self.heap.write(place, at, &bytes)?)
    }

    // What changes nothing.
    fn tell(&self, command: &[u8], row: &mut Row<'_, '_>) -> Answered {
        match command {
            b"value" => row.put_value(&self.heap.value(row.alloc)?),
            b"next" => {
                let place = self.place(row)?;
                Ok(row.answer.numbers(self.heap.next(place).as_slice())?)
            }
            b"first" => Ok(row.answer.numbers(self.heap.first().as_slice())?),
            b"is-block" => Ok(row.answer.flag(self.heap.is_block(row.words.number()?))?),
            b"spare" => Ok(row.answer.number(self.heap.spare() as u64)?),
            b"dirty" => row.put(format!(in row.alloc; "{:?}", self.heap.dirty()?)?),
            _ => Err(RowFault::Usage),
        }
    }

    // The place of a block.
    fn place(&self, row: &mut Row<'_, '_>) -> Result<u64, RowFault>
        ensures { IfOk result (λ place. IsBlock self.now.heap.value place) }
    {
        let place = row.words.number()?;
        if !self.heap.is_block(place) {
            return Err(RowFault::Usage);
        }
        Ok(place)
    }

    // KIND NODES NODE FROM TEXT: the kind is `ledger`, or one of a script. What was done so far is kept.
    fn turn(&mut self, row: &mut Row<'_, '_>) -> Answered {
        let name = row.words.word()?;
        if name == b"ledger".as_slice() {
            return self.turn_of(&Limited { service: Ledger }, row);
        }
        self.turn_of(&KindApp(Kind::of(name).ok_or(RowFault::Usage)?), row)
    }

    // The root then, and what was drawn, sent and output.
    fn turn_of<A: App>(&mut self, app: &A, row: &mut Row<'_, '_>) -> Answered {
        let nodes = row.words.within(1, 8)? as u8;
        let node = row.words.within(0, u64::from(nodes) - 1)? as u8;
        let message = Message {
            from: row.words.within(0, 255)? as u8,
            to: node,
            number: 1,
            stamp: 0,
            bytes: row.text()?,
        };
        self.heap.commit();
        self.heap.begin();
        let (heap, oracle) = (&mut self.heap, &mut self.oracle);
        let made = take_turn(row.alloc, app, node, nodes, &message, heap, oracle)?;
        row.answer.named("root", self.heap.root())?;
        row.answer.named_numbers("draws", made.draws.as_slice())?;
        row.answer.end()?;
        for send in &made.sends {
            let word = format!(in row.alloc; "send {}", send.to)?;
            row.put_text(word.as_str(), &send.bytes)?;
        }
        for out in &made.outs {
            row.put_text("out", out)?;
        }
        Ok(())
    }

    /// The pages, once the turn is kept.
    pub(crate) fn kept(self) -> PageHeap
        ensures { result.begun ≡ None }
    {
        let mut heap = self.heap;
        heap.commit();
        heap.into_pages()
    }
}
