ghost use Rattle.ken_links.specs.Rings.{IsRing};

use crate::row::Row;
use ken_links::{PopEnd, PushEnd, beside, empty, ring};
use ken_rows::RowFault;
use std::alloc::{AllocError, Global};

/// A ring of numbers with both its ends.
#[derive(Drop)]
pub(crate) struct Ring {
    push: PushEnd<u64>,
    pop: PopEnd<u64>,
    ghost ends: { IsRing push pop },
}

impl Ring {
    /// An empty ring.
    pub(crate) fn new(alloc: Global) -> Result<Self, AllocError> {
        let (push, pop) = ring(alloc)?;
        Ok(Ring { push, pop })
    }

    /// Answers a row of it.
    pub(crate) fn answer(&mut self, row: &mut Row) -> Result<(), RowFault> {
        match row.words.word()? {
            b"new" => *self = Ring::new(row.alloc)?,
            b"push" => {
                for number in row.words.numbers(row.alloc)? {
                    if self.push.free() == 0 {
                        return Err(RowFault::Usage);
                    }
                    self.push.push(number);
                }
            }
            b"pop" => row.some(self.pop.pop())?,
            b"look" => row.answer.flag(self.pop.look())?,
            b"first" if self.pop.known() > 0 => row.answer.number(*self.pop.first_known())?,
            b"known" => row.answer.number(self.pop.known() as u64)?,
            b"nones" => row.answer.number(self.pop.nones())?,
            b"free" => row.answer.number(self.push.free() as u64)?,
            b"beside" => beside(&mut self.push, &mut self.pop),
            b"empty" => {
                let mut moved = Vec::new(row.alloc);
                empty(&mut self.push, &mut self.pop, &mut moved)?;
                row.answer.numbers(&moved)?;
            }
            _ => return Err(RowFault::Usage),
        }
        Ok(())
    }
}
