ghost use Rattle.std.specs.Prelude.{◌<◌, IfOk};
ghost use Rattle.ken_order.specs.Consumed.{IsSender};

use ken_model::{MAX_NODES, OUTSIDE};
use ken_rows::{Answer, RowFault, Words};
use std::alloc::Global;

/// A row: its arguments, and the answer to it.
#[derive(Drop)]
pub(crate) struct Row<'a, 'w> {
    pub alloc: Global,
    pub words: Words<'w>,
    pub answer: &'a mut Answer,
}

impl Row<'_, '_> {
    /// A number of one byte.
    pub(crate) fn byte(&mut self) -> Result<u8, RowFault> {
        Ok(self.words.within(0, 255)? as u8)
    }

    /// One of the eight nodes.
    pub(crate) fn node(&mut self) -> Result<u8, RowFault>
        ensures { IfOk result (λ node. node < 8) }
    {
        Ok(self.words.within(0, 7)? as u8)
    }

    /// One of them, or 255 for the outside.
    pub(crate) fn sender(&mut self) -> Result<u8, RowFault>
        ensures { IfOk result (λ from. IsSender 8 from) }
    {
        let from = self.byte()?;
        if from >= MAX_NODES && from != OUTSIDE {
            return Err(RowFault::Usage);
        }
        Ok(from)
    }

    /// Answers a number, where there is one.
    pub(crate) fn some(&mut self, found: Option<u64>) -> Result<(), RowFault> {
        match found {
            Some(number) => Ok(self.answer.number(number)?),
            None => Ok(self.answer.word("none")?),
        }
    }
}
