// Copies of the parts of a record.
use crate::{Due, Page, Record, Sent};
use ken_model::{TryClone, copies_of};
use std::alloc::{AllocError, Global};

impl TryClone for Sent {
    fn try_clone(&self, alloc: Global) -> Result<Self, AllocError> {
        Ok(Sent {
            to: self.to,
            number: self.number,
            bytes: self.bytes.try_clone(alloc)?,
        })
    }
}

impl TryClone for Due {
    fn try_clone(&self, alloc: Global) -> Result<Self, AllocError> {
        Ok(Due {
            to: self.to,
            number: self.number,
            stamp: self.stamp,
            bytes: self.bytes.try_clone(alloc)?,
        })
    }
}

impl TryClone for Page {
    fn try_clone(&self, alloc: Global) -> Result<Self, AllocError> {
        Ok(Page {
            page: self.page,
            bytes: self.bytes.try_clone(alloc)?,
        })
    }
}

impl TryClone for Record {
    fn try_clone(&self, alloc: Global) -> Result<Self, AllocError> {
        Ok(Record {
            turn: self.turn,
            stamp: self.stamp,
            from: self.from,
            number: self.number,
            draws: self.draws.try_clone(alloc)?,
            sends: self.sends.try_clone(alloc)?,
            outs: self.outs.try_clone(alloc)?,
            pages: copies_of(alloc, self.pages.as_slice())?,
        })
    }
}
