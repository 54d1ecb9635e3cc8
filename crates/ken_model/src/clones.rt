// Copies where memory may run out.
ghost use Rattle.std.specs.Prelude.{◌≡◌, IfOk};

use crate::{Emission, Items, Message, Out};
use std::alloc::{AllocError, Global};

/// What can be copied where memory may run out.
pub trait TryClone: Drop + Sized {
    /// An equal value. It fails only for want of memory.
    fn try_clone(&self, alloc: Global) -> Result<Self, AllocError>
        ensures { IfOk result (λ copy. copy ≡ self.now) };
}

impl TryClone for u64 {
    fn try_clone(&self, _alloc: Global) -> Result<Self, AllocError> {
        Ok(*self)
    }
}

impl TryClone for Message {
    fn try_clone(&self, alloc: Global) -> Result<Self, AllocError> {
        Ok(Message {
            from: self.from,
            to: self.to,
            number: self.number,
            stamp: self.stamp,
            bytes: self.bytes.try_clone(alloc)?,
        })
    }
}

impl TryClone for Out {
    fn try_clone(&self, alloc: Global) -> Result<Self, AllocError> {
        Ok(Out {
            number: self.number,
            text: self.text.try_clone(alloc)?,
        })
    }
}

impl TryClone for Emission {
    fn try_clone(&self, alloc: Global) -> Result<Self, AllocError> {
        Ok(Emission {
            node: self.node,
            out: self.out.try_clone(alloc)?,
        })
    }
}

/// Copies of a list's items, in order. It fails only for want of memory.
pub fn copies_of<T: TryClone>(alloc: Global, items: &[T]) -> Result<Items<T>, AllocError>
    ensures { IfOk result (λ copies. copies ≡ items.now) }
{
    let mut copies = Vec::with_capacity(alloc, items.len())?;
    for item in items {
        copies.push(item.try_clone(alloc)?)?;
    }
    Ok(Items::new(copies))
}
