// Lists that never change.
ghost use Rattle.std.specs.Prelude.{◌≡◌, ◌==◌, ◌∷◌, ◌++◌, [], length, IfOk, OnOk};

use crate::TryClone;
use std::alloc::{AllocError, Global};
use std::marker::Model;
use std::sync::Arc;

/// What can stand in a list by itself.
pub trait Single: TryClone {
    /// The list of it alone.
    fn alone(&self) -> &[Self]
        ensures { result.now ≡ self.now ∷ [] };
}

impl Single for u64 {
    fn alone(&self) -> &[u64] {
        std::slice::from_ref(self)
    }
}

// Where the items are.
#[derive(Debug, Drop)]
pub(crate) enum Kept<T> {
    Empty,
    One(T),
    Many(Arc<Vec<T>>),
}

/// A list that never changes. One of no items or of one takes no memory of its own, and a longer one is shared with its copies.
#[derive(Debug, Drop)]
pub struct Shared<T> {
    kept: Kept<T>,
}

impl<T> Model for Shared<T> {
    ghost use Rattle.std.specs.Prelude.{List};
    ghost use Rattle.ken_model.specs.Sharing.{items_in};

    ghost Value = { List T };

    ghost view = { λ s. items_in s.kept };
}

impl<T: Drop> Shared<T> {
    /// The list of no items.
    pub fn empty() -> Self
        ensures { result ≡ [] }
    {
        Shared { kept: Kept::Empty }
    }

    /// The list of a vector's items. Of no items or one it takes no memory.
    pub fn new(alloc: Global, mut items: Vec<T>) -> Result<Self, AllocError>
        ensures { IfOk result (λ s. s ≡ items.items) }
    {
        let kept = match items.len() {
            0 => Kept::Empty,
            1 => match items.pop() {
                Some(item) => Kept::One(item),
                None => Kept::Empty,
            },
            _ => Kept::Many(Arc::new(alloc, items)?),
        };
        Ok(Shared { kept })
    }
}

impl<T: Single> Shared<T> {
    pub fn as_slice(&self) -> &[T]
        ensures { result.now ≡ self.now }
    {
        match &self.kept {
            Kept::Empty => &[],
            Kept::One(item) => item.alone(),
            Kept::Many(items) => items.as_slice(),
        }
    }

    /// The number of items.
    pub fn len(&self) -> usize
        ensures { result ≡ length self.now }
    {
        self.as_slice().len()
    }

    pub fn is_empty(&self) -> bool
        ensures { result ≡ (length self.now == 0) }
    {
        self.len() == 0
    }
}

impl<T: Single> TryClone for Shared<T> {
    fn try_clone(&self, alloc: Global) -> Result<Self, AllocError> {
        let kept = match &self.kept {
            Kept::Empty => Kept::Empty,
            Kept::One(item) => Kept::One(item.try_clone(alloc)?),
            Kept::Many(items) => Kept::Many(Arc::try_clone(items)?),
        };
        Ok(Shared { kept })
    }
}

/// A list in the making.
#[derive(Debug, Drop)]
pub struct Listing<T> {
    first: Option<T>,
    // Those behind the first.
    more: Vec<T>,
}

impl<T> Model for Listing<T> {
    ghost use Rattle.std.specs.Prelude.{List};
    ghost use Rattle.ken_model.specs.Sharing.{listed};

    ghost Value = { List T };

    ghost view = { λ l. listed l.first l.more.items };
}

impl<T: Drop> Listing<T> {
    /// A list of no items yet.
    pub fn new(alloc: Global) -> Self
        ensures { result ≡ [] }
    {
        Listing {
            first: None,
            more: Vec::new(alloc),
        }
    }

    /// Puts an item behind the others. The first one takes no memory.
    pub fn push(&mut self, item: T) -> Result<(), AllocError>
        ensures { OnOk result (self.new ≡ self.old ++ item ∷ []) }
    {
        if self.first.is_none() && self.more.is_empty() {
            self.first = Some(item);
        } else {
            self.more.push(item)?;
        }
        Ok(())
    }

    /// The list. Of no items or one it takes no memory.
    pub fn finish(self, alloc: Global) -> Result<Shared<T>, AllocError>
        ensures { IfOk result (λ s. s ≡ self) }
    {
        let Listing { first, mut more } = self;
        let Some(first) = first else {
            return Shared::new(alloc, more);
        };
        let kept = if more.is_empty() {
            Kept::One(first)
        } else {
            more.insert(0, first)?;
            Kept::Many(Arc::new(alloc, more)?)
        };
        Ok(Shared { kept })
    }
}
