// A value on the heap by its address. All that touches a raw pointer is here.
ghost use Rattle.std.specs.Prelude.{◌≡◌};
ghost use denote.Struct.Lending.{lent_at};
ghost use Rattle.std_alloc.specs.Box.Ownership.{box_owns};

use std::alloc::Allocator;
use std::marker::{Model, Send, Sync};

mod lends;

/// The only owner of the value at its address.
pub(crate) struct Own<T, A: Allocator> {
    at: *mut T,
    alloc: A,
    pub(crate) ghost value: { T },
}

impl<T, A: Allocator> Model for Own<T, A> {
    ghost also_owns = { λ o. box_owns (A.dealloc_token o.alloc) T.row o.at o.value };

    ghost also_shares = { λ o _ κ. lent_at T.row o.at o.value κ };
}

impl<T: Drop, A: Allocator> Own<T, A> {
    /// Takes the box apart.
    pub(crate) fn of(value: Box<T, A>) -> Own<T, A>
        ensures { result.value ≡ value.value }
    {
        let (at, alloc) = Box::into_raw_with_allocator(value);
        Own { at, alloc }
    }

    /// Makes the box again.
    pub(crate) fn into_box(self) -> Box<T, A>
        ensures { result.value ≡ self.value }
    {
        let Own { at, alloc } = self;
        unsafe { Box::from_raw(alloc, at) }
    }
}

impl<T: Drop, A: Allocator> Drop for Own<T, A> {
    fn drop(self) {
        drop(self.into_box());
    }
}

unsafe impl<T: Send, A: Allocator + Send> Send for Own<T, A> {}

unsafe impl<T: Sync, A: Allocator + Sync> Sync for Own<T, A> {}
