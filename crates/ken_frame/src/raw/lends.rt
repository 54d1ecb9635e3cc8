// What an owner lends.
ghost use Rattle.std.specs.Prelude.{◌≡◌};
ghost use types.Logic.{sem};
ghost use Rattle.ken_frame.specs.Owned.{own_follows};

use super::Own;
use std::alloc::Allocator;

impl<T, B: Allocator> Own<T, B> {
    pub(crate) fn get(&self) -> &T
        ensures { result.now ≡ self.now.value }
    {
        unsafe { &*self.at }
    }

    pub(crate) fn get_mut(&mut self) -> &mut T
        ensures* writes_back { sem 𝓛 (own_follows T.row B.row B.Allocator self.entry result) }
        ensures value { result.now ≡ self.old.value }
    {
        unsafe { &mut *self.at }
    }
}
