ghost use Rattle.std.specs.Prelude.{◌≡◌};
ghost use Rattle.rtrb.specs.Ring.{producer_capacity};

use rtrb::Producer;

/// The items that a ring has room for.
pub const SLOTS: usize = 64;

/// The end of a ring that pushes. It may move to another thread than the end that pops.
#[derive(Drop)]
pub struct PushEnd<T> {
    pub(crate) producer: Producer<T>,
    ghost size: { producer_capacity producer ≡ 64 },
}

impl<T> PushEnd<T> {
    ghost use Rattle.std.specs.Prelude.{◌≡◌, ◌+◌, ◌<◌, ◌≤◌, [], ◌∷◌, ◌++◌};
    ghost use Rattle.rtrb.specs.Ring.{producer_capacity};
    ghost use Rattle.ken_links.specs.Rings.{pushed, free, SamePushEnd};

    pub(crate) fn new(producer: Producer<T>) -> Self
        requires { producer_capacity producer ≡ 64 }
        ensures { result.producer ≡ producer }
    {
        PushEnd { producer }
    }

    /// Puts an item behind the others. A slot must be known to be free, so the call can't find the ring full. Takes no
    /// memory, and waits for no other thread.
    pub fn push(&mut self, item: T)
        requires { 0 < free self.old }
        ensures ring { SamePushEnd self.old self.new }
        ensures pushed { pushed self.new ≡ pushed self.old ++ item ∷ [] }
        ensures free { free self.old ≡ free self.new + 1 }
    {
        self.producer.push_reserved(item);
    }

    /// How many slots this end knows to be free, at most 64. Others may be free too.
    pub fn free(&self) -> usize
        ensures known { result ≡ free self.now }
        ensures most { result ≤ 64 }
    {
        self.producer.cached_slots()
    }
}
