ghost use Rattle.std.specs.Prelude.{◌≡◌};
ghost use Rattle.rtrb.specs.Ring.{consumer_capacity};

use rtrb::Consumer;

/// The end of a ring that pops. It may move to another thread than the end that pushes.
#[derive(Drop)]
pub struct PopEnd<T> {
    pub(crate) consumer: Consumer<T>,
    nones: u64,
    ghost size: { consumer_capacity consumer ≡ 64 },
}

impl<T> PopEnd<T> {
    ghost use Rattle.std.specs.Prelude.{◌≡◌, ◌↔◌, ◌<◌, ◌≤◌, [], ◌∷◌, ◌++◌, length, IsSome, IsTrue, IsFalse, MatchOption};
    ghost use mathlib.Core.List.{IsPrefix};
    ghost use Rattle.rtrb.specs.Ring.{consumer_capacity};
    ghost use Rattle.ken_links.specs.Counts.{Rose};
    ghost use Rattle.ken_links.specs.Rings.{popped, known, nones, SamePopEnd};

    pub(crate) fn new(consumer: Consumer<T>) -> Self
        requires { consumer_capacity consumer ≡ 64 }
        ensures { (result.consumer ≡ consumer) × (result.nones ≡ 0) }
    {
        PopEnd { consumer, nones: 0 }
    }

    /// Takes the oldest item, or answers `None`, which is counted and never comes where an item is known. Takes no memory,
    /// and waits for no other thread.
    pub fn pop(&mut self) -> Option<T>
        ensures ring { SamePopEnd self.old self.new }
        ensures popped { MatchOption result (popped self.new ≡ popped self.old) (λ item. popped self.new ≡ popped self.old ++ item ∷ []) }
        ensures known { MatchOption result (known self.new ≡ []) (λ item. IsPrefix (known self.old) (item ∷ known self.new)) }
        ensures exact { 0 < length (known self.old) → IsSome result }
        ensures counted { MatchOption result (Rose (nones self.old) (nones self.new)) (λ _. nones self.new ≡ nones self.old) }
        ensures count { nones self.old ≤ nones self.new }
    {
        match self.consumer.pop() {
            Ok(item) => Some(item),
            Err(_) => {
                self.nones = self.nones.saturating_add(1);
                None
            }
        }
    }

    /// Takes the oldest item, where one is known.
    pub fn pop_known(&mut self) -> T
        requires { 0 < length (known self.old) }
        ensures ring { SamePopEnd self.old self.new }
        ensures popped { popped self.new ≡ popped self.old ++ result ∷ [] }
        ensures known { known self.old ≡ result ∷ known self.new }
        ensures nones { nones self.new ≡ nones self.old }
    {
        self.consumer.pop_known()
    }

    /// Looks into the ring, where no item of it is known yet, and tells whether one is known then. `false` counts as a pop that gave
    /// `None`. Takes nothing, and waits for no other thread.
    pub fn look(&mut self) -> bool
        ensures ring { SamePopEnd self.old self.new }
        ensures popped { popped self.new ≡ popped self.old }
        ensures known { IsPrefix (known self.old) (known self.new) }
        ensures exact { IsTrue result ↔ (0 < length (known self.new)) }
        ensures counted { (IsTrue result → nones self.new ≡ nones self.old) × (IsFalse result → Rose (nones self.old) (nones self.new)) }
        ensures count { nones self.old ≤ nones self.new }
    {
        if self.consumer.is_empty() {
            self.nones = self.nones.saturating_add(1);
            return false;
        }
        true
    }

    /// The oldest item, where one is known. It stays in the ring.
    pub fn first_known(&self) -> &T
        requires { 0 < length (known self.now) }
        ensures { IsPrefix (result.now ∷ []) (known self.now) }
    {
        self.consumer.peek_known()
    }

    /// How many items this end knows to be in the ring, at most 64. There may be more.
    pub fn known(&self) -> usize
        ensures known { result ≡ length (known self.now) }
        ensures most { result ≤ 64 }
    {
        self.consumer.cached_slots()
    }

    /// How many pops gave `None`. The count never falls, and stands still at 2^64 - 1.
    pub fn nones(&self) -> u64
        ensures { result ≡ nones self.now }
    {
        self.nones
    }
}
