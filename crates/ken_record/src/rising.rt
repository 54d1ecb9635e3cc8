// Lists whose items rise.
ghost use Rattle.std.specs.Prelude.{◌≡◌, ℕ, ◌<◌, ◌^◌};
ghost use Rattle.ken_record.specs.Grammar.{rise_from};

// An item that has a place among others.
pub(crate) trait Ranked {
    ghost place: { Self → ℕ };

    // Its place, below 2^72.
    fn rank(&self) -> u128
        ensures rank { result ≡ place self.now }
        ensures small { result < 2 ^ 72 };
}

// Whether the items rise strictly.
pub(crate) fn rise<T: Ranked>(items: &[T]) -> bool
    ensures { result ≡ rise_from T.place 0 items.now }
{
    let mut low = 0;
    for item in items {
        let rank = item.rank();
        if rank < low {
            return false;
        }
        low = rank + 1;
    }
    true
}
