// What a disk is and was, for clauses alone. It takes no memory, and nothing that runs reads it.
ghost use Rattle.std.specs.Borrow.{ftrue};
ghost use Rattle.ken_disk.specs.Story.{Story as Told};

use std::marker::Model;

#[derive(Debug, Drop)]
pub(crate) struct Story {
    pub(crate) ghost told: { Told },
}

impl Model for Story {
    ghost also_owns = { λ _. ftrue };
}

// It owns nothing.
unsafe impl Send for Story {}

unsafe impl Sync for Story {}

// What is done to a disk.
#[derive(Drop)]
pub(crate) enum Step<'a> {
    // Bytes are written from a place on.
    Wrote(u64, &'a [u8]),
    Synced,
    // A restart with a pick.
    Restarted(u64),
}

impl Story {
    ghost use Rattle.std.specs.Prelude.{◌≡◌};
    ghost use Rattle.ken_disk.specs.Story.{blank};
    ghost use Rattle.ken_memdisk.specs.Platters.{after_step};

    pub(crate) fn new() -> Story
        ensures { result.told ≡ blank }
    {
        Story {}
    }

    pub(crate) fn then(&self, _step: &Step<'_>) -> Story
        ensures { result.told ≡ after_step self.now.told _step.now }
    {
        Story {}
    }
}
