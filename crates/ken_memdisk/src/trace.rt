// Whose disk a disk is and how it was restarted, for clauses alone. It takes no memory, and nothing that runs reads it.
ghost use Rattle.std.specs.Borrow.{ftrue};
ghost use Rattle.ken_memdisk.specs.Traces.{Traced};

use crate::cut::Cut;
use std::marker::Model;

#[derive(Debug, Drop)]
pub(crate) struct Trace {
    pub(crate) ghost told: { Traced },
}

impl Model for Trace {
    ghost also_owns = { λ _. ftrue };
}

// It owns nothing.
unsafe impl Send for Trace {}

unsafe impl Sync for Trace {}

// What a disk comes from.
#[derive(Drop)]
pub(crate) enum Mark<'a> {
    // A disk of a node is made: which of its disks, and with which cuts.
    Made(u8, u8, &'a [Cut]),
    // A disk with this trace is restarted with a pick.
    Restarted(&'a Trace, u64),
}

impl Trace {
    ghost use Rattle.std.specs.Prelude.{◌≡◌};
    ghost use Rattle.ken_memdisk.specs.Marks.{after_mark};

    pub(crate) fn after(_mark: &Mark<'_>) -> Trace
        ensures { result.told ≡ after_mark _mark.now }
    {
        Trace {}
    }
}
