// What a node's workers hand each other.
ghost use Rattle.std.specs.Prelude.{◌≡◌, ℕ, IsTrue};
ghost use Rattle.ken_record.specs.Grammar.{page_rank, rise_from};
ghost use Rattle.ken_store.specs.Ahead.{frame_pages};

use ken_frame::Frame;
use ken_ship::{Progress, Told};
use std::sync::Arc;

/// What the handler hands to the patcher: the pages that a sealed turn changed.
#[derive(Debug, Drop)]
pub struct Frozen {
    /// The turn's place among those of its node, from 1.
    pub turn: u64,
    /// The pages, rising.
    pub pages: Vec<(u32, Arc<Frame>)>,
    ghost rising: { IsTrue (rise_from page_rank 0 (frame_pages pages.items)) },
}

/// What the patcher tells the handler, and when.
#[derive(Clone, Copy, Debug, Drop)]
pub struct Settled {
    /// How many turns it had been handed by then: the number of the last one.
    pub by: u64,
    /// All pages of the turns up to this number are safe in the image.
    pub turn: u64,
}

// What a worker tells the handler, with how many turns it had been handed by then.
pub(crate) trait News: Copy {
    type Fact: Copy;

    ghost stands_with: { Self → ℕ };

    ghost says: { Self → Self.Fact };

    fn by(&self) -> u64
        ensures { result ≡ stands_with self.now };

    fn fact(&self) -> Self::Fact
        ensures { result ≡ says self.now };
}

impl News for Settled {
    type Fact = u64;

    ghost stands_with = { λ news. news.by };

    ghost says = { λ news. news.turn };

    fn by(&self) -> u64 {
        self.by
    }

    fn fact(&self) -> u64 {
        self.turn
    }
}

impl News for Told {
    type Fact = Progress;

    ghost stands_with = { λ news. news.by };

    ghost says = { λ news. news.progress };

    fn by(&self) -> u64 {
        self.by
    }

    fn fact(&self) -> Progress {
        self.progress
    }
}

// What the handler was told: a settled turn, and how far its messages and outputs came.
#[derive(Clone, Copy, Debug, Drop)]
pub(crate) struct Feedback {
    pub settled: u64,
    pub progress: Progress,
}
