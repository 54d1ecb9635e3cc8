// A gate at which the workers of three nodes meet.
use ken_threads::{Gate, Role};
use std::sync::atomic::{AtomicU64, Ordering};
use std::thread;

/// The handler, the patcher and the externaliser of each node.
pub(crate) const WORKERS: u64 = 9;

// How often a worker looks whether all have come.
const LOOKS: u64 = 1_000_000;

/// Before each of so many first steps of a round a worker waits until all have come to theirs. Once one has waited in
/// vain, none waits any more.
#[derive(Drop)]
pub(crate) struct Meeting {
    steps: u8,
    came: AtomicU64,
    missed: AtomicU64,
}

impl Meeting {
    /// A gate at which the workers begin so many steps of a round together.
    pub(crate) fn of(steps: u8) -> Self {
        Meeting {
            steps,
            came: AtomicU64::new(0),
            missed: AtomicU64::new(0),
        }
    }

    /// How often workers came, and how many of them waited in vain.
    pub(crate) fn told(&self) -> (u64, u64) {
        (
            self.came.load(Ordering::SeqCst),
            self.missed.load(Ordering::SeqCst),
        )
    }

    // Whether a worker may go on, before which so many came: all of its meeting have come, or one has waited in vain.
    fn is_over(&self, before: u64) -> bool {
        self.came.load(Ordering::SeqCst) / WORKERS > before / WORKERS
            || self.missed.load(Ordering::SeqCst) > 0
    }
}

impl Gate for Meeting {
    fn pass(&self, _node: u8, _role: Role, step: u8) {
        if step >= self.steps {
            return;
        }
        let before = self.came.fetch_add(1, Ordering::SeqCst);
        for _look in 0..LOOKS {
            if self.is_over(before) {
                return;
            }
            thread::yield_now();
        }
        self.missed.fetch_add(1, Ordering::SeqCst);
    }
}
