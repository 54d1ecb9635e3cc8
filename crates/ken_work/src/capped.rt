// When a node makes no more turns.
ghost use Rattle.std.specs.Prelude.{◌≡◌, ℕ, ◌↔◌, ◌≤◌, ◌<◌, ◌^◌, length, IsTrue};
ghost use Rattle.ken_record.specs.Spelling.{base_bytes};
ghost use Rattle.ken_record.specs.Versions.{One};
ghost use Rattle.ken_store.specs.Turning.{Turning};
ghost use Rattle.ken_work.specs.Capped.{HasHigh, HasHighCount, IsCapped, base_in};

use crate::worker::TurnWorker;
use ken_disk::Disk;
use ken_model::{MAX_NODES, OUTSIDE};
use ken_store::TurnSide;

// A count from here on is high: it has used up half of its range.
const HIGH: u64 = 1 << 63;

// A log that ends past this takes no more records.
const LOG_END: u64 = 1 << 39;

// Whether a count of messages is high, of those from or to a node.
fn has_high_count<D: Disk>(side: &TurnSide<D>) -> bool
    ensures { IsTrue result ↔ ((node : ℕ) × (node < 8) × HasHighCount side.now.numbers node) }
{
    for node in 0..MAX_NODES {
        if side.consumed_from(node) >= HIGH || side.sent_to(node) >= HIGH {
            return true;
        }
    }
    false
}

// Whether the stamp or a count of messages or outputs is high.
fn has_high<D: Disk>(side: &TurnSide<D>) -> bool
    requires { Turning D.told D.size side.now }
    ensures { IsTrue result ↔ HasHigh side.now.numbers }
{
    has_high_count(side)
        || side.stamp() >= HIGH
        || side.outputs() >= HIGH
        || side.consumed_from(OUTSIDE) >= HIGH
}

impl<D: Disk> TurnWorker<D> {
    // Whether the base of a turnover with what was told fits.
    fn base_fits(&self) -> bool
        requires turning { Turning D.told D.size self.now.side }
        requires end { self.now.side.log.end ≤ 2 ^ 39 }
        ensures { IsTrue result ↔ (length (base_bytes One (base_in self.now)) < 2 ^ 32) }
    {
        let told = &self.told;
        let acked = told.progress.acked.as_slice();
        self.side
            .has_short_base(told.settled, acked, told.progress.emitted)
    }

    // Whether the node makes no more turns.
    pub(crate) fn is_capped(&self) -> bool
        requires { Turning D.told D.size self.now.side }
        ensures { IsTrue result ↔ IsCapped self.now }
    {
        self.side.turns() >= self.cap
            || has_high(&self.side)
            || self.side.generation() == u32::MAX
            || self.side.log_end() > LOG_END
            || !self.base_fits()
    }
}
