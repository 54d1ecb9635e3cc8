// A node's workers meet, and what is in their rings comes to its receivers.
ghost use Rattle.std.specs.Prelude.{◌≡◌, ◌≤◌, ◌++◌, OnOk};
ghost use Rattle.ken_links.specs.Rings.{pushed, free, popped, nones, IsRing, SamePopEnd, SamePushEnd};
ghost use Rattle.ken_ship.specs.Parts as ship;
ghost use Rattle.ken_work.specs.Meeting.{AreEmpty, AreJoined, HaveMet, IsEmptied, WasTold};
ghost use Rattle.ken_work.specs.Patches.{IsSamePatcher};
ghost use Rattle.ken_work.specs.Workers.{IsSameWorker};

use crate::items::News;
use crate::patcher::PatchWorker;
use crate::worker::TurnWorker;
use ken_disk::Disk;
use ken_links::{PopEnd, PushEnd, beside, is_drained};
use ken_ship::SendWorker;
use std::alloc::AllocError;

// Takes all that a ring holds; what the last one says is known then. Takes no memory.
fn tell_all<A: News>(push: &mut PushEnd<A>, pop: &mut PopEnd<A>, known: &mut A::Fact)
    requires { IsRing push.old pop.old }
    ensures ends { SamePushEnd push.old push.new × SamePopEnd pop.old pop.new × IsRing push.new pop.new }
    ensures same { (pushed push.new ≡ pushed push.old) × (nones pop.new ≡ nones pop.old) }
    ensures told { WasTold A.says (popped pop.old) (popped pop.new) known.old known.new }
    ensures emptied { IsEmptied push.new pop.new }
{
    if is_drained(push, pop) {
        return;
    }
    beside(push, pop);
    for _item in 0..pop.known() {
        *known = pop.pop_known().fact();
    }
    beside(push, pop);
}

/// Brings the two ends of each ring of a node side by side, and empties it into its receiver. After Ok 64 slots are known to be
/// free on each. After an error, which is want of memory, what wasn't moved is in its ring still. It may follow any answer
/// of the workers' calls.
pub fn meet<D: Disk>(
    turns: &mut TurnWorker<D>,
    patches: &mut PatchWorker<D>,
    sends: &mut SendWorker,
) -> Result<(), AllocError>
    requires { AreJoined turns.old patches.old sends.old }
    ensures joined { AreJoined turns.new patches.new sends.new }
    ensures turns { IsSameWorker turns.old turns.new }
    ensures patches { IsSamePatcher patches.old patches.new }
    ensures sends { ship.IsSameWorker sends.old sends.new }
    ensures met { HaveMet D.told D.size turns.old turns.new patches.old patches.new sends.old sends.new }
    ensures ok { OnOk result (AreEmpty turns.new patches.new sends.new) }
{
    tell_all(
        &mut patches.settled,
        &mut turns.settled,
        &mut turns.told.settled,
    );
    turns.hear_progress(sends);
    patches.receive(&mut turns.pages)?;
    sends.receive(&mut turns.sealed)
}
