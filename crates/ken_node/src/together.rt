// Calls of a node's workers side by side: after each they meet.
ghost use Rattle.std.specs.Prelude.{◌≡◌, ◌⊎◌, [], IfOk, OnOk};
ghost use Rattle.ken_app.specs.Oracles.{HasAnswered};
ghost use Rattle.ken_store.specs.Apart.{disks_apart};
ghost use Rattle.ken_ship.specs.Causes.{HasCause};
ghost use Rattle.ken_ship.specs.Emitting.{outlet_answer};
ghost use Rattle.ken_ship.specs.Fates.{Follows, Suffers};
ghost use Rattle.ken_ship.specs.Parts.{part_of};
ghost use Rattle.ken_node.specs.Clauses.{EmitsAs, HearsAs, PatchesAs, SendsAs, SettlesAs, SyncsDisks, TurnsAs};
ghost use Rattle.ken_node.specs.NodeCalls.{DisksFailBy, UnlessMemory};
ghost use Rattle.ken_node.specs.Synced.{HasMadeSync, KeepsStory};
ghost use Rattle.ken_node.specs.declared.stage.Stage.TheVariants.{Created};
ghost use Rattle.ken_node.specs.Up.{MayBeCalled, MayBeCalledOn, MayTakeTurns};

use ken_app::{App, Oracle};
use ken_disk::Disk;
use ken_net::Net;
use ken_ship::{Emit, NodeFault, Outlet, SendWorker};
use ken_work::{PatchWorker, Took, TurnWorker, meet};
use std::alloc::AllocError;

// A page is written.
pub(crate) fn patch<D: Disk>(
    turns: &mut TurnWorker<D>,
    patches: &mut PatchWorker<D>,
    sends: &mut SendWorker,
) -> Result<bool, NodeFault>
    requires { MayBeCalled D.told D.size (Created turns.old patches.old sends.old) }
    ensures side { turns.new.side ≡ turns.old.side }
    ensures steps { PatchesAs D.Disk (Created turns.old patches.old sends.old) result (Created turns.new patches.new sends.new) }
    ensures disks { DisksFailBy D.told D.faults D.fate result (disks_apart turns.old.side patches.old.side) (disks_apart turns.new.side patches.new.side) }
    ensures image { KeepsStory (D.told patches.old.side.image.disk) (D.told patches.new.side.image.disk) }
    ensures emissions { (part_of sends.new).emissions ≡ (part_of sends.old).emissions }
    ensures refusals { (part_of sends.new).refusals ≡ (part_of sends.old).refusals }
{
    let answer = patches.patch_once();
    meet(turns, patches, sends)?;
    answer
}

// The image is synced.
pub(crate) fn settle<D: Disk>(
    turns: &mut TurnWorker<D>,
    patches: &mut PatchWorker<D>,
    sends: &mut SendWorker,
) -> Result<(), NodeFault>
    requires { MayBeCalled D.told D.size (Created turns.old patches.old sends.old) }
    ensures side { turns.new.side ≡ turns.old.side }
    ensures steps { SettlesAs D.Disk (Created turns.old patches.old sends.old) result (Created turns.new patches.new sends.new) }
    ensures disks { DisksFailBy D.told D.faults D.fate result (disks_apart turns.old.side patches.old.side) (disks_apart turns.new.side patches.new.side) }
    ensures image { OnOk result (HasMadeSync (D.told patches.old.side.image.disk) (D.told patches.new.side.image.disk)) }
    ensures emissions { (part_of sends.new).emissions ≡ (part_of sends.old).emissions }
    ensures refusals { (part_of sends.new).refusals ≡ (part_of sends.old).refusals }
{
    let answer = patches.settle();
    meet(turns, patches, sends)?;
    answer
}

// What is due is sent.
pub(crate) fn send<D: Disk, N: Net>(
    turns: &mut TurnWorker<D>,
    patches: &mut PatchWorker<D>,
    sends: &mut SendWorker,
    net: &mut N,
) -> Result<(), AllocError>
    requires { MayBeCalledOn D.told D.size (N.node net.old) (N.nodes net.old) (Created turns.old patches.old sends.old) }
    ensures steps { SendsAs D.Disk N.Net (Created turns.old patches.old sends.old) net.old result (Created turns.new patches.new sends.new) net.new }
    ensures disks { disks_apart turns.new.side patches.new.side ≡ disks_apart turns.old.side patches.old.side }
    ensures emissions { (part_of sends.new).emissions ≡ (part_of sends.old).emissions }
    ensures refusals { (part_of sends.new).refusals ≡ (part_of sends.old).refusals }
    ensures end { (N.node net.new ≡ N.node net.old) × (N.nodes net.new ≡ N.nodes net.old) }
    ensures given { N.given_between net.old net.new [] }
    ensures nones { N.nones net.new ≡ N.nones net.old }
{
    let answer = sends.send_due(net);
    meet(turns, patches, sends)?;
    answer
}

// Acknowledgements are taken.
pub(crate) fn hear<D: Disk, N: Net>(
    turns: &mut TurnWorker<D>,
    patches: &mut PatchWorker<D>,
    sends: &mut SendWorker,
    net: &mut N,
) -> Result<(), AllocError>
    requires { MayBeCalledOn D.told D.size (N.node net.old) (N.nodes net.old) (Created turns.old patches.old sends.old) }
    ensures steps { HearsAs D.Disk N.Net (Created turns.old patches.old sends.old) net.old result (Created turns.new patches.new sends.new) net.new }
    ensures disks { disks_apart turns.new.side patches.new.side ≡ disks_apart turns.old.side patches.old.side }
    ensures emissions { OnOk result ((part_of sends.new).emissions ≡ (part_of sends.old).emissions) }
    ensures refusals { OnOk result ((part_of sends.new).refusals ≡ (part_of sends.old).refusals) }
    ensures end { (N.node net.new ≡ N.node net.old) × (N.nodes net.new ≡ N.nodes net.old) }
    ensures put { N.put_between net.old net.new [] }
{
    let answer = sends.take_acks(net);
    meet(turns, patches, sends)?;
    answer
}

// The output that is due is emitted.
pub(crate) fn emit<D: Disk, O: Outlet>(
    turns: &mut TurnWorker<D>,
    patches: &mut PatchWorker<D>,
    sends: &mut SendWorker,
    out: &mut O,
) -> Result<Emit, NodeFault>
    requires { MayBeCalled D.told D.size (Created turns.old patches.old sends.old) }
    ensures steps { EmitsAs D.Disk O.Outlet (Created turns.old patches.old sends.old) out.old result (Created turns.new patches.new sends.new) out.new }
    ensures disks { disks_apart turns.new.side patches.new.side ≡ disks_apart turns.old.side patches.old.side }
    ensures cause { UnlessMemory result (HasCause (O.faults out.old) (O.faults out.new) (outlet_answer result)) }
    ensures fate { UnlessMemory result (Follows (Suffers (outlet_answer result)) (O.fate out.old) (O.fate out.new)) }
{
    let answer = sends.emit_once(out);
    meet(turns, patches, sends)?;
    answer
}

// A turn is made.
pub(crate) fn turn<D: Disk, N: Net, A: App, O: Oracle>(
    turns: &mut TurnWorker<D>,
    patches: &mut PatchWorker<D>,
    sends: &mut SendWorker,
    net: &mut N,
    app: &A,
    oracle: &mut O,
) -> Result<Took, NodeFault>
    requires { MayTakeTurns D.told D.size (A.handler app.now) (N.node net.old) (N.nodes net.old) (Created turns.old patches.old sends.old) }
    ensures steps { TurnsAs D.Disk N.Net O.Oracle (A.handler app.now)
        (Created turns.old patches.old sends.old) net.old oracle.old result (Created turns.new patches.new sends.new) net.new oracle.new }
    ensures disks { DisksFailBy D.told D.faults D.fate result (disks_apart turns.old.side patches.old.side) (disks_apart turns.new.side patches.new.side) }
    ensures synced { SyncsDisks D.Disk (A.handler app.now) (Created turns.old patches.old sends.old)
        (disks_apart turns.old.side patches.old.side) result (disks_apart turns.new.side patches.new.side) }
    ensures image { D.told patches.new.side.image.disk ≡ D.told patches.old.side.image.disk }
    ensures emissions { (part_of sends.new).emissions ≡ (part_of sends.old).emissions }
    ensures refusals { (part_of sends.new).refusals ≡ (part_of sends.old).refusals }
    ensures end { (N.node net.new ≡ N.node net.old) × (N.nodes net.new ≡ N.nodes net.old) }
    ensures clocks_go_on { HasAnswered (O.telling.clocks oracle.old) (O.telling.clocks oracle.new) }
    ensures words_go_on { HasAnswered (O.telling.words oracle.old) (O.telling.words oracle.new) }
    ensures origin { O.telling.origin oracle.new ≡ O.telling.origin oracle.old }
    ensures undrawn { IfOk result (λ took. (took ≡ Took.Turn) ⊎ (oracle.new ≡ oracle.old)) }
{
    let answer = turns.turn_once(net, app, oracle);
    meet(turns, patches, sends)?;
    answer
}
