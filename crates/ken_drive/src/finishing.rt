// How a run ends.
ghost use Rattle.std.specs.Prelude.{◌≡◌, ◌≢◌, ◌<◌, ◌≤◌, ℕ, length, slice_index_or, Some, Err};
ghost use Rattle.std.specs.Bool.{Decides};
ghost use Rattle.ken_model.specs.declared.facts.TheConstants.{MAX_NODES};
ghost use Rattle.ken_run.specs.declared.station.Station.{Station as Stood};
ghost use Rattle.ken_drive.specs.Finishing.{WereKept, WasKept};

use crate::world::World;
use ken_disk::Disk;
use ken_model::Lines;
use ken_run::{Run, RunFault, Station};
use ken_store::Disks;

/// The devices of a node, its disks without their watch.
pub(crate) fn devices_of<D: Disk, O, U>(station: Station<D, O, U>) -> (Disks<D>, O, U)
    ensures { WasKept station (Some result) }
{
    let Station {
        node: released,
        luck,
        out,
        ..
    } = station;
    let disks = released.release();
    let disks = Disks {
        log: disks.log.into_disk(),
        image: disks.image.into_disk(),
        second: disks.second.into_disk(),
    };
    (disks, luck, out)
}

/// Gives the devices of a node to the world.
pub(crate) fn keep_station<W: World>(
    station: Station<W::Dev, W::Luck, W::Out>,
    node: u8,
    world: &mut W,
)
    requires { node < MAX_NODES }
    ensures given { WasKept station (W.kept world.new node) }
    ensures others { (v : ℕ) → v ≢ node → W.kept world.new v ≡ W.kept world.old v }
    ensures files { W.filing world.new ≡ W.filing world.old }
{
    let (disks, luck, out) = devices_of(station);
    world.keep(node, disks, luck, out);
}

/// Ends a run: the disks, the oracle and the outlet of each node are given to `World::keep`, in rising order.
pub fn finish<W: World, A: Drop>(run: Run<W::Dev, W::Luck, W::Out, A>, world: &mut W)
    requires { length run.stations.items ≤ MAX_NODES }
    ensures given { (v : ℕ) (d : Stood W.Dev W.Luck W.Out) → v < length run.stations.items
        → WasKept (slice_index_or run.stations.items v d) (W.kept world.new v) }
    ensures others { (v : ℕ) → length run.stations.items ≤ v → W.kept world.new v ≡ W.kept world.old v }
    ensures files { W.filing world.new ≡ W.filing world.old }
{
    for (node, station) in (0..).zip(run.into_stations()) {
        keep_station(station, node, world);
    }
}

/// Ends a run that has answered so, as `finish` does; but where memory was short nothing is given back. The answer
/// stays.
pub(crate) fn give_back<W: World, A: Drop>(
    run: Run<W::Dev, W::Luck, W::Out, A>,
    answer: Result<Lines, RunFault>,
    world: &mut W,
) -> Result<Lines, RunFault>
    requires { (answer ≡ Err RunFault.Memory → ⊥) → length run.stations.items ≤ MAX_NODES }
    ensures same { result ≡ answer }
    ensures given { (answer ≡ Err RunFault.Memory → ⊥) → WereKept run (W.kept world.old) (W.kept world.new) }
    ensures none { answer ≡ Err RunFault.Memory → (v : ℕ) → W.kept world.new v ≡ W.kept world.old v }
    ensures files { W.filing world.new ≡ W.filing world.old }
{
    if is_short(&answer) {
        return answer;
    }
    finish(run, world);
    answer
}

/// Whether memory was short.
fn is_short(answer: &Result<Lines, RunFault>) -> bool
    ensures { Decides result (answer.now ≡ Err RunFault.Memory) }
{
    matches!(answer, Err(RunFault::Memory))
}
