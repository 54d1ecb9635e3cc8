// A soak run, and its summary.
ghost use Rattle.std.specs.Prelude.{◌≡◌, ◌≢◌, ◌≤◌, IfOk, IfErr, OnOk};
ghost use Rattle.ken_io.specs.Causes.{Rose};
ghost use Rattle.ken_drive.specs.Clauses.{views_of};
ghost use Rattle.ken_soak.specs.Soaking.{MaySoak};
ghost use Rattle.ken_top.specs.Does.{SumsUp};
ghost use Rattle.ken_top.specs.Headline.{IsTextOut};
ghost use Rattle.ken_top.specs.Statuses.{of_running};

use crate::status::Status;
use crate::writing::written;
use ken_drive::{RunFault, World};
use ken_io::Sink;
use ken_model::Octets;
use ken_soak::{soak, soak_alone};
use std::alloc::Global;
use std::sync::Wait;
use std::thread::Threads;

/// Runs the script that is made of a seed and these numbers, and writes the summary of its run.
pub(crate) fn soaked<R: Threads + Wait + Sync, K: Sink, W: World>(
    rt: &R,
    alloc: Global,
    seed: u64,
    nodes: u8,
    inputs: u16,
    rounds: u64,
    sink: &mut K,
    world: &mut W,
) -> Status
    requires { MaySoak nodes inputs rounds (W.kept world.old) }
    ensures sums { SumsUp K.Sink (views_of W.Dev.Disk W.Luck.Oracle W.Out.Outlet W.scripted) (W.kept world.new)
        seed nodes inputs rounds sink.old sink.new result }
    ensures files { W.filing world.new ≡ W.filing world.old }
{
    let soak = soak(rt, alloc, seed, nodes, inputs, rounds, world);
    summed_up(sink, soak)
}

/// Does what `soaked` does, with no rounds.
pub(crate) fn soaked_alone<K: Sink, W: World>(
    alloc: Global,
    seed: u64,
    nodes: u8,
    inputs: u16,
    sink: &mut K,
    world: &mut W,
) -> Status
    requires { MaySoak nodes inputs 0 (W.kept world.old) }
    ensures sums { SumsUp K.Sink (views_of W.Dev.Disk W.Luck.Oracle W.Out.Outlet W.scripted) (W.kept world.new)
        seed nodes inputs 0 sink.old sink.new result }
    ensures files { W.filing world.new ≡ W.filing world.old }
{
    let soak = soak_alone(alloc, seed, nodes, inputs, world);
    summed_up(sink, soak)
}

/// Writes the summary of a soak, or answers why there is none.
fn summed_up<K: Sink>(sink: &mut K, soak: Result<Octets, RunFault>) -> Status
    ensures out { IfOk soak (λ text. IsTextOut text Status.Settled (K.took sink.old) (K.took sink.new) result) }
    ensures refused { IfErr soak (λ fault. (result ≡ of_running fault) × (sink.new ≡ sink.old)) }
    ensures write { OnOk soak (result ≡ Status.Write → Rose (K.faults sink.old) (K.faults sink.new)) }
    ensures no_failed_write { OnOk soak (result ≢ Status.Write → K.faults sink.new ≡ K.faults sink.old) }
    ensures faults { K.faults sink.old ≤ K.faults sink.new }
{
    match soak {
        Ok(text) => written(sink, text.as_slice(), Status::Settled),
        Err(fault) => Status::from(fault),
    }
}
