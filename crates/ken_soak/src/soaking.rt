// A soak run.
ghost use Rattle.std.specs.Prelude.{◌≡◌, ℕ, IfOk};
ghost use Rattle.ken_drive.specs.Clauses.{views_of};
ghost use Rattle.ken_gen.specs.Summary.{summary};
ghost use Rattle.ken_soak.specs.Soaking.{IsSoakRun, MaySoak, Soaked};

use crate::totals::totals_of;
use ken_drive::{RunFault, World, drive_kind, drive_kind_alone};
use ken_gen::{script_of, summary_of};
use ken_model::{Lines, Octets};
use std::alloc::{AllocError, Global};
use std::sync::Wait;
use std::thread::Threads;

/// Makes a script of a seed, for 1 to 8 nodes with up to 10,000 inputs and 1,000 rounds, runs it over the devices of a world, and answers the
/// summary of what its nodes came to. The errors are those of `drive_kind`: over a world whose devices fail only where they were told to,
/// a soak run brings no node down, so only want of memory is left. The world keeps the devices of a run that has ended, or of which a
/// node is down.
pub fn soak<R: Threads + Wait + Sync, W: World>(
    rt: &R,
    alloc: Global,
    seed: u64,
    nodes: u8,
    inputs: u16,
    rounds: u64,
    world: &mut W,
) -> Result<Octets, RunFault>
    requires { MaySoak nodes inputs rounds (W.kept world.old) }
    ensures soaks { Soaked (views_of W.Dev.Disk W.Luck.Oracle W.Out.Outlet W.scripted) (W.kept world.new)
        seed nodes inputs rounds result }
    ensures files { W.filing world.new ≡ W.filing world.old }
{
    let script = script_of(alloc, seed, nodes, inputs, rounds)?;
    let lines = drive_kind(rt, alloc, &script, world)?;
    Ok(summed_up(alloc, seed, inputs, &lines)?)
}

/// A soak run as `soak` makes it, with no rounds. It starts no thread and waits for nobody.
pub fn soak_alone<W: World>(
    alloc: Global,
    seed: u64,
    nodes: u8,
    inputs: u16,
    world: &mut W,
) -> Result<Octets, RunFault>
    requires { MaySoak nodes inputs 0 (W.kept world.old) }
    ensures soaks { Soaked (views_of W.Dev.Disk W.Luck.Oracle W.Out.Outlet W.scripted) (W.kept world.new)
        seed nodes inputs 0 result }
    ensures files { W.filing world.new ≡ W.filing world.old }
{
    let script = script_of(alloc, seed, nodes, inputs, 0)?;
    let lines = drive_kind_alone(alloc, &script, world)?;
    Ok(summed_up(alloc, seed, inputs, &lines)?)
}

/// The summary of what the nodes of a soak run came to.
fn summed_up(alloc: Global, seed: u64, inputs: u16, lines: &Lines) -> Result<Octets, AllocError>
    requires { (nodes : ℕ) × IsSoakRun seed nodes inputs lines.now }
    ensures { (nodes : ℕ) → IsSoakRun seed nodes inputs lines.now
        → IfOk result (λ text. text ≡ summary seed nodes inputs) }
{
    let totals = totals_of(alloc, lines)?;
    summary_of(alloc, seed, inputs, totals.as_slice())
}
