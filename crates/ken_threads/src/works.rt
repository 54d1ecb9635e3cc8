// Sixteen steps of a worker.
ghost use Rattle.std.specs.Prelude.{◌≡◌, ℕ, ◌+◌, IfErr, OnOk};
ghost use Rattle.ken_threads.specs.Ran.{Ran};

use crate::gate::{Gate, Role};
use ken_ship::NodeFault;

/// How many steps a worker makes in a round, where none fails.
pub const STEPS: u8 = 16;

/// A worker with what it works on.
pub trait Works {
    ghost use Rattle.ken_ship.specs.declared.faults.NodeFault.{NodeFault};

    /// So many steps may follow.
    ghost may: { ℕ → Self → Type 0 };

    /// A step leads from one state to another.
    ghost steps: { Self → Self → Type 0 };

    /// A step leads there that ended with this fault.
    ghost fails: { NodeFault → Self → Self → Type 0 };

    /// A step. After an error no step may follow in this round.
    fn step(&mut self) -> Result<(), NodeFault>
        requires may { (count : ℕ) × may (count + 1) self.old }
        ensures step { OnOk result (steps self.old self.new) }
        ensures more { (count : ℕ) → may (count + 1) self.old → OnOk result (may count self.new) }
        ensures fault { IfErr result (λ fault. fails fault self.old self.new) };
}

/// A worker of a node in a round, with the fault at which it stopped.
#[derive(Drop)]
pub struct Seat<W> {
    pub node: u8,
    pub worker: W,
    pub fault: Option<NodeFault>,
}

// Sixteen steps of a worker; or those up to the first that fails, and that one, whose fault is kept. The gate is asked before each.
pub(crate) fn run<W: Works, G: Gate>(seat: &mut Seat<W>, role: Role, gate: &G)
    requires { W.may 16 seat.old.worker }
    ensures node { seat.new.node ≡ seat.old.node }
    ensures ran { Ran W.steps W.fails seat.old.worker seat.new.worker seat.new.fault }
{
    seat.fault = None;
    for step in 0..STEPS {
        gate.pass(seat.node, role, step);
        if let Err(fault) = seat.worker.step() {
            seat.fault = Some(fault);
            return;
        }
    }
}
