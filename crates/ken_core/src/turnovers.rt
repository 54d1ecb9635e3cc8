// A turnover of a node.
ghost use Rattle.std.specs.Prelude.{◌≡◌, ◌<◌, ◌^◌, ℕ, [], ◌∷◌, true, false, length, max, IfOk, OnErr, IsTrue, ◌↔◌};
ghost use Rattle.ken_core.specs.Enabled.{AreAtMost};
ghost use Rattle.ken_core.specs.Steps.{raised};

use crate::machine::Machine;
use crate::{Outcome, Told};
use ken_cover::Layer;
use ken_model::Items;
use std::alloc::{AllocError, Global};

impl Machine {
    ghost use Rattle.ken_cover.specs.Covers.{MayLeaveOut};
    ghost use Rattle.ken_core.specs.Machines.{turn_pages, image_pages};
    ghost use Rattle.ken_core.specs.Groups.{node_in};
    ghost use Rattle.ken_core.specs.Marking.{IsSomeKept, KeepsRest};
    ghost use Rattle.ken_core.specs.Turnovers.{IsKnown, TurnsOver, MayNotTurn, rebased_node};

    /// Makes a turnover with what its handler was told: false where that isn't enabled. After that, and after an error,
    /// nothing has changed.
    pub(crate) fn turn_over(
        &mut self,
        alloc: Global,
        outcome: Outcome,
        told: &Told,
    ) -> Result<bool, AllocError>
        requires kept { IsSomeKept self.old }
        requires few { length self.old.pages.unclean < 2 ^ 32 }
        ensures made { IfOk result (λ yes. IsTrue yes → TurnsOver outcome told.now self.old self.new) }
        ensures none { IfOk result (λ yes. yes ≡ false → MayNotTurn told.now self.old) }
        ensures same { IfOk result (λ yes. yes ≡ false → self.new ≡ self.old) }
        ensures err { OnErr result (self.new ≡ self.old) }
    {
        if !self.up {
            return Ok(false);
        }
        if !self.is_known(told) {
            return Ok(false);
        }
        let Some(changes) = self.pages.base(alloc, told.settled)? else {
            return Ok(false);
        };
        let live = one(
            alloc,
            Layer {
                turn: self.ledger.turns.len() as u64,
                changes: Items::new(changes),
            },
        )?;
        match outcome {
            Outcome::Whole => {
                self.turn(live, told);
                Ok(true)
            }
            Outcome::Landed => {
                self.turn(live, told);
                self.up = false;
                Ok(true)
            }
            Outcome::Lost => {
                self.up = false;
                Ok(true)
            }
        }
    }

    /// Whether a handler may be told these numbers: each is at most the known one.
    fn is_known(&self, told: &Told) -> bool
        ensures { IsTrue result ↔ IsKnown told.now self.now }
    {
        let numbers = told.acked.as_slice();
        numbers.len() == self.acked.len()
            && are_at_most(numbers, self.acked.as_slice())
            && told.emitted <= self.emitted
    }

    /// Puts a base in the live records' place, and retires what was told.
    fn turn(&mut self, live: Vec<Layer>, told: &Told)
        requires { length told.now.acked ≡ length self.old.retired.items }
        ensures node { node_in self.new ≡ rebased_node live.items told.now (node_in self.old) }
        ensures rest { KeepsRest self.old self.new }
    {
        self.pages.live = live;
        raise(&mut self.retired, told.acked.as_slice());
        self.retired_outs = self.retired_outs.max(told.emitted);
    }
}

fn one(alloc: Global, layer: Layer) -> Result<Vec<Layer>, AllocError>
    ensures { IfOk result (λ v. v.items ≡ layer ∷ []) }
{
    let mut layers = Vec::new(alloc);
    layers.push(layer)?;
    Ok(layers)
}

/// Whether each number is at most the one at its place in a list as long.
fn are_at_most(told: &[u64], known: &[u64]) -> bool
    requires { length told.now ≡ length known.now }
    ensures { IsTrue result ↔ AreAtMost told.now known.now }
{
    for (place, number) in told.iter().enumerate() {
        if *number > known[place] {
            return false;
        }
    }
    true
}

/// Raises each number to the one at its place in a list as long.
fn raise(numbers: &mut [u64], told: &[u64])
    requires { length told.now ≡ length numbers.old }
    ensures { numbers.new ≡ raised numbers.old told.now }
{
    for place in 0..told.len() {
        numbers[place] = numbers[place].max(told[place]);
    }
}
