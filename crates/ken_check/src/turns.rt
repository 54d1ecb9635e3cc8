// Turn lines.
ghost use Rattle.std.specs.Prelude.{◌≡◌, ◌≢◌, ◌<◌, ◌^◌, false, IfOk};
ghost use Rattle.ken_actors.specs.declared.faults.StepFault.TheVariants.{Memory};
ghost use Rattle.std.specs.Bool.{Decides};
ghost use Rattle.ken_model.specs.Schedule.{ComesBefore};
ghost use Rattle.ken_check.specs.Kinds.{IsTurnLine, IsTurnOf};
ghost use Rattle.ken_check.specs.Knowing.{Answers, IsBeforeEmissions, IsFollowing};

use crate::checker::is_line;
use crate::known::turned;
use crate::reader::Reader;
use crate::words::step_in;
use ken_actors::{Player, StepFault};
use ken_model::{Step, TurnLine};
use ken_report::put_turn;
use std::alloc::AllocError;

impl<'a, P: Player> Reader<'a, P> {
    /// Whether the next line is right as a turn line.
    pub(crate) fn turn(&mut self, text: &[u8]) -> Result<bool, AllocError>
        requires following { IsFollowing P.handler self.old }
        ensures { Answers P.handler (λ g _. IsTurnLine g) self.old self.new text.now result }
    {
        let checker = &self.checker;
        if checker.ended || checker.heaps != 0 || checker.has_restarts || checker.has_emissions {
            return Ok(false);
        }
        match step_in(checker.alloc, text)? {
            Some(step) => self.step(step, text),
            None => Ok(false),
        }
    }

    /// Makes the step that a turn line names, and tells whether the line is the step's.
    fn step(&mut self, step: Step, text: &[u8]) -> Result<bool, AllocError>
        requires following { IsFollowing P.handler self.old }
        requires before { IsBeforeEmissions self.old.checker }
        requires sender { step.from < 2 ^ 8 }
        ensures { Answers P.handler (λ g _. IsTurnOf g step) self.old self.new text.now result }
    {
        if step.node >= self.checker.facts.nodes {
            return Ok(false);
        }
        let done = match self.actors.step(&step) {
            Ok(done) => done,
            Err(fault) => return refusal(fault),
        };
        let checker = &mut self.checker;
        let (node, stamp) = (step.node, done.stamp);
        if !comes_before(checker.stamp, checker.node, stamp, node) {
            return Ok(false);
        }
        checker.buffer.clear();
        put_turn(
            &mut checker.buffer,
            &TurnLine {
                stamp,
                step,
                number: done.number,
            },
        )?;
        if !is_line(checker.buffer.as_slice(), text) {
            return Ok(false);
        }
        turned(&mut checker.nodes, node, done)?;
        checker.turns += 1;
        checker.stamp = stamp;
        checker.node = node;
        Ok(true)
    }
}

/// The answer where a step isn't made: the line is wrong, or memory was short.
fn refusal(fault: StepFault) -> Result<bool, AllocError>
    ensures { IfOk result (λ right. (right ≡ false) × (fault ≢ Memory)) }
{
    match fault {
        StepFault::Memory => Err(AllocError),
        StepFault::Capped | StepFault::NoMessage | StepFault::Draws => Ok(false),
    }
}

/// Whether a pair of stamp and node comes before another.
fn comes_before(stamp: u64, node: u8, later_stamp: u64, later_node: u8) -> bool
    ensures { Decides result (ComesBefore stamp node later_stamp later_node) }
{
    (stamp, node) < (later_stamp, later_node)
}
