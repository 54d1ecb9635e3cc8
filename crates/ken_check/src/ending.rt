// End lines.
ghost use Rattle.std.specs.Prelude.{◌≡◌, ◌-◌, ◌<◌, ◌≤◌, ◌^◌, sum_by};
ghost use Rattle.std.specs.Bool.{Decides};
ghost use Rattle.std.specs.List.{All};
ghost use Rattle.ken_check.specs.Endings.{EndsBy, IsDone};
ghost use Rattle.ken_check.specs.Kinds.{IsEndLine};
ghost use Rattle.ken_check.specs.Knowing.{Hears, IsReading};

use crate::checker::{Checker, is_line};
use crate::known::Known;
use ken_model::Ending;
use ken_report::put_end;
use std::alloc::AllocError;

impl<'a> Checker<'a> {
    /// Whether the next line is right as an end line.
    pub(crate) fn end(&mut self, text: &[u8]) -> Result<bool, AllocError>
        requires reading { IsReading self.old }
        ensures { Hears (λ g _. IsEndLine g) self.old self.new text.now result }
    {
        if self.ended || self.heaps != self.facts.nodes {
            return Ok(false);
        }
        let waiting = waiting(self.nodes.as_slice());
        let Some(ending) = ending(self.facts.turns, self.nodes.as_slice()) else {
            return Ok(false);
        };
        self.buffer.clear();
        put_end(&mut self.buffer, ending, self.turns, waiting)?;
        if !is_line(self.buffer.as_slice(), text) {
            return Ok(false);
        }
        self.ended = true;
        Ok(true)
    }
}

/// How many messages and inputs wait.
fn waiting(nodes: &[Known]) -> u64
    requires taken { All (λ k. k.turns ≤ k.came) nodes.now }
    requires few { sum_by (λ k. k.came - k.turns) nodes.now < 2 ^ 64 }
    ensures { result ≡ sum_by (λ k. k.came - k.turns) nodes.now }
{
    let mut waiting = 0;
    for known in nodes {
        waiting += known.came - known.turns;
    }
    waiting
}

/// How a run has ended whose nodes make at most so many turns, where it has: each output was emitted, and nothing waits
/// for a node that may make a turn.
fn ending(turns: u64, nodes: &[Known]) -> Option<Ending>
    ensures { EndsBy turns nodes.now result }
{
    let mut ending = Ending::Settled;
    for known in nodes {
        if !is_done(known, turns) {
            return None;
        }
        if known.came != known.turns {
            ending = Ending::Cut;
        }
    }
    Some(ending)
}

/// Whether a node emitted all its outputs, and nothing waits for it or it made all its turns.
fn is_done(known: &Known, turns: u64) -> bool
    ensures { Decides result (IsDone turns known.now) }
{
    known.emitted == known.outs.len() as u64 && (known.came == known.turns || known.turns == turns)
}
