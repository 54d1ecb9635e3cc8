// Restart lines.
ghost use Rattle.std.specs.Prelude.{◌≡◌};
ghost use Rattle.std.specs.Bool.{Decides};
ghost use Rattle.ken_check.specs.Counts.{IsAllowed};
ghost use Rattle.ken_check.specs.Kinds.{IsRestartLine, IsRestartOf};
ghost use Rattle.ken_check.specs.Knowing.{IsBeforeHeaps, Hears, IsReading};

use crate::checker::{Checker, is_line};
use crate::known::Known;
use crate::words::{node_at, number_at};
use ken_model::RestartLine;
use ken_report::put_restart;
use std::alloc::AllocError;

impl<'a> Checker<'a> {
    /// Whether the next line is right as a restart line.
    pub(crate) fn restart(&mut self, text: &[u8]) -> Result<bool, AllocError>
        requires reading { IsReading self.old }
        ensures { Hears IsRestartLine self.old self.new text.now result }
    {
        if self.ended || self.heaps != 0 {
            return Ok(false);
        }
        match (node_at(text, 1), number_at(text, 3)) {
            (Some(node), Some(turns)) => self.restart_at(RestartLine { node, turns }, text),
            _ => Ok(false),
        }
    }

    /// Tells whether a line is that of a restart, and that the next may be.
    fn restart_at(&mut self, restart: RestartLine, text: &[u8]) -> Result<bool, AllocError>
        requires reading { IsReading self.old }
        requires before { IsBeforeHeaps self.old }
        ensures { Hears (λ g most. IsRestartOf g most restart) self.old self.new text.now result }
    {
        if restart.node >= self.facts.nodes || restart.node < self.restarted {
            return Ok(false);
        }
        let known = &mut self.nodes[usize::from(restart.node)];
        if !may_restart(known, self.most, restart.turns) {
            return Ok(false);
        }
        self.buffer.clear();
        put_restart(&mut self.buffer, &restart)?;
        if !is_line(self.buffer.as_slice(), text) {
            return Ok(false);
        }
        known.restarts += 1;
        known.recovered = restart.turns;
        self.restarted = restart.node;
        self.has_restarts = true;
        Ok(true)
    }
}

/// Whether a node that may be restarted `most` times may be restarted once more, and go on with so many turns.
fn may_restart(known: &Known, most: u64, turns: u64) -> bool
    ensures { Decides result (IsAllowed most turns known.now) }
{
    known.restarts < most && known.recovered <= turns && turns <= known.turns
}
