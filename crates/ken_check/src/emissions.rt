// Emission lines.
ghost use Rattle.std.specs.Prelude.{◌≡◌};
ghost use Rattle.ken_model.specs.Report.{IsOneLine};
ghost use Rattle.ken_check.specs.Kinds.{IsEmissionLine, IsEmissionOf};
ghost use Rattle.ken_check.specs.Knowing.{IsBeforeRestarts, Hears, IsReading};

use crate::checker::{Checker, is_line};
use crate::words::{node_at, number_at};
use ken_report::put_emission;
use std::alloc::AllocError;

impl<'a> Checker<'a> {
    /// Whether the next line is right as an emission line.
    pub(crate) fn emission(&mut self, text: &[u8]) -> Result<bool, AllocError>
        requires reading { IsReading self.old }
        requires one_line { IsOneLine text.now }
        ensures { Hears (λ g _. IsEmissionLine g) self.old self.new text.now result }
    {
        if self.ended || self.heaps != 0 || self.has_restarts {
            return Ok(false);
        }
        match (node_at(text, 1), number_at(text, 2)) {
            (Some(node), Some(number)) => self.emit(node, number, text),
            _ => Ok(false),
        }
    }

    /// Tells whether a line is the emission of a node's output of that number, and that the next may be.
    fn emit(&mut self, node: u8, number: u64, text: &[u8]) -> Result<bool, AllocError>
        requires reading { IsReading self.old }
        requires one_line { IsOneLine text.now }
        requires before { IsBeforeRestarts self.old }
        ensures { Hears (λ g _. IsEmissionOf g node number) self.old self.new text.now result }
    {
        if node >= self.facts.nodes || node < self.emitter {
            return Ok(false);
        }
        let known = &mut self.nodes[usize::from(node)];
        if number == 0 || number - 1 > known.emitted {
            return Ok(false);
        }
        let Some(out) = known.outs.get((number - 1) as usize) else {
            return Ok(false);
        };
        self.buffer.clear();
        put_emission(&mut self.buffer, node, out)?;
        if !is_line(self.buffer.as_slice(), text) {
            return Ok(false);
        }
        known.emitted = known.emitted.max(number);
        self.emitter = node;
        self.has_emissions = true;
        Ok(true)
    }
}
