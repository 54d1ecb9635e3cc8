// The turns of all nodes in one order.
ghost use Rattle.std.specs.Prelude.{◌≡◌, ◌≢◌, [], ℕ, map, OnOk};
ghost use Rattle.ken_model.specs.declared.reports.TurnLine.{TurnLine};
ghost use Rattle.ken_model.specs.History.{lines_by, Rises};
ghost use Rattle.ken_core.specs.Timeline.{StampsRise};
ghost use Rattle.ken_core.specs.Turns.{effects_line};

use crate::merging::merged;
use ken_model::TurnLine;
use ken_record::Effects;
use std::alloc::{AllocError, Global};
use std::marker::Model;
use std::mem;

/// The turns of a run as lines, in the order of their stamps, and at equal stamps of their nodes.
#[derive(Debug, Drop)]
pub struct Timeline {
    lines: Vec<TurnLine>,
}

impl Model for Timeline {
    ghost use Rattle.std.specs.Prelude.{List};
    ghost use Rattle.ken_model.specs.declared.reports.TurnLine.{TurnLine};
    ghost use Rattle.ken_model.specs.History.{Rises};

    ghost Value = { List TurnLine };

    ghost view = { λ t. t.lines.items };

    ghost invariant = { λ t. Rises 0 0 t.lines.items };
}

impl Timeline {
    pub fn new(alloc: Global) -> Self
        ensures { result ≡ [] }
    {
        Timeline {
            lines: Vec::new(alloc),
        }
    }

    /// Adds all turns of a node that has none yet. After an error lines may be missing.
    pub fn add(&mut self, alloc: Global, node: u8, turns: &[Effects]) -> Result<(), AllocError>
        requires rise { StampsRise 0 (map (effects_line node) turns.now) }
        requires fresh { lines_by node self.old ≡ [] }
        ensures its_lines { OnOk result (lines_by node self.new ≡ map (effects_line node) turns.now) }
        ensures others { OnOk result ((v : ℕ) → v ≢ node → lines_by v self.new ≡ lines_by v self.old) }
    {
        let lines = mem::replace(&mut self.lines, Vec::new(alloc));
        self.lines = merged(alloc, lines, node, turns)?;
        Ok(())
    }

    /// All lines in order.
    pub fn into_lines(self) -> Vec<TurnLine>
        ensures lines { result.items ≡ self }
        ensures rises { Rises 0 0 result.items }
    {
        self.lines
    }
}
