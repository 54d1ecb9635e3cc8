// Rows of a run of abstract actors.
ghost use Rattle.std.specs.Prelude.{◌≡◌};

use crate::row::{Answered, Row};
use ken_actors::{Actors, KindPlayer};
use ken_model::{Facts, Input, Items, Kind, MAX_TEXT, Shared, Step};
use ken_rows::RowFault;

/// A run with heaps of one page and one input, for node 0.
#[derive(Drop)]
pub(crate) struct Run {
    nodes: u8,
    actors: Actors<'static, KindPlayer>,
    ghost known: { actors.facts.nodes ≡ nodes },
}

impl Run {
    /// KIND NODES TURNS TEXT. The facts and the player are never given back, since the actors borrow them.
    pub(crate) fn start(row: &mut Row<'_, '_>) -> Result<Run, RowFault> {
        let kind = Kind::of(row.words.word()?).ok_or(RowFault::Usage)?;
        let nodes = row.words.within(1, 8)? as u8;
        let turns = row.words.within(1, 100_000)?;
        let text = row.text()?;
        if text.len() > MAX_TEXT {
            return Err(RowFault::Usage);
        }
        let facts = Facts {
            nodes,
            kind,
            size: 256,
            turns,
            inputs: Items::new(vec![in row.alloc; Input { node: 0, text }]?),
        };
        let facts = Box::leak(Box::new(row.alloc, facts)?);
        let player = Box::leak(Box::new(row.alloc, KindPlayer(kind))?);
        let actors = Actors::start(row.alloc, facts, player)?;
        Ok(Run { nodes, actors })
    }

    /// NODE FROM DRAWS: what a step makes and the heap of its node then, or why it isn't made.
    pub(crate) fn step(&mut self, row: &mut Row<'_, '_>) -> Answered {
        let node = row.words.within(0, 255)? as u8;
        let from = row.words.within(0, 255)? as u8;
        let draws = Shared::new(row.alloc, row.words.numbers(row.alloc)?)?;
        let done = match self.actors.step(&Step { node, from, draws }) {
            Ok(done) => done,
            Err(fault) => return row.put(format!(in row.alloc; "{fault}")?),
        };
        row.answer.named("stamp", done.stamp)?;
        row.answer.named("number", done.number)?;
        row.answer.end()?;
        for send in done.sends.as_slice() {
            let word = format!(in row.alloc; "send {}", send.to)?;
            row.put_text(word.as_str(), &send.bytes)?;
        }
        for out in done.outs.as_slice() {
            row.put_text("out", &out.text)?;
        }
        if node < self.nodes {
            row.put_value(&self.actors.value(node)?)?;
        }
        Ok(())
    }
}
