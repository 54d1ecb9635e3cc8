// Copies of data of the core.
ghost use Rattle.std.specs.Prelude.{◌≡◌, IfOk};
ghost use Rattle.ken_cover.specs.Sides.{changes_at, recounted};
ghost use Rattle.ken_core.specs.Turns.{effects_line};

use ken_cover::{Change, Layer};
use ken_model::{Items, Out, Shared, Step, TryClone, TurnLine, copies_of};
use ken_record::{Effects, Page};
use std::alloc::{AllocError, Global};

pub(crate) fn draws(alloc: Global, draws: &[u64]) -> Result<Shared<u64>, AllocError>
    ensures { IfOk result (λ x. x ≡ draws.now) }
{
    Shared::new(alloc, Vec::from_slice(alloc, draws)?)
}

pub(crate) fn outputs(alloc: Global, outs: &[Out]) -> Result<Shared<Out>, AllocError>
    ensures { IfOk result (λ x. x ≡ outs.now) }
{
    Shared::new(alloc, copies_of(alloc, outs)?.into_vec())
}

/// The pages that a turn changed, as the layer of its record.
pub(crate) fn layer(alloc: Global, turn: u64, pages: &[Page]) -> Result<Layer, AllocError>
    ensures { IfOk result (λ l. l ≡ record { turn = turn; changes = changes_at turn pages.now }) }
{
    let mut changes = Vec::with_capacity(alloc, pages.len())?;
    for changed in pages {
        changes.push(Change {
            turn,
            page: changed.try_clone(alloc)?,
        })?;
    }
    Ok(Layer {
        turn,
        changes: Items::new(changes),
    })
}

/// A layer whose pages count as changed by its last turn.
pub(crate) fn recounted(alloc: Global, layer: &Layer) -> Result<Layer, AllocError>
    ensures { IfOk result (λ l. l ≡ recounted layer.now) }
{
    let mut changes = Vec::with_capacity(alloc, layer.changes.len())?;
    for change in layer.changes.as_slice() {
        changes.push(Change {
            turn: layer.turn,
            page: change.page.try_clone(alloc)?,
        })?;
    }
    Ok(Layer {
        turn: layer.turn,
        changes: Items::new(changes),
    })
}

/// A turn, as a line of the report.
pub(crate) fn line(alloc: Global, node: u8, effects: &Effects) -> Result<TurnLine, AllocError>
    ensures { IfOk result (λ l. l ≡ effects_line node effects.now) }
{
    Ok(TurnLine {
        stamp: effects.stamp,
        step: Step {
            node,
            from: effects.from,
            draws: effects.draws.try_clone(alloc)?,
        },
        number: effects.number,
    })
}
