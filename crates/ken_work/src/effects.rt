// What is kept of a turn, and what is handed to the externaliser.
ghost use Rattle.std.specs.Prelude.{◌≡◌, ℕ, ◌+◌, ◌<◌, ◌≤◌, ◌^◌, length, map, slice_index, IfOk};
ghost use Rattle.std.specs.List.{AllByRecursion};
ghost use Rattle.ken_model.specs.Posted.{posted_after};
ghost use Rattle.ken_model.specs.Network.{outputs_from};
ghost use Rattle.ken_core.specs.Turns.{sent_of};
ghost use Rattle.ken_record.specs.Grammar.{AtMost, IsWord};
ghost use Rattle.ken_ship.specs.Fits.{AreSent};
ghost use Rattle.ken_work.specs.Making.{IsHanded};
ghost use Rattle.ken_work.specs.Parts.{effects_in};

use ken_model::{Listing, MAX_NODES, Octets, Out, Send, Shared, TryClone};
use ken_record::{Effects, Record, Sent};
use ken_ship::Sealed;
use std::alloc::{AllocError, Global};

// One for each node that there may be.
pub(crate) const NODES: usize = MAX_NODES as usize;

// What a turn drew.
pub(crate) fn draws_of(alloc: Global, draws: &[u64]) -> Result<Shared<u64>, AllocError>
    requires { length draws.now ≤ 16 }
    ensures same { IfOk result (λ items. items ≡ draws.now) }
    ensures words { IfOk result (λ items. AtMost 16 IsWord items) }
{
    let draws = Shared::new(alloc, Vec::from_slice(alloc, draws)?)?;
    Ok(draws)
}

// Messages of a turn, each numbered after the last one to its node.
pub(crate) fn sends_of(
    alloc: Global,
    mut sent: [u64; NODES],
    sends: Vec<Send>,
) -> Result<Shared<Sent>, AllocError>
    requires known { AllByRecursion (λ s. s.to < 8) sends.items }
    requires room { (w : ℕ) → slice_index sent w + length sends.items < 2 ^ 64 }
    ensures { (v stamp : ℕ) → IfOk result (λ items. items ≡ map sent_of (posted_after v stamp (λ w. slice_index sent w) sends.items)) }
{
    let mut numbered = Listing::new(alloc);
    for send in sends {
        let to = usize::from(send.to);
        let number = sent[to] + 1;
        sent[to] = number;
        numbered.push(Sent {
            to: send.to,
            number,
            bytes: send.bytes,
        })?;
    }
    let numbered = numbered.finish(alloc)?;
    Ok(numbered)
}

// Outputs of a turn, numbered after the last one.
#[tactic(auto, unfolding(ken_model::specs::Network::outputs_from))]
pub(crate) fn outs_of(
    alloc: Global,
    mut last: u64,
    texts: Vec<Octets>,
) -> Result<Shared<Out>, AllocError>
    requires { last + length texts.items < 2 ^ 64 }
    ensures { IfOk result (λ outs. outs ≡ outputs_from last texts.items) }
{
    let mut outs = Listing::new(alloc);
    for text in texts {
        last += 1;
        outs.push(Out { number: last, text })?;
    }
    outs.finish(alloc)
}

// What the externaliser is handed of a turn.
pub(crate) fn handed(alloc: Global, turn: u64, effects: &Effects) -> Result<Sealed, AllocError>
    requires { AreSent effects.now.stamp effects.now.sends }
    ensures { IfOk result (IsHanded turn effects.now) }
{
    Ok(Sealed {
        turn,
        stamp: effects.stamp,
        sends: effects.sends.try_clone(alloc)?,
        outs: effects.outs.try_clone(alloc)?,
    })
}

// A copy of what a record keeps of its turn.
pub(crate) fn effects_of(alloc: Global, last: &Record) -> Result<Effects, AllocError>
    ensures { IfOk result (λ e. e ≡ effects_in last.now) }
{
    Ok(Effects {
        from: last.from,
        number: last.number,
        stamp: last.stamp,
        draws: last.draws.try_clone(alloc)?,
        sends: last.sends.try_clone(alloc)?,
        outs: last.outs.try_clone(alloc)?,
    })
}
