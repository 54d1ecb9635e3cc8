// Who makes the turns of a run that is played plainly.
ghost use Rattle.std.specs.Prelude.{◌≡◌, ℕ, ◌*◌, ◌<◌, ◌≤◌, ◌^◌, length, Some, None, Ok, IfOk, IfSome};
ghost use Rattle.std.specs.List.{AllByRecursion};
ghost use Rattle.ken_model.specs.declared.facts.TheConstants.{MAX_NODES, MAX_PAGES, PAGE};
ghost use Rattle.ken_model.specs.declared.values.Value.{Value};
ghost use Rattle.ken_model.specs.Handler.{Handler};
ghost use Rattle.ken_model.specs.Network.{empty_heap};
ghost use Rattle.ken_actors.specs.Decided.{IsDecided};

use ken_model::{Items, Message, Octets, Send, Value};
use std::alloc::{AllocError, Global};

/// Makes the turns of a run, one at a time.
pub trait Player {
    /// A node's heap, as this player keeps it.
    type Heap: Drop;

    /// The handler function that it plays.
    ghost handler: { Self → Handler };

    /// What a heap stands for.
    ghost value: { Self.Heap → Value };

    /// An empty heap of `size` bytes, which are 1 to `MAX_PAGES` pages of `PAGE` bytes. The error is want of memory.
    fn empty(&self, alloc: Global, size: u64) -> Result<Self::Heap, AllocError>
        requires pages { (n : ℕ) × (0 < n) × (n ≤ MAX_PAGES) × (size ≡ PAGE * n) }
        ensures { IfOk result (λ heap. value heap ≡ empty_heap size) };

    /// Makes the turn in which node `node` of `nodes` takes a message with these draws, and answers what it sent and
    /// output. `None` where the handler takes other draws. After an error, which is want of memory, the heap is of no
    /// further use.
    fn play(
        &self,
        alloc: Global,
        node: u8,
        nodes: u8,
        heap: &mut Self::Heap,
        message: &Message,
        draws: &[u64],
    ) -> Result<Option<Played>, AllocError>
        requires placed { (node < nodes) × (nodes ≤ MAX_NODES) }
        ensures played { IfOk result (λ r. IfSome r (λ p. (handler self.now).after node nodes (value heap.old) message.now draws.now
            ≡ Some (record { value = value heap.new; sends = p.sends; outs = p.outs }))) }
        ensures known { IfOk result (λ r. IfSome r (λ p. AllByRecursion (λ s. s.to < nodes) p.sends)) }
        ensures few { IfOk result (λ r. IfSome r (λ p. length p.sends < 2 ^ 32)) }
        ensures undefined { result ≡ Ok None → IsDecided (handler self.now)
            → (handler self.now).after node nodes (value heap.old) message.now draws.now ≡ None }
        ensures unchanged { result ≡ Ok None → value heap.new ≡ value heap.old };

    /// What a heap stands for, in memory of its own. The error is want of memory.
    fn value_of(&self, alloc: Global, heap: &Self::Heap) -> Result<Value, AllocError>
        ensures { IfOk result (λ v. v ≡ value heap.now) };
}

/// What a turn sent and output.
#[derive(Debug, Drop)]
pub struct Played {
    pub sends: Items<Send>,
    pub outs: Items<Octets>,
}
