// A service as a player.
ghost use Rattle.ken_app.specs.Limited.{limited};

use crate::heap::Heap;
use ken_actors::{Played, Player};
use ken_app::Service;
use ken_model::{Message, PAGE, Value};
use std::alloc::{AllocError, Global};

/// A service as a player of the turns that a report names: it makes each within the limits, as nodes do.
#[derive(Clone, Copy, Debug, Drop)]
pub struct ServicePlayer<S> {
    pub service: S,
}

impl<S: Service> Player for ServicePlayer<S> {
    type Heap = Heap;

    ghost handler = { λ player. limited (S.handler player.service) };

    ghost value = { λ heap. heap };

    fn empty(&self, alloc: Global, size: u64) -> Result<Heap, AllocError> {
        Heap::empty(alloc, (size / PAGE) as u32)
    }

    /// After an error the heap is as before.
    fn play(
        &self,
        alloc: Global,
        node: u8,
        nodes: u8,
        heap: &mut Heap,
        message: &Message,
        draws: &[u64],
    ) -> Result<Option<Played>, AllocError> {
        heap.play(alloc, &self.service, node, nodes, message, draws)
    }

    fn value_of(&self, alloc: Global, heap: &Heap) -> Result<Value, AllocError> {
        heap.value(alloc)
    }
}
