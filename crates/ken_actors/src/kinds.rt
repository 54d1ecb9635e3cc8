// The kinds of scripts as players.
ghost use Rattle.std.specs.Prelude.{◌≡◌, IfOk};
ghost use Rattle.ken_model.specs.declared.values.Value.{Value};
ghost use Rattle.ken_model.specs.Kinds.{handler_of};
ghost use Rattle.ken_model.specs.Network.{empty_heap};
ghost use Rattle.ken_num.specs.Numbers.{num};
ghost use Rattle.ken_actors.specs.Decided.{takes};

use crate::{Played, Player};
use ken_model::{Block, Items, Kind, Message, PAGE, Reaction, TryClone, Value};
use ken_num::num;
use std::alloc::{AllocError, Global};
use std::marker::Model;
use std::mem;

/// Plays the handler of a kind.
#[derive(Clone, Copy, Debug)]
pub struct KindPlayer(pub Kind);

/// A heap as the value that it stands for.
#[derive(Debug, Drop)]
pub struct KindHeap {
    value: Value,
}

impl Model for KindHeap {
    ghost use Rattle.ken_model.specs.declared.values.Value.{Value as HeapValue};
    ghost use Rattle.ken_model.specs.Heap.{IsHeap};

    ghost Value = { HeapValue };

    ghost view = { λ h. h.value };

    ghost invariant = { λ h. IsHeap h.value };
}

impl Player for KindPlayer {
    type Heap = KindHeap;

    ghost handler = { λ player. handler_of player.0 };

    ghost value = { λ heap. heap };

    fn empty(&self, alloc: Global, size: u64) -> Result<KindHeap, AllocError> {
        Ok(KindHeap {
            value: no_blocks(alloc, size),
        })
    }

    fn play(
        &self,
        alloc: Global,
        node: u8,
        nodes: u8,
        heap: &mut KindHeap,
        message: &Message,
        draws: &[u64],
    ) -> Result<Option<Played>, AllocError> {
        if !takes(self.0, message.bytes.as_slice(), draws) {
            return Ok(None);
        }
        let before = mem::replace(&mut heap.value, no_blocks(alloc, PAGE));
        let Some(reaction) = self.0.react(alloc, node, nodes, before, message, draws)? else {
            unreachable!()
        };
        let Reaction { value, sends, outs } = reaction;
        heap.value = value;
        Ok(Some(Played { sends, outs }))
    }

    fn value_of(&self, alloc: Global, heap: &KindHeap) -> Result<Value, AllocError> {
        copy_of(alloc, &heap.value)
    }
}

/// What an empty heap of a size stands for.
fn no_blocks(alloc: Global, size: u64) -> Value
    ensures { result ≡ empty_heap size }
{
    Value {
        size,
        root: 0,
        blocks: Items::new(Vec::new(alloc)),
    }
}

/// Whether a kind takes these draws for a payload.
fn takes(kind: Kind, payload: &[u8], draws: &[u64]) -> bool
    ensures { result ≡ takes kind (num payload.now) draws.now }
{
    match (kind, num(payload), draws) {
        (Kind::Mix, Some(_), [_, _]) => true,
        (Kind::Mix, Some(_), _) => false,
        (_, _, draws) => draws.is_empty(),
    }
}

/// An equal value.
fn copy_of(alloc: Global, value: &Value) -> Result<Value, AllocError>
    ensures { IfOk result (λ copy. copy ≡ value.now) }
{
    let mut blocks = Vec::with_capacity(alloc, value.blocks.len())?;
    for block in value.blocks.as_slice() {
        blocks.push(Block {
            place: block.place,
            bytes: block.bytes.try_clone(alloc)?,
        })?;
    }
    Ok(Value {
        size: value.size,
        root: value.root,
        blocks: Items::new(blocks),
    })
}
