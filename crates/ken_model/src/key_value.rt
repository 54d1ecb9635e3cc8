// What a handler of kind kv makes of a message.
ghost use Rattle.std.specs.Prelude.{◌≡◌, ◌+◌, ◌≤◌, length, drop, IfOk};
ghost use Rattle.ken_model.specs.Effects.{answered};
ghost use Rattle.ken_model.specs.Heap.{IsHeap, first_gap};
ghost use Rattle.ken_model.specs.KeyValue.{kv, put_at, get_from, delete_from, pair_of, command_of};
ghost use Rattle.ken_model.specs.Answers.{changed, effect_by};

use crate::handler::{Answer, BAD, BlockChange, alone};
use crate::{Command, Octets, Value};
use std::alloc::{AllocError, Global};

/// The answer to a put or a delete that was made.
pub(crate) const OK: &[u8] = b"ok";

/// The answer to a put that no gap has room for.
pub(crate) const FULL: &[u8] = b"full";

/// The answer to a key that has no pair.
pub(crate) const NONE: &[u8] = b"none";

/// What a node with that heap is to do about a payload.
pub(crate) fn answer(alloc: Global, value: &Value, payload: &[u8]) -> Result<Answer, AllocError>
    requires { IsHeap value.now }
    ensures { IfOk result (λ a. kv value.now (command_of payload.now) ≡ effect_by value.now a) }
{
    match Command::of(payload) {
        Some(Command::Put { key, pair }) => put(alloc, value, key, pair),
        Some(Command::Get { key }) => get(alloc, value, key),
        Some(Command::Delete { key }) => delete(alloc, value, key),
        None => told(alloc, value, BlockChange::Keep, BAD),
    }
}

/// Puts a pair into the first gap, and then the key's old pair goes.
fn put(alloc: Global, value: &Value, key: &[u8], pair: &[u8]) -> Result<Answer, AllocError>
    requires { IsHeap value.now }
    ensures { IfOk result (λ a. put_at value.now pair.now (pair_of key.now value.now.blocks) (first_gap value.now (length pair.now)) ≡ effect_by value.now a) }
{
    let Some(place) = value.first_gap(pair.len()) else {
        return told(alloc, value, BlockChange::Keep, FULL);
    };
    let change = BlockChange::Put {
        place,
        bytes: Octets::new(Vec::from_slice(alloc, pair)?),
        old: value.place_of_pair(key),
    };
    told(alloc, value, change, OK)
}

/// The text of a key.
fn get(alloc: Global, value: &Value, key: &[u8]) -> Result<Answer, AllocError>
    ensures { IfOk result (λ a. get_from value.now key.now (pair_of key.now value.now.blocks) ≡ effect_by value.now a) }
{
    let text = match value.pair_of(key) {
        Some(pair) => text_after(pair.bytes.as_slice(), key),
        None => NONE,
    };
    told(alloc, value, BlockChange::Keep, text)
}

/// What stands in a pair after its key and a space.
fn text_after<'a>(pair: &'a [u8], key: &[u8]) -> &'a [u8]
    requires { length key.now + 1 ≤ length pair.now }
    ensures { result.now ≡ drop (length key.now + 1) pair.now }
{
    &pair[key.len() + 1..]
}

/// Takes a key's pair away.
fn delete(alloc: Global, value: &Value, key: &[u8]) -> Result<Answer, AllocError>
    ensures { IfOk result (λ a. delete_from value.now (pair_of key.now value.now.blocks) ≡ effect_by value.now a) }
{
    match value.place_of_pair(key) {
        Some(place) => told(alloc, value, BlockChange::Delete { place }, OK),
        None => told(alloc, value, BlockChange::Keep, NONE),
    }
}

/// One output and a change of the blocks.
pub(crate) fn told(
    alloc: Global,
    value: &Value,
    change: BlockChange,
    text: &[u8],
) -> Result<Answer, AllocError>
    ensures { IfOk result (λ a. answered (record value.now { blocks = changed change value.now.blocks }) text.now ≡ effect_by value.now a) }
{
    Ok(Answer {
        root: value.root,
        blocks: change,
        sends: Vec::new(alloc),
        outs: alone(alloc, Octets::new(Vec::from_slice(alloc, text)?))?,
    })
}
