// Pairs of a key and a text, each in a block of its own.
ghost use Rattle.std.specs.Prelude.{◌≡◌, ◌+◌, ◌<◌, ◌≤◌, length, take, drop, Some, None, OnErr, IfOk, IfSome, IsSome, IsSomeAnd, MatchOption, codes, if◌then◌else◌};
ghost use Rattle.ken_model.specs.declared.facts.TheConstants.{MAX_TEXT};
ghost use Rattle.ken_model.specs.declared.values.Block.{Block};
ghost use Rattle.ken_model.specs.Heap.{IsHeap, first_gap, block_at};
ghost use Rattle.ken_model.specs.KeyValue.{pair_of, put_at, delete_from};
ghost use Rattle.ken_model.specs.Effects.{answered};
ghost use Rattle.ken_alloc.specs.Objects.{heap_in};
ghost use Rattle.ken_apps.specs.Found.{IsPairAt, with_pair};

use ken_alloc::Objects;
use std::alloc::AllocError;

/// The bytes of a block from its byte `at` on, or as many of them as the buffer has room for, in the buffer.
fn read_block<'b>(objects: &Objects, place: u64, at: usize, buf: &'b mut [u8]) -> &'b [u8]
    requires { IsSomeAnd (block_at place objects.now.value.blocks) (λ bytes. at ≤ length bytes) }
    ensures bytes { IfSome (block_at place objects.now.value.blocks) (λ bytes. result.now ≡ take (length buf.old) (drop at bytes)) }
    ensures short { length result.now ≤ length buf.old }
{
    let left = objects.len_of(place) as usize - at;
    let room = left.min(buf.len());
    let front = &mut buf[..room];
    objects.read(place, at as u64, front);
    front
}

/// The place of a key's pair.
pub(crate) fn find(objects: &Objects, key: &[u8]) -> Option<u64>
    requires { length key.now < MAX_TEXT }
    ensures pair { MatchOption result (pair_of key.now objects.now.value.blocks ≡ None) (IsPairAt key.now objects.now.value.blocks) }
    ensures heap { IsHeap objects.now.value }
{
    let place = objects.find_front(key, b' ')?;
    // A pair's key ends at its first space, so no pair has a key with a space in it.
    if key.contains(&b' ') {
        return None;
    }
    Some(place)
}

/// Keeps a pair, and only then lets the key's old pair go. False where no gap fits the new one: the heap's value is then as
/// before. After an error the heap is to be taken back.
pub(crate) fn put(objects: &mut Objects, key: &[u8], pair: &[u8]) -> Result<bool, AllocError>
    requires begun { IsSome objects.old.begun }
    requires short { length key.now < MAX_TEXT }
    requires some { 0 < length pair.now }
    ensures value { IfOk result (λ kept. put_at objects.old.value pair.now (pair_of key.now objects.old.value.blocks) (first_gap objects.old.value (length pair.now))
        ≡ answered objects.new.value (if kept then codes "ok" else codes "full")) }
    ensures begun { objects.new.begun ≡ objects.old.begun }
{
    let old = find(objects, key);
    if keep(objects, pair)?.is_none() {
        return Ok(false);
    }
    if let Some(old) = old {
        objects.free(old)?;
    }
    Ok(true)
}

/// Keeps a pair in the first gap that it fits into: its place. After an error the heap is to be taken back.
pub(crate) fn keep(objects: &mut Objects, pair: &[u8]) -> Result<Option<u64>, AllocError>
    requires heap { IsHeap objects.old.value }
    requires begun { IsSome objects.old.begun }
    requires some { 0 < length pair.now }
    ensures place { IfOk result (λ place. place ≡ first_gap objects.old.value (length pair.now)) }
    ensures value { IfOk result (λ place. objects.new.value ≡ with_pair place pair.now objects.old.value) }
    ensures begun { objects.new.begun ≡ objects.old.begun }
{
    let Some(place) = objects.alloc(pair.len() as u64)? else {
        return Ok(None);
    };
    objects.write(place, 0, pair)?;
    Ok(Some(place))
}

/// The text that is kept for a key, or as much of it as the buffer has room for, in the buffer.
pub(crate) fn get<'b>(objects: &Objects, key: &[u8], buf: &'b mut [u8]) -> Option<&'b [u8]>
    requires { length key.now < MAX_TEXT }
    ensures text { MatchOption result (pair_of key.now objects.now.value.blocks ≡ None)
        (λ text. (pair : Block) × (pair_of key.now objects.now.value.blocks ≡ Some pair) × (text.now ≡ take (length buf.old) (drop (length key.now + 1) pair.bytes))) }
    ensures short { IfSome result (λ text. length text.now ≤ length buf.old) }
{
    let place = find(objects, key)?;
    Some(read_block(objects, place, key.len() + 1, buf))
}

/// Lets a key's pair go. False where it has none. After an error nothing has changed.
pub(crate) fn delete(objects: &mut Objects, key: &[u8]) -> Result<bool, AllocError>
    requires begun { IsSome objects.old.begun }
    requires short { length key.now < MAX_TEXT }
    ensures value { IfOk result (λ gone. delete_from objects.old.value (pair_of key.now objects.old.value.blocks)
        ≡ answered objects.new.value (if gone then codes "ok" else codes "none")) }
    ensures begun { objects.new.begun ≡ objects.old.begun }
    ensures err { OnErr result (heap_in objects.new ≡ heap_in objects.old) }
{
    let Some(place) = find(objects, key) else {
        return Ok(false);
    };
    objects.free(place)?;
    Ok(true)
}
