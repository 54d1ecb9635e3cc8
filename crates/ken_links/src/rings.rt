// A ring's two ends in one thread.
ghost use Rattle.std.specs.Prelude.{◌≡◌, ◌+◌, ◌<◌, ◌≤◌, [], ◌++◌, length, vec_len, vec_capacity, IsTrue, IfOk, OnOk, OnErr};
ghost use mathlib.Core.List.{IsPrefix};
ghost use Rattle.ken_links.specs.Rings.{pushed, free, popped, known, nones, IsRing, SamePushEnd, SamePopEnd, Moves};

use crate::pop_end::PopEnd;
use crate::push_end::{PushEnd, SLOTS};
use rtrb::RingBuffer;
use std::alloc::{AllocError, Global};

/// An empty ring of 64 slots, all of them known to be free.
pub fn ring<T: Drop>(alloc: Global) -> Result<(PushEnd<T>, PopEnd<T>), AllocError>
    ensures ring { IfOk result (λ r. IsRing r.0 r.1) }
    ensures empty { IfOk result (λ r. (pushed r.0 ≡ []) × (popped r.1 ≡ []) × (known r.1 ≡ [])) }
    ensures free { IfOk result (λ r. free r.0 ≡ 64) }
    ensures nones { IfOk result (λ r. nones r.1 ≡ 0) }
{
    let (producer, consumer) = RingBuffer::new(alloc, SLOTS)?;
    Ok((PushEnd::new(producer), PopEnd::new(consumer)))
}

/// Tells each end of a ring what the other did: then what was popped, and after it what is known to be in the ring, is
/// what was pushed, and each slot without such an item is known to be free. Moves no item, and takes no memory.
pub fn beside<T>(push: &mut PushEnd<T>, pop: &mut PopEnd<T>)
    requires { IsRing push.old pop.old }
    ensures ends { SamePushEnd push.old push.new × SamePopEnd pop.old pop.new × IsRing push.new pop.new }
    ensures same { (pushed push.new ≡ pushed push.old) × (popped pop.new ≡ popped pop.old) × (nones pop.new ≡ nones pop.old) }
    ensures more { (free push.old ≤ free push.new) × IsPrefix (known pop.old) (known pop.new) }
    ensures queued { popped pop.new ++ known pop.new ≡ pushed push.new }
    ensures free { 64 ≤ free push.new + length (known pop.new) }
{
    push.producer.slots_beside(&mut pop.consumer);
    pop.consumer.slots_beside(&mut push.producer);
}

/// Whether a ring is seen to hold nothing, with no more than one look into it, and none where the pushing end doesn't know all
/// slots to be free. `true` means that what was popped is what was pushed. Moves no item, and takes no memory.
pub fn is_drained<T>(push: &mut PushEnd<T>, pop: &mut PopEnd<T>) -> bool
    requires { IsRing push.old pop.old }
    ensures ends { SamePushEnd push.old push.new × SamePopEnd pop.old pop.new × IsRing push.new pop.new }
    ensures same { (pushed push.new ≡ pushed push.old) × (popped pop.new ≡ popped pop.old) × (nones pop.new ≡ nones pop.old) }
    ensures more { (free push.old ≤ free push.new) × IsPrefix (known pop.old) (known pop.new) }
    ensures drained { IsTrue result → (popped pop.new ≡ pushed push.new) × (known pop.new ≡ []) × (64 ≤ free push.new) }
{
    push.free() == SLOTS && pop.consumer.slots_beside(&mut push.producer) == 0
}

/// Moves each item of a ring to the end of a list, oldest first; then 64 slots are known to be free. The error comes only
/// where the list has no room for 64 more items. Then nothing has moved: what was in the ring is there, and known. The list's
/// capacity never shrinks.
pub fn empty<T>(
    push: &mut PushEnd<T>,
    pop: &mut PopEnd<T>,
    into: &mut Vec<T>,
) -> Result<(), AllocError>
    requires { IsRing push.old pop.old }
    ensures ends { SamePushEnd push.old push.new × SamePopEnd pop.old pop.new × IsRing push.new pop.new }
    ensures same { (pushed push.new ≡ pushed push.old) × (nones pop.new ≡ nones pop.old) }
    ensures moved { Moves (popped pop.old) (popped pop.new) into.old.items into.new.items }
    ensures queued { popped pop.new ++ known pop.new ≡ pushed push.new }
    ensures ok { OnOk result ((popped pop.new ≡ pushed push.new) × (64 ≤ free push.new)) }
    ensures err { OnErr result ((popped pop.new ≡ popped pop.old) × (into.new.items ≡ into.old.items)) }
    ensures full { OnErr result (vec_capacity into.old < vec_len into.old + 64) }
    ensures capacity { vec_capacity into.old ≤ vec_capacity into.new }
{
    if is_drained(push, pop) {
        return Ok(());
    }
    beside(push, pop);
    into.reserve(pop.known())?;
    move_known(pop, into);
    beside(push, pop);
    Ok(())
}

// Moves each known item to the end of a list that has room for them.
fn move_known<T>(pop: &mut PopEnd<T>, into: &mut Vec<T>)
    requires { vec_len into.old + length (known pop.old) ≤ vec_capacity into.old }
    ensures end { SamePopEnd pop.old pop.new × (nones pop.new ≡ nones pop.old) }
    ensures popped { popped pop.new ≡ popped pop.old ++ known pop.old }
    ensures list { into.new.items ≡ into.old.items ++ known pop.old }
    ensures capacity { vec_capacity into.new ≡ vec_capacity into.old }
{
    for _ in 0..pop.known() {
        into.push_reserved(pop.pop_known());
    }
}
