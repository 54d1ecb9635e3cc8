// What the keeper of a name decides.
ghost use Rattle.std.specs.Prelude.{◌≡◌, ◌+◌, length, None, IfOk, IsSome};
ghost use Rattle.ken_model.specs.Heap.{IsHeap, first_gap};
ghost use Rattle.ken_model.specs.Orders.{IsNameLong};
ghost use Rattle.ken_leases.specs.Found.{IsLeaseAt};
ghost use Rattle.ken_leases.specs.Leases.{lease_of, opened, replaced, acquired, prolonged, renewed, given_back, decided};

use crate::blocks::{self, Found, Lease};
use crate::commands::Action;
use crate::texts::{self, ROOM};
use arrayvec::ArrayVec;
use ken_alloc::Objects;
use std::alloc::AllocError;

/// Decides what a node asks about a name at a reading of the clock: the answer. After an error the heap is to be taken back.
pub(crate) fn decide(
    objects: &mut Objects,
    node: u8,
    reading: u64,
    name: &[u8],
    action: Action,
) -> Result<ArrayVec<u8, ROOM>, AllocError>
    requires begun { IsSome objects.old.begun }
    requires name { IsNameLong name.now }
    ensures decision { IfOk result (λ text. decided objects.old.value node reading name.now action ≡ (objects.new.value, text.items)) }
    ensures begun { objects.new.begun ≡ objects.old.begun }
{
    match action {
        Action::Acquire { term } => acquire(objects, node, reading, name, term),
        Action::Renew { term } => renew(objects, node, reading, name, term),
        Action::Release => release(objects, node, reading, name),
    }
}

/// Grants a lease where there is none, or from the end of the one before on.
fn acquire(
    objects: &mut Objects,
    node: u8,
    reading: u64,
    name: &[u8],
    term: u64,
) -> Result<ArrayVec<u8, ROOM>, AllocError>
    requires begun { IsSome objects.old.begun }
    requires name { IsNameLong name.now }
    ensures decision { IfOk result (λ text. acquired objects.old.value name.now (record { holder = node; from = reading; until = reading + term }) (lease_of name.now objects.old.value.blocks) ≡ (objects.new.value, text.items)) }
    ensures begun { objects.new.begun ≡ objects.old.begun }
{
    let Some(old) = blocks::find(objects, name) else {
        return acquire_first(objects, node, reading, name, term);
    };
    if reading < old.lease.until {
        return Ok(texts::held(name, old.lease.until));
    }
    let Some(until) = reading.checked_add(term) else {
        return Ok(texts::full(name));
    };
    let lease = Lease {
        holder: node,
        from: reading,
        until,
    };
    grant_next(objects, name, old, lease)
}

/// Grants the first lease of a name, if 64 bits hold its end.
fn acquire_first(
    objects: &mut Objects,
    node: u8,
    reading: u64,
    name: &[u8],
    term: u64,
) -> Result<ArrayVec<u8, ROOM>, AllocError>
    requires heap { IsHeap objects.old.value }
    requires begun { IsSome objects.old.begun }
    requires name { IsNameLong name.now }
    ensures decision { IfOk result (λ text. acquired objects.old.value name.now (record { holder = node; from = reading; until = reading + term }) None ≡ (objects.new.value, text.items)) }
    ensures begun { objects.new.begun ≡ objects.old.begun }
{
    let Some(until) = reading.checked_add(term) else {
        return Ok(texts::full(name));
    };
    let lease = Lease {
        holder: node,
        from: reading,
        until,
    };
    grant_first(objects, name, lease)
}

/// Grants the lease to its holder for a term from now on.
fn renew(
    objects: &mut Objects,
    node: u8,
    reading: u64,
    name: &[u8],
    term: u64,
) -> Result<ArrayVec<u8, ROOM>, AllocError>
    requires begun { IsSome objects.old.begun }
    requires name { IsNameLong name.now }
    ensures decision { IfOk result (λ text. renewed objects.old.value name.now node reading term (lease_of name.now objects.old.value.blocks) ≡ (objects.new.value, text.items)) }
    ensures begun { objects.new.begun ≡ objects.old.begun }
{
    let Some(old) = blocks::find(objects, name) else {
        return Ok(texts::lost(name));
    };
    if !old.lease.is_held(node, reading) {
        return Ok(texts::lost(name));
    }
    let Some(end) = reading.checked_add(term) else {
        return Ok(texts::full(name));
    };
    prolong(objects, name, old, end)
}

/// Grants the lease that was found until a time, if it doesn't end later.
fn prolong(
    objects: &mut Objects,
    name: &[u8],
    old: Found,
    end: u64,
) -> Result<ArrayVec<u8, ROOM>, AllocError>
    requires heap { IsHeap objects.old.value }
    requires begun { IsSome objects.old.begun }
    requires name { IsNameLong name.now }
    requires found { IsLeaseAt name.now objects.old.value.blocks old }
    ensures decision { IfOk result (λ text. prolonged objects.old.value name.now old.lease end ≡ (objects.new.value, text.items)) }
    ensures begun { objects.new.begun ≡ objects.old.begun }
{
    let lease = Lease {
        holder: old.lease.holder,
        from: old.lease.from,
        until: old.lease.until.max(end),
    };
    grant_next(objects, name, old, lease)
}

/// Grants the first lease of a name, if a gap has room for it.
fn grant_first(
    objects: &mut Objects,
    name: &[u8],
    lease: Lease,
) -> Result<ArrayVec<u8, ROOM>, AllocError>
    requires heap { IsHeap objects.old.value }
    requires begun { IsSome objects.old.begun }
    requires name { IsNameLong name.now }
    ensures decision { IfOk result (λ text. opened objects.old.value name.now lease (first_gap objects.old.value (length name.now + 18)) ≡ (objects.new.value, text.items)) }
    ensures begun { objects.new.begun ≡ objects.old.begun }
{
    match blocks::open(objects, name, lease)? {
        Some(_) => Ok(texts::granted(name, lease)),
        None => Ok(texts::full(name)),
    }
}

/// Grants a lease in place of the one that was found.
fn grant_next(
    objects: &mut Objects,
    name: &[u8],
    old: Found,
    lease: Lease,
) -> Result<ArrayVec<u8, ROOM>, AllocError>
    requires heap { IsHeap objects.old.value }
    requires begun { IsSome objects.old.begun }
    requires name { IsNameLong name.now }
    requires found { IsLeaseAt name.now objects.old.value.blocks old }
    ensures decision { IfOk result (λ text. replaced objects.old.value name.now lease ≡ (objects.new.value, text.items)) }
    ensures begun { objects.new.begun ≡ objects.old.begun }
{
    blocks::rewrite(objects, name, old, lease)?;
    Ok(texts::granted(name, lease))
}

/// Takes the lease back from its holder.
fn release(
    objects: &mut Objects,
    node: u8,
    reading: u64,
    name: &[u8],
) -> Result<ArrayVec<u8, ROOM>, AllocError>
    requires begun { IsSome objects.old.begun }
    requires name { IsNameLong name.now }
    ensures decision { IfOk result (λ text. given_back objects.old.value name.now node reading (lease_of name.now objects.old.value.blocks) ≡ (objects.new.value, text.items)) }
    ensures begun { objects.new.begun ≡ objects.old.begun }
{
    let Some(old) = blocks::find(objects, name) else {
        return Ok(texts::lost(name));
    };
    if !old.lease.is_held(node, reading) {
        return Ok(texts::lost(name));
    }
    let lease = Lease {
        holder: old.lease.holder,
        from: old.lease.from,
        until: reading,
    };
    blocks::rewrite(objects, name, old, lease)?;
    Ok(texts::released(name))
}
