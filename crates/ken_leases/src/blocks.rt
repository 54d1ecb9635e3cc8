// Leases in blocks of the heap.
ghost use Rattle.std.specs.Prelude.{◌≡◌, ◌<◌, ◌+◌, length, take, drop, None, OnOk, IfOk, IfSome, IsSome, MatchOption};
ghost use Rattle.ken_model.specs.Heap.{IsHeap, first_gap, block_at};
ghost use Rattle.ken_model.specs.KeyValue.{at_space, is_key, pair_of};
ghost use Rattle.ken_model.specs.Orders.{IsNameLong};
ghost use Rattle.ken_alloc.specs.Objects.{IsBlock};
ghost use Rattle.ken_apps.specs.Found.{IsPairAt, with_pair};
ghost use Rattle.ken_leases.specs.Found.{IsLeaseAt};
ghost use Rattle.ken_leases.specs.Leases.{lease_bytes, lease_in, lease_of, with_lease, is_held};

use crate::texts::{ROOM, append};
use arrayvec::ArrayVec;
use byteorder::{BigEndian, ByteOrder};
use ken_alloc::Objects;
use ken_model::{MAX_NAME, is_pair_of};
use std::alloc::AllocError;

/// How many bytes stand after the name and the space.
const FIELDS: usize = 17;

/// A lease: which node holds the name, from when and until when, by its keeper's clock.
#[derive(Clone, Copy)]
pub(crate) struct Lease {
    pub holder: u8,
    pub from: u64,
    pub until: u64,
}

impl Lease {
    /// Whether a node holds it at a reading of the clock.
    pub(crate) fn is_held(&self, node: u8, reading: u64) -> bool
        ensures { result ≡ is_held node reading self.now }
    {
        self.holder == node && self.from <= reading && reading < self.until
    }
}

/// A lease that was found.
#[derive(Clone, Copy)]
pub(crate) struct Found {
    pub place: u64,
    pub lease: Lease,
}

/// The lease of a name.
pub(crate) fn find(objects: &Objects, name: &[u8]) -> Option<Found>
    requires { IsNameLong name.now }
    ensures lease { MatchOption result (lease_of name.now objects.now.value.blocks ≡ None) (IsLeaseAt name.now objects.now.value.blocks) }
    ensures heap { IsHeap objects.now.value }
{
    let place = place_of(objects, name)?;
    let before = name.len() + 1;
    if objects.len_of(place) != (before + FIELDS) as u64 {
        return None;
    }
    let mut fields = [0; FIELDS];
    objects.read(place, before as u64, &mut fields);
    Some(Found {
        place,
        lease: lease_in(&fields),
    })
}

/// Writes the first lease of a name, in the first gap that it fits into: its place. After an error the heap is to be taken back.
pub(crate) fn open(
    objects: &mut Objects,
    name: &[u8],
    lease: Lease,
) -> Result<Option<u64>, AllocError>
    requires heap { IsHeap objects.old.value }
    requires begun { IsSome objects.old.begun }
    requires name { IsNameLong name.now }
    ensures place { IfOk result (λ place. place ≡ first_gap objects.old.value (length name.now + 18)) }
    ensures value { IfOk result (λ place. objects.new.value ≡ with_pair place (lease_bytes name.now lease) objects.old.value) }
    ensures begun { objects.new.begun ≡ objects.old.begun }
{
    keep(objects, lease_bytes(name, lease).as_slice())
}

/// Keeps a pair in the first gap that it fits into: its place. After an error the heap is to be taken back.
fn keep(objects: &mut Objects, pair: &[u8]) -> Result<Option<u64>, AllocError>
    requires heap { IsHeap objects.old.value }
    requires begun { IsSome objects.old.begun }
    requires some { 0 < length pair.now }
    ensures place { IfOk result (λ place. place ≡ first_gap objects.old.value (length pair.now)) }
    ensures value { IfOk result (λ place. objects.new.value ≡ with_pair place pair.now objects.old.value) }
    ensures begun { objects.new.begun ≡ objects.old.begun }
{
    let Some(place) = objects.alloc(pair.len() as u64)? else {
        return Ok(None);
    };
    objects.write(place, 0, pair)?;
    Ok(Some(place))
}

/// Writes another lease over the one that was found. After an error nothing has changed.
pub(crate) fn rewrite(
    objects: &mut Objects,
    name: &[u8],
    found: Found,
    lease: Lease,
) -> Result<(), AllocError>
    requires heap { IsHeap objects.old.value }
    requires begun { IsSome objects.old.begun }
    requires name { IsNameLong name.now }
    requires found { IsLeaseAt name.now objects.old.value.blocks found }
    ensures value { OnOk result (objects.new.value ≡ with_lease name.now lease objects.old.value) }
    ensures begun { objects.new.begun ≡ objects.old.begun }
{
    objects.write(found.place, 0, lease_bytes(name, lease).as_slice())
}

/// The place of the block of a name.
fn place_of(objects: &Objects, name: &[u8]) -> Option<u64>
    requires { IsNameLong name.now }
    ensures pair { MatchOption result (pair_of name.now objects.now.value.blocks ≡ None) (IsPairAt name.now objects.now.value.blocks) }
    ensures heap { IsHeap objects.now.value }
{
    let mut next = objects.first();
    while let Some(place) = next {
        if is_of(objects, place, name) {
            return Some(place);
        }
        next = objects.next(place);
    }
    None
}

/// Whether a block is that of a name. No more of it is read than the name is long, and one byte.
fn is_of(objects: &Objects, place: u64, name: &[u8]) -> bool
    requires block { IsBlock objects.now.value place }
    requires name { IsNameLong name.now }
    ensures { IfSome (block_at place objects.now.value.blocks) (λ bytes. result ≡ is_key name.now (at_space bytes)) }
{
    let mut buf = [0; MAX_NAME + 1];
    let front = read_front(objects, place, &mut buf[..name.len() + 1]);
    is_pair_of(front, name)
}

/// The front of a block, or as much of it as the buffer has room for, in the buffer.
fn read_front<'b>(objects: &Objects, place: u64, buf: &'b mut [u8]) -> &'b [u8]
    requires { IsBlock objects.now.value place }
    ensures { IfSome (block_at place objects.now.value.blocks) (λ bytes. result.now ≡ take (length buf.old) bytes) }
{
    let len = buf.len().min(objects.len_of(place) as usize);
    let front = &mut buf[..len];
    objects.read(place, 0, front);
    front
}

/// The lease in the bytes after the name and the space.
fn lease_in(fields: &[u8; FIELDS]) -> Lease
    ensures { result ≡ lease_in fields.now }
{
    Lease {
        holder: fields[0],
        from: BigEndian::read_u64(&fields[1..]),
        until: BigEndian::read_u64(&fields[9..]),
    }
}

/// The bytes of a lease.
fn lease_bytes(name: &[u8], lease: Lease) -> ArrayVec<u8, ROOM>
    requires { IsNameLong name.now }
    ensures { result.items ≡ lease_bytes name.now lease }
{
    let mut from = [0; 8];
    BigEndian::write_u64(&mut from, lease.from);
    let mut until = [0; 8];
    BigEndian::write_u64(&mut until, lease.until);
    let mut bytes = ArrayVec::new();
    append(&mut bytes, name);
    append(&mut bytes, &[b' ', lease.holder]);
    append(&mut bytes, &from);
    append(&mut bytes, &until);
    bytes
}
