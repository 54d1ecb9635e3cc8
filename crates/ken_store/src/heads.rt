// What a node's two logs begin with, and which of them is current.
ghost use Rattle.std.specs.Prelude.{◌≡◌, ℕ, IfOk, OnErr, IsErrOf};
ghost use Rattle.ken_disk.specs.Story.{Tells};
ghost use Rattle.ken_record.specs.Reading.{header_at};
ghost use Rattle.ken_store.specs.Logs.{front_from, front_of, logs_of, greater};
ghost use Rattle.ken_store.specs.Reads.{Reads};

use crate::StoreFault;
use crate::disks::Which;
use ken_disk::Disk;
use ken_record::{Header, Item, ItemKind, RecordFault, decode};
use std::alloc::Global;

// The bytes of a header with its gate.
const HEADER_LEN: usize = 32;

// The byte of an open gate.
const OPEN: u8 = 0xa5;

/// What a log's bytes begin with.
#[derive(Clone, Copy, Debug)]
pub(crate) enum Front {
    // There is no log.
    Absent,
    // No header stands where one should.
    Wrong,
    Begins(Header),
}

/// What two logs are.
#[derive(Clone, Copy, Debug)]
pub(crate) enum Logs {
    NoLogs,
    WrongHeader(Which),
    // The log that is current, and the headers of both, where they are logs.
    Current(Which, Option<Header>, Option<Header>),
}

// By what the two logs begin with.
pub(crate) fn logs_of(first: Front, second: Front) -> Logs
    ensures { result ≡ logs_of first second }
{
    match (first, second) {
        (Front::Wrong, _) => Logs::WrongHeader(Which::First),
        (_, Front::Wrong) => Logs::WrongHeader(Which::Second),
        (Front::Absent, Front::Absent) => Logs::NoLogs,
        (Front::Begins(head), Front::Absent) => Logs::Current(Which::First, Some(head), None),
        (Front::Absent, Front::Begins(head)) => Logs::Current(Which::Second, None, Some(head)),
        (Front::Begins(first), Front::Begins(second)) => greater(first, second),
    }
}

// Of two logs the one of the greater generation.
fn greater(first: Header, second: Header) -> Logs
    ensures { result ≡ greater first second }
{
    if first.generation == second.generation {
        return Logs::WrongHeader(Which::Second);
    }
    let which = if first.generation < second.generation {
        Which::Second
    } else {
        Which::First
    };
    Logs::Current(which, Some(first), Some(second))
}

// What a disk's log begins with, by at most one read.
pub(crate) fn front_on<D: Disk>(alloc: Global, disk: &mut D) -> Result<Front, StoreFault>
    ensures front { Tells (D.told disk.old) (λ h. IfOk result (λ front. front ≡ front_of h.now.seen)) }
    ensures reads { Reads D.told D.faults D.fate result disk.old disk.new }
    ensures size { D.size disk.new ≡ D.size disk.old }
    ensures sound { (n : ℕ) (place : ℕ) → IsErrOf result (StoreFault.Damaged n place) → ⊥ }
{
    if disk.len() < HEADER_LEN as u64 {
        return Ok(Front::Absent);
    }
    let mut bytes = [0; HEADER_LEN];
    disk.read(0, &mut bytes)?;
    if bytes[0] != OPEN {
        return Ok(Front::Absent);
    }
    header_in(alloc, &bytes[1..])
}

// What the bytes are as a header.
fn header_in(alloc: Global, bytes: &[u8]) -> Result<Front, StoreFault>
    ensures front { IfOk result (λ front. front ≡ front_from (header_at bytes.now)) }
    ensures memory { OnErr result (IsErrOf result StoreFault.Memory) }
{
    match header_front(alloc, bytes) {
        Ok(header) => Ok(Front::Begins(header)),
        Err(RecordFault::Bad) => Ok(Front::Wrong),
        Err(RecordFault::Memory) => Err(StoreFault::Memory),
    }
}

// The header that stands at the front of the bytes.
fn header_front(alloc: Global, bytes: &[u8]) -> Result<Header, RecordFault>
    ensures found { IfOk result (λ header. front_from (header_at bytes.now) ≡ Front.Begins header) }
    ensures bad { IsErrOf result RecordFault.Bad → front_from (header_at bytes.now) ≡ Front.Wrong }
{
    let (item, _len) = decode(alloc, ItemKind::Header, bytes)?;
    match item {
        Item::Header(header) => Ok(header),
        Item::Base(_base) => Err(RecordFault::Bad),
        Item::Record(_record) => Err(RecordFault::Bad),
    }
}
