ghost use Rattle.std.specs.Prelude.{◌≡◌, ℕ, Option, Some, ◌+◌, ◌≤◌, ◌∷◌, ◌++◌, [], length, IfOk, IsErrOf};
ghost use Rattle.std.specs.List.{AllByRecursion};
ghost use Rattle.ken_disk.specs.Causes.{HasCause};
ghost use Rattle.ken_disk.specs.Fates.{Suffers};
ghost use Rattle.ken_disk.specs.Story.{Tells, Follows, IsAtRest};
ghost use Rattle.ken_record.specs.Reading.{header_at};
ghost use Rattle.ken_record.specs.Spelling.{header_bytes};
ghost use Rattle.ken_record.specs.Grammar.{IsHeader, IsRecord};
ghost use Rattle.ken_record.specs.Versions.{One, version_of};
ghost use Rattle.ken_record.specs.declared.header.Header.{Header};
ghost use Rattle.ken_record.specs.declared.base.Base.{Base};
ghost use Rattle.ken_log.specs.Mounts.{Damaged, Whole, mount_of, records_from, after_header};
ghost use Rattle.ken_log.specs.Layout.{IsHead, IsLogOf, log_bytes};
ghost use Rattle.ken_log.specs.Mounting.{Answers, HasMountCause, as_read, IsFirst, IsBased, IsNext, AreOpened, IsDamaged, NextIs, disk_with, fault_with};
ghost use Rattle.ken_log.specs.Settled.{IsSettled};

use crate::LogFault;
use crate::log::{HEADER_LEN, Log, OPEN};
use ken_disk::{Disk, DiskFault};
use ken_record::{Base, Header, Item, ItemKind, Record, RecordFault, decode, decode_base};
use std::alloc::Global;

// A log as it lies in bytes.
#[derive(Drop)]
pub(crate) struct Found {
    header: Header,
    base: Option<Base>,
    records: Vec<Record>,
    end: u64,
}

impl<D: Disk> Log<D> {
    /// Finds the log on a disk, with its base, and its records before the first closed gate, and writes nothing. The errors:
    /// `Unformatted` where there is no log, `Damaged` where the bytes of an item at a place are wrong, `Disk` where a read
    /// failed, and `Memory`. Each hands the disk back as it was.
    pub fn mount(alloc: Global, mut disk: D) -> Result<(Log<D>, Vec<Record>), (LogFault, D)>
        requires { Tells (D.told disk) (λ h. IsAtRest h.now) }
        ensures mounts { Tells (D.told disk) (λ h. Answers (λ x. Whole x.0.header x.0.base x.1.items) (fault_with result) (mount_of h.now.seen)) }
        ensures settled { IfOk result (λ x. IsSettled D.told D.size x.0) }
        ensures count { IfOk result (λ x. x.0.records ≡ length x.1.items) }
        ensures items { IfOk result (λ x. AllByRecursion (IsRecord (version_of x.0.header)) x.1.items) }
        ensures end { IfOk result (λ x. length (log_bytes x.0.header x.0.base x.1.items) ≡ x.0.end) }
        ensures story { D.told (disk_with result) ≡ D.told disk }
        ensures cause { HasMountCause (D.faults disk) (D.faults (disk_with result)) (fault_with result) }
        ensures fate { Follows (Suffers (as_read (fault_with result))) (D.fate disk) (D.fate (disk_with result)) }
    {
        match find(alloc, &mut disk) {
            Ok(found) => {
                let header = found.header;
                let base = found.base;
                let end = found.end;
                let items = found.records;
                let records = items.len() as u64;
                let log = Log {
                    disk,
                    header,
                    base,
                    records,
                    end,
                    spent: false,
                    body: Vec::new(alloc),
                };
                Ok((log, items))
            }
            Err(fault) => Err((fault, disk)),
        }
    }
}

fn find<D: Disk>(alloc: Global, disk: &mut D) -> Result<Found, LogFault>
    ensures mounts { Tells (D.told disk.old) (λ h. Answers (λ f. Whole f.header f.base f.records.items) result (mount_of h.now.seen)) }
    ensures lies { Tells (D.told disk.old) (λ h. IfOk result (λ f. IsLogOf h.now.seen f.header f.base f.records.items f.end)) }
    ensures head { IfOk result (λ f. IsHead f.header f.base) }
    ensures few { IfOk result (λ f. length f.records.items ≤ f.end) }
    ensures items { IfOk result (λ f. AllByRecursion (IsRecord (version_of f.header)) f.records.items) }
    ensures end { IfOk result (λ f. length (log_bytes f.header f.base f.records.items) ≡ f.end) }
    ensures room { IfOk result (λ f. f.end + 1 ≤ D.size disk.new) }
    ensures story { D.told disk.new ≡ D.told disk.old }
    ensures cause { HasMountCause (D.faults disk.old) (D.faults disk.new) result }
    ensures fate { Follows (Suffers (as_read result)) (D.fate disk.old) (D.fate disk.new) }
{
    match contents(alloc, disk) {
        Ok(bytes) => log_in(alloc, &bytes),
        Err(DiskFault::Failed) => Err(LogFault::Disk),
        Err(DiskFault::Memory) => Err(LogFault::Memory),
    }
}

// All that a read gives.
fn contents<D: Disk>(alloc: Global, disk: &mut D) -> Result<Vec<u8>, DiskFault>
    ensures bytes { Tells (D.told disk.old) (λ h. IfOk result (λ b. b.items ≡ h.now.seen)) }
    ensures len { IfOk result (λ b. length b.items ≡ D.size disk.new) }
    ensures story { D.told disk.new ≡ D.told disk.old }
    ensures cause { HasCause (D.faults disk.old) (D.faults disk.new) result }
    ensures fate { Follows (Suffers result) (D.fate disk.old) (D.fate disk.new) }
{
    let mut bytes = Vec::new(alloc);
    bytes.resize(disk.len() as usize, 0)?;
    disk.read(0, &mut bytes)?;
    Ok(bytes)
}

// The log that the bytes are.
fn log_in(alloc: Global, bytes: &[u8]) -> Result<Found, LogFault>
    ensures mounts { Answers (λ f. Whole f.header f.base f.records.items) result (mount_of bytes.now) }
    ensures lies { IfOk result (λ f. IsLogOf bytes.now f.header f.base f.records.items f.end) }
    ensures no_disk { IsErrOf result LogFault.Disk → ⊥ }
{
    if (bytes.len() as u64) < HEADER_LEN {
        return Err(LogFault::Unformatted);
    }
    if bytes[0] != OPEN {
        return Err(LogFault::Unformatted);
    }
    match header_front(alloc, &bytes[1..]) {
        Ok((header, rest)) => log_behind(alloc, header, rest, bytes.len()),
        Err(RecordFault::Bad) => Err(LogFault::Damaged { place: 0 }),
        Err(RecordFault::Memory) => Err(LogFault::Memory),
    }
}

// The log that the bytes behind a header are. There are at most `most` records.
fn log_behind(alloc: Global, header: Header, bytes: &[u8], most: usize) -> Result<Found, LogFault>
    requires header { IsHeader header }
    requires most { 32 + length bytes.now ≤ most }
    ensures mounts { Answers (λ f. Whole f.header f.base f.records.items) result (after_header most (Some (header, bytes.now))) }
    ensures lies { IfOk result (λ f. IsLogOf (165 ∷ (header_bytes header ++ bytes.now)) f.header f.base f.records.items f.end) }
    ensures no_disk { IsErrOf result LogFault.Disk → ⊥ }
{
    let (base, rest) = match base_front(alloc, &header, bytes) {
        Ok(front) => front,
        Err(RecordFault::Bad) => return Err(LogFault::Damaged { place: HEADER_LEN }),
        Err(RecordFault::Memory) => return Err(LogFault::Memory),
    };
    let gate = HEADER_LEN + u64::from(header.base_len);
    let (records, end) = records_in(alloc, rest, gate, most)?;
    Ok(Found {
        header,
        base,
        records,
        end,
    })
}

// The header of a log at the front of bytes, and the bytes after it.
fn header_front(alloc: Global, bytes: &[u8]) -> Result<(Header, &[u8]), RecordFault>
    ensures found { IfOk result (λ x. IsFirst bytes.now x.0 x.1.now) }
    ensures bad { IsErrOf result RecordFault.Bad → (most : ℕ) → after_header most (header_at bytes.now) ≡ Damaged 0 }
{
    let (item, len) = decode(alloc, ItemKind::Header, bytes)?;
    match item {
        Item::Header(header) => Ok((header, &bytes[len..])),
        Item::Base(_base) => Err(RecordFault::Bad),
        Item::Record(_record) => Err(RecordFault::Bad),
    }
}

// The base behind a header, or none behind that of a node's first log, and the bytes after it.
fn base_front<'a>(
    alloc: Global,
    header: &Header,
    bytes: &'a [u8],
) -> Result<(Option<Base>, &'a [u8]), RecordFault>
    requires { IsHeader header.now }
    ensures found { IfOk result (λ x. IsBased header.now bytes.now x.0 x.1.now) }
    ensures bad { IsErrOf result RecordFault.Bad → (most : ℕ) → after_header most (Some (header.now, bytes.now)) ≡ Damaged 32 }
{
    if header.generation == 1 {
        return Ok((None, bytes));
    }
    let base = decode_base(alloc, header.base_len, bytes)?;
    Ok((Some(base), &bytes[header.base_len as usize..]))
}

// The record at the front of bytes, behind its open gate, and the bytes after it.
fn record_front(alloc: Global, bytes: &[u8]) -> Result<(Record, &[u8]), RecordFault>
    ensures found { IfOk result (λ x. IsNext One (165 ∷ bytes.now) x.0 x.1.now) }
    ensures bad { IsErrOf result RecordFault.Bad → IsDamaged One (165 ∷ bytes.now) }
{
    let (item, len) = decode(alloc, ItemKind::Record, bytes)?;
    match item {
        Item::Record(record) => Ok((record, &bytes[len..])),
        Item::Header(_) => Err(RecordFault::Bad),
        Item::Base(_base) => Err(RecordFault::Bad),
    }
}

// The record behind an open gate and the bytes after it, or nothing behind a closed one. It is damaged where the gate is
// missing, or no record follows it.
fn next_record(alloc: Global, bytes: &[u8], place: u64) -> Result<Option<(Record, &[u8])>, LogFault>
    ensures { NextIs One (λ x. x.0) (λ x. x.1.now) place result bytes.now }
{
    if bytes.is_empty() {
        return Err(LogFault::Damaged { place });
    }
    if bytes[0] != OPEN {
        return Ok(None);
    }
    match record_front(alloc, &bytes[1..]) {
        Ok(next) => Ok(Some(next)),
        Err(RecordFault::Bad) => Err(LogFault::Damaged { place }),
        Err(RecordFault::Memory) => Err(LogFault::Memory),
    }
}

// The records from the gate at this place on, and the place of the closed gate behind them. There are at most `most`.
fn records_in(
    alloc: Global,
    bytes: &[u8],
    place: u64,
    most: usize,
) -> Result<(Vec<Record>, u64), LogFault>
    requires { place + length bytes.now ≤ most }
    ensures mounts { (head : Header) (base : Option Base) → Answers (λ x. Whole head base x.0.items) result (records_from most head base [] place bytes.now) }
    ensures lies { IfOk result (λ x. AreOpened One place bytes.now x.0.items x.1) }
    ensures no_disk { IsErrOf result LogFault.Disk → ⊥ }
{
    let mut records = Vec::new(alloc);
    let mut rest = bytes;
    let mut end = place;
    for _ in 0..most {
        match next_record(alloc, rest, end)? {
            Some(next) => {
                let (record, after) = next;
                records.push(record)?;
                end += (rest.len() - after.len()) as u64;
                rest = after;
            }
            None => return Ok((records, end)),
        }
    }
    Err(LogFault::Damaged { place: end })
}
