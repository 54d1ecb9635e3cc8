// Rows of a log. Each but `format` restarts the disk, and mounts the log on it.
ghost use Rattle.std.specs.Prelude.{IfOk, IfSome};
ghost use Rattle.ken_record.specs.Grammar.{IsRecord};
ghost use Rattle.ken_record.specs.Versions.{One};
ghost use Rattle.ken_rows_disks.specs.Logs.{TakesSeals};

use crate::disks::{Disks, Told};
use crate::shown::{show_base, show_header, show_record};
use ken_disk::{Disk, MAX_LEN};
use ken_log::{Log, SealFault};
use ken_memdisk::MemDisk;
use ken_record::{Header, Item, ItemKind, MAX_FIELDS, Record, decode, decode_base, lengths};
use ken_rows::{Answer, RowFault, Words};
use std::alloc::{AllocError, Global};
use std::mem;

// A record, its length, its gate and the next gate end within the disk's limit from here on.
const MAX_END: u64 = MAX_LEN - MAX_FIELDS as u64 - 6;

type Found = Option<(Log<MemDisk>, Vec<Record>)>;

impl Disks {
    // The log that is found after a restart with a pick, and its records. Where none is, it's told why.
    fn found(&mut self, pick: u64, answer: &mut Answer) -> Result<Found, RowFault>
        ensures { IfOk result (λ found. IfSome found (λ x. TakesSeals x.0)) }
    {
        let mut disk = self.disk.take().ok_or(RowFault::Usage)?;
        disk.restart(pick)?;
        match Log::mount(self.alloc, disk) {
            Ok(found) => Ok(Some(found)),
            Err((fault, disk)) => {
                self.disk = Some(disk);
                self.tell(Err(fault), answer)?;
                Ok(None)
            }
        }
    }

    pub(crate) fn format(&mut self, words: &mut Words<'_>, answer: &mut Answer) -> Told {
        let header = Header {
            node: words.within(0, u64::from(u8::MAX))? as u8,
            nodes: words.within(0, u64::from(u8::MAX))? as u8,
            pages: words.within(0, u64::from(u32::MAX))? as u32,
            generation: 1,
            turns: 0,
            base_len: 0,
        };
        let disk = self.disk.take().ok_or(RowFault::Usage)?;
        let (made, disk) = match Log::format(self.alloc, disk, &header) {
            Ok(log) => (Ok(()), log.release()),
            Err((fault, disk)) => (Err(fault), disk),
        };
        self.disk = Some(disk);
        self.tell(made, answer)
    }

    /// Seals a record once, or as often as is told, unless the disk fails.
    pub(crate) fn seal(&mut self, words: &mut Words<'_>, answer: &mut Answer) -> Told {
        let bytes = self.bytes(words)?;
        let count = if words.has_next() { words.number()? } else { 1 };
        let Ok((Item::Record(record), _)) = decode(self.alloc, ItemKind::Record, &bytes) else {
            return Err(RowFault::Usage);
        };
        let Some((mut log, _)) = self.found(1, answer)? else {
            return Ok(());
        };
        let sealed = seals(&mut log, &record, count);
        self.disk = Some(log.release());
        self.tell(sealed, answer)
    }

    /// The log on the other disk goes over to one with a base on this disk.
    pub(crate) fn turn_over(&mut self, words: &mut Words<'_>, answer: &mut Answer) -> Told {
        let bytes = self.bytes(words)?;
        let len = u32::try_from(bytes.len()).map_err(|_| RowFault::Usage)?;
        let Ok(base) = decode_base(self.alloc, len, &bytes) else {
            return Err(RowFault::Usage);
        };
        mem::swap(&mut self.disk, &mut self.other);
        let Some((mut log, _)) = self.found(1, answer)? else {
            return Ok(());
        };
        let mut disk = self.other.take().ok_or(RowFault::Usage)?;
        let header = *log.header();
        if header.generation == u32::MAX || header.turns > MAX_END || log.records() > MAX_END {
            return Err(RowFault::Usage);
        }
        let turned = log.turnover(self.alloc, &mut disk, base);
        self.disk = Some(log.release());
        self.other = Some(disk);
        if turned.is_err() {
            mem::swap(&mut self.disk, &mut self.other);
        }
        self.tell(turned, answer)
    }

    /// Tells where the log ends that is found after a restart with a pick, and perhaps all that it has.
    pub(crate) fn mount(&mut self, all: bool, words: &mut Words<'_>, answer: &mut Answer) -> Told {
        let Some((log, records)) = self.found(words.number()?, answer)? else {
            return Ok(());
        };
        let told = show_log(&log, &records, all, answer);
        self.disk = Some(log.release());
        Ok(told?)
    }
}

// Where a log ends, and perhaps all that it has.
fn show_log(
    log: &Log<MemDisk>,
    records: &[Record],
    all: bool,
    answer: &mut Answer,
) -> Result<(), AllocError> {
    answer.named("generation", u64::from(log.header().generation))?;
    answer.named("records", log.records())?;
    answer.named("end", log.end())?;
    if !all {
        return Ok(());
    }
    show_header(log.header(), answer)?;
    if let Some(base) = log.base() {
        show_base(base, answer)?;
    }
    for record in records {
        show_record(record, answer)?;
    }
    Ok(())
}

// Seals a record so often, unless the disk fails, or has no room for more.
fn seals(log: &mut Log<MemDisk>, item: &Record, count: u64) -> Result<(), SealFault>
    requires settled { TakesSeals log.old }
    requires fits { IsRecord One item.now }
{
    // A record is at most a mebibyte long.
    lengths();
    for _ in 0..count {
        if log.end() > MAX_END {
            return Ok(());
        }
        log.seal(item)?;
    }
    Ok(())
}
