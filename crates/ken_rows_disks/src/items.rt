// Rows of the items of a log in bytes, and of numbers, the highest byte first.
use crate::disks::{Disks, Told};
use crate::shown::{show_base, show_header, show_record};
use ken_num::{put_u8, put_u16, put_u32, put_u64, u8_at, u16_at, u32_at, u64_at};
use ken_record::{Item, ItemKind, RecordFault, decode, decode_base, encode};
use ken_rows::{Answer, RowFault, Words};

impl Disks {
    // The item of a kind at the front of bytes, and its length.
    fn item(&self, words: &mut Words<'_>) -> Result<Result<(Item, usize), RecordFault>, RowFault> {
        let kind = match words.word()? {
            b"header" => ItemKind::Header,
            b"record" => ItemKind::Record,
            b"base" => ItemKind::Base,
            b"told" => return self.told(words),
            _ => return Err(RowFault::Usage),
        };
        Ok(decode(self.alloc, kind, &self.changed(words)?))
    }

    // The base of a length that is told.
    fn told(&self, words: &mut Words<'_>) -> Result<Result<(Item, usize), RecordFault>, RowFault> {
        let len = words.within(0, u64::from(u32::MAX))? as u32;
        let base = decode_base(self.alloc, len, &self.changed(words)?);
        Ok(base.map(|base| (Item::Base(base), len as usize)))
    }

    pub(crate) fn decode(&self, words: &mut Words<'_>, answer: &mut Answer) -> Told {
        match self.item(words)? {
            Ok((_item, len)) => Ok(answer.number(len as u64)?),
            Err(RecordFault::Bad) => Ok(answer.word("none")?),
            Err(RecordFault::Memory) => Err(RowFault::Memory),
        }
    }

    /// Tells what an item has, and spells it again.
    pub(crate) fn show(&self, words: &mut Words<'_>, answer: &mut Answer) -> Told {
        let item = match self.item(words)? {
            Ok((item, _)) if item.fits() => item,
            _ => return Err(RowFault::Usage),
        };
        match &item {
            Item::Header(header) => show_header(header, answer)?,
            Item::Record(record) => show_record(record, answer)?,
            Item::Base(base) => show_base(base, answer)?,
        }
        answer.end()?;
        Ok(answer.bytes(encode(self.alloc, &item)?.as_slice())?)
    }

    /// Tells the number of so many bits at a place.
    pub(crate) fn get(&self, words: &mut Words<'_>, answer: &mut Answer) -> Told {
        let bits = words.number()?;
        let at = words.number()? as usize;
        let bytes = self.bytes(words)?;
        let number = match bits {
            8 => u8_at(&bytes, at).map(u64::from),
            16 => u16_at(&bytes, at).map(u64::from),
            32 => u32_at(&bytes, at).map(u64::from),
            64 => u64_at(&bytes, at),
            _ => return Err(RowFault::Usage),
        };
        match number {
            Some(number) => Ok(answer.number(number)?),
            None => Ok(answer.word("none")?),
        }
    }

    /// Puts a number of so many bits behind bytes.
    pub(crate) fn put(&self, words: &mut Words<'_>, answer: &mut Answer) -> Told {
        let bits = words.number()?;
        let mut bytes = self.bytes(words)?;
        match bits {
            8 => put_u8(&mut bytes, words.within(0, u64::from(u8::MAX))? as u8)?,
            16 => put_u16(&mut bytes, words.within(0, u64::from(u16::MAX))? as u16)?,
            32 => put_u32(&mut bytes, words.within(0, u64::from(u32::MAX))? as u32)?,
            64 => put_u64(&mut bytes, words.number()?)?,
            _ => return Err(RowFault::Usage),
        }
        Ok(answer.bytes(&bytes)?)
    }
}
