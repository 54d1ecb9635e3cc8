// Packets in bytes, and numbers in text.
use crate::row::Row;
use ken_model::{Message, Octets};
use ken_num::{decimal, num, put_decimal};
use ken_packet::{Packet, PacketFault, decode, encode};
use ken_rows::RowFault;

/// Spells a packet: `mail FROM TO NUMBER STAMP TEXT` or `ack FROM TO THROUGH`.
pub(crate) fn spelled(command: &[u8], row: &mut Row) -> Result<(), RowFault> {
    let (from, to, through) = (row.byte()?, row.byte()?, row.words.number()?);
    let packet = match command {
        b"ack" => Packet::Ack { from, to, through },
        _ => Packet::Mail(Message {
            from,
            to,
            number: through,
            stamp: row.words.number()?,
            bytes: Octets::new(row.words.bytes(row.alloc)?),
        }),
    };
    if !packet.fits() {
        return Ok(row.answer.word("no packet")?);
    }
    Ok(row.answer.bytes(encode(row.alloc, &packet)?.as_slice())?)
}

/// Answers the row that spells such bytes.
pub(crate) fn tell(bytes: &[u8], row: &mut Row) -> Result<(), RowFault> {
    match decode(row.alloc, bytes) {
        Ok(Packet::Mail(mail)) => {
            head(row, "mail", mail.from, mail.to, mail.number)?;
            row.answer.number(mail.stamp)?;
            Ok(row.answer.text(mail.bytes.as_slice())?)
        }
        Ok(Packet::Ack { from, to, through }) => head(row, "ack", from, to, through),
        Err(PacketFault::BadPacket) => Ok(row.answer.word("no packet")?),
        Err(PacketFault::Memory) => Err(RowFault::Memory),
    }
}

fn head(row: &mut Row, kind: &str, from: u8, to: u8, number: u64) -> Result<(), RowFault> {
    row.answer.word(kind)?;
    row.answer.number(u64::from(from))?;
    row.answer.number(u64::from(to))?;
    Ok(row.answer.number(number)?)
}

/// Reads the bytes of a row: as a packet, as a number in text, or as a text behind which a number is put.
pub(crate) fn read(command: &[u8], row: &mut Row) -> Result<(), RowFault> {
    let mut bytes = row.words.bytes(row.alloc)?;
    match command {
        b"decode" => tell(&bytes, row),
        b"num" => row.some(num(&bytes)),
        b"decimal" => row.some(decimal(&bytes)),
        _ => {
            put_decimal(&mut bytes, row.words.number()?)?;
            Ok(row.answer.text(&bytes)?)
        }
    }
}
