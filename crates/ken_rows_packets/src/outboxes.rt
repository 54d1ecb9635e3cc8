ghost use Rattle.std.specs.Prelude.{◌≡◌, ◌≤◌, ◌<◌, ◌^◌, length, IfOk};
ghost use Rattle.ken_packet.specs.Packets.{IsMail};

use crate::row::Row;
use ken_model::{Items, Message, Octets, Out};
use ken_outbox::Outbox;
use ken_rows::RowFault;
use std::alloc::{AllocError, Global};

/// Answers a row of an outbox, which has what node 0 sent and output.
pub(crate) fn answer(outbox: &mut Outbox, row: &mut Row) -> Result<(), RowFault>
    requires { length outbox.old.lines ≡ 8 }
    ensures { length outbox.new.lines ≡ 8 }
{
    match row.words.word()? {
        b"acked" => outbox.acked(row.node()?, row.words.number()?),
        b"new" => *outbox = Outbox::new(row.alloc, 8)?,
        call @ (b"send" | b"out") => add(outbox, call, row)?,
        b"due" => {
            let mail = outbox.due(row.node()?, row.words.number()? as usize);
            row.some(mail.map(|mail| mail.number))?;
        }
        b"emit" => match outbox.next_out() {
            Some((number, _)) => {
                outbox.emitted(number);
                row.answer.number(number)?;
            }
            None => row.answer.word("none")?,
        },
        _ => return Err(RowFault::Usage),
    }
    Ok(())
}

// Adds a message or an output.
fn add(outbox: &mut Outbox, call: &[u8], row: &mut Row) -> Result<(), RowFault>
    requires { length outbox.old.lines ≡ 8 }
    ensures { length outbox.new.lines ≡ 8 }
{
    let (mut sends, mut outs) = (Vec::new(row.alloc), Vec::new(row.alloc));
    if call == b"send".as_slice() {
        sends.push(mail(row.alloc, row.node()?, row.words.number()?)?)?;
    } else {
        outs.push(Out {
            number: row.words.number()?,
            text: Octets::new(Vec::new(row.alloc)),
        })?;
    }
    Ok(outbox.add(Items::new(sends), Items::new(outs))?)
}

/// A message of node 0, whose stamp is its number.
pub(crate) fn mail(alloc: Global, to: u8, number: u64) -> Result<Message, AllocError>
    ensures { IfOk result (λ m. (m.from ≡ 0) × (m.to ≡ to) × (to < 8 → 1 ≤ number → number < 2 ^ 64 → IsMail m)) }
{
    Ok(Message {
        from: 0,
        to,
        number,
        stamp: number,
        bytes: Octets::copied(alloc, b"m")?,
    })
}
