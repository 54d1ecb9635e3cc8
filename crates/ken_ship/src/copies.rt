// Copies of what a turn sent, as messages.
ghost use Rattle.std.specs.Prelude.{◌≡◌, map, IfOk, OnOk};
ghost use Rattle.ken_core.specs.Turns.{mail_of};

use ken_model::{Message, TryClone};
use ken_record::Sent;
use std::alloc::{AllocError, Global};
use std::collections::VecDeque;

// A message that a turn of a node with this stamp sent.
fn mail(alloc: Global, node: u8, stamp: u64, sent: &Sent) -> Result<Message, AllocError>
    ensures { IfOk result (λ m. m ≡ mail_of node stamp sent.now) }
{
    Ok(Message {
        from: node,
        to: sent.to,
        number: sent.number,
        stamp,
        bytes: sent.bytes.try_clone(alloc)?,
    })
}

// Makes a list hold the messages that a turn of a node with this stamp sent. After an error it holds some of them.
pub(crate) fn put_mails(
    alloc: Global,
    node: u8,
    stamp: u64,
    sends: &[Sent],
    mails: &mut VecDeque<Message>,
) -> Result<(), AllocError>
    ensures { OnOk result (mails.new.items ≡ map (mail_of node stamp) sends.now) }
{
    mails.clear();
    for sent in sends {
        mails.push_back(mail(alloc, node, stamp, sent)?)?;
    }
    Ok(())
}
