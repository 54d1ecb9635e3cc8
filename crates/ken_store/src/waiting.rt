// The messages, outputs and pages that a log keeps.
ghost use Rattle.std.specs.Prelude.{◌≡◌, ◌++◌, IfOk, OnOk};
ghost use Rattle.std.specs.List.{flat_map};
ghost use Rattle.ken_record.specs.declared.record.Record.{Record};
ghost use Rattle.ken_store.specs.Kept.{due_to, sent_to, messages_to, messages_in, outs_in, base_messages, base_outs, base_pages, record_outs};

use ken_disk::Disk;
use ken_log::Log;
use ken_model::{Items, MAX_NODES, Message, Out, TryClone};
use ken_record::{Due, Page, Record};
use std::alloc::{AllocError, Global};

// All messages of a log with these records, by the node that they go to.
pub(crate) fn messages_in<D: Disk>(
    alloc: Global,
    node: u8,
    log: &Log<D>,
    records: &[Record],
) -> Result<Items<Message>, AllocError>
    ensures { IfOk result (λ messages. messages ≡ messages_in node log.now.base records.now) }
{
    let mut messages = Vec::new(alloc);
    for to in 0..MAX_NODES {
        put_messages_to(alloc, &mut messages, node, base_messages(log), records, to)?;
    }
    Ok(Items::new(messages))
}

// All outputs of a log with these records.
pub(crate) fn outs_in<D: Disk>(
    alloc: Global,
    log: &Log<D>,
    records: &[Record],
) -> Result<Items<Out>, AllocError>
    ensures { IfOk result (λ outs. outs ≡ outs_in log.now.base records.now) }
{
    let mut outs = Vec::new(alloc);
    put_outs(alloc, &mut outs, base_outs(log))?;
    for record in records {
        put_outs(alloc, &mut outs, record.outs.as_slice())?;
    }
    Ok(Items::new(outs))
}

pub(crate) fn base_messages<D: Disk>(log: &Log<D>) -> &[Due]
    ensures { result.now ≡ base_messages log.now.base }
{
    match log.base() {
        Some(base) => base.messages.as_slice(),
        None => &[],
    }
}

pub(crate) fn base_outs<D: Disk>(log: &Log<D>) -> &[Out]
    ensures { result.now ≡ base_outs log.now.base }
{
    match log.base() {
        Some(base) => base.outs.as_slice(),
        None => &[],
    }
}

pub(crate) fn base_pages<D: Disk>(log: &Log<D>) -> &[Page]
    ensures { result.now ≡ base_pages log.now.base }
{
    match log.base() {
        Some(base) => base.pages.as_slice(),
        None => &[],
    }
}

// Appends the messages to one node, oldest first.
fn put_messages_to(
    alloc: Global,
    messages: &mut Vec<Message>,
    node: u8,
    due: &[Due],
    records: &[Record],
    to: u8,
) -> Result<(), AllocError>
    ensures { OnOk result (messages.new.items ≡ messages.old.items ++ (due_to node to due.now ++ flat_map (sent_to node to) records.now)) }
{
    put_due(alloc, messages, node, due, to)?;
    for record in records {
        put_sent(alloc, messages, node, record, to)?;
    }
    Ok(())
}

fn put_due(
    alloc: Global,
    messages: &mut Vec<Message>,
    node: u8,
    due: &[Due],
    to: u8,
) -> Result<(), AllocError>
    ensures { OnOk result (messages.new.items ≡ messages.old.items ++ due_to node to due.now) }
{
    for message in due {
        if message.to == to {
            messages.push(Message {
                from: node,
                to,
                number: message.number,
                stamp: message.stamp,
                bytes: message.bytes.try_clone(alloc)?,
            })?;
        }
    }
    Ok(())
}

fn put_sent(
    alloc: Global,
    messages: &mut Vec<Message>,
    node: u8,
    item: &Record,
    to: u8,
) -> Result<(), AllocError>
    ensures { OnOk result (messages.new.items ≡ messages.old.items ++ sent_to node to item.now) }
{
    for sent in item.sends.as_slice() {
        if sent.to == to {
            messages.push(Message {
                from: node,
                to,
                number: sent.number,
                stamp: item.stamp,
                bytes: sent.bytes.try_clone(alloc)?,
            })?;
        }
    }
    Ok(())
}

fn put_outs(alloc: Global, outs: &mut Vec<Out>, items: &[Out]) -> Result<(), AllocError>
    ensures { OnOk result (outs.new.items ≡ outs.old.items ++ items.now) }
{
    for out in items {
        outs.push(out.try_clone(alloc)?)?;
    }
    Ok(())
}
