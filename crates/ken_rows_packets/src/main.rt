//! Rows of what nodes send each other: packets, the order of messages, outboxes, rings, and an externaliser over a network.
#![tactic(auto)]

mod net;
mod orders;
mod outboxes;
mod packets;
mod rings;
mod row;

ghost use Rattle.std.specs.Prelude.{◌≡◌, length};

use ken_order::Order;
use ken_outbox::Outbox;
use ken_rows::{Answer, Layer, RowFault, Words, transcribe};
use net::Ship;
use rings::Ring;
use row::Row;
use std::alloc::{AllocError, Global};
use std::process::ExitCode;

// What the rows speak to: parts of a run of eight nodes.
#[derive(Drop)]
struct Rows {
    alloc: Global,
    order: Order,
    outbox: Outbox,
    ring: Ring,
    ship: Option<Ship>,
    ghost senders: { order.nodes ≡ 8 },
    ghost lines: { length outbox.lines ≡ 8 },
}

impl Layer for Rows {
    fn answer(
        &mut self,
        command: &[u8],
        words: &mut Words<'_>,
        answer: &mut Answer,
    ) -> Result<(), RowFault> {
        let alloc = self.alloc;
        let row = &mut Row {
            alloc,
            words: *words,
            answer,
        };
        match command {
            b"mail" | b"ack" => packets::spelled(command, row)?,
            b"decode" | b"num" | b"decimal" | b"append" => packets::read(command, row)?,
            b"order" => orders::answer(&mut self.order, row)?,
            b"outbox" => outboxes::answer(&mut self.outbox, row)?,
            b"ring" => self.ring.answer(row)?,
            b"net" | b"ship" => {
                let ship = self.ship.take().ok_or(RowFault::Usage)?;
                self.ship = Some(ship.answered(row)?);
            }
            _ => return Err(RowFault::Usage),
        }
        *words = row.words;
        Ok(())
    }
}

fn main(rt: HostRuntime) -> Result<ExitCode, AllocError> {
    let alloc = rt.alloc();
    let mut rows = Rows {
        alloc,
        order: Order::new(8),
        outbox: Outbox::new(alloc, 8)?,
        ring: Ring::new(alloc)?,
        ship: Some(Ship::new(alloc)?),
    };
    Ok(transcribe(&rt, &mut rows))
}
