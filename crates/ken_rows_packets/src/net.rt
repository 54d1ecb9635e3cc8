ghost use Rattle.std.specs.Prelude.{◌≡◌, ◌<◌, ◌≤◌, length, IfOk};
ghost use Rattle.ken_links.specs.Rings.{free, IsRing};
ghost use Rattle.ken_net.specs.Puts.{MayPut};
ghost use Rattle.ken_rows_packets.specs.Ends.{IsEndOf};

use crate::outboxes::mail;
use crate::packets::tell;
use crate::row::Row;
use ken_links::{PopEnd, PushEnd, ring};
use ken_model::{Octets, Shared};
use ken_net::{Act, Handed, Inboxes, LinkAct, Links, Lossy, Net, PlainNet};
use ken_packet::{Packet, encode, encode_mail};
use ken_record::Sent;
use ken_rows::RowFault;
use ken_ship::{Sealed, SendWorker, Told};
use std::alloc::{AllocError, Global};
use std::marker::Brand;

/// Node 0's externaliser, its end of a network of eight nodes, and the ends of its rings that its handler holds.
#[derive(Drop)]
pub(crate) struct Ship {
    acts: Vec<LinkAct>,
    end: Lossy<PlainNet>,
    worker: SendWorker,
    sealed: PushEnd<Sealed>,
    told: PopEnd<Told>,
    ghost first: { IsEndOf 0 end.base × (worker.backlog.node ≡ 0) × (worker.nodes ≡ 8) },
    ghost rings: { IsRing sealed worker.sealed × IsRing worker.told told },
}

impl Ship {
    /// Nothing was put, and nothing was sealed.
    pub(crate) fn new(alloc: Global) -> Result<Self, AllocError> {
        let (sealed, pop) = ring(alloc)?;
        let (push, told) = ring(alloc)?;
        let base = PlainNet::new(0, Inboxes::new(alloc, 8)?, Inboxes::new(alloc, 8)?);
        Ok(Ship {
            acts: Vec::new(alloc),
            end: Lossy::over(Links::new(alloc, 0, 8, &[])?, base),
            worker: SendWorker::new(alloc, 0, 8, pop, push)?,
            sealed,
            told,
        })
    }

    /// Answers a row.
    pub(crate) fn answered(mut self, row: &mut Row) -> Result<Self, RowFault> {
        match row.words.word()? {
            b"new" => Ok(Ship::new(row.alloc)?),
            b"act" => {
                let links = self.links(row)?;
                self.end = Lossy::over(links, self.end.into_parts().1);
                Ok(self)
            }
            call @ (b"take" | b"ack") => {
                self.end = by_node(self.end, call == b"ack".as_slice(), row)?;
                Ok(self)
            }
            call => {
                self.by_first(call, row)?;
                Ok(self)
            }
        }
    }

    // Node 0 puts a mail itself, or its externaliser works.
    fn by_first(&mut self, call: &[u8], row: &mut Row) -> Result<(), RowFault> {
        match call {
            b"put" => self.put(row),
            b"seal" => self.seal(row),
            b"receive" => Ok(self.worker.receive(&mut self.sealed)?),
            b"send" => Ok(self.worker.send_due(&mut self.end)?),
            b"hear" => self.hear(row),
            _ => Err(RowFault::Usage),
        }
    }

    // Links with one act more, over which nothing was put yet.
    fn links(&mut self, row: &mut Row) -> Result<Links, RowFault>
        ensures { IfOk result (λ l. (l.from ≡ 0) × (length l.links ≡ 8)) }
    {
        let (from, to, n) = (row.node()?, row.node()?, row.words.number()?);
        let act = match row.words.word()? {
            b"lose" => Act::Lose,
            b"repeat" => Act::Repeat,
            b"hold" => Act::Hold(row.byte()?),
            _ => return Err(RowFault::Usage),
        };
        self.acts.push(LinkAct { from, to, n, act })?;
        Ok(Links::new(row.alloc, 0, 8, &self.acts)?)
    }

    fn put(&mut self, row: &mut Row) -> Result<(), RowFault> {
        let mail = mail(row.alloc, row.node()?, row.words.within(1, u64::MAX)?)?;
        let bytes = encode_mail(row.alloc, &mail)?;
        Ok(put_as::<Brand>(&mut self.end, mail.to, bytes)?)
    }

    // A turn that sends one message is sealed.
    fn seal(&mut self, row: &mut Row) -> Result<(), RowFault> {
        let (to, number) = (row.node()?, row.words.within(1, u64::MAX)?);
        if self.sealed.free() == 0 {
            return Err(RowFault::Usage);
        }
        let bytes = Octets::copied(row.alloc, b"m")?;
        let sent = Sent { to, number, bytes };
        self.sealed.push(Sealed {
            turn: number,
            stamp: number,
            sends: Shared::new(row.alloc, vec![in row.alloc; sent]?)?,
            outs: Shared::empty(),
        });
        Ok(())
    }

    // It takes acknowledgements, and tells its handler how far they go.
    fn hear(&mut self, row: &mut Row) -> Result<(), RowFault> {
        let mut told = Vec::new(row.alloc);
        self.worker.tell(&mut self.told, &mut told)?;
        self.worker.take_acks(&mut self.end)?;
        self.worker.tell(&mut self.told, &mut told)?;
        for told in &told {
            row.answer.named_numbers("acked", &told.progress.acked)?;
        }
        Ok(())
    }
}

// A node takes the next mail, or acknowledges.
fn by_node(end: Lossy<PlainNet>, acks: bool, row: &mut Row) -> Result<Lossy<PlainNet>, RowFault>
    requires { IsEndOf 0 end.base }
    ensures { IfOk result (λ end. IsEndOf 0 end.base) }
{
    let from = row.node()?;
    let own = Links::new(row.alloc, from, 8, &[])?;
    let (links, base) = end.into_parts();
    let (takes, puts) = base.into_parts();
    let mut end = Lossy::over(own, PlainNet::new(from, puts, takes));
    if acks {
        acknowledge(&mut end, from, row)?;
    } else if let Some(bytes) = end.take() {
        tell(bytes.as_slice(), row)?;
    } else {
        row.answer.word("nothing")?;
    }
    let (puts, takes) = end.into_parts().1.into_parts();
    Ok(Lossy::over(links, PlainNet::new(0, takes, puts)))
}

fn acknowledge(end: &mut Lossy<PlainNet>, from: u8, row: &mut Row) -> Result<(), RowFault>
    requires { (from < 8) × IsEndOf from end.old.base }
    ensures { IsEndOf from end.new.base }
{
    let (to, through) = (row.node()?, row.words.within(1, u64::MAX)?);
    let bytes = encode(row.alloc, &Packet::Ack { from, to, through })?;
    Ok(put_as::<Brand>(end, to, bytes)?)
}

fn put_as<H: Handed>(end: &mut Lossy<PlainNet>, to: u8, bytes: Octets) -> Result<(), AllocError>
    requires to { to < length end.old.base.puts }
    requires may { MayPut end.old.base.node to H.sealed H.consumed bytes }
    ensures { (end.new.base.node ≡ end.old.base.node) × (length end.new.base.takes ≡ length end.old.base.takes) × (length end.new.base.puts ≡ length end.old.base.puts) }
{
    end.put::<H>(to, bytes)
}
