ghost use Rattle.std.specs.Prelude.{◌≤◌, length};
ghost use Rattle.ken_wire.specs.Nets.{AreFrom};

use crate::send_end::SendEnd;
use crate::take_end::TakeEnd;
use ken_model::{MAX_NODES, Octets};
use ken_net::{Base, Handed, Net};
use std::alloc::AllocError;
use std::sync::Wait;

/// A worker's end of a network of wires: it takes from one wire to its node, and puts on the wires to all nodes, by one end
/// of each. A packet that finds its wire full is lost.
#[derive(Drop)]
pub struct WireNet<'a, R: Wait> {
    rt: &'a R,
    node: u8,
    nones: u64,
    puts: [u64; MAX_NODES as usize],
    take: TakeEnd,
    sends: Vec<SendEnd>,
    ghost own: { AreFrom node sends.items },
    ghost few: { length sends.items ≤ 8 },
}

impl<'a, R: Wait> WireNet<'a, R> {
    ghost use Rattle.std.specs.Prelude.{◌≡◌, ◌<◌, ◌≤◌, [], ◌∷◌, length, replicate, option_to_list};
    ghost use Rattle.ken_net.specs.Puts.{MayPut, handing};
    ghost use Rattle.ken_net.specs.Counts.{Counted};
    ghost use Rattle.ken_wire.specs.Ends.{taker_of};
    ghost use Rattle.ken_wire.specs.Nets.{AreFrom, EndsGrew, AreCounted, Heard};

    /// The end of `node`, by the taking end of a wire to it and its own sending ends, one for each node, by number.
    pub fn new(rt: &'a R, node: u8, take: TakeEnd, sends: Vec<SendEnd>) -> Self
        requires take { taker_of take ≡ node }
        requires own { AreFrom node sends.items }
        requires few { length sends.items ≤ 8 }
        ensures ends { (result.node ≡ node) × (result.take ≡ take) × (result.sends ≡ sends) }
        ensures counts { (result.nones ≡ 0) × (result.puts ≡ replicate 8 0) }
    {
        WireNet {
            rt,
            node,
            nones: 0,
            puts: [0; MAX_NODES as usize],
            take,
            sends,
        }
    }

    /// The taking end and the sending ends.
    pub fn into_parts(self) -> (TakeEnd, Vec<SendEnd>)
        ensures { (result.0 ≡ self.entry.take) × (result.1 ≡ self.entry.sends) }
    {
        (self.take, self.sends)
    }

    // Puts a packet on the wire to a node, and counts it. It is lost where that wire is full.
    fn put_on<H: Handed>(&mut self, to: u8, bytes: Octets)
        requires to { to < length self.old.sends.items }
        requires may { MayPut self.old.node to H.sealed H.consumed bytes }
        ensures end { (self.new.node ≡ self.old.node) × (self.new.take ≡ self.old.take) × (self.new.nones ≡ self.old.nones) }
        ensures ends { EndsGrew self.old.sends.items self.new.sends.items (handing to H.sealed H.consumed bytes ∷ []) }
        ensures counts { AreCounted (length self.old.sends.items) self.old.puts self.new.puts (handing to H.sealed H.consumed bytes ∷ []) }
    {
        let place = usize::from(to);
        self.puts[place] = self.puts[place].saturating_add(1);
        let _ = self.sends[place].put::<H, R>(self.rt, bytes);
    }

    // Takes the oldest packet of the wire, and counts where there was none.
    fn take_from(&mut self) -> Option<Octets>
        ensures end { (self.new.node ≡ self.old.node) × (self.new.sends ≡ self.old.sends) × (self.new.puts ≡ self.old.puts) }
        ensures heard { Heard self.old.take self.new.take (option_to_list result) }
        ensures nones { Counted self.old.nones self.new.nones result }
    {
        let packet = self.take.take(self.rt);
        if packet.is_none() {
            self.nones = self.nones.saturating_add(1);
        }
        packet
    }
}

impl<'a, R: Wait> Base for WireNet<'a, R> {
    ghost use Rattle.std.specs.Prelude.{length};
    ghost use Rattle.ken_wire.specs.Nets.{EndsGrew, Heard};
    ghost use Rattle.ken_wire.specs.NetLaws.{ends_still, ends_join, heard_still, heard_joins};

    ghost node = { λ n. n.node };

    ghost nodes = { λ n. length n.sends.items };

    ghost nones = { λ n. n.nones };

    ghost put_between = { λ a b ps. EndsGrew a.sends.items b.sends.items ps };

    ghost given_between = { λ a b packets. Heard a.take b.take packets };

    fn push<H: Handed>(&mut self, to: u8, bytes: Octets) {
        self.put_on::<H>(to, bytes);
    }

    fn take(&mut self) -> Option<Octets> {
        self.take_from()
    }

    ghost put_still = { λ a. ends_still a.sends.items };

    ghost put_joins = { λ a b c ps qs first then. ends_join a.sends.items b.sends.items c.sends.items ps qs first then };

    ghost given_still = { λ a. heard_still a.take };

    ghost given_joins = { λ a b c xs ys first then. heard_joins a.take b.take c.take xs ys first then };
}

impl<'a, R: Wait> Net for WireNet<'a, R> {
    ghost use Rattle.std.specs.Prelude.{length, slice_index, refl};
    ghost use Rattle.ken_wire.specs.Nets.{EndsGrew, AreCounted, Heard};
    ghost use Rattle.ken_wire.specs.NetLaws.{ends_still, ends_join, counts_join, heard_still, heard_joins};

    ghost node = { λ n. n.node };

    ghost nodes = { λ n. length n.sends.items };

    ghost nones = { λ n. n.nones };

    ghost puts = { λ n to. slice_index n.puts to };

    ghost may_want = { λ n to. ⊥ };

    ghost put_between = { λ a b ps. EndsGrew a.sends.items b.sends.items ps × AreCounted (length a.sends.items) a.puts b.puts ps };

    ghost given_between = { λ a b packets. Heard a.take b.take packets };

    fn put<H: Handed>(&mut self, to: u8, bytes: Octets) -> Result<(), AllocError> {
        self.put_on::<H>(to, bytes);
        Ok(())
    }

    fn take(&mut self) -> Option<Octets> {
        self.take_from()
    }

    ghost put_still = { λ a. (ends_still a.sends.items, λ k low. refl) };

    ghost put_joins = { λ a b c ps qs first then.
        (ends_join a.sends.items b.sends.items c.sends.items ps qs first.0 then.0, counts_join a.sends.items b.sends.items a.puts b.puts c.puts ps qs first.0 first.1 then.1) };

    ghost given_still = { λ a. heard_still a.take };

    ghost given_joins = { λ a b c xs ys first then. heard_joins a.take b.take c.take xs ys first then };

    ghost counted = { λ a b ps v went low. went.1 v low };
}
