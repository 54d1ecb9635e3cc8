// The wires of one kind between the nodes of a round.
ghost use Rattle.std.specs.Prelude.{◌≡◌, ◌<◌, ◌≤◌, ◌+◌, ◌∷◌, ◌++◌, [], ℕ, length, map, vec_capacity, vec_len, IfOk};
ghost use Rattle.std.specs.List.{All};
ghost use Rattle.ken_wire.specs.Ends.{heard_of, joined_of, made_of, taker_of, WasHandedIn};
ghost use Rattle.ken_wire.specs.Rounds.{AreNext, AreUnused};
ghost use Rattle.ken_threads.specs.Wires.{AreBack, AreNew, AreWired, Carry, ends_of};

use ken_wire::{SendEnd, TakeEnd, hand_out, take_back, takers};
use std::alloc::{AllocError, Global};

/// A wire to each node from all nodes: the taking end of each, by number, and the sending ends of each node, by number.
#[derive(Drop)]
pub struct Wiring {
    pub takes: Vec<TakeEnd>,
    pub sends: Vec<Vec<SendEnd>>,
}

/// What a node has of the wires: the taking end of the one to it, and its sending ends, one of each wire, by number.
#[derive(Drop)]
pub struct Ends {
    pub take: TakeEnd,
    pub sends: Vec<SendEnd>,
}

impl Wiring {
    /// New wires between so many nodes.
    pub fn new(alloc: Global, nodes: u8) -> Result<Wiring, AllocError>
        requires { nodes ≤ 8 }
        ensures { IfOk result (λ w. AreNew nodes w.takes.items (ends_of w.sends.items)) }
    {
        let mut takes = takers(alloc, nodes)?;
        let sends = hand_out_all(alloc, nodes, takes.as_mut_slice())?;
        Ok(Wiring { takes, sends })
    }

    // The ends of the last node that has some here.
    pub(crate) fn pop(&mut self) -> Ends
        requires { (0 < length self.old.takes.items) × (0 < length self.old.sends.items) }
        ensures takes { self.old.takes.items ≡ self.new.takes.items ++ result.take ∷ [] }
        ensures sends { self.old.sends.items ≡ self.new.sends.items ++ result.sends ∷ [] }
        ensures room { (vec_capacity self.new.takes ≡ vec_capacity self.old.takes) × (vec_capacity self.new.sends ≡ vec_capacity self.old.sends) }
        ensures len { (vec_len self.new.takes + 1 ≡ vec_len self.old.takes) × (vec_len self.new.sends + 1 ≡ vec_len self.old.sends) }
    {
        match (self.takes.pop(), self.sends.pop()) {
            (Some(take), Some(sends)) => Ends { take, sends },
            _ => unreachable!(),
        }
    }

    // The ends of the next node. There is room for them.
    pub(crate) fn push(&mut self, ends: Ends)
        requires { (vec_len self.old.takes < vec_capacity self.old.takes) × (vec_len self.old.sends < vec_capacity self.old.sends) }
        ensures takes { self.new.takes.items ≡ self.old.takes.items ++ ends.take ∷ [] }
        ensures sends { self.new.sends.items ≡ self.old.sends.items ++ ends.sends ∷ [] }
        ensures room { (vec_capacity self.new.takes ≡ vec_capacity self.old.takes) × (vec_capacity self.new.sends ≡ vec_capacity self.old.sends) }
        ensures len { (vec_len self.new.takes ≡ vec_len self.old.takes + 1) × (vec_len self.new.sends ≡ vec_len self.old.sends + 1) }
    {
        self.takes.push_reserved(ends.take);
        self.sends.push_reserved(ends.sends);
    }

    /// Takes all ends back, and tells what the wires carried: each packet that was taken is one that its node may have put. What the
    /// wires hold still is lost. Takes no memory.
    pub fn close(self)
        requires { (n : ℕ) × AreWired n self.takes.items (ends_of self.sends.items) }
        ensures { (n : ℕ) → AreWired n self.takes.items (ends_of self.sends.items)
            → Carry n self.takes.items (ends_of self.sends.items) }
    {
        let Wiring { mut takes, sends } = self;
        bring_back(takes.as_mut_slice(), sends);
        tell_all(takes);
    }
}

// The sending ends of all nodes, one of each wire for each node. After an error some wires may have more ends than before.
fn hand_out_all(
    alloc: Global,
    nodes: u8,
    takes: &mut [TakeEnd],
) -> Result<Vec<Vec<SendEnd>>, AllocError>
    requires few { nodes ≤ 8 }
    requires count { length takes.old ≡ nodes }
    requires next { AreNext 0 takes.old }
    requires new { AreUnused takes.old }
    ensures new { IfOk result (λ sends. AreNew nodes takes.new (ends_of sends.items)) }
    ensures count { length takes.new ≡ length takes.old }
{
    let mut sends = Vec::with_capacity(alloc, usize::from(nodes))?;
    for node in 0..nodes {
        sends.push(hand_out(alloc, node, takes)?)?;
    }
    Ok(sends)
}

// Takes the sending ends of all nodes back.
fn bring_back(takes: &mut [TakeEnd], sends: Vec<Vec<SendEnd>>)
    requires { (n : ℕ) × AreWired n takes.old (ends_of sends.items) }
    ensures { (n : ℕ) → AreWired n takes.old (ends_of sends.items) → AreBack n (ends_of sends.items) takes.old takes.new }
{
    for ends in sends {
        take_back(takes, ends);
    }
}

// Each wire tells what it carried.
fn tell_all(takes: Vec<TakeEnd>)
    requires { All (λ t. length (joined_of t) ≡ made_of t) takes.items }
    ensures { All (λ t. WasHandedIn (taker_of t) (joined_of t) (heard_of t)) takes.items }
{
    for mut take in takes {
        take.total();
    }
}
