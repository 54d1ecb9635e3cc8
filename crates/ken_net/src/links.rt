ghost use Rattle.std.specs.Prelude.{◌≡◌, ◌<◌, [], length, slice_set, IfOk, OnOk, OnErr};
ghost use Rattle.ken_net.specs.Acts.{WantsMemory};
ghost use Rattle.ken_net.specs.History.{AreNew};
ghost use Rattle.ken_net.specs.Puts.{MayPut, handing};
ghost use Rattle.ken_net.specs.Standings.{KeepsOwn, link_to, next_act, after_put, passed};
ghost use Rattle.ken_net.specs.Went.{Went};

use crate::act::LinkAct;
use crate::base::Base;
use crate::handed::Handed;
use crate::link::Link;
use ken_model::Octets;
use std::alloc::{AllocError, Global};
use std::marker::Model;

/// The links of one kind, mail or acknowledgements, from a node to each: the acts of the puts to come, how many puts there
/// were, and what is kept. It outlives the networks that it is used over.
#[derive(Debug, Drop)]
pub struct Links {
    alloc: Global,
    from: u8,
    links: Vec<Link>,
}

impl Model for Links {
    ghost use Rattle.ken_net.specs.Standings.{Leaving, KeepsOwn};

    ghost Value = { Leaving };

    ghost view = { λ l. record { from = l.from; links = l.links.items } };

    ghost invariant = { λ l. KeepsOwn (record { from = l.from; links = l.links.items }) };
}

impl Links {
    /// The links from a node to so many, of which nothing was put yet. Of several acts for one put the first on the list
    /// counts.
    pub fn new(alloc: Global, from: u8, nodes: u8, acts: &[LinkAct]) -> Result<Self, AllocError>
        ensures { IfOk result (λ l. AreNew from nodes acts.now l) }
    {
        let mut links = Vec::new(alloc);
        for to in 0..nodes {
            links.push(Link::new(alloc, from, to, acts)?)?;
        }
        Ok(Links { alloc, from, links })
    }

    /// Links of a node to none: they take no memory, and stand in for others that are lent by value.
    pub fn none(alloc: Global, from: u8) -> Self
        ensures { (result.from ≡ from) × (result.links ≡ []) }
    {
        Links {
            alloc,
            from,
            links: Vec::new(alloc),
        }
    }

    /// The node whose links they are. What they keep is packets from it.
    pub fn node(&self) -> u8
        ensures node { result ≡ self.now.from }
        ensures own { KeepsOwn self.now }
    {
        self.from
    }

    // Puts a packet on the link to a node. After an error nothing has changed, and nothing was passed on.
    pub(crate) fn put<B: Base, H: Handed>(
        &mut self,
        base: &mut B,
        to: u8,
        bytes: Octets,
    ) -> Result<(), AllocError>
        requires of { B.node base.old ≡ self.old.from }
        requires to { to < B.nodes base.old }
        requires link { to < length self.old.links }
        requires may { MayPut self.old.from to H.sealed H.consumed bytes }
        ensures ok { OnOk result (self.new ≡ record self.old { links = slice_set self.old.links to (after_put (handing to H.sealed H.consumed bytes) (link_to to self.old.links)) }) }
        ensures passed { OnOk result (Went B.node B.nodes B.nones B.put_between B.given_between base.old base.new (passed (handing to H.sealed H.consumed bytes) (link_to to self.old.links))) }
        ensures err { OnErr result ((self.new ≡ self.old) × (base.new ≡ base.old)) }
        ensures memory { OnErr result (WantsMemory (next_act (link_to to self.old.links))) }
    {
        self.links[usize::from(to)].put::<B, H>(self.alloc, base, to, bytes)
    }
}
