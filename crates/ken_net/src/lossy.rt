ghost use Rattle.std.specs.Prelude.{◌≡◌, length};

use crate::base::Base;
use crate::handed::Handed;
use crate::links::Links;
use crate::net::Net;
use ken_model::Octets;
use std::alloc::AllocError;

/// A node's end of a network whose links lose, repeat and hold, over any base. It gives what the base gives.
#[derive(Debug, Drop)]
pub struct Lossy<B: Base> {
    base: B,
    links: Links,
    ghost of: { B.node base ≡ links.from },
    ghost to_each: { B.nodes base ≡ length links.links },
}

impl<B: Base> Lossy<B> {
    /// The links over a base, which is the end of their node and has as many nodes.
    pub fn over(links: Links, base: B) -> Self
        requires of { B.node base ≡ links.from }
        requires to_each { B.nodes base ≡ length links.links }
        ensures { (result.links ≡ links) × (result.base ≡ base) }
    {
        Lossy { base, links }
    }

    /// The links as they now stand, and the base.
    pub fn into_parts(self) -> (Links, B)
        ensures { (result.0 ≡ self.links) × (result.1 ≡ self.base) }
    {
        (self.links, self.base)
    }
}

impl<B: Base> Net for Lossy<B> {
    ghost use Rattle.std.specs.Prelude.{◌≡◌, ◌<◌, length};
    ghost use Rattle.std.proofs.Common.{subst};
    ghost use Rattle.ken_net.specs.Acts.{WantsMemory};
    ghost use Rattle.ken_net.specs.Standings.{link_to, next_act, PutOn};
    ghost use Rattle.ken_net.specs.LinkLaws.{put_still, put_joins, counted};

    ghost node = { λ l. B.node l.base };

    ghost nodes = { λ l. B.nodes l.base };

    ghost nones = { λ l. B.nones l.base };

    ghost puts = { λ l v. (link_to v l.links.links).puts };

    ghost may_want = { λ l to. WantsMemory (next_act (link_to to l.links.links)) };

    ghost put_between = { λ a b ps. PutOn B.put_between a.links b.links a.base b.base ps };

    ghost given_between = { λ a b packets. B.given_between a.base b.base packets };

    fn put<H: Handed>(&mut self, to: u8, bytes: Octets) -> Result<(), AllocError> {
        self.links.put::<B, H>(&mut self.base, to, bytes)
    }

    fn take(&mut self) -> Option<Octets> {
        self.base.take()
    }

    ghost put_still = { λ a. put_still a.links a.base (B.put_still a.base) };

    ghost put_joins = { λ a b c ps qs first then. put_joins B.put_joins first then };

    ghost given_still = { λ a. B.given_still a.base };

    ghost given_joins = { λ a b c ps qs first then. B.given_joins a.base b.base c.base ps qs first then };

    ghost counted = { λ a b ps v went low. counted a.links b.links ps v went.links_are (subst (λ n. v < n) a.to_each low) };
}
