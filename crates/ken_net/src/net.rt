ghost use Rattle.std.specs.Prelude.{◌≡◌, ◌<◌, ◌++◌, [], ℕ, List, OnErr, option_to_list};
ghost use Rattle.ken_net.specs.Counts.{Counted, put_to};
ghost use Rattle.ken_net.specs.Puts.{Put, MayPut, handing, if_put};

use crate::handed::Handed;
use ken_model::Octets;
use std::alloc::AllocError;

/// One node's end of a network, of which a worker has one. What is put may be lost, repeated, held back and overtaken.
pub trait Net {
    /// The node whose end it is.
    ghost node: { Self → ℕ };

    /// How many nodes there are.
    ghost nodes: { Self → ℕ };

    /// How many takes have given `None`. An implementation may let the count stand at 2^64 - 1.
    ghost nones: { Self → ℕ };

    /// How many packets were put for each node. An implementation may let a count stand at 2^64 - 1.
    ghost puts: { Self → ℕ → ℕ };

    /// The next put for that node may want memory.
    ghost may_want: { Self → ℕ → Type 0 };

    /// From the first state to the second exactly these were put, in order. An implementation says here what became of each.
    ghost put_between: { Self → Self → List Put → Type 0 };

    /// From the first state to the second exactly these packets were given, in order.
    ghost given_between: { Self → Self → List (List ℕ) → Type 0 };

    /// Puts a packet for the node `to`, which is below the number of nodes. After an error, which is want of memory, nothing
    /// was put, and it doesn't count.
    fn put<H: Handed>(&mut self, to: u8, bytes: Octets) -> Result<(), AllocError>
        requires to { to < nodes self.old }
        requires may { MayPut (node self.old) to H.sealed H.consumed bytes }
        ensures end { (node self.new ≡ node self.old) × (nodes self.new ≡ nodes self.old) }
        ensures put { put_between self.old self.new (if_put result (handing to H.sealed H.consumed bytes)) }
        ensures given { given_between self.old self.new [] }
        ensures nones { nones self.new ≡ nones self.old }
        ensures memory { OnErr result (may_want self.old to) };

    /// Takes the next packet for this node. `None` comes only where the count of them has risen.
    fn take(&mut self) -> Option<Octets>
        ensures end { (node self.new ≡ node self.old) × (nodes self.new ≡ nodes self.old) }
        ensures put { put_between self.old self.new [] }
        ensures given { given_between self.old self.new (option_to_list result) }
        ensures nones { Counted (nones self.old) (nones self.new) result };

    /// Between a state and itself nothing was put.
    ghost put_still: { (a : Self) → put_between a a [] };

    /// What was put up to a state, and from there on, was put in all.
    ghost put_joins: { (a b c : Self) (ps qs : List Put) → put_between a b ps → put_between b c qs → put_between a c (ps ++ qs) };

    /// The same of what was given.
    ghost given_still: { (a : Self) → given_between a a [] };

    ghost given_joins: { (a b c : Self) (ps qs : List (List ℕ)) → given_between a b ps → given_between b c qs → given_between a c (ps ++ qs) };

    /// The counts of puts are of what was put.
    ghost counted: { (a b : Self) (ps : List Put) (v : ℕ) → put_between a b ps → v < nodes a → puts b v ≡ put_to v ps (puts a v) };
}
