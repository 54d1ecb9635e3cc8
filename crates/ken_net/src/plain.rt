ghost use Rattle.std.specs.Prelude.{◌≡◌, ◌<◌, [], length, option_to_list, slice_get, slice_index_or};

use crate::base::Base;
use crate::handed::Handed;
use crate::inboxes::Inboxes;
use ken_model::Octets;

/// A worker's end of a network of lists. It takes from its node's inbox of one kind and puts into all inboxes of the
/// other: a handler takes mail and puts acknowledgements, an externaliser the other way round. It owns both kinds, which
/// are moved in by `new` and out by `into_parts`, and copies nothing.
#[derive(Debug, Drop)]
pub struct PlainNet {
    node: u8,
    takes: Inboxes,
    puts: Inboxes,
    nones: u64,
    ghost placed: { node < length takes },
}

impl PlainNet {
    /// The end of `node`, which takes from the first inboxes and puts into the second.
    pub fn new(node: u8, takes: Inboxes, puts: Inboxes) -> Self
        requires { node < length takes }
        ensures { (result.node ≡ node) × (result.takes ≡ takes) × (result.puts ≡ puts) × (result.nones ≡ 0) }
    {
        PlainNet {
            node,
            takes,
            puts,
            nones: 0,
        }
    }

    /// The inboxes that it takes from, and those that it puts into.
    pub fn into_parts(self) -> (Inboxes, Inboxes)
        ensures { (result.0 ≡ self.takes) × (result.1 ≡ self.puts) }
    {
        (self.takes, self.puts)
    }
}

impl Base for PlainNet {
    ghost use Rattle.std.specs.Prelude.{◌≡◌, [], length, option_to_list, slice_get, slice_index_or, refl};
    ghost use Rattle.std.proofs.Common.{◌∙◌};
    ghost use Rattle.ken_net.specs.Counts.{Counted};
    ghost use Rattle.ken_net.specs.Inboxes.{Taking, all_filed};
    ghost use Rattle.ken_net.specs.InboxLaws.{filed_joins, taking_still, taking_joins};

    ghost node = { λ n. n.node };

    ghost nodes = { λ n. length n.puts };

    ghost nones = { λ n. n.nones };

    ghost put_between = { λ a b ps. b.puts ≡ all_filed ps a.puts };

    /// Once a take has given `None`, the node's inbox is empty.
    ghost given_between = { λ a b ps. (b.node ≡ a.node) × Taking a.node a.nones b.nones a.takes b.takes ps };

    fn push<H: Handed>(&mut self, to: u8, bytes: Octets) {
        self.puts.push(to, bytes);
    }

    /// Takes the oldest packet of this node's inbox; `None` exactly where there is none.
    fn take(&mut self) -> Option<Octets>
        ensures end { (self.new.node ≡ self.old.node) × (length self.new.puts ≡ length self.old.puts) }
        ensures put { self.new.puts ≡ self.old.puts }
        ensures given { (self.new.node ≡ self.old.node) × Taking self.old.node self.old.nones self.new.nones self.old.takes self.new.takes (option_to_list result) }
        ensures nones { Counted self.old.nones self.new.nones result }
        ensures oldest { result ≡ slice_get (slice_index_or self.old.takes self.old.node []) 0 }
    {
        let packet = self.takes.take(self.node);
        if packet.is_none() {
            self.nones = self.nones.saturating_add(1);
        }
        packet
    }

    ghost put_still = { λ a. refl };

    ghost put_joins = { λ a b c ps qs first then. filed_joins ps qs a.puts b.puts c.puts first then };

    ghost given_still = { λ a. (refl, taking_still a.node a.nones a.takes) };

    ghost given_joins = { λ a b c ps qs first then. (then.0 ∙ first.0, taking_joins a.node b.node a.nones b.nones c.nones a.takes b.takes c.takes ps qs first.0 first.1 then.1) };
}
