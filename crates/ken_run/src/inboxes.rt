// The inboxes of all nodes, and a worker's end of the network over them.
ghost use Rattle.std.specs.Prelude.{◌≡◌, ◌<◌, length};

use ken_net::{Inboxes, Links, Lossy, PlainNet};
use std::alloc::Global;
use std::mem;

/// What is on its way between the nodes: mail for their handlers, and acknowledgements for their externalisers.
#[derive(Debug, Drop)]
pub(crate) struct InFlight {
    pub mail: Inboxes,
    pub acks: Inboxes,
}

/// A worker's end over links that leave its node, which takes from the first inboxes and puts into the others. It takes all of
/// them over, until `give_back`.
pub(crate) fn end_of(
    alloc: Global,
    links: &mut Links,
    takes: &mut Inboxes,
    puts: &mut Inboxes,
) -> Lossy<PlainNet>
    requires placed { links.old.from < length takes.old }
    requires to_each { length puts.old ≡ length links.old.links }
    ensures links { result.links ≡ links.old }
    ensures node { result.base.node ≡ links.old.from }
    ensures takes { result.base.takes ≡ takes.old }
    ensures puts { result.base.puts ≡ puts.old }
    ensures nones { result.base.nones ≡ 0 }
{
    let node = links.node();
    let takes = mem::replace(takes, Inboxes::none(alloc));
    let puts = mem::replace(puts, Inboxes::none(alloc));
    let links = mem::replace(links, Links::none(alloc, node));
    Lossy::over(links, PlainNet::new(node, takes, puts))
}

/// Gives back what an end was made of.
pub(crate) fn give_back(
    end: Lossy<PlainNet>,
    links: &mut Links,
    takes: &mut Inboxes,
    puts: &mut Inboxes,
)
    ensures links { links.new ≡ end.links }
    ensures takes { takes.new ≡ end.base.takes }
    ensures puts { puts.new ≡ end.base.puts }
{
    let (left, base) = end.into_parts();
    let (taken, filed) = base.into_parts();
    *links = left;
    *takes = taken;
    *puts = filed;
}
