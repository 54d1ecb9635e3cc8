// How far a node has come.
use crate::node::Node;
use crate::stage::Stage;
use ken_disk::Disk;

impl<D: Disk> Node<D> {
    ghost use Rattle.std.specs.Prelude.{◌≡◌, ◌↔◌, ◌<◌, ◌≤◌, ℕ, length, IsTrue};
    ghost use Rattle.ken_model.specs.Game.{Game};
    ghost use Rattle.ken_model.specs.Network.{inputs_for};
    ghost use Rattle.ken_core.specs.Nodes as core;
    ghost use Rattle.ken_core.specs.Turns.{consumed_from, mails_to, outs_of};
    ghost use Rattle.ken_order.specs.Consumed.{IsSender};
    ghost use Rattle.ken_ship.specs.Last.{last_of};
    ghost use Rattle.ken_node.specs.Stages.{IsCreated, emissions_in};
    ghost use Rattle.ken_node.specs.Up.{IsUp};

    /// How many inputs it has.
    pub fn inputs(&self) -> u64
        requires { IsCreated self.now.stage }
        ensures { (g : Game) (v : ℕ) (n : core.Node) → IsUp D.told D.size g v n self.now.stage → result ≡ length (inputs_for g v) }
    {
        match &self.stage {
            Stage::Created(turns, _, _) => turns.inputs.len() as u64,
            Stage::Uncreated(..) | Stage::Moved => unreachable!(),
        }
    }

    /// How many messages it has consumed of a sender: a node, or 255 for the outside, whose messages are its inputs.
    pub fn consumed(&self, from: u8) -> u64
        requires { IsCreated self.now.stage }
        ensures { (g : Game) (v : ℕ) (n : core.Node) → IsUp D.told D.size g v n self.now.stage → IsSender 8 from → result ≡ consumed_from from n.turning.turns }
    {
        match &self.stage {
            Stage::Created(turns, _, _) => turns.side.consumed_from(from),
            Stage::Uncreated(..) | Stage::Moved => unreachable!(),
        }
    }

    /// How many messages it has ever sent to a node.
    pub fn sent(&self, to: u8) -> u64
        requires created { IsCreated self.now.stage }
        requires to { to < 8 }
        ensures { (g : Game) (v : ℕ) (n : core.Node) → IsUp D.told D.size g v n self.now.stage → result ≡ length (mails_to v to n.turning.turns) }
    {
        match &self.stage {
            Stage::Created(turns, _, _) => turns.side.sent_to(to),
            Stage::Uncreated(..) | Stage::Moved => unreachable!(),
        }
    }

    /// Whether an output of it was never emitted. One that a restart has emitted again counts as emitted all the while.
    pub fn has_unemitted(&self) -> bool
        requires { IsCreated self.now.stage }
        ensures { (g : Game) (v : ℕ) (n : core.Node) → IsUp D.told D.size g v n self.now.stage
            → IsTrue result ↔ (last_of (emissions_in self.now.stage) < length (outs_of n.turning.turns)) }
    {
        match &self.stage {
            Stage::Created(turns, _, sends) => sends.last_emitted() < turns.side.outputs(),
            Stage::Uncreated(..) | Stage::Moved => unreachable!(),
        }
    }

    /// Whether it has made all its turns.
    pub fn is_full(&self) -> bool
        requires { IsCreated self.now.stage }
        ensures { (g : Game) (v : ℕ) (n : core.Node) → IsUp D.told D.size g v n self.now.stage → IsTrue result ↔ (g.turns ≤ length n.turning.turns) }
    {
        match &self.stage {
            Stage::Created(turns, _, _) => turns.cap <= turns.side.turns(),
            Stage::Uncreated(..) | Stage::Moved => unreachable!(),
        }
    }
}
