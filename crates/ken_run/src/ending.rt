// Whether a run has ended.
ghost use Rattle.std.specs.Prelude.{◌≡◌, ◌<◌, ℕ, true, false};
ghost use Rattle.ken_model.specs.Game.{Game};
ghost use Rattle.ken_model.specs.Emissions.{emitted_by, largest_of};
ghost use Rattle.ken_ship.specs.Last.{last_of};
ghost use Rattle.ken_node.specs.Stages.{IsCreated, emissions_in};
ghost use Rattle.ken_node.specs.Up.{IsUp};
ghost use Rattle.ken_flow.specs.Standstill.{HasEnded, waits_on};
ghost use Rattle.ken_run.specs.Endings.{HasNoneWaiting, HasWaiting, IsDone};
ghost use Rattle.ken_run.specs.Clauses.{GoesOn, Up, Works};

use crate::run::Run;
use ken_app::{App, Oracle};
use ken_disk::Disk;
use ken_model::OUTSIDE;
use ken_node::{Node, Watched};
use ken_ship::Outlet;

impl<D: Disk, O: Oracle, U: Outlet, A: App> Run<D, O, U, A> {
    // A node of the run.
    fn node_at(&self, node: u8) -> &Node<Watched<D>>
        requires { Works D.Disk U.Outlet A.App node self.now }
        ensures up { (g : Game) (made : ℕ) (is : Up D.Disk U.Outlet A.App g made self.now)
            → node < made → IsUp ⟦<Watched<D> as Disk>⟧.told ⟦<Watched<D> as Disk>⟧.size g node (is.nodes node) result.now.stage }
        ensures created { IsCreated result.now.stage }
        ensures emitted { (g : Game) (made : ℕ) (is : Up D.Disk U.Outlet A.App g made self.now)
            → node < made → last_of (emissions_in result.now.stage) ≡ largest_of 0 (emitted_by node is.emissions) }
    {
        &self.stations[usize::from(node)].node
    }

    // Whether a message that one node sent to another waits.
    fn has_message(&self, from: u8, to: u8) -> bool
        requires from { Works D.Disk U.Outlet A.App from self.now }
        requires to { Works D.Disk U.Outlet A.App to self.now }
        ensures some { result ≡ true → (g : Game) (made : ℕ) (is : Up D.Disk U.Outlet A.App g made self.now)
            → from < made → to < made → 0 < waits_on g is.nodes from to }
        ensures none { result ≡ false → (g : Game) (made : ℕ) (is : Up D.Disk U.Outlet A.App g made self.now)
            → from < made → to < made → waits_on g is.nodes from to ≡ 0 }
    {
        self.node_at(to).consumed(from) < self.node_at(from).sent(to)
    }

    // Whether an input waits for a node.
    fn has_input(&self, node: u8) -> bool
        requires { Works D.Disk U.Outlet A.App node self.now }
        ensures some { result ≡ true → (g : Game) (made : ℕ) (is : Up D.Disk U.Outlet A.App g made self.now)
            → node < made → 0 < waits_on g is.nodes OUTSIDE node }
        ensures none { result ≡ false → (g : Game) (made : ℕ) (is : Up D.Disk U.Outlet A.App g made self.now)
            → node < made → waits_on g is.nodes OUTSIDE node ≡ 0 }
    {
        let end = self.node_at(node);
        end.consumed(OUTSIDE) < end.inputs()
    }

    // Whether a message or an input waits for a node.
    fn has_waiting(&self, node: u8) -> bool
        requires { Works D.Disk U.Outlet A.App node self.now }
        ensures some { result ≡ true → (g : Game) (made : ℕ) (is : Up D.Disk U.Outlet A.App g made self.now)
            → node < made → made ≡ g.nodes → HasWaiting g is.nodes node }
        ensures none { result ≡ false → (g : Game) (made : ℕ) (is : Up D.Disk U.Outlet A.App g made self.now)
            → node < made → made ≡ g.nodes → HasNoneWaiting g is.nodes node }
    {
        if self.has_input(node) {
            return true;
        }
        for from in 0..self.nodes {
            if self.has_message(from, node) {
                return true;
            }
        }
        false
    }

    // Whether a node has an output that was never emitted, or may have to make a turn.
    fn is_busy(&self, node: u8) -> bool
        requires { Works D.Disk U.Outlet A.App node self.now }
        ensures busy { result ≡ true → (g : Game) (made : ℕ) (is : Up D.Disk U.Outlet A.App g made self.now)
            → node < made → made ≡ g.nodes → IsDone g is.emissions is.nodes node → ⊥ }
        ensures done { result ≡ false → (g : Game) (made : ℕ) (is : Up D.Disk U.Outlet A.App g made self.now)
            → node < made → made ≡ g.nodes → IsDone g is.emissions is.nodes node }
    {
        let end = self.node_at(node);
        if end.has_unemitted() {
            return true;
        }
        if end.is_full() {
            return false;
        }
        self.has_waiting(node)
    }

    /// Whether the run has ended: each output was emitted, before a restart or after it, and what waits is for nodes that have made
    /// all their turns. It asks each node, and each for each other, and copies nothing.
    pub(crate) fn has_ended(&self) -> bool
        requires { GoesOn D.Disk U.Outlet A.App self.now }
        ensures ended { result ≡ true → (g : Game) (made : ℕ) (is : Up D.Disk U.Outlet A.App g made self.now)
            → made ≡ g.nodes → HasEnded g is.emissions is.nodes }
        ensures goes_on { result ≡ false → (g : Game) (made : ℕ) (is : Up D.Disk U.Outlet A.App g made self.now)
            → made ≡ g.nodes → HasEnded g is.emissions is.nodes → ⊥ }
    {
        for node in 0..self.nodes {
            if self.is_busy(node) {
                return false;
            }
        }
        true
    }
}
