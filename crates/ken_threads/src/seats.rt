// The three workers of a node, as what makes steps.
use crate::works::Works;
use ken_app::{App, Oracle};
use ken_disk::Disk;
use ken_net::Net;
use ken_ship::{NodeFault, Outlet, SendWorker};
use ken_work::{PatchWorker, TurnWorker};

/// A node's handler, with its end of a network, its oracle and the application whose turns it makes.
#[derive(Drop)]
pub struct HandlerSeat<'a, D, N, O, A> {
    pub worker: TurnWorker<D>,
    pub net: N,
    pub oracle: O,
    pub app: &'a A,
}

/// A node's externaliser, with its end of a network and its outlet.
#[derive(Drop)]
pub struct SenderSeat<N, U> {
    pub worker: SendWorker,
    pub net: N,
    pub outlet: U,
}

impl<'a, D: Disk, N: Net, O: Oracle, A: App> Works for HandlerSeat<'a, D, N, O, A> {
    ghost use Rattle.ken_threads.specs.Seats.{HandlerFails, handling_of, MayHandle};
    ghost use Rattle.ken_beside.specs.Steps.{HandlerStep};
    ghost use Rattle.std.specs.Prelude.{◌≡◌};

    ghost may = { λ count s. MayHandle D.Disk N.Net O.Oracle (A.handler s.app.now) count (handling_of s) };

    ghost steps = { λ a b. (b.app.now ≡ a.app.now) × HandlerStep D.Disk N.Net O.Oracle (A.handler a.app.now) (handling_of a) (handling_of b) };

    ghost fails = { λ fault a b. (b.app.now ≡ a.app.now) × HandlerFails D.Disk N.Net O.Oracle (A.handler a.app.now) fault (handling_of a) (handling_of b) };

    /// A turn, where one may be made.
    fn step(&mut self) -> Result<(), NodeFault> {
        self.worker
            .turn_once(&mut self.net, self.app, &mut self.oracle)?;
        Ok(())
    }
}

impl<D: Disk> Works for PatchWorker<D> {
    ghost use Rattle.ken_threads.specs.Seats.{MayPatch, PatcherFails, PatcherSteps};

    ghost may = { λ count p. MayPatch D.Disk count p };

    ghost steps = { λ a b. PatcherSteps D.Disk a b };

    ghost fails = { λ fault a b. PatcherFails D.Disk fault a b };

    /// A page is written; where none is to be, the image is synced.
    fn step(&mut self) -> Result<(), NodeFault> {
        if !self.patch_once()? {
            self.settle()?;
        }
        Ok(())
    }
}

impl<N: Net, U: Outlet> Works for SenderSeat<N, U> {
    ghost use Rattle.ken_threads.specs.Seats.{MayShip, SenderFails, sending_of, SenderSteps};

    ghost may = { λ count s. MayShip N.Net U.Outlet count (sending_of s) };

    ghost steps = { λ a b. SenderSteps N.Net U.Outlet (sending_of a) (sending_of b) };

    ghost fails = { λ fault a b. SenderFails N.Net U.Outlet fault (sending_of a) (sending_of b) };

    /// What is due is sent, acknowledgements are taken, and the output that is due is emitted.
    fn step(&mut self) -> Result<(), NodeFault> {
        self.worker.send_due(&mut self.net)?;
        self.worker.take_acks(&mut self.net)?;
        self.worker.emit_once(&mut self.outlet)?;
        Ok(())
    }
}
