// Passes until a run has ended.
ghost use Rattle.std.specs.Prelude.{◌≡◌, ◌<◌, ◌≤◌, ◌^◌, length};
ghost use Rattle.ken_run.specs.Flowing.{work_at, work_left};
ghost use Rattle.ken_run.specs.Patched.{AddStates};
ghost use Rattle.ken_run.specs.Clauses.{AccountsPasses, Drains, DrainsRun, HasPassed, HasPassedAll, HasPassedOn, PassesOn, PassesOnce, PassesThrice, RefusesPasses, StopsPasses};

use crate::faults::RunFault;
use crate::run::Run;
use crate::station::Station;
use ken_app::{App, Oracle};
use ken_disk::Disk;
use ken_node::Watched;
use ken_ship::Outlet;

// Outcome of a pass.
#[derive(Clone, Copy, Debug, PartialEq, Eq)]
pub(crate) enum PassOutcome {
    // The run has ended.
    Ended,
    // A node made a turn, or was restarted.
    Progressed,
    // Neither.
    Idle,
}

impl<D: Disk, O: Oracle, U: Outlet> Station<D, O, U> {
    // The turns and restarts that it has left, where it may be restarted so often.
    fn left(&self, most: u64) -> u128
        ensures left { result ≡ work_at most self.now }
        ensures few { result < 2 ^ 65 }
    {
        u128::from(most.saturating_sub(self.restarts)) + u128::from(self.node.turns_left())
    }
}

impl<D: Disk, O: Oracle, U: Outlet, A: App> Run<D, O, U, A> {
    // The turns and restarts that all nodes have left.
    fn left(&self) -> u128
        requires { length self.now.stations.items ≤ 8 }
        ensures { result ≡ work_left self.now }
    {
        let mut left = 0;
        for station in &self.stations {
            left += station.left(self.restarts);
        }
        left
    }

    // A pass, of a run with so much left.
    fn one_pass(&mut self, left: u128) -> Result<PassOutcome, RunFault>
        requires may { Drains D.Disk U.Outlet A.App self.old }
        requires left { left ≡ work_left self.old }
        ensures outcome { PassesOnce D.Disk U.Outlet A.App self.old result self.new }
        ensures accounts { AccountsPasses D.Disk O.Oracle U.Outlet A.App self.old result self.new }
        ensures refused { RefusesPasses D.Disk U.Outlet A.App self.old result self.new }
        ensures stops { StopsPasses D.Disk O.Oracle U.Outlet A.App self.old result self.new }
        ensures passes { HasPassed D.Disk U.Outlet A.App self.old result self.new }
    {
        self.pass()?;
        if self.has_ended() {
            return Ok(PassOutcome::Ended);
        }
        if self.left() < left {
            return Ok(PassOutcome::Progressed);
        }
        Ok(PassOutcome::Idle)
    }

    // Three passes, or fewer. Three without progress leave less in flight.
    fn three_passes(&mut self, left: u128) -> Result<PassOutcome, RunFault>
        requires may { Drains D.Disk U.Outlet A.App self.old }
        requires left { left ≡ work_left self.old }
        ensures outcome { PassesThrice D.Disk U.Outlet A.App self.old result self.new }
        ensures accounts { AccountsPasses D.Disk O.Oracle U.Outlet A.App self.old result self.new }
        ensures refused { RefusesPasses D.Disk U.Outlet A.App self.old result self.new }
        ensures stops { StopsPasses D.Disk O.Oracle U.Outlet A.App self.old result self.new }
        ensures passes { HasPassed D.Disk U.Outlet A.App self.old result self.new }
    {
        match self.one_pass(left)? {
            PassOutcome::Idle => (),
            outcome => return Ok(outcome),
        }
        match self.one_pass(left)? {
            PassOutcome::Idle => (),
            outcome => return Ok(outcome),
        }
        self.one_pass(left)
    }

    // Passes until the run has ended, which is answered, or a node made a turn or was restarted.
    fn until_progress(&mut self) -> Result<bool, RunFault>
        requires { Drains D.Disk U.Outlet A.App self.old }
        ensures progresses { PassesOn D.Disk U.Outlet A.App self.old result self.new }
        ensures accounts { AccountsPasses D.Disk O.Oracle U.Outlet A.App self.old result self.new }
        ensures refused { RefusesPasses D.Disk U.Outlet A.App self.old result self.new }
        ensures stops { StopsPasses D.Disk O.Oracle U.Outlet A.App self.old result self.new }
        ensures passes { HasPassedOn D.Disk U.Outlet A.App self.old result self.new }
    {
        let left = self.left();
        'passes: loop {
            match self.three_passes(left)? {
                PassOutcome::Ended => return Ok(true),
                PassOutcome::Progressed => return Ok(false),
                PassOutcome::Idle => (),
            }
        }
    }

    /// Passes until the run has ended: each output was emitted, and what waits is for nodes that have made all their turns. It is asked
    /// after each pass, so there is one pass at least. The errors are those of a pass, and what stands after them too.
    pub fn drain(&mut self) -> Result<(), RunFault>
        requires { Drains D.Disk U.Outlet A.App self.old }
        ensures drains { DrainsRun D.Disk U.Outlet A.App self.old result self.new }
        ensures accounts { AccountsPasses D.Disk O.Oracle U.Outlet A.App self.old result self.new }
        ensures refused { RefusesPasses D.Disk U.Outlet A.App self.old result self.new }
        ensures stops { StopsPasses D.Disk O.Oracle U.Outlet A.App self.old result self.new }
        ensures passes { HasPassedAll D.Disk U.Outlet A.App self.old result self.new }
        ensures states { AddStates ⟦<Watched<D> as Disk>⟧.told 0 self.old result self.new }
    {
        'passes: while !self.until_progress()? {}
        Ok(())
    }
}
