// What holds of the nodes of a run. Each law is the contract of a function that does nothing.
ghost use Rattle.std.specs.Prelude.{Bool};
ghost use Rattle.ken_drive.specs.Clauses.{views_of};
ghost use Rattle.ken_drive.specs.Driven.{EndedRunsKeep};
ghost use Rattle.ken_drive.specs.Recovering.{UpRecovers};
ghost use Rattle.ken_drive.specs.Starting.{KindsServe};

use ken_app::{App, Oracle};
use ken_disk::Disk;
use ken_node::Watched;
use ken_ship::Outlet;

/// Whatever a crash leaves of the disks of a node that is up recovers to its place in the abstract network.
pub fn a_node_is_recovered<D: Disk>()
    ensures { UpRecovers D.told D.size }
{
    ken_store::apart_recovers::<D>();
}

/// What a run that has ended leaves with its world, where its devices are kept.
pub fn ended_runs_keep<D: Disk, O: Oracle, U: Outlet, A: App>()
    ensures { (scripted : Bool) → EndedRunsKeep (views_of D.Disk O.Oracle U.Outlet scripted) D.size A.handler }
{
    ken_store::apart_recovers::<Watched<D>>();
    ken_node::a_node_has_synced::<Watched<D>>();
    ken_core::history_is_legal();
}

/// Nodes of a script's run can have the handler of its kind.
pub fn kinds_serve()
    ensures { KindsServe }
{}
