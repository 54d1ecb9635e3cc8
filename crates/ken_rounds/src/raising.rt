// What becomes of the nodes of a round by the faults that their workers kept.
ghost use Rattle.std.specs.Prelude.{◌≡◌, ◌≤◌, length};
ghost use Rattle.ken_rounds.specs.Raising.{MayRise, MayAllRise, RaisesBy, RisesBy};

use ken_app::Oracle;
use ken_disk::Disk;
use ken_run::{RunFault, Station};
use ken_ship::{NodeFault, Outlet};

// Looks at the fault of a node: where a disk failed it is restarted until a restart answers.
fn rise<D: Disk, O: Oracle, U: Outlet>(
    station: &mut Station<D, O, U>,
    node: u8,
    fault: Option<NodeFault>,
    most: u64,
) -> Result<(), RunFault>
    requires { MayRise D.Disk fault station.old }
    ensures { RisesBy D.Disk O.Oracle most node fault result station.old station.new }
{
    match fault {
        None => Ok(()),
        Some(NodeFault::Disk) => match station.raise(most) {
            Ok(()) => Ok(()),
            Err(NodeFault::Disk) => Err(RunFault::Down { node }),
            Err(NodeFault::Damaged { disk, place }) => Err(RunFault::Damaged { node, disk, place }),
            Err(_) => Err(RunFault::Memory),
        },
        Some(NodeFault::Outlet) => Err(RunFault::Down { node }),
        Some(_) => Err(RunFault::Memory),
    }
}

/// Looks at the faults of all nodes in rising order, until one of them is down: those whose disks failed are restarted.
pub(crate) fn raise_all<D: Disk, O: Oracle, U: Outlet>(
    stations: &mut Vec<Station<D, O, U>>,
    faults: &[Option<NodeFault>],
    most: u64,
) -> Result<(), RunFault>
    requires few { length stations.old.items ≤ 8 }
    requires count { length faults.now ≡ length stations.old.items }
    requires may { MayAllRise D.Disk faults.now stations.old.items }
    ensures { RaisesBy D.Disk O.Oracle most faults.now result stations.old.items stations.new.items }
{
    for node in 0..stations.len() as u8 {
        let index = usize::from(node);
        rise(&mut stations[index], node, faults[index], most)?;
    }
    Ok(())
}
