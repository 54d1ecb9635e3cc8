// The text of what a node's disks recover to.
ghost use Rattle.std.specs.Prelude.{◌≡◌, ◌<◌, ◌≤◌, IfOk};
ghost use Rattle.ken_disk.specs.Causes.{Rose};
ghost use Rattle.ken_store.specs.Answers.{AreAtRest, TellsAll};
ghost use Rattle.ken_dump.specs.StateText.{state_text};
ghost use Rattle.ken_dump.specs.Telling.{AreSound, AreUnwritten, Blames, IsToldBy, disk_at, unless_memory};

use crate::DumpFault;
use crate::noted::Noted;
use crate::text::{fresh_text, state_text};
use ken_disk::Disk;
use ken_model::{Octets, State};
use ken_store::{Disks, Recovered, Store, StoreFault, recover};
use std::alloc::{AllocError, Global};

/// Tells what a node's disks recover to, and gives them back. Nothing is written to them.
pub(crate) fn tell<D: Disk>(
    alloc: Global,
    disks: Disks<D>,
    node: u8,
    nodes: u8,
    pages: u32,
) -> (Result<Octets, DumpFault>, Disks<D>)
    requires node { node < nodes }
    requires nodes { nodes ≤ 8 }
    requires some { 1 ≤ pages }
    requires most { pages ≤ 4096 }
    requires rests { AreAtRest D.told disks }
    requires sound { AreSound D.faults disks }
    ensures told { TellsAll D.told disks (IsToldBy (record { node = node; nodes = nodes; pages = pages }) result.0) }
    ensures unwritten { AreUnwritten D.told disks result.1 }
    ensures blame { Blames D.faults result.1 result.0 }
{
    match recover(alloc, with_notes(disks), node, nodes, pages) {
        Ok(Recovered::Fresh(disks)) => (unless_memory(fresh_text(alloc)), without_notes(disks)),
        Ok(Recovered::Whole(store, state, _)) => {
            let text = store_text(alloc, node, &store, &state);
            (unless_memory(text), without_notes(store.release()))
        }
        Err((StoreFault::Damaged { disk, place }, disks)) => {
            (
                Err(DumpFault::Damaged { disk, place }),
                without_notes(disks),
            )
        }
        Err((StoreFault::Disk, disks)) => {
            let disk = failed_disk(&disks);
            (Err(DumpFault::Device { disk }), without_notes(disks))
        }
        Err((StoreFault::Memory, disks)) => (Err(DumpFault::Memory), without_notes(disks)),
    }
}

/// The text of a store and its state.
fn store_text<D: Disk>(
    alloc: Global,
    node: u8,
    store: &Store<D>,
    state: &State,
) -> Result<Octets, AllocError>
    ensures { IfOk result (λ text. text ≡ state_text node state.now store.now.turns.objects.value) }
{
    let value = store.value(alloc)?;
    state_text(alloc, node, state, &value)
}

/// The text, or that memory was short.
fn unless_memory(text: Result<Octets, AllocError>) -> Result<Octets, DumpFault>
    ensures { result ≡ unless_memory text }
{
    Ok(text?)
}

/// The disks, none of which has failed, with a note for each.
fn with_notes<D: Disk>(disks: Disks<D>) -> Disks<Noted<D>>
    requires { AreSound D.faults disks }
    ensures { result ≡ disks }
{
    Disks {
        log: Noted::new(disks.log),
        image: Noted::new(disks.image),
        second: Noted::new(disks.second),
    }
}

/// The disks as they are, without their notes.
fn without_notes<D: Disk>(disks: Disks<Noted<D>>) -> Disks<D>
    ensures { result ≡ disks }
{
    Disks {
        log: disks.log.into_file(),
        image: disks.image.into_file(),
        second: disks.second.into_file(),
    }
}

/// The number of the first disk that failed.
fn failed_disk<D: Disk>(disks: &Disks<Noted<D>>) -> u8
    requires { D.faults disks.now.log ≡ 0 → D.faults disks.now.image ≡ 0 → Rose 0 (D.faults disks.now.second) }
    ensures { (result < 3) × Rose 0 (D.faults (disk_at result disks.now)) }
{
    if disks.log.has_failed() {
        0
    } else if disks.image.has_failed() {
        1
    } else {
        2
    }
}
