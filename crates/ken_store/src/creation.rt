// A store is created on disks that have no log.
ghost use Rattle.std.specs.Prelude.{◌≡◌, ◌≤◌, ◌<◌, ◌*◌, take, None, IfOk};
ghost use Rattle.ken_disk.specs.Story.{Follows, Tells};
ghost use Rattle.ken_model.specs.Layout.{first_heap};
ghost use Rattle.ken_model.specs.Network.{empty_heap};
ghost use Rattle.ken_cover.specs.Sides.{first_image_pages};
ghost use Rattle.ken_store.specs.Answers.{TellsAll, AreAtRest, AreUnformatted};
ghost use Rattle.ken_store.specs.Standing.{Standing, TakesCalls};
ghost use Rattle.ken_store.specs.Creations.{Creates, FailsBy, IsNew, CallsImage, CallsLog, TellsStill, made_disks, made_answer, MayFormat};

use crate::StoreFault;
use crate::disks::{Disks, Which};
use crate::numbers::Numbers;
use crate::owner::Owner;
use crate::patching::PatchSide;
use crate::store::Store;
use crate::turning::TurnSide;
use ken_alloc::Objects;
use ken_disk::Disk;
use ken_frame::{FRAME, Frame};
use ken_image::Image;
use ken_log::Log;
use ken_pages::PageHeap;
use ken_record::Header;
use std::alloc::{AllocError, Global};
use std::collections::VecDeque;

// The generation of a node's first log.
const FIRST: u32 = 1;

/// Makes a store with a heap that has no block, on disks that have no log: the image first, and then the log, whose gate is the
/// moment of creation. At any moment of the call a crash leaves disks on which nothing is found, or this store. The errors,
/// `Disk` and `Memory`, hand the disks back; a later `recover` tells which of the two it is.
pub fn create<D: Disk>(
    alloc: Global,
    disks: Disks<D>,
    node: u8,
    nodes: u8,
    pages: u32,
) -> Result<Store<D>, (StoreFault, Disks<D>)>
    requires node { node < nodes }
    requires nodes { nodes ≤ 8 }
    requires some { 1 ≤ pages }
    requires most { pages ≤ 4096 }
    requires rests { AreAtRest D.told disks }
    requires none { AreUnformatted D.told disks }
    ensures creates { TellsAll D.told disks (λ l i s. Tells (D.told (made_disks result).log)
        (λ l2. Tells (D.told (made_disks result).image) (λ i2. Creates
        (record { node = node; nodes = nodes; pages = pages }) (made_answer result) l i s l2 i2))) }
    ensures calls { Follows (MayFormat (record { node = node; nodes = nodes; pages = pages }) (made_answer result)) (D.told disks.log) (D.told (made_disks result).log) }
    ensures log { CallsLog D.told D.faults (record { node = node; nodes = nodes; pages = pages }) (made_answer result) disks.log (made_disks result).log }
    ensures image { CallsImage D.told D.faults (record { node = node; nodes = nodes; pages = pages }) (made_answer result) disks (made_disks result) }
    ensures value { IfOk result (λ store. store.turns.objects.value ≡ empty_heap (256 * pages)) }
    ensures takes { IfOk result (λ store. TakesCalls D.told D.size store) }
    ensures ready { IfOk result (λ store. Standing D.told D.size store (first_image_pages (first_heap pages))) }
    ensures idle { IfOk result (λ store. store.turns.objects.begun ≡ None) }
    ensures new { IfOk result (λ store. IsNew (record { node = node; nodes = nodes; pages = pages }) store.turns) }
    ensures tells { TellsStill (D.told disks.log) (D.told (made_disks result).log) × TellsStill (D.told disks.image) (D.told (made_disks result).image) }
    ensures second { (made_disks result).second ≡ disks.second }
    ensures faults { FailsBy D.faults D.fate (made_answer result) disks (made_disks result) }
{
    let Disks { log, image, second } = disks;
    let (objects, first) = match first_heap(alloc, pages) {
        Ok(heap) => heap,
        Err(_) => return Err((StoreFault::Memory, Disks { log, image, second })),
    };
    let image = match Image::format(image, pages, &first) {
        Ok(image) => image,
        Err((fault, image)) => {
            return Err((StoreFault::from(fault), Disks { log, image, second }));
        }
    };
    let header = Header {
        node,
        nodes,
        pages,
        generation: FIRST,
        turns: 0,
        base_len: 0,
    };
    match Log::format(alloc, log, &header) {
        Ok(log) => {
            let turns = TurnSide {
                alloc,
                owner: Owner { node, nodes, pages },
                log,
                which: Which::First,
                other: second,
                objects,
                numbers: Numbers::none(),
                base_turns: Vec::new(alloc),
                records: Vec::new(alloc),
            };
            let patches = PatchSide {
                image,
                ahead: VecDeque::new(alloc),
                known: 0,
            };
            Ok(Store { turns, patches })
        }
        Err((fault, log)) => {
            let image = image.release();
            Err((StoreFault::from(fault), Disks { log, image, second }))
        }
    }
}

// A heap without blocks, and its first page.
fn first_heap(alloc: Global, pages: u32) -> Result<(Objects, Frame), AllocError>
    requires some { 1 ≤ pages }
    requires most { pages ≤ 4096 }
    ensures value { IfOk result (λ x. x.0.value ≡ empty_heap (256 * pages)) }
    ensures idle { IfOk result (λ x. x.0.begun ≡ None) }
    ensures bytes { IfOk result (λ x. x.0.bytes ≡ first_heap pages) }
    ensures page { IfOk result (λ x. x.1 ≡ take 256 (first_heap pages)) }
{
    let heap = Objects::format(PageHeap::new(alloc, pages)?)?.into_pages();
    let mut bytes = [0; FRAME];
    heap.read(0, &mut bytes);
    let mut first = Frame::zeroed(alloc)?;
    first.write(0, &bytes);
    match Objects::adopt(heap) {
        Ok(objects) => Ok((objects, first)),
        Err(_broken) => unreachable!(),
    }
}
