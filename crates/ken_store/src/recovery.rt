// A store is recovered from its disks.
ghost use Rattle.std.specs.Prelude.{◌≡◌, ◌≤◌, ◌<◌, ◌^◌, ◌++◌, ℕ, length, replicate, IsTrue, IfOk, IsErrOf};
ghost use Rattle.std.specs.List.{All, AllByRecursion};
ghost use Rattle.ken_disk.specs.Story.{Tells, IsAtRest};
ghost use Rattle.ken_record.specs.Grammar.{IsRecord, rise_from, page_rank};
ghost use Rattle.ken_record.specs.Versions.{One};
ghost use Rattle.ken_log.specs.Layout.{log_bytes};
ghost use Rattle.ken_log.specs.Mounts.{Whole, mount_of};
ghost use Rattle.ken_log.specs.Settled.{IsSettled};
ghost use Rattle.ken_store.specs.Answers.{TellsAll, AreAtRest, disks_from, disks_of, answer_of, Answers, IsOver, IsMounted, Mounts};
ghost use Rattle.ken_store.specs.declared.heads.Front.TheVariants.{Begins};
ghost use Rattle.ken_store.specs.Logs.{AreHeads, front_of, logs_of};
ghost use Rattle.ken_store.specs.Standing.{IsReady};
ghost use Rattle.ken_store.specs.Turning.{IsOwner};
ghost use Rattle.ken_store.specs.Reads.{ReadsDisks};
ghost use Rattle.ken_cover.specs.Overlay.{AreWithin};
ghost use Rattle.ken_store.specs.declared.patching.Origin.TheVariants.{Base};
ghost use Rattle.ken_store.specs.Ahead.{AreFound, ahead_layers, origins, page_layers, page_origins, record_layers, record_origins};
ghost use Rattle.ken_store.specs.Kept.{base_pages, HasPagesWithin};
ghost use Rattle.ken_store.specs.Recovered.{checked, recovered, with_log, with_state};

use crate::StoreFault;
use crate::disks::{Disks, apart};
use crate::faults::of_log;
use crate::handing::ahead_of;
use crate::heads::{Logs, front_on, logs_of};
use crate::heap::rebuild;
use crate::kept::{Kept, kept_records};
use crate::owner::Owner;
use crate::patching::{Ahead, PatchSide};
use crate::state::{Heads, state_of};
use crate::store::{Recovered, Store};
use crate::together::together;
use crate::turning::TurnSide;
use crate::waiting::base_pages;
use ken_disk::Disk;
use ken_image::Image;
use ken_log::Log;
use ken_model::{Items, PAGE};
use ken_record::Record;
use std::alloc::{AllocError, Global};
use std::collections::VecDeque;

/// Finds the store of a node on its disks, and writes nothing. It reads the headers of both logs, and then each byte of the
/// current log and of the image once. The errors: `Damaged` where the bytes of an item are wrong, with the disk's number and
/// the place, which for a missing part is the end; `Disk` where a read failed, and `Memory`. Each hands the disks back as
/// they were.
pub fn recover<D: Disk>(
    alloc: Global,
    mut disks: Disks<D>,
    node: u8,
    nodes: u8,
    pages: u32,
) -> Result<Recovered<D>, (StoreFault, Disks<D>)>
    requires node { node < nodes }
    requires nodes { nodes ≤ 8 }
    requires some { 1 ≤ pages }
    requires most { pages ≤ 4096 }
    requires rests { AreAtRest D.told disks }
    ensures answers { TellsAll D.told disks (λ l i s. Answers (answer_of result) (recovered (record { node = node; nodes = nodes; pages = pages }) l.now.seen i.now.seen s.now.seen)) }
    ensures records { TellsAll D.told disks (λ l i s. Mounts (answer_of result) l.now.seen s.now.seen) }
    ensures ready { IsReady D.told D.size (record { node = node; nodes = nodes; pages = pages }) (answer_of result) }
    ensures reads { ReadsDisks D.told D.faults D.fate (answer_of result) disks (disks_of result) }
{
    let logs = match logs_on(alloc, &mut disks) {
        Ok(logs) => logs,
        Err(fault) => return Err((fault, disks)),
    };
    match logs {
        Logs::NoLogs => Ok(Recovered::Fresh(disks)),
        Logs::WrongHeader(which) => {
            let fault = StoreFault::Damaged {
                disk: which.number(),
                place: 0,
            };
            Err((fault, disks))
        }
        Logs::Current(which, first, second) => {
            let owner = Owner { node, nodes, pages };
            let heads = Heads {
                which,
                first,
                second,
            };
            let (current, image, other) = apart(which, disks);
            recover_log(alloc, owner, heads, current, image, other)
        }
    }
}

// What the two logs are.
fn logs_on<D: Disk>(alloc: Global, disks: &mut Disks<D>) -> Result<Logs, StoreFault>
    ensures logs { Tells (D.told disks.old.log) (λ l. Tells (D.told disks.old.second) (λ s. IfOk result (λ logs. logs ≡ logs_of (front_of l.now.seen) (front_of s.now.seen)))) }
    ensures reads { ReadsDisks D.told D.faults D.fate result disks.old disks.new }
    ensures sound { (n : ℕ) (place : ℕ) → IsErrOf result (StoreFault.Damaged n place) → ⊥ }
{
    let first = front_on(alloc, &mut disks.log)?;
    let second = front_on(alloc, &mut disks.second)?;
    Ok(logs_of(first, second))
}

// The store whose current log stands on this disk.
fn recover_log<D: Disk>(
    alloc: Global,
    owner: Owner,
    heads: Heads,
    current: D,
    image: D,
    other: D,
) -> Result<Recovered<D>, (StoreFault, Disks<D>)>
    requires owner { IsOwner owner }
    requires heads { Tells (D.told current) (λ c. Tells (D.told other) (λ s. AreHeads heads (front_of c.now.seen) (front_of s.now.seen))) }
    requires other { Tells (D.told other) (λ h. IsAtRest h.now) }
    requires current { Tells (D.told current) (λ h. IsAtRest h.now) }
    requires image { Tells (D.told image) (λ h. IsAtRest h.now) }
    ensures answers { Tells (D.told current) (λ c. Tells (D.told image) (λ i. Answers (answer_of result) (with_log owner heads.which heads.first heads.second i.now.seen (mount_of c.now.seen)))) }
    ensures ready { IsReady D.told D.size owner (answer_of result) }
    ensures records { Tells (D.told current) (λ c. IsMounted (answer_of result) heads.which c.now.seen) }
    ensures reads { ReadsDisks D.told D.faults D.fate (answer_of result) (disks_from heads.which current image other) (disks_of result) }
{
    match Log::mount(alloc, current) {
        Ok((log, records)) => recover_store(alloc, owner, heads, log, records, image, other),
        Err((fault, current)) => Err((
            of_log(heads.which, fault),
            together(heads.which, current, image, other),
        )),
    }
}

// The store over this log, which mounted with these records.
fn recover_store<D: Disk>(
    alloc: Global,
    owner: Owner,
    heads: Heads,
    log: Log<D>,
    records: Vec<Record>,
    image: D,
    other: D,
) -> Result<Recovered<D>, (StoreFault, Disks<D>)>
    requires owner { IsOwner owner }
    requires heads { Tells (D.told log.disk) (λ c. Tells (D.told other) (λ s. AreHeads heads (Begins log.header) (front_of s.now.seen))) }
    requires other { Tells (D.told other) (λ h. IsAtRest h.now) }
    requires mounts { Tells (D.told log.disk) (λ h. mount_of h.now.seen ≡ Whole log.header log.base records.items) }
    requires count { log.records ≡ length records.items }
    requires settled { IsSettled D.told D.size log }
    requires items { AllByRecursion (IsRecord One) records.items }
    requires end { length (log_bytes log.header log.base records.items) < 2 ^ 64 }
    requires image { Tells (D.told image) (λ h. IsAtRest h.now) }
    ensures answers { Tells (D.told image) (λ i. Answers (answer_of result)
        (with_state owner log.base records.items i.now.seen
        (checked owner heads.which heads.first heads.second log.header log.base records.items))) }
    ensures ready { IsReady D.told D.size owner (answer_of result) }
    ensures over { IsOver (answer_of result) heads.which log records.items }
    ensures reads { ReadsDisks D.told D.faults D.fate (answer_of result) (disks_from heads.which log.disk image other) (disks_of result) }
{
    let which = heads.which;
    let (numbers, state) = match state_of(alloc, &owner, &heads, &log, &records) {
        Ok(found) => found,
        Err(fault) => return Err((fault, together(which, log.release(), image, other))),
    };
    let len = image.len();
    if len < PAGE * u64::from(owner.pages) {
        let fault = StoreFault::Damaged {
            disk: 1,
            place: len,
        };
        return Err((fault, together(which, log.release(), image, other)));
    }
    let mut image = Image::mount(image, owner.pages);
    let objects = match rebuild(alloc, &mut image, base_pages(&log), &records) {
        Ok(objects) => objects,
        Err(fault) => {
            return Err((
                fault,
                together(which, log.release(), image.release(), other),
            ));
        }
    };
    let kept = match kept_of(alloc, &log, &records, owner.pages) {
        Ok(kept) => kept,
        Err(_) => {
            let disks = together(which, log.release(), image.release(), other);
            return Err((StoreFault::Memory, disks));
        }
    };
    let turns = TurnSide {
        alloc,
        owner,
        log,
        which,
        other,
        objects,
        numbers,
        base_turns: kept.base_turns,
        records: kept.records,
    };
    let patches = PatchSide {
        image,
        ahead: kept.ahead,
        known: numbers.turns,
    };
    Ok(Recovered::Whole(Store { turns, patches }, state, Items::new(records)))
}

// What the sides of a store keep of a log.
#[derive(Drop)]
struct Sides {
    base_turns: Vec<u64>,
    records: Vec<Kept>,
    ahead: VecDeque<Ahead>,
}

fn kept_of<D: Disk>(
    alloc: Global,
    log: &Log<D>,
    records: &[Record],
    count: u32,
) -> Result<Sides, AllocError>
    requires base { AreWithin count (base_pages log.now.base) }
    requires records { AllByRecursion (HasPagesWithin count) records.now }
    requires rising { IsTrue (rise_from page_rank 0 (base_pages log.now.base)) }
    requires turns { All (λ r. 1 ≤ r.turn) records.now }
    requires rise { All (λ r. IsTrue (rise_from page_rank 0 r.pages)) records.now }
    ensures base { IfOk result (λ kept. kept.base_turns.items ≡ replicate (length (base_pages log.now.base)) log.now.header.turns) }
    ensures records { IfOk result (λ kept. kept.records.items ≡ records.now) }
    ensures found { IfOk result (λ kept. AreFound kept.ahead.items) }
    ensures origins { IfOk result (λ kept. origins kept.ahead.items ≡ page_origins Base (base_pages log.now.base) ++ record_origins records.now) }
    ensures ahead { IfOk result (λ kept. ahead_layers kept.ahead.items ≡ page_layers log.now.header.turns (base_pages log.now.base) ++ record_layers records.now) }
{
    let turns = log.header().turns;
    let pages = base_pages(log);
    let mut base_turns = Vec::new(alloc);
    base_turns.resize(pages.len(), turns)?;
    Ok(Sides {
        base_turns,
        records: kept_records(alloc, records)?,
        ahead: ahead_of(alloc, turns, pages, records, count)?,
    })
}
