// Calls of a store by their names, and its turns.
ghost use Rattle.std.specs.Prelude.{◌≡◌, IfSome, IsSome, OnOk};
ghost use Rattle.ken_rows_stores.specs.Stores.{IsBegun, IsIdle, Stands};

use crate::disks::Kept;
use crate::stores::Stage;
use ken_alloc::Objects;
use ken_disk::MAX_LEN;
use ken_model::{MAX_PAGES, OUTSIDE, Octets, Out, PAGE, Shared};
use ken_record::{Effects, Sent};
use ken_store::StoreFault;
use std::alloc::{AllocError, Global};

// The place of the first block.
const PLACE: u64 = 32;

type Outcome = Result<u64, StoreFault>;

/// What a call tells, with a name, or its fault. It is nothing where there is no such call.
pub(crate) type Told = Option<(&'static str, Outcome)>;

/// Does the call of this name with these numbers, and gives the stage after it.
pub(crate) fn step(alloc: Global, stage: Stage, name: &[u8], args: &[u64]) -> (Told, Stage)
    requires { Stands stage }
    ensures { Stands result.1 }
{
    match stage {
        Stage::Idle(store) => on_idle(alloc, store, name, args),
        Stage::Begun(mut store) => {
            let outcome = seal(alloc, &mut store, name == b"seal".as_slice(), args);
            after(store, "turn", outcome)
        }
        _ => (None, stage),
    }
}

fn on_idle(alloc: Global, mut store: Kept, name: &[u8], args: &[u64]) -> (Told, Stage)
    requires { IsIdle store }
    ensures { Stands result.1 }
{
    if let (b"begin", [root, pages]) = (name, args) {
        return match begin(&mut store, *root, *pages) {
            Ok(()) => (Some(("root", Ok(*root))), Stage::Begun(store)),
            Err(_) => after(store, "root", Err(StoreFault::Memory)),
        };
    }
    match perform(alloc, &mut store, name, args) {
        Some((name, outcome)) => after(store, name, outcome),
        None => (None, Stage::Down(store.release())),
    }
}

fn after(store: Kept, name: &'static str, outcome: Outcome) -> (Told, Stage)
    requires { OnOk outcome (IsIdle store) }
    ensures { Stands result.1 }
{
    match outcome {
        Ok(number) => (Some((name, Ok(number))), Stage::Idle(store)),
        Err(fault) => (Some((name, Err(fault))), Stage::Down(store.release())),
    }
}

fn perform(alloc: Global, store: &mut Kept, name: &[u8], args: &[u64]) -> Told
    requires { IsIdle store.old }
    ensures { IfSome result (λ told. OnOk told.1 (IsIdle store.new)) }
{
    match (name, args) {
        (b"turn", [root, pages]) => Some(("turn", turn(alloc, store, *root, *pages))),
        (b"turns", [count, pages]) => Some(("turns", turns(alloc, store, *count, *pages))),
        (b"patch", []) => Some(("patched", store.patch_next().map(u64::from))),
        (b"clean", []) => Some(("patched", patch_all(store))),
        (b"settle", []) => Some(("settled", store.settle())),
        (b"turnover", [settled, emitted, acked @ ..]) => {
            Some(("base", turn_over(store, *settled, *emitted, acked)))
        }
        _ => None,
    }
}

fn turn(alloc: Global, store: &mut Kept, root: u64, pages: u64) -> Outcome
    requires { IsIdle store.old }
    ensures { OnOk result (IsIdle store.new) }
{
    begin(store, root, pages)?;
    seal(alloc, store, true, &[])
}

// So many turns, each of which changes so many pages, is patched and settled. A log goes over with 32 records.
fn turns(alloc: Global, store: &mut Kept, count: u64, pages: u64) -> Outcome
    requires { IsIdle store.old }
    ensures { OnOk result (IsIdle store.new) }
{
    for _ in 0..count {
        if store.records() >= 32 {
            turn_over(store, store.turns(), store.outputs(), &[])?;
        }
        turn(alloc, store, store.turns().saturating_add(1), pages)?;
        patch_all(store)?;
        store.settle()?;
    }
    Ok(store.turns())
}

// Writes all pages that are to be patched: how many there are.
fn patch_all(store: &mut Kept) -> Outcome
    requires { IsIdle store.old }
    ensures { OnOk result (IsIdle store.new) }
{
    for written in 0..u64::MAX {
        if !store.patch_next()? {
            return Ok(written);
        }
    }
    Ok(u64::MAX)
}

// Goes over to the other log, where that may be: the length of its base.
fn turn_over(store: &mut Kept, settled: u64, emitted: u64, acked: &[u64]) -> Outcome
    requires { IsIdle store.old }
    ensures { OnOk result (IsIdle store.new) }
{
    if store.log_end() > MAX_LEN || store.generation() == u32::MAX {
        return Ok(0);
    }
    let size = store.base_size(settled, acked, emitted);
    if size <= u64::from(u32::MAX) {
        store.turnover(settled, acked, emitted)?;
    }
    Ok(size)
}

// Begins a turn, and changes the root and by it eight bytes of each other of the first pages, so many.
fn begin(store: &mut Kept, root: u64, pages: u64) -> Result<(), AllocError>
    requires { IsIdle store.old }
    ensures { OnOk result (IsBegun store.new) }
{
    store.begin()?;
    let objects = store.objects();
    let answer = change(objects, root, pages);
    objects.stands();
    answer
}

// The other pages are in a block, which ends where they do, but for the head of the next one.
fn change(objects: &mut Objects, root: u64, pages: u64) -> Result<(), AllocError>
    requires { IsSome objects.old.begun }
    ensures { objects.new.begun ≡ objects.old.begun }
{
    if pages > 1 && !objects.is_block(PLACE) {
        objects.alloc(PAGE * pages.min(MAX_PAGES) - 48)?;
    }
    for page in 1..pages.min(MAX_PAGES) {
        let at = PAGE * page - PLACE;
        if objects.is_block(PLACE) && at + 8 <= objects.len_of(PLACE) {
            objects.write(PLACE, at, &root.to_be_bytes())?;
        }
    }
    objects.set_root(root)
}

// Seals the turn that is begun, and tells its number. One that isn't kept, or may not be sealed, is taken back: then it is 0.
fn seal(alloc: Global, store: &mut Kept, is_kept: bool, told: &[u64]) -> Outcome
    requires { IsBegun store.old }
    ensures { OnOk result (IsIdle store.new) }
{
    let effects = effects(alloc, store, told)?;
    if is_kept && store.may_seal(&effects) {
        return store.seal(&effects);
    }
    store.abort();
    Ok(0)
}

// A turn takes the next input with a stamp that is greater by two, and outputs `0`. Where it is told a stamp, a sender, the number
// of its message, a node and draws, it takes that message, draws these, and sends `0` to the node.
fn effects(alloc: Global, store: &Kept, told: &[u64]) -> Result<Effects, AllocError> {
    let out = Out {
        number: store.outputs().saturating_add(1),
        text: Octets::copied(alloc, b"0")?,
    };
    let mut effects = Effects {
        from: OUTSIDE,
        number: store.consumed_from(OUTSIDE).saturating_add(1),
        stamp: store.stamp().saturating_add(2),
        draws: Shared::empty(),
        sends: Shared::empty(),
        outs: Shared::new(alloc, vec![in alloc; out]?)?,
    };
    if let [stamp, from, number, to, draws @ ..] = told {
        effects.stamp = *stamp;
        effects.from = (*from % 256) as u8;
        effects.number = *number;
        effects.draws = Shared::new(alloc, Vec::from_slice(alloc, draws)?)?;
        let to = (*to % 8) as u8;
        let number = store.sent_to(to).saturating_add(1);
        let bytes = Octets::copied(alloc, b"0")?;
        effects.sends = Shared::new(alloc, vec![in alloc; Sent { to, number, bytes }]?)?;
    }
    Ok(effects)
}
