ghost use Rattle.std.specs.Prelude.{◌≡◌, ◌+◌, ◌<◌, ◌≤◌, [], length, IfOk, IsTrue};
ghost use Rattle.ken_links.specs.Rings.{free, IsRing, SamePushEnd};

use crate::desks::{Desk, emitting, new_desk, outs};
use crate::outlets::ListedOutlet;
use ken_model::{Items, State};
use ken_ship::*;
use std::alloc::{AllocError, Global};
use std::test::Fail;

// An outlet that fails at the calls from 1 to `last`.
fn failing(alloc: Global, last: u64) -> Result<ListedOutlet, AllocError> {
    let mut fails = Vec::new(alloc);
    for call in 0..last {
        fails.push(call + 1)?;
    }
    Ok(ListedOutlet::new(alloc, Items::new(fails)))
}

// Whether the oldest output is refused.
fn is_refused(worker: &mut SendWorker, out: &mut ListedOutlet) -> bool
    requires { 0 < free worker.old.told }
    ensures refused { IsTrue result → free worker.new.told ≡ free worker.old.told }
    ensures other { free worker.old.told ≤ free worker.new.told + 1 }
{
    matches!(worker.emit_once(out), Ok(Emit::Refused))
}

// Whether so many calls are refused.
fn are_refused(worker: &mut SendWorker, out: &mut ListedOutlet, count: u64) -> bool
    requires { 0 < free worker.old.told }
    ensures { free worker.old.told ≤ free worker.new.told + 1 }
{
    for _call in 0..count {
        if !is_refused(worker, out) {
            return false;
        }
    }
    true
}

// The number of the output that is emitted, 0 where none is due, and 9 where none was emitted.
fn emitted(worker: &mut SendWorker, out: &mut ListedOutlet) -> u64
    requires { 0 < free worker.old.told }
    ensures free { free worker.old.told ≤ free worker.new.told + 1 }
    ensures end { SamePushEnd worker.old.told worker.new.told }
{
    match worker.emit_once(out) {
        Ok(Emit::Done(number)) => number,
        Ok(Emit::Nothing) => 0,
        _ => 9,
    }
}

#[test]
fn an_output_is_emitted_after_64_refusals(rt: HostRuntime) -> Result<(), Fail> {
    let alloc = rt.alloc();
    let mut desk = new_desk(alloc, 2)?;
    let mut out = failing(alloc, 64)?;
    desk.sealed.push(emitting(alloc)?);
    desk.worker.receive(&mut desk.sealed)?;
    assert!(rt; are_refused(&mut desk.worker, &mut out, 64));
    assert_eq!(rt; out.took().len(), 0);
    assert_eq!(rt; emitted(&mut desk.worker, &mut out), 1);
    assert_eq!(rt; emitted(&mut desk.worker, &mut out), 2);
    assert_eq!(rt; emitted(&mut desk.worker, &mut out), 0);
    assert_eq!(rt; out.took().len(), 2);
    assert_eq!(rt; out.faults(), 64);
    assert_eq!(rt; desk.worker.emissions().len(), 2);
    Ok(())
}

// The last emitted number that was told, and how often something was told.
fn told(desk: &mut Desk, alloc: Global) -> Result<(u64, usize), AllocError>
    requires { IsRing desk.old.worker.told desk.old.told }
{
    let mut told = Vec::new(alloc);
    desk.worker.tell(&mut desk.told, &mut told)?;
    match told.last() {
        Some(last) => Ok((last.progress.emitted, told.len())),
        None => Ok((0, 0)),
    }
}

#[test]
fn what_is_emitted_is_told(rt: HostRuntime) -> Result<(), Fail> {
    let alloc = rt.alloc();
    let mut desk = new_desk(alloc, 2)?;
    let mut out = failing(alloc, 0)?;
    desk.sealed.push(emitting(alloc)?);
    desk.worker.receive(&mut desk.sealed)?;
    assert_eq!(rt; emitted(&mut desk.worker, &mut out), 1);
    assert_eq!(rt; emitted(&mut desk.worker, &mut out), 2);
    assert_eq!(rt; told(&mut desk, alloc)?, (2, 2));
    Ok(())
}

// Two outputs of one turn, none of which is retired.
fn state(alloc: Global) -> Result<State, AllocError>
    ensures sent { IfOk result (λ s. length s.sent ≡ 8) }
    ensures mails { IfOk result (λ s. s.messages ≡ []) }
{
    Ok(State {
        turns: 1,
        stamp: 1,
        consumed: Items::new(Vec::from_slice(alloc, &[0; 9])?),
        sent: Items::new(Vec::from_slice(alloc, &[0; 8])?),
        outputs: 2,
        messages: Items::new(Vec::new(alloc)),
        outs: Items::new(outs(alloc, 1, 3)?),
    })
}

#[test]
fn the_65th_refusal_is_a_fault_until_a_restart(rt: HostRuntime) -> Result<(), Fail> {
    let alloc = rt.alloc();
    let mut desk = new_desk(alloc, 2)?;
    let mut out = failing(alloc, 66)?;
    desk.sealed.push(emitting(alloc)?);
    desk.worker.receive(&mut desk.sealed)?;
    assert!(rt; are_refused(&mut desk.worker, &mut out, 64));
    assert_eq!(rt; desk.worker.emit_once(&mut out), Err(NodeFault::Outlet));
    desk.worker.resume(&state(alloc)?)?;
    assert!(rt; are_refused(&mut desk.worker, &mut out, 1));
    assert_eq!(rt; emitted(&mut desk.worker, &mut out), 1);
    Ok(())
}

// An externaliser can be handed to another thread.
fn can_be_sent<T: Send>(_: &T) {}

#[test]
fn externalisers_can_be_sent(rt: HostRuntime) -> Result<(), Fail> {
    can_be_sent(&new_desk(rt.alloc(), 2)?.worker);
    Ok(())
}

#[test]
fn the_laws_are_calls(_rt: HostRuntime) {
    sends_are_events();
    acks_are_events();
    an_emission_is_an_event();
    what_is_handed_over_is_due();
    what_waits_was_handed_over();
}
