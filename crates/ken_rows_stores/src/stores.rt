// A node over disks in memory, and how its store comes up.
ghost use Rattle.ken_store.specs.Answers.{AreAtRest};
ghost use Rattle.ken_rows_stores.specs.Stores.{IsNode, Stands, told};

use crate::disks::{Kept, Three, read, rested};
use ken_model::{MAX_PAGES, State};
use ken_rows::{Answer, RowFault, Words};
use ken_store::{Recovered, StoreFault, create, recover};
use std::alloc::Global;
use std::marker::Model;
use std::mem;

pub(crate) type Row = Result<(), RowFault>;

type Found = Result<Option<State>, StoreFault>;

/// How far a node is.
#[derive(Drop)]
pub(crate) enum Stage {
    Absent,
    /// A disk failed, or is damaged.
    Down(Three),
    Idle(Kept),
    Begun(Kept),
}

/// A node of so many, with so many pages.
#[derive(Drop)]
pub(crate) struct Stores {
    pub alloc: Global,
    pub owner: (u8, u8, u32),
    pub stage: Stage,
}

impl Model for Stores {
    ghost use Rattle.ken_rows_stores.specs.Stores.{IsNode, Stands};

    ghost Value = { Unit {0} };

    ghost view = { λ _. tt };

    ghost invariant = { λ s. IsNode s.owner × Stands s.stage };
}

impl Stores {
    pub(crate) fn new(alloc: Global) -> Self {
        Stores {
            alloc,
            owner: (0, 1, 1),
            stage: Stage::Absent,
        }
    }

    /// Another node, on new disks without a byte.
    pub(crate) fn anew(&mut self, words: &mut Words<'_>, answer: &mut Answer) -> Row {
        let node = words.within(0, 7)?;
        let nodes = words.within(node + 1, 8)?;
        let pages = words.within(1, MAX_PAGES)?;
        self.owner = (node as u8, nodes as u8, pages as u32);
        self.come_up(read(self.alloc, true, words)?, answer)
    }

    /// Recovers the store after a crash with this pick, or once its disks are synced.
    pub(crate) fn restart(&mut self, pick: Option<u64>, answer: &mut Answer) -> Row {
        let disks = self.release().ok_or(RowFault::Usage)?;
        self.come_up(rested(disks, pick)?, answer)
    }

    // Takes the disks, where there are any.
    fn release(&mut self) -> Option<Three> {
        match mem::replace(&mut self.stage, Stage::Absent) {
            Stage::Absent => None,
            Stage::Down(disks) => Some(disks),
            Stage::Idle(store) | Stage::Begun(store) => Some(store.release()),
        }
    }

    /// Recovers the store on these disks, in place of any others.
    pub(crate) fn come_up(&mut self, disks: Three, answer: &mut Answer) -> Row
        requires { AreAtRest told disks }
    {
        let _others = self.release();
        let (found, stage) = recovered(self.alloc, self.owner, disks);
        // What is forgotten is absent: the disks were taken.
        mem::forget(mem::replace(&mut self.stage, stage));
        match found {
            Ok(Some(state)) => {
                tell_state(&state, answer)?;
                self.value(answer)
            }
            Ok(None) => Ok(answer.word("fresh")?),
            Err(fault) => self.tell_fault(fault, answer),
        }
    }

    /// Tells the fault by which the node is down.
    pub(crate) fn tell_fault(&self, fault: StoreFault, answer: &mut Answer) -> Row {
        if fault == StoreFault::Memory {
            return Err(RowFault::Memory);
        }
        Ok(answer.word(format!(in self.alloc; "{fault}")?.as_str())?)
    }

    fn store(&self) -> Result<&Kept, RowFault> {
        match &self.stage {
            Stage::Idle(store) | Stage::Begun(store) => Ok(store),
            _ => Err(RowFault::Usage),
        }
    }

    /// What the heap stands for.
    pub(crate) fn value(&self, answer: &mut Answer) -> Row {
        let value = self.store()?.value(self.alloc)?;
        answer.named("root", value.root)?;
        for block in value.blocks.as_slice() {
            answer.named("block", block.place)?;
            answer.bytes(block.bytes.as_slice())?;
        }
        Ok(())
    }

    /// The log, and the pages of the heap.
    pub(crate) fn log(&self, answer: &mut Answer) -> Row {
        let store = self.store()?;
        answer.named("generation", u64::from(store.generation()))?;
        answer.named("records", store.records())?;
        answer.named("end", store.log_end())?;
        Ok(answer.named("pages", u64::from(store.pages()))?)
    }
}

// What a recovery finds on disks, and the stage after it. Where there is no store one is created.
fn recovered(alloc: Global, owner: (u8, u8, u32), disks: Three) -> (Found, Stage)
    requires owner { IsNode owner }
    requires rests { AreAtRest told disks }
    ensures { Stands result.1 }
{
    match recover(alloc, disks, owner.0, owner.1, owner.2) {
        Ok(Recovered::Fresh(disks)) => match create(alloc, disks, owner.0, owner.1, owner.2) {
            Ok(store) => (Ok(None), Stage::Idle(store)),
            Err((fault, disks)) => (Err(fault), Stage::Down(disks)),
        },
        Ok(Recovered::Whole(store, state, _records)) => (Ok(Some(state)), Stage::Idle(store)),
        Err((fault, disks)) => (Err(fault), Stage::Down(disks)),
    }
}

// What a recovery found, but for the heap.
fn tell_state(state: &State, answer: &mut Answer) -> Row {
    answer.named("turns", state.turns)?;
    answer.named("stamp", state.stamp)?;
    answer.named_numbers("consumed", state.consumed.as_slice())?;
    answer.named_numbers("sent", state.sent.as_slice())?;
    answer.named("outputs", state.outputs)?;
    for message in state.messages.as_slice() {
        let numbers = [u64::from(message.to), message.number, message.stamp];
        answer.named_numbers("message", &numbers)?;
        answer.text(message.bytes.as_slice())?;
    }
    for out in state.outs.as_slice() {
        answer.named("output", out.number)?;
        answer.text(out.text.as_slice())?;
    }
    Ok(())
}
