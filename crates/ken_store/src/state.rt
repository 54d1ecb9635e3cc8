// The state that a log tells.
ghost use Rattle.std.specs.Prelude.{◌≡◌, ◌≤◌, ◌<◌, ◌^◌, length, Ok, IfOk};
ghost use Rattle.std.specs.List.{AllByRecursion};
ghost use Rattle.ken_record.specs.Grammar.{IsRecord};
ghost use Rattle.ken_record.specs.Versions.{One};
ghost use Rattle.ken_log.specs.Layout.{IsHead, log_bytes};
ghost use Rattle.ken_store.specs.Answers.{IsChecked};
ghost use Rattle.ken_store.specs.Recovered.{checked, numbers_of, state_of};

use crate::StoreFault;
use crate::disks::Which;
use crate::numbers::Numbers;
use crate::owner::Owner;
use crate::resume::numbers_of;
use crate::waiting::{messages_in, outs_in};
use ken_disk::Disk;
use ken_log::Log;
use ken_model::{Items, State};
use ken_record::{Header, Record};
use std::alloc::{AllocError, Global};

/// The current log, and the headers of both.
#[derive(Clone, Copy, Debug)]
pub(crate) struct Heads {
    pub which: Which,
    pub first: Option<Header>,
    pub second: Option<Header>,
}

// The state of a log that mounted, or the first of its items that is refused.
pub(crate) fn state_of<D: Disk>(
    alloc: Global,
    owner: &Owner,
    heads: &Heads,
    log: &Log<D>,
    records: &[Record],
) -> Result<(Numbers, State), StoreFault>
    requires nodes { owner.now.nodes ≤ 8 }
    requires head { IsHead log.now.header log.now.base }
    requires items { AllByRecursion (IsRecord One) records.now }
    requires end { length (log_bytes log.now.header log.now.base records.now) < 2 ^ 64 }
    ensures checked { IsChecked result (checked owner.now heads.now.which heads.now.first heads.now.second log.now.header log.now.base records.now) }
    ensures numbers { IfOk result (λ x. numbers_of owner.now log.now.header log.now.base records.now ≡ Ok x.0) }
{
    if !owner.may_own(&heads.first) {
        return Err(StoreFault::Damaged { disk: 0, place: 0 });
    }
    if !owner.may_own(&heads.second) {
        return Err(StoreFault::Damaged { disk: 2, place: 0 });
    }
    let numbers = match numbers_of(owner, log, records) {
        Ok(numbers) => numbers,
        Err(place) => {
            return Err(StoreFault::Damaged {
                disk: heads.which.number(),
                place,
            });
        }
    };
    match with_lists(alloc, owner.node, &numbers, log, records) {
        Ok(state) => Ok((numbers, state)),
        Err(_) => Err(StoreFault::Memory),
    }
}

// The numbers of a log with its messages and outputs.
fn with_lists<D: Disk>(
    alloc: Global,
    node: u8,
    numbers: &Numbers,
    log: &Log<D>,
    records: &[Record],
) -> Result<State, AllocError>
    ensures { IfOk result (λ s. s ≡ state_of node numbers.now log.now.base records.now) }
{
    Ok(State {
        turns: numbers.turns,
        stamp: numbers.stamp,
        consumed: Items::new(Vec::from_slice(alloc, &numbers.consumed)?),
        sent: Items::new(Vec::from_slice(alloc, &numbers.sent)?),
        outputs: numbers.outputs,
        messages: messages_in(alloc, node, log, records)?,
        outs: outs_in(alloc, log, records)?,
    })
}
