// The numbers that a log comes to, or where it is refused.
ghost use Rattle.std.specs.Prelude.{◌≡◌, ◌≤◌, ◌<◌, ◌^◌, ℕ, length, take, IfOk, IfErr, None, Some};
ghost use Rattle.std.specs.List.{AllByRecursion};
ghost use Rattle.ken_record.specs.Grammar.{IsRecord, IsBase};
ghost use Rattle.ken_record.specs.Versions.{One};
ghost use Rattle.ken_log.specs.Layout.{IsHead, log_bytes};
ghost use Rattle.ken_store.specs.Numbers.{after_records, place_after};
ghost use Rattle.ken_store.specs.Recovered.{start_of, numbers_of};

use crate::bases::base_stands;
use crate::numbers::Numbers;
use crate::owner::Owner;
use ken_disk::Disk;
use ken_log::Log;
use ken_record::Record;

// Where a log's base stands.
const BASE_AT: u64 = 32;

// The numbers that a log's records come to, or the place of its first item that is refused.
pub(crate) fn numbers_of<D: Disk>(
    owner: &Owner,
    log: &Log<D>,
    records: &[Record],
) -> Result<Numbers, u64>
    requires nodes { owner.now.nodes ≤ 8 }
    requires head { IsHead log.now.header log.now.base }
    requires items { AllByRecursion (IsRecord One) records.now }
    requires end { length (log_bytes log.now.header log.now.base records.now) < 2 ^ 64 }
    ensures { result ≡ numbers_of owner.now log.now.header log.now.base records.now }
{
    let Some(start) = start_of(owner, log) else {
        return Err(BASE_AT);
    };
    match resume(owner, start, records) {
        Ok(numbers) => Ok(numbers),
        Err(index) => {
            let gate = BASE_AT + u64::from(log.header().base_len);
            Err(place_after(gate, &records[..index]))
        }
    }
}

// What the records go on from, or nothing where the base is refused.
fn start_of<D: Disk>(owner: &Owner, log: &Log<D>) -> Option<Numbers>
    requires nodes { owner.now.nodes ≤ 8 }
    requires head { IsHead log.now.header log.now.base }
    ensures { result ≡ start_of owner.now log.now.header log.now.base }
{
    match log.base() {
        None => Some(Numbers::none()),
        Some(base) => {
            if base_stands(owner, log.header(), base) {
                Some(Numbers::of(log.header(), base))
            } else {
                None
            }
        }
    }
}

// The numbers after these records, or how many come before the first that is refused.
fn resume(owner: &Owner, start: Numbers, records: &[Record]) -> Result<Numbers, usize>
    requires { owner.now.nodes ≤ 8 }
    ensures ok { IfOk result (λ n. (place : ℕ) → after_records owner.now place start records.now ≡ Ok n) }
    ensures refused { IfErr result (λ i. (place : ℕ) → after_records owner.now place start records.now ≡ Err (place_after place (take i records.now))) }
    ensures within { IfErr result (λ i. i ≤ length records.now) }
{
    let mut numbers = start;
    for index in 0..records.len() {
        if !numbers.take(owner, &records[index]) {
            return Err(index);
        }
    }
    Ok(numbers)
}

// The gate's place behind these records, the first of which has its gate at a place.
fn place_after(place: u64, records: &[Record]) -> u64
    requires items { AllByRecursion (IsRecord One) records.now }
    requires end { place_after place records.now < 2 ^ 64 }
    ensures { result ≡ place_after place records.now }
{
    let mut gate = place;
    for record in records {
        gate += 1 + record.spelled_len() as u64;
    }
    gate
}
