// Lists of items of one kind, each with a spelling of its own.
ghost use Rattle.std.specs.Prelude.{◌≡◌, ℕ, ◌+◌, ◌*◌, ◌++◌, ◌≤◌, ◌<◌, ◌^◌, ◌↔◌, List, length, Option, IsTrue, OnOk, OnErr};
ghost use Rattle.std.specs.List.{AllByRecursion, flat_map};
ghost use Rattle.ken_record.specs.Spelling.{number, counted};
ghost use Rattle.ken_record.specs.Grammar.{IsWord, AtMost, Exactly};
ghost use Rattle.ken_record.specs.Appending.{HasFront};
ghost use Rattle.ken_record.specs.Reading.{Gives, number_at, items_at, sized};

use crate::RecordFault;
use crate::bytes::{put_1, put_2, put_4, put_8, u8_front, u16_front, u32_front, u64_front};
use ken_model::{Items, Shared};
use std::alloc::{AllocError, Global};

// An item of a list.
pub(crate) trait Field: Drop + Sized {
    // What has a spelling.
    ghost is: { Self → Type 0 };

    ghost spell: { Self → List ℕ };

    // What stands at the front of bytes, and the bytes after it.
    ghost reads: { List ℕ → Option (Self × List ℕ) };

    fn fits(&self) -> bool
        ensures { IsTrue result ↔ is self.now };

    // The length of its spelling, at most 65,554 bytes.
    fn len(&self) -> usize
        requires { is self.now }
        ensures len { result ≡ length (spell self.now) }
        ensures short { result ≤ 65554 };

    // Appends its spelling. After an error a front of it may stand behind the old bytes.
    fn put(&self, out: &mut Vec<u8>) -> Result<(), AllocError>
        requires { is self.now }
        ensures ok { OnOk result (out.new.items ≡ out.old.items ++ spell self.now) }
        ensures err { OnErr result (HasFront out.old.items (spell self.now) out.new.items) };

    fn read(alloc: Global, bytes: &[u8]) -> Result<(Self, &[u8]), RecordFault>
        ensures { Gives (λ x. (x.0, x.1.now)) result (reads bytes.now) };
}

impl Field for u64 {
    ghost is = { IsWord };

    ghost spell = { number 8 };

    ghost reads = { number_at 8 };

    fn fits(&self) -> bool {
        let _any = *self;
        true
    }

    #[tactic(auto, using(crate::proofs::Sizes::number_long))]
    fn len(&self) -> usize {
        8
    }

    fn put(&self, out: &mut Vec<u8>) -> Result<(), AllocError> {
        put_8(out, *self)
    }

    fn read(_alloc: Global, bytes: &[u8]) -> Result<(u64, &[u8]), RecordFault> {
        u64_front(bytes)
    }
}

// Whether each item has a spelling.
pub(crate) fn all_fit<T: Field>(items: &[T]) -> bool
    ensures { IsTrue result ↔ AllByRecursion T.is items.now }
{
    for item in items {
        if !item.fits() {
            return false;
        }
    }
    true
}

// Whether they are at most so many, each with a spelling.
pub(crate) fn at_most<T: Field>(most: usize, items: &[T]) -> bool
    ensures { IsTrue result ↔ AtMost most T.is items.now }
{
    items.len() <= most && all_fit(items)
}

// Whether they are just so many, each with a spelling.
pub(crate) fn exactly<T: Field>(count: usize, items: &[T]) -> bool
    ensures { IsTrue result ↔ Exactly count T.is items.now }
{
    items.len() == count && all_fit(items)
}

// The length of their spellings together.
fn len_all<T: Field>(items: &[T]) -> usize
    requires few { length items.now < 2 ^ 32 }
    requires fit { AllByRecursion T.is items.now }
    ensures len { result ≡ length (flat_map T.spell items.now) }
    ensures short { result ≤ 65554 * length items.now }
{
    let mut len = 0;
    for item in items {
        len += item.len();
    }
    len
}

// The same, with a count of `width` bytes before them.
#[tactic(auto, using(crate::proofs::Sizes::counted_long))]
pub(crate) fn counted_len<T: Field>(width: usize, items: &[T]) -> usize
    requires width { width ≤ 4 }
    requires few { length items.now < 2 ^ 32 }
    requires fit { AllByRecursion T.is items.now }
    ensures len { result ≡ length (counted width T.spell items.now) }
    ensures short { result ≤ 4 + 65554 * length items.now }
{
    width + len_all(items)
}

// Appends the items, one after the other.
pub(crate) fn put_all<T: Field>(out: &mut Vec<u8>, items: &[T]) -> Result<(), AllocError>
    requires { AllByRecursion T.is items.now }
    ensures ok { OnOk result (out.new.items ≡ out.old.items ++ flat_map T.spell items.now) }
    ensures err { OnErr result (HasFront out.old.items (flat_map T.spell items.now) out.new.items) }
{
    for item in items {
        item.put(out)?;
    }
    Ok(())
}

// So many items. Each is read before the next is waited for: no memory is taken for a count.
pub(crate) fn some<T: Field>(
    alloc: Global,
    count: usize,
    bytes: &[u8],
) -> Result<(Items<T>, &[u8]), RecordFault>
    ensures { Gives (λ x. (x.0, x.1.now)) result (items_at T.reads count bytes.now) }
{
    let mut items = Vec::new(alloc);
    let mut rest = bytes;
    for _ in 0..count {
        let (item, after) = T::read(alloc, rest)?;
        items.push(item)?;
        rest = after;
    }
    Ok((Items::new(items), rest))
}

// A count of one byte, at most `most`, and the items.
pub(crate) fn few_front<T: Field>(
    alloc: Global,
    most: usize,
    bytes: &[u8],
) -> Result<(Shared<T>, &[u8]), RecordFault>
    ensures { Gives (λ x. (x.0, x.1.now)) result (sized 1 most (items_at T.reads) bytes.now) }
{
    let (count, rest) = u8_front(bytes)?;
    let count = usize::from(count);
    if count > most {
        return Err(RecordFault::Bad);
    }
    let (items, rest) = some(alloc, count, rest)?;
    Ok((Shared::new(alloc, items.into_vec())?, rest))
}

// A count of two bytes, at most `most`, and the items.
pub(crate) fn many_front<T: Field>(
    alloc: Global,
    most: usize,
    bytes: &[u8],
) -> Result<(Items<T>, &[u8]), RecordFault>
    ensures { Gives (λ x. (x.0, x.1.now)) result (sized 2 most (items_at T.reads) bytes.now) }
{
    let (count, rest) = u16_front(bytes)?;
    let count = usize::from(count);
    if count > most {
        return Err(RecordFault::Bad);
    }
    some(alloc, count, rest)
}

// A count of four bytes, and the items.
pub(crate) fn most_front<T: Field>(
    alloc: Global,
    bytes: &[u8],
) -> Result<(Items<T>, &[u8]), RecordFault>
    ensures { Gives (λ x. (x.0, x.1.now)) result (sized 4 0xffff_ffff (items_at T.reads) bytes.now) }
{
    let (count, rest) = u32_front(bytes)?;
    some(alloc, count as usize, rest)
}

#[tactic(auto, using(crate::proofs::Appended::appended))]
pub(crate) fn put_few<T: Field>(out: &mut Vec<u8>, items: &[T]) -> Result<(), AllocError>
    requires few { length items.now < 256 }
    requires fit { AllByRecursion T.is items.now }
    ensures ok { OnOk result (out.new.items ≡ out.old.items ++ counted 1 T.spell items.now) }
    ensures err { OnErr result (HasFront out.old.items (counted 1 T.spell items.now) out.new.items) }
{
    put_1(out, items.len() as u8)?;
    put_all(out, items)
}

#[tactic(auto, using(crate::proofs::Appended::appended))]
pub(crate) fn put_many<T: Field>(out: &mut Vec<u8>, items: &[T]) -> Result<(), AllocError>
    requires few { length items.now < 2 ^ 16 }
    requires fit { AllByRecursion T.is items.now }
    ensures ok { OnOk result (out.new.items ≡ out.old.items ++ counted 2 T.spell items.now) }
    ensures err { OnErr result (HasFront out.old.items (counted 2 T.spell items.now) out.new.items) }
{
    put_2(out, items.len() as u16)?;
    put_all(out, items)
}

#[tactic(auto, using(crate::proofs::Appended::appended))]
pub(crate) fn put_most<T: Field>(out: &mut Vec<u8>, items: &[T]) -> Result<(), AllocError>
    requires few { length items.now < 2 ^ 32 }
    requires fit { AllByRecursion T.is items.now }
    ensures ok { OnOk result (out.new.items ≡ out.old.items ++ counted 4 T.spell items.now) }
    ensures err { OnErr result (HasFront out.old.items (counted 4 T.spell items.now) out.new.items) }
{
    put_4(out, items.len() as u32)?;
    put_all(out, items)
}
