// A node's heap, with the value that it stands for.
ghost use Rattle.std.specs.Prelude.{◌≡◌, ◌+◌, ◌*◌, ◌≤◌, ℕ, length, map, IfOk, IfSome, Some};
ghost use Rattle.std.specs.List.{AllByRecursion};
ghost use Rattle.ken_model.specs.Heap.{IsHeap};
ghost use Rattle.ken_model.specs.Reading.{read_value};
ghost use Rattle.ken_cover.specs.Overlay.{overlay};
ghost use Rattle.ken_core.specs.Enabled.{IsChanged};
ghost use Rattle.ken_core.specs.Pages.{IsFit, AreFit};
ghost use Rattle.ken_core.specs.Heaps.{pages_before};

use crate::bytes::{lay, lay_changes, page_in};
use ken_cover::Change;
use ken_model::{Octets, Value};
use ken_record::{Page, PageBytes};
use std::alloc::{AllocError, Global};
use std::marker::Model;

/// The bytes of a heap.
#[derive(Debug, Drop)]
pub(crate) struct Heap {
    bytes: Vec<u8>,
    /// What they stand for, where that is known.
    value: Option<Value>,
}

impl Model for Heap {
    ghost use Rattle.std.specs.Prelude.{ℕ, List};
    ghost use Rattle.ken_core.specs.Heaps.{IsValueOf};

    ghost Value = { List ℕ };

    ghost view = { λ h. h.bytes.items };

    ghost invariant = { λ h. IsValueOf h.bytes.items h.value };
}

impl Heap {
    /// The heap of these bytes, whose value isn't known yet.
    pub(crate) fn new(bytes: Vec<u8>) -> Self
        ensures { result ≡ bytes.items }
    {
        Heap { bytes, value: None }
    }

    pub(crate) fn as_slice(&self) -> &[u8]
        ensures { result.now ≡ self.now }
    {
        self.bytes.as_slice()
    }

    /// The value that it stands for, which is read only where it isn't known: `None` where it stands for none. Its bytes
    /// stay as they are; their value isn't known after that.
    pub(crate) fn take_value(&mut self, alloc: Global) -> Result<Option<Value>, AllocError>
        ensures value { IfOk result (λ v. v ≡ read_value self.old) }
        ensures heap { IfOk result (λ v. IfSome v IsHeap) }
        ensures same { self.new ≡ self.old }
    {
        if let Some(value) = self.value.take() {
            return Ok(Some(value));
        }
        Value::read(alloc, self.bytes.as_slice())
    }

    /// The value that it would stand for with changed pages laid over it: `None` where it would stand for none. Its bytes
    /// stay as they are, after an error too: the pages are laid over them, and the old ones put back.
    pub(crate) fn value_under(
        &mut self,
        alloc: Global,
        pages: &[Page],
    ) -> Result<Option<Value>, AllocError>
        requires size { (n : ℕ) × (length self.old ≡ 256 * n) }
        requires changed { AllByRecursion (IsChanged self.old) pages.now }
        ensures value { IfOk result (λ v. v ≡ read_value (overlay self.old pages.now)) }
        ensures same { self.new ≡ self.old }
    {
        let before = pages_before(alloc, self.bytes.as_slice(), pages)?;
        lay(&mut self.bytes, pages);
        let value = Value::read(alloc, self.bytes.as_slice());
        lay(&mut self.bytes, before.as_slice());
        value
    }

    /// Lays changed pages over it, with which it stands for this value.
    pub(crate) fn change(&mut self, changes: &[Change], value: Value)
        requires fit { AreFit (length self.old) changes.now }
        requires value { read_value (overlay self.old (map (λ c. c.page) changes.now)) ≡ Some value }
        ensures { self.new ≡ overlay self.old (map (λ c. c.page) changes.now) }
    {
        lay_changes(&mut self.bytes, changes);
        self.value = Some(value);
    }
}

/// The pages of those numbers as they are in the heap.
fn pages_before(alloc: Global, heap: &[u8], pages: &[Page]) -> Result<Vec<Page>, AllocError>
    requires { AllByRecursion (IsChanged heap.now) pages.now }
    ensures { IfOk result (λ before. before.items ≡ pages_before heap.now pages.now) }
{
    let mut before = Vec::with_capacity(alloc, pages.len())?;
    for changed in pages {
        let bytes = page_in(heap, changed.page);
        before.push(Page {
            page: changed.page,
            bytes: PageBytes::own(Octets::new(Vec::from_slice(alloc, bytes)?)),
        })?;
    }
    Ok(before)
}
