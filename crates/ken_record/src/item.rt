ghost use Rattle.std.specs.Prelude.{◌≡◌, ◌++◌, List, ℕ, length, drop, IfOk, IsErrOf, OnOk, OnErr, IsTrue, ◌↔◌};
ghost use Rattle.ken_record.specs.declared.item.Item.{Item};
ghost use Rattle.ken_record.specs.Versions.{One};
ghost use Rattle.ken_record.specs.Appending.{HasFront};
ghost use Rattle.ken_record.specs.Items.{IsItem, kind_of, spelling, Spells, Reads};
ghost use Rattle.ken_record.specs.Reading.{Gives, item_at};

use crate::RecordFault;
use crate::base::{Base, base_front};
use crate::header::{Header, header_front};
use crate::record::{Record, record_front};
use ken_model::Octets;
use std::alloc::{AllocError, Global};

/// An item of a log, without its gate.
#[derive(Debug, Drop)]
pub enum Item {
    Header(Header),
    Base(Base),
    Record(Record),
}

/// What is read.
#[derive(Clone, Copy, Debug, PartialEq, Eq)]
pub enum ItemKind {
    Header,
    Base,
    Record,
}

impl Item {
    /// Whether it has a spelling.
    pub fn fits(&self) -> bool
        ensures { IsTrue result ↔ IsItem One self.now }
    {
        match self {
            Item::Header(header) => header.fits(),
            Item::Base(base) => base.fits(),
            Item::Record(record) => record.fits(),
        }
    }

    /// Appends its one spelling. After an error a front of it may stand behind the bytes that `out` had.
    pub fn put(&self, out: &mut Vec<u8>) -> Result<(), AllocError>
        requires { IsItem One self.now }
        ensures ok { OnOk result (out.new.items ≡ out.old.items ++ spelling One self.now) }
        ensures err { OnErr result (HasFront out.old.items (spelling One self.now) out.new.items) }
    {
        match self {
            Item::Header(header) => header.put(out),
            Item::Base(base) => base.put(out),
            Item::Record(record) => record.put(out),
        }
    }
}

/// The one spelling of an item.
pub fn encode(alloc: Global, item: &Item) -> Result<Octets, AllocError>
    requires { IsItem One item.now }
    ensures { IfOk result (λ bytes. bytes ≡ spelling One item.now) }
{
    let mut out = Vec::new(alloc);
    item.put(&mut out)?;
    Ok(Octets::new(out))
}

// The item at the front of bytes, and the bytes after it.
#[tactic(auto, unfolding(crate::specs::Reading::item_at))]
fn item_front(alloc: Global, kind: ItemKind, bytes: &[u8]) -> Result<(Item, &[u8]), RecordFault>
    ensures { Gives (λ x. (x.0, x.1.now)) result (item_at One kind bytes.now) }
{
    match kind {
        ItemKind::Header => {
            let (header, rest) = header_front(bytes)?;
            Ok((Item::Header(header), rest))
        }
        ItemKind::Base => {
            let (base, rest) = base_front(alloc, bytes)?;
            Ok((Item::Base(base), rest))
        }
        ItemKind::Record => {
            let (record, rest) = record_front(alloc, bytes)?;
            Ok((Item::Record(record), rest))
        }
    }
}

/// The item of this kind at the front of `bytes`, and its length in bytes. `Bad` comes exactly where no front of them
/// is one. Takes time and memory by the bytes that are there, whatever length they tell.
pub fn decode(alloc: Global, kind: ItemKind, bytes: &[u8]) -> Result<(Item, usize), RecordFault>
    // What is read is of the kind, and stands at the front as it is spelled.
    ensures kind { IfOk result (λ x. kind_of x.0 ≡ kind) }
    ensures length { IfOk result (λ x. x.1 ≡ length (spelling One x.0)) }
    ensures found { IfOk result (λ x. Spells One bytes.now x.0 (drop x.1 bytes.now)) }
    // What stands at the front is read, unless memory runs out.
    ensures only { (item : Item) (rest : List ℕ) → kind_of item ≡ kind → Spells One bytes.now item rest → Reads One result item }
    // The same as one definition.
    ensures exact { Gives (λ x. (x.0, drop x.1 bytes.now)) result (item_at One kind bytes.now) }
    ensures bad { IsErrOf result RecordFault.Bad → (item : Item) (rest : List ℕ) → kind_of item ≡ kind → Spells One bytes.now item rest → ⊥ }
{
    let (item, rest) = item_front(alloc, kind, bytes)?;
    Ok((item, bytes.len() - rest.len()))
}
