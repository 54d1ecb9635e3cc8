// Laws of the grammar, which no single call shows.
ghost use Rattle.std.specs.Prelude.{◌≡◌, ◌++◌, ◌+◌, ◌≤◌, List, ℕ, length};
ghost use Rattle.ken_record.specs.declared.base.Base.{Base};
ghost use Rattle.ken_record.specs.declared.header.Header.{Header};
ghost use Rattle.ken_record.specs.declared.item.Item.{Item};
ghost use Rattle.ken_record.specs.declared.record.Record.{Record};
ghost use Rattle.ken_record.specs.Versions.{Version, most_fields};
ghost use Rattle.ken_record.specs.Grammar.{IsBase, IsRecord};
ghost use Rattle.ken_record.specs.Items.{IsItem, kind_of, spelling};
ghost use Rattle.ken_record.specs.Spelling.{header_bytes, base_bytes, record_bytes};

/// No two items of a kind are spelled alike, and no spelling of one begins another's. Nor does a header's begin a record's,
/// or a record's a header's.
pub fn one_spelling()
    ensures one { (v : Version) (a b : Item) (x y : List ℕ) → kind_of a ≡ kind_of b → IsItem v a → IsItem v b → spelling v a ++ x ≡ spelling v b ++ y → (a ≡ b) × (x ≡ y) }
    ensures apart { (v : Version) (h : Header) (r : Record) (x y : List ℕ) → IsRecord v r → header_bytes h ++ x ≡ record_bytes v r ++ y → ⊥ }
{}

/// A header takes 31 bytes, a base at least 162, and a record no more than its length may say.
pub fn lengths()
    ensures header { (h : Header) → length (header_bytes h) ≡ 31 }
    ensures base { (v : Version) (b : Base) → IsBase v b → 162 ≤ length (base_bytes v b) }
    ensures record { (v : Version) (r : Record) → IsRecord v r → length (record_bytes v r) ≤ 4 + most_fields v }
{}
