ghost use Rattle.std.specs.Prelude.{◌≡◌};
ghost use Rattle.ken_model.specs.Kinds.{kind_of};

/// Which handler the nodes of a run have.
#[derive(Clone, Copy, Debug, PartialEq, Eq)]
pub enum Kind {
    /// A count goes round the nodes.
    Ring,
    /// Numbers are added up, and those from outside at each node.
    Tally,
    /// A number is halved from node to node, and each keeps its half.
    Share,
    /// A count goes from node to node by random words, and each turn reads the clock.
    Mix,
    /// Texts are kept by keys, in the blocks of the heap.
    Kv,
    /// Amounts are moved between accounts, which are blocks of the heaps.
    Bank,
}

impl Kind {
    /// The kind of that name.
    pub fn of(name: &[u8]) -> Option<Kind>
        ensures { result ≡ kind_of name.now }
    {
        if name == b"ring".as_slice() {
            Some(Kind::Ring)
        } else if name == b"tally".as_slice() {
            Some(Kind::Tally)
        } else if name == b"share".as_slice() {
            Some(Kind::Share)
        } else if name == b"mix".as_slice() {
            Some(Kind::Mix)
        } else if name == b"kv".as_slice() {
            Some(Kind::Kv)
        } else if name == b"bank".as_slice() {
            Some(Kind::Bank)
        } else {
            None
        }
    }
}
