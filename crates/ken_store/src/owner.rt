ghost use Rattle.std.specs.Prelude.{◌≡◌};
ghost use Rattle.ken_store.specs.Logs.{is_owned, may_own};

use ken_record::Header;

/// Whose disks they are: a node, and the numbers of nodes and of pages of its heap.
#[derive(Clone, Copy, Debug, PartialEq, Eq)]
pub(crate) struct Owner {
    pub node: u8,
    pub nodes: u8,
    pub pages: u32,
}

impl Owner {
    // Whether a header tells this owner.
    pub(crate) fn owns(&self, header: &Header) -> bool
        ensures { result ≡ is_owned self.now header.now }
    {
        header.node == self.node && header.nodes == self.nodes && header.pages == self.pages
    }

    // Whether the header that may be there tells this owner.
    pub(crate) fn may_own(&self, header: &Option<Header>) -> bool
        ensures { result ≡ may_own self.now header.now }
    {
        match header {
            Some(header) => self.owns(header),
            None => true,
        }
    }
}
