use thiserror::Error;

/// The bytes of a heap stand for no value.
#[derive(Clone, Copy, Debug, PartialEq, Eq, Error)]
#[error("the heap is broken at {place}")]
pub struct Broken {
    /// Where they are wrong first: 8 for the name, 12 for the number of pages, else the head of a cell.
    pub place: u64,
}
