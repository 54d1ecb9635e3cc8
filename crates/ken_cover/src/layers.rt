use ken_model::Items;
use ken_record::Page;

/// A page, and the turn that last changed it.
#[derive(Debug, Drop)]
pub struct Change {
    pub turn: u64,
    pub page: Page,
}

/// The pages of one record, or of the base of a log.
#[derive(Debug, Drop)]
pub struct Layer {
    /// The record's turn, or the last turn before the base.
    pub turn: u64,
    pub changes: Items<Change>,
}
