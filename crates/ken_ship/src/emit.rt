/// What an externaliser did with the oldest output that waits.
#[derive(Clone, Copy, Debug, Drop, PartialEq, Eq)]
pub enum Emit {
    /// It was emitted; it has this number.
    Done(u64),
    /// The outlet failed, and it waits still.
    Refused,
    /// No output is due.
    Nothing,
}
