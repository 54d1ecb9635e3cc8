/// A call that fails. `call` counts the writes and syncs of a disk from 1, over restarts too. `pick` is the pick that the
/// disk then proposes for its restart.
#[derive(Clone, Copy, Debug, PartialEq, Eq)]
pub struct Cut {
    pub call: u64,
    pub pick: u64,
}
