/// What a call of a node's handler came to.
#[derive(Clone, Copy, Debug, PartialEq, Eq)]
pub enum Took {
    /// A turn was made and sealed.
    Turn,
    /// No message and no input waits.
    Idle,
    /// The node makes no more turns.
    Capped,
}
