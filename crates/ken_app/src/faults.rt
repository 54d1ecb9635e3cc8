use thiserror::Error;

/// Why a message isn't sent. The turn is then as before.
#[derive(Clone, Copy, Debug, PartialEq, Eq, Error)]
pub enum SendFault {
    /// There is no such node.
    #[error("no such node")]
    NoNode,
    /// It has more than `MAX_TEXT` bytes.
    #[error("too long")]
    TooLong,
    /// The turn has sent `MAX_SENDS` messages.
    #[error("too many")]
    TooMany,
    #[error("out of memory")]
    Memory,
}

/// Why an output isn't made. The turn is then as before.
#[derive(Clone, Copy, Debug, PartialEq, Eq, Error)]
pub enum OutputFault {
    /// It has more than `MAX_TEXT` bytes.
    #[error("too long")]
    TooLong,
    /// The turn has made `MAX_OUTPUTS` outputs.
    #[error("too many")]
    TooMany,
    #[error("out of memory")]
    Memory,
}

/// The turn has drawn `MAX_DRAWS` times, and is as before.
#[derive(Clone, Copy, Debug, PartialEq, Eq, Error)]
#[error("no draw is left")]
pub struct NoDraw;
