/// What becomes of a packet that is put on a link.
#[derive(Clone, Copy, Debug, PartialEq, Eq)]
pub enum Act {
    /// It isn't passed on.
    Lose,
    /// It is passed on twice.
    Repeat,
    /// It is kept, and passed on straight after that many later puts of its kind on its link. After 0 it is passed on at once.
    Hold(u8),
}

/// What becomes of one put of the link from `from` to `to`: of number `n` among those of its kind, from 1.
#[derive(Clone, Copy, Debug, PartialEq, Eq)]
pub struct LinkAct {
    pub from: u8,
    pub to: u8,
    pub n: u64,
    pub act: Act,
}
