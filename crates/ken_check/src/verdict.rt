/// What a report is judged as.
#[derive(Clone, Copy, Debug, PartialEq, Eq)]
pub enum Verdict {
    /// Each line is right, and the end line is the last.
    Right,
    /// This line, counted from 1, is the first that is wrong.
    Wrong { line: u64 },
}
