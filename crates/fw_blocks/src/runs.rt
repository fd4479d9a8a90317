//! Runs of block numbers.

/// Block numbers that follow one another: those from the start on and below the end.
#[derive(Clone, Copy)]
pub struct Run {
    /// The first of the numbers.
    pub start: u32,
    /// The number after the last of them.
    pub end: u32,
}
