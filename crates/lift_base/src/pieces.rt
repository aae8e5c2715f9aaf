// What stands at the front of what is left, and why lines can't be read.

/// What stands at the front of what is left of a source.
#[derive(Clone, Copy, Debug, PartialEq, Eq)]
pub enum Front {
    /// A line, with its line feed.
    Line,
    /// Less than a line: some bytes without a line feed, and then the end.
    Cut,
    /// More bytes than a line may have, without a line feed.
    Long,
    /// Nothing.
    End,
}

/// What `Lines::next` gives.
#[derive(Clone, Copy, Debug, PartialEq, Eq)]
pub enum Piece {
    /// A line: where its bytes, without the line feed, begin and end in `Lines::text`.
    Line { from: usize, to: usize },
    /// Less than a line: some bytes without a line feed, and then the end.
    Cut,
    /// More bytes than a line may have, without a line feed.
    Long,
    /// Nothing is left.
    End,
}

/// Why no more lines are read.
#[derive(Clone, Copy, Debug, PartialEq, Eq)]
pub enum LineError {
    /// A read failed.
    Fault = 1,
    /// More bytes came than the limit allows.
    TooLong = 2,
}
