//! What was taken of an input.

/// What `next_line_within` took of an input.
#[derive(Clone, Copy, Debug, PartialEq, Eq)]
pub enum TakenLine {
    /// A line, which stands in the caller's buffer.
    Line,
    /// A line longer than the limit, which was passed over.
    TooLong,
    /// Nothing: the input is at its end.
    End,
}
