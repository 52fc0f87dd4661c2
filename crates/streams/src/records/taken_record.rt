//! What was taken of an input.

/// What `next_record` took of an input.
#[derive(Clone, Copy, Debug, PartialEq, Eq)]
pub enum TakenRecord {
    /// A record, which stands in the caller's buffer.
    Record,
    /// A record longer than the limit, which was passed over.
    TooLong,
    /// Nothing: the input ends inside an array.
    Unclosed,
    /// Nothing: the input is at its end.
    End,
}
