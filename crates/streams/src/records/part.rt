//! A part of an input.

/// What a part of an input was.
#[derive(Clone, Copy)]
pub(crate) enum Part {
    /// Bytes behind which the record may go on.
    More,
    /// Bytes that end a record.
    Ended,
    /// The end of the input.
    AtEnd,
}
