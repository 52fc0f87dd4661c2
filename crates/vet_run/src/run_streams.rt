//! Where a run writes.

/// Where a run writes what is told of records, and the messages about lines that have none.
#[derive(Drop)]
pub struct Streams<W, M> {
    pub output: W,
    pub messages: M,
}
