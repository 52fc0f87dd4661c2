mod bookings;
mod callers;
mod orders;
mod own;
mod reason;

use crate::tests::made::{Host, owned, vec_of};
use predicates::path::{FileType, Snapshot};

// A regular file with this path and content.
fn file(rt: &impl Host, path: &str, content: &[u8]) -> Snapshot {
    let content = vec_of(rt, content);
    let kind = Ok(FileType::File);
    Snapshot::from_parts(owned(rt, path), kind, kind, Ok(content))
}
