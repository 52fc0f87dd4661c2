//! What a snapshot holds beside its path.
use predicates_path::{FileType, PathFault, Snapshot};

// The kind that stands there, that behind a link, and the content.
pub type Parts<'a> = (
    Result<FileType, PathFault>,
    Result<FileType, PathFault>,
    Result<&'a [u8], PathFault>,
);

pub fn has_parts(snapshot: &Snapshot, parts: Parts<'_>) -> bool {
    let (plain, followed, content) = parts;
    snapshot.plain() == plain && snapshot.followed() == followed && snapshot.content() == content
}
