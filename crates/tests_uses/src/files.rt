//! Checks of files, over snapshots.
ghost use Rattle.std.specs.Prelude.{◌≡◌, Ok, Err, IfOk, MatchResult};
ghost use Rattle.predicates_path.specs.Snapshot.{content_of};
ghost use Rattle.predicates_path.specs.Equality.{has_content};
ghost use Rattle.tests_uses.specs.Script.{IsNoScript};

use predicates::path::{PathFault, Snapshot};
use predicates::prelude::*;
use predicates::reflection::Case;
use std::alloc::{AllocError, Global};

/// Whether the second file has the content of the first. It is refused where the first has no
/// content, with the fault that stands in its place. It takes no memory, since the test is
/// infallible; the allocator is there because `eval` is handed one, whether or not it takes any.
#[tactic(auto, using(predicates_core::proofs::Leaves::own_truth))]
pub fn is_copy(alloc: Global, original: Snapshot, copy: &Snapshot) -> Result<bool, PathFault>
    ensures { MatchResult (content_of original)
        (λ bytes. result ≡ Ok (has_content bytes (content_of copy.now)))
        (λ fault. result ≡ Err fault) }
{
    let same = predicate::path::eq_file(original)?;
    Ok(same.eval(alloc, copy).unwrap())
}

/// Why the file is no script: it is one where it is a regular file whose text begins with `#!`.
pub fn no_script(alloc: Global, file: &Snapshot) -> Result<Option<Case>, AllocError>
    ensures { IfOk result (IsNoScript file.now) }
{
    let mark = predicate::str::starts_with(String::from_str(alloc, "#!")?);
    let script = predicate::path::is_file()
        .follow_links(true)
        .and(mark.from_utf8().from_file_path())
        .name("script");
    script.find_case(alloc, false, file)
}
