//! Snapshots of any parts.
use crate::cells::{bytes, text};
use crate::items::{Asked, Items};
use crate::path_predicates::{answer, asked, same_as};
use anyhow::{Context, Result};
use predicates::path::{BinaryFilePredicate, FileType, PathFault, Snapshot};
use std::alloc::Global;
use tests_support::{Answers, ReferenceFormula, bytes_formula, read_text_words};

/// Snapshots at the path `p`, as the kind there, the kind that it leads to and the content; or
/// `bytes` or `text` and what a file's content is compared with.
pub struct Paths;

fn read_fault(word: &str) -> Option<PathFault> {
    Some(match word {
        "not_found" => PathFault::NotFound,
        "permission_denied" => PathFault::PermissionDenied,
        "not_regular" => PathFault::NotRegular,
        "other_fault" => PathFault::Other,
        _ => return None,
    })
}

fn read_kind(word: &str) -> Option<Result<FileType, PathFault>> {
    Some(match word {
        "file" => Ok(FileType::File),
        "dir" => Ok(FileType::Dir),
        "symlink" => Ok(FileType::Symlink),
        "other" => Ok(FileType::Other),
        _ => Err(read_fault(word)?),
    })
}

fn read_content(alloc: Global, word: &str) -> Result<Result<Vec<u8>, PathFault>> {
    match read_fault(word) {
        Some(fault) => Ok(Err(fault)),
        None => Ok(Ok(bytes(alloc, word)?)),
    }
}

/// The snapshot at the path of the three parts.
pub fn read_snapshot(alloc: Global, path: &str, parts: &str) -> Result<Snapshot> {
    let (plain, rest) = parts.split_once(' ').context("one part alone")?;
    let (followed, content) = rest.split_once(' ').context("two parts alone")?;
    let plain = read_kind(plain).context("an unknown kind")?;
    let followed = read_kind(followed).context("an unknown kind")?;
    let content = read_content(alloc, content)?;
    let path = String::from_str(alloc, path)?;
    Ok(Snapshot::from_parts(path, plain, followed, content))
}

fn answer_bytes(alloc: Global, digits: &str, same: BinaryFilePredicate) -> Result<Option<Answers>> {
    asked(alloc, same, &bytes(alloc, digits)?)
}

fn answer_text(alloc: Global, written: &str, same: BinaryFilePredicate) -> Result<Option<Answers>> {
    let item = text(alloc, written)?;
    asked(alloc, same.utf8().context("no text")?, &item)
}

// What the comparison with the file answers on bytes or a text; none where the item is neither.
fn answer_content(
    alloc: Global,
    predicate: &str,
    item: &str,
    same: BinaryFilePredicate,
) -> Result<Option<Answers>> {
    match (predicate, item.split_once(' ')) {
        ("eq_file a", Some(("bytes", digits))) => answer_bytes(alloc, digits, same),
        ("eq_file a utf8", Some(("text", written))) => answer_text(alloc, written, same),
        _ => Ok(None),
    }
}

// Whether a leaf of the words holds, by the words of the item's parts; none of other words.
fn leaf_truth(predicate: &str, parts: &str) -> Option<bool> {
    let (plain, rest) = parts.split_once(' ').unwrap_or((parts, ""));
    let (followed, content) = rest.split_once(' ').unwrap_or((rest, ""));
    let is_there = matches!(followed, "file" | "dir" | "symlink" | "other");
    Some(match predicate {
        "exists" => is_there,
        "missing" => !is_there,
        "is_file" => plain == "file",
        "is_dir" => plain == "dir",
        "is_symlink" => plain == "symlink",
        "is_file follow" => followed == "file",
        "is_dir follow" => followed == "dir",
        "is_symlink follow" => followed == "symlink",
        "from_path" => is_there,
        "eq_file a" | "eq_file a utf8" => match plain {
            "bytes" => rest == "61",
            "text" => rest == "a",
            _ => content == "61",
        },
        _ => return None,
    })
}

fn formula_of_content(alloc: Global, words: &str, parts: &str) -> Result<ReferenceFormula> {
    let (_, content) = parts.rsplit_once(' ').context("one part alone")?;
    if read_fault(content).is_some() {
        return Ok(ReferenceFormula::Leaf(false));
    }
    let words = read_text_words(alloc, words)?.context("an unknown word")?;
    let content = bytes(alloc, content)?;
    bytes_formula(alloc, words, content.as_slice())?.context("no formula")
}

// The formula of the words: one leaf, or over a content that formula of the content, or a false
// leaf where a fault stands in its place.
fn formula(alloc: Global, predicate: &str, parts: &str) -> Result<ReferenceFormula> {
    match predicate.strip_suffix(" from_file_path") {
        Some(words) => formula_of_content(alloc, words, parts),
        None => {
            let truth = leaf_truth(predicate, parts).context("an unknown predicate")?;
            Ok(ReferenceFormula::Leaf(truth))
        }
    }
}

// What the comparison with the file, or else another predicate of the words, answers.
fn answer_any(alloc: Global, predicate: &str, item: &str) -> Result<Answers> {
    let same = same_as(read_snapshot(alloc, "p", "file file 61")?)?;
    match answer_content(alloc, predicate, item, same)? {
        Some(answers) => Ok(answers),
        None => answer_path(alloc, predicate, item),
    }
}

fn answer_path(alloc: Global, predicate: &str, item: &str) -> Result<Answers> {
    let same = same_as(read_snapshot(alloc, "p", "file file 61")?)?;
    let item = read_snapshot(alloc, "p", item)?;
    answer(alloc, predicate, &item, same)?.context("an unknown predicate")
}

impl Items for Paths {
    fn ask(&self, alloc: Global, predicate: &str, item: &str) -> Asked {
        let formula = formula(alloc, predicate, item)?;
        Ok((answer_any(alloc, predicate, item)?, formula))
    }
}
