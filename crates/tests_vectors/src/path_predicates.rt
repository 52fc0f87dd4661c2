//! Predicates of paths, by their words.
use anyhow::{Context, Result, anyhow};
use predicates::PredicateChange;
use predicates::boolean::PredicateBooleanExt;
use predicates::ord::eq;
use predicates::path::{
    BinaryFilePredicate, FileTypePredicate, PredicateFileContentExt, Snapshot, eq_file, exists,
    is_dir, is_file, is_symlink, missing,
};
use predicates::str::{PredicateStrExt, is_empty};
use std::alloc::Global;
use tests_support::{Answers, ask};

fn kind_of(name: &str) -> Option<FileTypePredicate> {
    match name {
        "is_file" => Some(is_file()),
        "is_dir" => Some(is_dir()),
        "is_symlink" => Some(is_symlink()),
        _ => None,
    }
}

// The predicate of kinds that the words name; none where they name none.
fn kind_predicate(name: &str) -> Option<FileTypePredicate> {
    match name.split_once(' ') {
        Some((name, "follow")) => Some(kind_of(name)?.follow_links(true)),
        Some(_) => None,
        None => Some(kind_of(name)?.follow_links(false)),
    }
}

// The predicate of the item's own kind.
fn from_item(item: &Snapshot) -> Result<FileTypePredicate> {
    FileTypePredicate::from_path(item).map_err(|fault| anyhow!("{fault}"))
}

/// What the predicate answers on the item.
pub fn asked<P: PredicateChange<Item> + Drop, Item>(
    alloc: Global,
    predicate: P,
    item: &Item,
) -> Result<Option<Answers>>
    requires { P.lawful predicate }
{
    Ok(Some(ask(alloc, &predicate, item)?))
}

fn answer_kind(alloc: Global, name: &str, item: &Snapshot) -> Result<Option<Answers>> {
    match kind_predicate(name) {
        Some(predicate) => asked(alloc, predicate, item),
        None => Ok(None),
    }
}

fn answer_a_text(alloc: Global, item: &Snapshot) -> Result<Option<Answers>> {
    let constant = String::from_str(alloc, "a")?;
    asked(alloc, eq(constant).from_utf8().from_file_path(), item)
}

fn answer_full(alloc: Global, item: &Snapshot) -> Result<Option<Answers>> {
    asked(alloc, is_empty().not().from_utf8().from_file_path(), item)
}

fn answer_same_text(
    alloc: Global,
    item: &Snapshot,
    same: BinaryFilePredicate,
) -> Result<Option<Answers>> {
    asked(alloc, same.utf8().context("no text")?, item)
}

/// What the predicate of the words answers, where `same` stands for `eq_file a`; none where the
/// words name no predicate of paths. `from_path` is made of the item itself.
pub fn answer(
    alloc: Global,
    name: &str,
    item: &Snapshot,
    same: BinaryFilePredicate,
) -> Result<Option<Answers>> {
    match name {
        "exists" => asked(alloc, exists(), item),
        "missing" => asked(alloc, missing(), item),
        "eq_file a" => asked(alloc, same, item),
        "eq_file a utf8" => answer_same_text(alloc, item, same),
        "eq=a from_utf8 from_file_path" => answer_a_text(alloc, item),
        "empty not from_utf8 from_file_path" => answer_full(alloc, item),
        "from_path" => asked(alloc, from_item(item)?, item),
        _ => answer_kind(alloc, name, item),
    }
}

/// The predicate of what has the content of the file.
pub fn same_as(file: Snapshot) -> Result<BinaryFilePredicate> {
    eq_file(file).map_err(|fault| anyhow!("{fault}"))
}
