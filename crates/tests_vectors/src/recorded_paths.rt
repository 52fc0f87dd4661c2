//! The table of recorded answers about paths.
use crate::cells::text;
use crate::outcome::Outcome;
use crate::path_predicates::{answer, same_as};
use crate::snapshots::read_snapshot;
use crate::table::Table;
use anyhow::{Context, Result, bail};
use predicates::path::Snapshot;
use predicates::reflection::Case;
use std::alloc::Global;
use tests_support::Answers;

/// Rows of a predicate, what stands at the path, the verdict, the printed text and the products of
/// the case for the verdict.
pub struct PathTable;

// What stands at the path of a device.
const DEVICE: &str = "device";

// What the rows name, its path, and the snapshot that is taken there, made of its parts: the folder
// of the recorded answers is not at hand.
const PLACES: [(&str, &str, &str); 10] = [
    ("regular file a", "$ROOT/file_a", "file file 61"),
    ("regular file b", "$ROOT/file_b", "file file 62"),
    ("empty file", "$ROOT/empty", "file file ."),
    ("file with byte ff", "$ROOT/bytes", "file file ff"),
    ("link to file a", "$ROOT/to_file", "symlink file 61"),
    ("directory", "$ROOT/dir", "dir dir not_regular"),
    (
        "link to directory",
        "$ROOT/to_dir",
        "symlink dir not_regular",
    ),
    (
        "dangling link",
        "$ROOT/dangling",
        "symlink not_found not_found",
    ),
    (DEVICE, "/dev/null", "other other not_regular"),
    ("nothing", "$ROOT/nothing", "not_found not_found not_found"),
];

fn snapshot(alloc: Global, what: &str) -> Result<Snapshot> {
    for (name, path, parts) in PLACES {
        if name == what {
            return read_snapshot(alloc, path, parts);
        }
    }
    bail!("an unknown thing at the path")
}

// The text of an error in place of the one that the system or the decoder gave.
fn stated_error(given: &str) -> Option<&'static str> {
    Some(match given {
        "No such file or directory (os error 2)" => "not found",
        "Is a directory (os error 21)" => "not a regular file",
        "invalid utf-8 sequence of 1 bytes from index 0" => "Invalid UTF-8 string",
        _ => return None,
    })
}

// The lines of the products that are expected where the original gave these: each error has the
// text that is stated for it, and a device's kind is told as it is.
fn stated_products(alloc: Global, given: &str, is_kind_of_device: bool) -> Result<String> {
    if is_kind_of_device {
        return Ok(String::from_str(alloc, "actual filetype: other\n")?);
    }
    let mut text = String::new(alloc);
    for line in given.lines() {
        match line.strip_prefix("error: ") {
            Some(error) => {
                let stated = stated_error(error).context("an unknown error")?;
                writeln!(text, "error: {stated}")?;
            }
            None => writeln!(text, "{line}")?,
        }
    }
    Ok(text)
}

// The lines that the cell stands for.
fn expected_products(alloc: Global, cell: &str, is_kind_of_device: bool) -> Result<String> {
    let given = text(alloc, cell)?;
    stated_products(alloc, given.as_str(), is_kind_of_device)
}

// The lines of the root's products.
fn root_products(alloc: Global, case: &Option<Case>) -> Result<String> {
    let Some(case) = case else {
        return Ok(String::from_str(alloc, "no case for the verdict")?);
    };
    let mut text = String::new(alloc);
    for product in case.root().products() {
        let (name, value) = (product.name(), product.value());
        writeln!(text, "{name}: {value}")?;
    }
    Ok(text)
}

// Compares what the predicate answers with the row's last three cells.
fn compare_of_path(
    outcome: &mut Outcome,
    answers: &Answers,
    [verdict, printed, products]: [&str; 3],
    is_kind_of_device: bool,
) -> Result<()> {
    outcome.compare_truth("verdict", verdict, answers.verdict)?;
    outcome.compare_text("text", printed, answers.text.as_str())?;
    outcome.compare_truth("same text under flags", "true", answers.keeps_text)?;
    compare_products(outcome, answers, products, is_kind_of_device)
}

// Compares the products of the verdict's case, and that there is none for the opposite.
fn compare_products(
    outcome: &mut Outcome,
    answers: &Answers,
    products: &str,
    is_kind_of_device: bool,
) -> Result<()> {
    let (of_verdict, opposite) = answers.cases();
    let expected = expected_products(outcome.alloc, products, is_kind_of_device)?;
    let found = root_products(outcome.alloc, of_verdict)?;
    outcome.compare_text("products", expected.as_str(), found.as_str())?;
    outcome.compare_case("case for the opposite", "none", opposite)
}

fn answer_at(alloc: Global, predicate: &str, what: &str) -> Result<Answers> {
    let item = snapshot(alloc, what)?;
    let same = same_as(snapshot(alloc, "regular file a")?)?;
    answer(alloc, predicate, &item, same)?.context("an unknown predicate")
}

impl Table for PathTable {
    fn replay(&self, cells: &[&str], outcome: &mut Outcome) -> Result<()> {
        let [predicate, what, verdict, printed, products] = cells else {
            bail!("not five cells");
        };
        let answers = answer_at(outcome.alloc, predicate, what)?;
        let is_kind_of_device = *what == DEVICE && predicate.starts_with("is_");
        compare_of_path(
            outcome,
            &answers,
            [verdict, printed, products],
            is_kind_of_device,
        )
    }
}
