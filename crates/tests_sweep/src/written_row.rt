//! Rows as texts.
use crate::call::Memory::{self, GoesOn, Never, Perhaps, Taken};
use crate::predicate_calls::Row;
use std::alloc::{AllocError, Global};
use tests_support::{text, unescape};

/// A row that is written as those of `tests_vectors`, with `@` between its cells: the words of
/// a predicate, the item, what `eval`, `find_case` of the verdict and that of the opposite do with
/// memory, and the lines of the case, of the parameters and of the children.
#[derive(Drop)]
pub struct WrittenRow {
    pub words: String,
    pub item: String,
    memory: String,
    lines: String,
    parameters: String,
    children: String,
}

// A part without its escapes.
fn read_part(alloc: Global, part: Option<&str>) -> Result<String, AllocError> {
    match unescape(alloc, part.unwrap_or(""))? {
        Some(part) => Ok(part),
        None => text(alloc, "not readable"),
    }
}

// What a word says of memory.
fn memory_of(word: &str) -> Option<Memory> {
    Some(match word {
        "never" => Never,
        "taken" => Taken,
        "perhaps" => Perhaps,
        "goes_on" => GoesOn,
        _ => return None,
    })
}

impl WrittenRow {
    /// Reads a row. The words keep their escapes, which their reader removes.
    pub fn read(alloc: Global, row: &str) -> Result<WrittenRow, AllocError> {
        let mut parts = row.split('@');
        Ok(WrittenRow {
            words: text(alloc, parts.next().unwrap_or(""))?,
            item: read_part(alloc, parts.next())?,
            memory: read_part(alloc, parts.next())?,
            lines: read_part(alloc, parts.next())?,
            parameters: read_part(alloc, parts.next())?,
            children: read_part(alloc, parts.next())?,
        })
    }

    /// The row; it can't be read where a word of memory is unknown, or there is no line.
    pub fn row(&self) -> Result<Row<'_>, &'static str> {
        self.read_cells()
            .ok_or("an unknown word of memory, or no line")
    }

    fn read_cells(&self) -> Option<Row<'_>> {
        let (eval, cases) = self.memory.as_str().split_once(' ')?;
        let (case, opposite) = cases.split_once(' ')?;
        let (head, _) = self.lines.as_str().split_once('\n')?;
        Some(Row {
            name: self.words.as_str(),
            verdict: head.ends_with(" = true"),
            eval: memory_of(eval)?,
            case: memory_of(case)?,
            opposite: memory_of(opposite)?,
            lines: self.lines.as_str(),
            parameters: self.parameters.as_str(),
            children: self.children.as_str(),
        })
    }
}
