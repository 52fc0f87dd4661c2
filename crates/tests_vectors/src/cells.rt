//! The cells of a table's row, and what is written in them.
use anyhow::Context;
use std::alloc::{AllocError, Global};
use tests_support::unescape;

/// The cells of a row.
pub fn cells(alloc: Global, row: &str) -> Result<Vec<&str>, AllocError> {
    let mut cells = Vec::new(alloc);
    for cell in row.split('\t') {
        cells.push(cell)?;
    }
    Ok(cells)
}

/// The text that a cell is written for.
pub fn text(alloc: Global, cell: &str) -> anyhow::Result<String> {
    unescape(alloc, cell)?.context("an escape that is unknown or has no end")
}

/// The bytes that a cell is written for: pieces with `+` between them, of hexadecimal digits, and
/// behind `*` how often they stand there. A point is none.
pub fn bytes(alloc: Global, cell: &str) -> anyhow::Result<Vec<u8>> {
    let mut bytes = Vec::new(alloc);
    if cell == "." {
        return Ok(bytes);
    }
    for piece in cell.split('+') {
        let (digits, times) = piece.split_once('*').unwrap_or((piece, "1"));
        let piece = hex::decode(alloc, digits).context("no hexadecimal digits")?;
        for _ in 0..times.parse::<u32>().context("no number")? {
            bytes.extend_from_slice(piece.as_slice())?;
        }
    }
    Ok(bytes)
}
