//! A line of the input, and the record on it.
ghost use Rattle.std.specs.Prelude.{◌≡◌, IfOk, option_map, string_bytes};
ghost use Rattle.serde_json.specs.Read.{read};
ghost use Rattle.serde_json.specs.View.{view};
ghost use Rattle.vet_run.specs.InputLines.{is_blank, is_white, record_on, too_long_text};

use serde_json::Value;
use std::alloc::{AllocError, Global};
use std::fmt::Write as _;
use std::str;

/// A line of the input, with its line feed, and its number.
#[derive(Clone, Copy)]
pub(crate) struct Line<'l> {
    pub(crate) number: u64,
    pub(crate) bytes: &'l [u8],
}

/// A record, and the line on which it stands.
#[derive(Clone, Copy)]
pub(crate) struct Record<'l> {
    pub(crate) number: u64,
    pub(crate) bytes: &'l [u8],
    pub(crate) value: &'l Value,
}

// How deep a record may nest.
const MAX_NESTING: usize = 127;

// Whether arrays and objects nest deeper than a record may.
fn is_too_deep(source: &[u8]) -> bool {
    let (mut depth, mut in_text, mut is_escaped) = (0_usize, false, false);
    for byte in source {
        match byte {
            _ if is_escaped => is_escaped = false,
            b'\\' if in_text => is_escaped = true,
            b'"' => in_text = !in_text,
            b'[' | b'{' if !in_text => depth = depth.saturating_add(1),
            b']' | b'}' if !in_text => depth = depth.saturating_sub(1),
            _ => {}
        }
        if depth > MAX_NESTING {
            return true;
        }
    }
    false
}

/// Whether the byte is white space of JSON.
pub(crate) fn is_white(byte: u8) -> bool
    ensures { result ≡ is_white byte }
{
    matches!(byte, b' ' | b'\t' | b'\n' | b'\r')
}

/// Whether nothing but white space of JSON stands on the line.
pub(crate) fn is_blank(line: &[u8]) -> bool
    ensures { result ≡ is_blank line.now }
{
    line.iter().all(|byte| is_white(*byte))
}

// Writes why JSON reads nothing in the source, which has no white space at its end.
fn write_problem(
    source: &str,
    error: &serde_json::Error,
    text: &mut String,
) -> Result<(), AllocError> {
    let bytes = source.as_bytes();
    let read = bytes.get(..error.column()).unwrap_or(bytes);
    if is_too_deep(read) {
        write!(text, "not JSON: nested more than {MAX_NESTING} deep")?;
    } else if error.is_eof() {
        text.push_str("not JSON: EOF while parsing at its end")?;
    } else {
        write!(text, "not JSON: {error}")?;
    }
    Ok(())
}

// Writes the same of a source in which JSON reads nothing. It is read once more without the white
// space at its end: a fault at the end would else have the place behind that.
fn write_fault(alloc: Global, source: &str, text: &mut String) -> Result<(), AllocError> {
    let source = source.trim_end_matches([' ', '\t', '\n', '\r']);
    match Value::from_str(alloc, source) {
        Err(error) if error.is_memory() => Err(AllocError),
        Err(error) => write_problem(source, &error, text),
        Ok(_value) => text.push_str("not JSON"),
    }
}

// What JSON reads in the source, or none, and then the text says why.
fn parse(alloc: Global, source: &str, text: &mut String) -> Result<Option<Value>, AllocError>
    ensures { IfOk result (λ found. option_map view found ≡ read source.now) }
{
    match Value::from_str(alloc, source) {
        Ok(value) => Ok(Some(value)),
        Err(error) => {
            if error.is_memory() {
                return Err(AllocError);
            }
            write_fault(alloc, source, text)?;
            Ok(None)
        }
    }
}

/// The record on the line, or none, and then the text says why.
pub(crate) fn read_record(
    alloc: Global,
    line: &[u8],
    text: &mut String,
) -> Result<Option<Value>, AllocError>
    ensures { IfOk result (λ found. option_map view found ≡ record_on line.now) }
{
    text.clear();
    match str::from_utf8(line) {
        Ok(source) => {
            let found = parse(alloc, source, text)?;
            Ok(found)
        }
        Err(_) => {
            text.push_str("not UTF-8")?;
            Ok(None)
        }
    }
}

/// Why no record is read of a line that has more bytes than the limit.
pub(crate) fn too_long(alloc: Global, limit: u32) -> Result<String, AllocError>
    ensures { IfOk result (λ text. string_bytes text ≡ too_long_text limit) }
{
    format!(in alloc; "longer than {limit} bytes")
}
