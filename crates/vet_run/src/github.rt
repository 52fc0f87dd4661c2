//! The line that GitHub shows beside a file: a command of its workflows.
ghost use Rattle.std.specs.Prelude.{◌≡◌, ◌++◌, OnOk, option_map, flat_map};
ghost use Rattle.vet_run.specs.GitHub.{line_text, message_byte, message_text, position_text};
ghost use Rattle.vet_run.specs.GitHub.{property_byte, property_text, title, without_last};
ghost use Rattle.vet_run.specs.Records.{error_of};

use crate::bytes::{push_bytes, push_number};
use crate::record::{Shown, write_shown};
use predicates_core::reflection::Case;
use predicates_style::Style;
use std::alloc::{AllocError, Global};

/// Where a record stands, what opens the message of each of its lines, and how a case is shown.
#[derive(Clone, Copy)]
pub(crate) struct Position<'a> {
    /// The file's name, where it stands in one.
    pub(crate) file: Option<&'a str>,
    /// The number of its line, where it is known.
    pub(crate) line: Option<u64>,
    pub(crate) opening: &'a str,
    pub(crate) style: &'a Style,
}

fn push_message_byte(line: &mut Vec<u8>, byte: u8) -> Result<(), AllocError>
    ensures { OnOk result (line.new.items ≡ line.old.items ++ message_byte byte) }
{
    match byte {
        b'%' => push_bytes(line, b"%25"),
        b'\r' => push_bytes(line, b"%0D"),
        b'\n' => push_bytes(line, b"%0A"),
        _ => Ok(line.push(byte)?),
    }
}

fn push_property_byte(line: &mut Vec<u8>, byte: u8) -> Result<(), AllocError>
    ensures { OnOk result (line.new.items ≡ line.old.items ++ property_byte byte) }
{
    match byte {
        b':' => push_bytes(line, b"%3A"),
        b',' => push_bytes(line, b"%2C"),
        _ => push_message_byte(line, byte),
    }
}

fn push_message(line: &mut Vec<u8>, text: &[u8]) -> Result<(), AllocError>
    ensures { OnOk result (line.new.items ≡ line.old.items ++ message_text text.now) }
{
    for byte in text {
        push_message_byte(line, *byte)?;
    }
    Ok(())
}

fn push_property(line: &mut Vec<u8>, text: &str) -> Result<(), AllocError>
    ensures { OnOk result (line.new.items ≡ line.old.items ++ property_text text.now) }
{
    for byte in text.as_bytes() {
        push_property_byte(line, *byte)?;
    }
    Ok(())
}

// Writes the number of a line, where it is known.
fn push_line(alloc: Global, text: &mut Vec<u8>, line: Option<u64>) -> Result<(), AllocError>
    ensures { OnOk result (text.new.items ≡ text.old.items ++ line_text line) }
{
    let Some(number) = line else {
        return Ok(());
    };
    push_bytes(text, b",line=")?;
    push_number(alloc, text, number as u128)?;
    Ok(())
}

// Writes where the record stands, where the input is a file.
fn push_position(
    alloc: Global,
    text: &mut Vec<u8>,
    file: Option<&str>,
    line: Option<u64>,
) -> Result<(), AllocError>
    ensures { OnOk result (text.new.items
        ≡ text.old.items ++ position_text (option_map (λ s. s.now) file.entry) line) }
{
    let Some(name) = file else {
        return Ok(());
    };
    push_bytes(text, b"file=")?;
    push_property(text, name)?;
    push_line(alloc, text, line)?;
    push_bytes(text, b",")
}

// What the case is of: a rule's name.
fn title(case: &Case) -> &str
    ensures { result.now ≡ title case.now }
{
    case.root().predicate().unwrap_or("")
}

fn without_last(text: &[u8]) -> &[u8]
    ensures { result.now ≡ without_last text.now }
{
    match text {
        [front @ .., _] => front,
        [] => text,
    }
}

/// Writes the line of the case behind the others.
pub(crate) fn push_error(
    alloc: Global,
    lines: &mut Vec<u8>,
    position: &Position<'_>,
    shown: &Shown,
) -> Result<(), AllocError>
    ensures { OnOk result (lines.new.items ≡ lines.old.items
        ++ error_of position.now.style.now (option_map (λ s. s.now) position.now.file)
        position.now.line position.now.opening.now shown.now) }
{
    let Position {
        file,
        line,
        opening,
        style,
    } = *position;
    let mut message = String::from_str(alloc, opening)?;
    write_shown(&mut message, style, shown)?;
    push_bytes(lines, b"::error ")?;
    push_position(alloc, lines, file, line)?;
    push_bytes(lines, b"title=")?;
    push_property(lines, title(&shown.case))?;
    push_bytes(lines, b"::")?;
    push_message(lines, without_last(message.as_bytes()))?;
    push_bytes(lines, b"\n")
}
