//! What is wrong with the words of a command line.
use clap::Error;
use clap::error::ErrorKind;
use std::alloc::{AllocError, Global};

/// What the error says, in one line: its first paragraph.
pub(crate) fn fault_line(alloc: Global, error: &Error) -> Result<String, AllocError> {
    if error.kind() == ErrorKind::OutOfMemory {
        return Err(AllocError);
    }
    let text = format!(in alloc; "{error}")?;
    let said = text.strip_prefix("error: ").unwrap_or(&text);
    let mut line = String::new(alloc);
    for part in said.lines() {
        let part = part.trim();
        if part.is_empty() {
            break;
        }
        if !line.is_empty() {
            line.push_str(" ")?;
        }
        for shown in part.split('\0') {
            line.push_str(shown)?;
        }
    }
    Ok(line)
}
