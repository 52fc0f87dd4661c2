//! How long the inputs are.
use std::fs;
use std::rt::Files;

// How many bytes the input of this name has, where it is a file.
fn length<E: Files>(rt: &E, name: &str) -> Option<u64> {
    let path = if name == "-" { "/dev/stdin" } else { name };
    match fs::metadata(rt, path) {
        Ok(metadata) if metadata.is_file() => Some(metadata.len()),
        _ => None,
    }
}

/// How many bytes the inputs of these names have, where each is a file.
pub(crate) fn length_of<E: Files>(rt: &E, names: &[&str]) -> Option<u64> {
    let mut whole: u64 = 0;
    for name in names {
        whole = whole.checked_add(length(rt, name)?)?;
    }
    Some(whole)
}
