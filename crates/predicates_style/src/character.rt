//! The characters of a text, escaped or as they are.
ghost use Rattle.std.specs.Prelude.{◌≡◌, ◌++◌, OnOk, string_bytes, take};
ghost use Rattle.std.specs.Str.{chars};
ghost use Rattle.predicates_style.specs.Characters.{escape, is_escaped, written_character};
ghost use Rattle.predicates_style.specs.Characters.{written_characters, written_text};

use std::alloc::AllocError;

// Writes a character as Rust escapes it.
fn write_escape(out: &mut String, c: char) -> Result<(), AllocError>
    ensures { OnOk result (string_bytes out.new ≡ string_bytes out.old ++ escape c) }
{
    match c {
        '\n' => out.push_str("\\n"),
        '\r' => out.push_str("\\r"),
        '\t' => out.push_str("\\t"),
        _ => {
            let code = c as u32;
            write!(out, "\\u{{{code:x}}}")
        }
    }
}

// Whether the character moves, hides or turns what is printed around it.
fn is_escaped(c: char) -> bool
    ensures { result ≡ is_escaped c }
{
    match c {
        // What sets the direction of writing.
        '\u{61c}' | '\u{200e}' | '\u{200f}' | '\u{202a}'..='\u{202e}' => true,
        '\u{2066}'..='\u{2069}' => true,
        // The separators of lines and of paragraphs, and the byte order mark.
        '\u{2028}' | '\u{2029}' | '\u{feff}' => true,
        _ => c.is_control(),
    }
}

fn write_character(out: &mut String, escapes: bool, c: char) -> Result<(), AllocError>
    ensures { OnOk result
        (string_bytes out.new ≡ string_bytes out.old ++ written_character escapes c) }
{
    if escapes && is_escaped(c) {
        write_escape(out, c)
    } else {
        out.push(c)
    }
}

// Writes the first characters of a text, `most` at most.
fn write_characters(
    out: &mut String,
    escapes: bool,
    text: &str,
    most: usize,
) -> Result<(), AllocError>
    ensures { OnOk result (string_bytes out.new
        ≡ string_bytes out.old ++ written_characters escapes (take most (chars text.now))) }
{
    for c in text.chars().take(most) {
        write_character(out, escapes, c)?;
    }
    Ok(())
}

// Writes a text, or no more than its first `most` characters.
#[tactic(auto, using(crate::proofs::Characters::all_written))]
pub(crate) fn write_text(
    out: &mut String,
    escapes: bool,
    text: &str,
    most: Option<usize>,
) -> Result<(), AllocError>
    ensures { OnOk result
        (string_bytes out.new ≡ string_bytes out.old ++ written_text escapes most text.now) }
{
    match most {
        Some(most) => write_characters(out, escapes, text, most),
        None if escapes => write_characters(out, true, text, text.len()),
        None => out.push_str(text),
    }
}
