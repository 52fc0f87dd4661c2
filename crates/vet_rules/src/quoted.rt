//! Bytes of a rule as a message quotes them.
ghost use Rattle.std.specs.Prelude.{◌≡◌, IfOk, Some, map, chars};
ghost use Rattle.std.specs.Fmt.{DisplaysOnOk};
ghost use Rattle.std.specs.Str.Chunks.{utf8_chunk_valid, utf8_chunk_invalid};
ghost use Rattle.vet_rules.specs.Quoting.{is_in, is_unseen, escape_text, character_text};
ghost use Rattle.vet_rules.specs.Quoting.{byte_text, chunk_texts, AreShown, quoted_text};

use std::fmt;
use std::str::Utf8Chunk;

const MOST: usize = 32;

/// At most 32 characters on one line, and `...` for what is cut. A character that does not print is
/// escaped, as is a byte that is not UTF-8, `\xff`: control characters, white space other than the
/// space, what Unicode ignores by default or turns text with, the blocks of combining marks, and
/// private use, as `\u{202e}`.
#[derive(Drop)]
pub struct Quoted<'a>(pub &'a [u8]);

// The first and the last of characters that do not print, or not by themselves.
const UNSEEN: [(char, char); 27] = [
    ('\0', '\u{1f}'),
    ('\u{7f}', '\u{a0}'),
    ('\u{ad}', '\u{ad}'),
    ('\u{300}', '\u{36f}'),
    ('\u{61c}', '\u{61c}'),
    ('\u{115f}', '\u{1160}'),
    ('\u{1680}', '\u{1680}'),
    ('\u{17b4}', '\u{17b5}'),
    ('\u{180b}', '\u{180f}'),
    ('\u{1ab0}', '\u{1aff}'),
    ('\u{1dc0}', '\u{1dff}'),
    ('\u{2000}', '\u{200f}'),
    ('\u{2028}', '\u{202f}'),
    ('\u{205f}', '\u{206f}'),
    ('\u{20d0}', '\u{20ff}'),
    ('\u{3000}', '\u{3000}'),
    ('\u{3164}', '\u{3164}'),
    ('\u{e000}', '\u{f8ff}'),
    ('\u{fe00}', '\u{fe0f}'),
    ('\u{fe20}', '\u{fe2f}'),
    ('\u{feff}', '\u{feff}'),
    ('\u{ffa0}', '\u{ffa0}'),
    ('\u{fff0}', '\u{fffb}'),
    ('\u{fffe}', '\u{ffff}'),
    ('\u{1bca0}', '\u{1bca3}'),
    ('\u{1d173}', '\u{1d17a}'),
    ('\u{e0000}', '\u{10ffff}'),
];

fn is_in(ranges: &[(char, char)], c: char) -> bool
    ensures { result ≡ is_in ranges.now c }
{
    ranges
        .iter()
        .copied()
        .any(|(first, last)| first <= c && c <= last)
}

#[tactic(auto, unfolding(crate::specs::Quoting::is_unseen))]
fn is_unseen(c: char) -> bool
    ensures { result ≡ is_unseen c }
{
    is_in(&UNSEEN, c)
}

fn fmt_escaped<W: fmt::Write>(character: char, f: &mut fmt::Formatter<W>) -> fmt::Result
    ensures { DisplaysOnOk W.write_str_gives f.old result (Some (escape_text character)) f.new }
{
    if character == '\0' {
        return f.write_str("\\0");
    }
    for part in character.escape_default() {
        f.write_char(part)?;
    }
    Ok(())
}

fn fmt_character<W: fmt::Write>(character: char, f: &mut fmt::Formatter<W>) -> fmt::Result
    ensures { DisplaysOnOk W.write_str_gives f.old result (Some (character_text character)) f.new }
{
    if is_unseen(character) {
        fmt_escaped(character, f)
    } else {
        f.write_char(character)
    }
}

fn fmt_byte<W: fmt::Write>(byte: u8, f: &mut fmt::Formatter<W>) -> fmt::Result
    ensures { DisplaysOnOk W.write_str_gives f.old result (Some (byte_text byte)) f.new }
{
    write!(f, "\\x{byte:02x}")
}

// The characters of a text, at most so many: how many more may follow, or none where they are cut.
fn fmt_text<W: fmt::Write>(
    text: &str,
    most: usize,
    f: &mut fmt::Formatter<W>,
) -> Result<Option<usize>, fmt::Error>
    ensures { IfOk result (λ left. AreShown W.write_str_gives f.old most
        (map character_text (chars text.now)) left f.new) }
{
    let mut left = most;
    for character in text.chars() {
        if left == 0 {
            f.write_str("...")?;
            return Ok(None);
        }
        fmt_character(character, f)?;
        left -= 1;
    }
    Ok(Some(left))
}

// The same of bytes that are no part of a character.
fn fmt_bytes<W: fmt::Write>(
    bytes: &[u8],
    most: usize,
    f: &mut fmt::Formatter<W>,
) -> Result<Option<usize>, fmt::Error>
    ensures { IfOk result (λ left. AreShown W.write_str_gives f.old most
        (map byte_text bytes.now) left f.new) }
{
    let mut left = most;
    for byte in bytes {
        if left == 0 {
            f.write_str("...")?;
            return Ok(None);
        }
        fmt_byte(*byte, f)?;
        left -= 1;
    }
    Ok(Some(left))
}

// A text, and the bytes behind it that are no part of a character.
fn fmt_chunk<W: fmt::Write>(
    chunk: &Utf8Chunk,
    most: usize,
    f: &mut fmt::Formatter<W>,
) -> Result<Option<usize>, fmt::Error>
    ensures { IfOk result (λ left. AreShown W.write_str_gives f.old most
        (chunk_texts (utf8_chunk_valid chunk.now) (utf8_chunk_invalid chunk.now)) left f.new) }
{
    match fmt_text(chunk.valid(), most, f)? {
        Some(left) => fmt_bytes(chunk.invalid(), left, f),
        None => Ok(None),
    }
}

impl fmt::Display for Quoted<'_> {
    ghost output = { λ quoted. Some (quoted_text quoted.0.now) };

    fn fmt<W: fmt::Write>(&self, f: &mut fmt::Formatter<W>) -> fmt::Result {
        let mut most = MOST;
        for chunk in self.0.utf8_chunks() {
            match fmt_chunk(&chunk, most, f)? {
                Some(left) => most = left,
                None => return Ok(()),
            }
        }
        Ok(())
    }
}
