//! Literals as JSON writes them.
ghost use Rattle.std.specs.Prelude.{◌≡◌, ◌<◌, ◌/◌, ◌%◌, Some, [], ◌∷◌};
ghost use Rattle.std.specs.Char.{digit_char, encode_utf8};
ghost use Rattle.std.specs.Fmt.{DisplaysOnOk};
ghost use Rattle.json.specs.Print.{escape, quoted};
ghost use Rattle.vet_rules.specs.Literals.{literal_of};
ghost use Rattle.vet_rules.specs.Printing.{literal_text};

use crate::literal::Literal;
use std::fmt;

fn hex_digit(digit: u32) -> char
    requires { digit < 16 }
    ensures { result ≡ digit_char digit }
{
    char::from_digit(digit, 16).unwrap_or('0')
}

// A control character that has no escape of its own.
fn fmt_control<W: fmt::Write>(c: char, f: &mut fmt::Formatter<W>) -> fmt::Result
    requires { c < 32 }
    ensures { DisplaysOnOk W.write_str_gives f.old result (Some (92 ∷ 117 ∷ 48 ∷ 48
        ∷ digit_char (c / 16) ∷ digit_char (c % 16) ∷ [])) f.new }
{
    let code = c as u32;
    let high = hex_digit(code / 16);
    let low = hex_digit(code % 16);
    write!(f, "\\u00{high}{low}")
}

// A character of a text.
fn fmt_character<W: fmt::Write>(c: char, f: &mut fmt::Formatter<W>) -> fmt::Result
    ensures { DisplaysOnOk W.write_str_gives f.old result (Some (escape (encode_utf8 c))) f.new }
{
    match c {
        '"' => f.write_str("\\\""),
        '\\' => f.write_str("\\\\"),
        '\u{8}' => f.write_str("\\b"),
        '\u{c}' => f.write_str("\\f"),
        '\n' => f.write_str("\\n"),
        '\r' => f.write_str("\\r"),
        '\t' => f.write_str("\\t"),
        _ if c < ' ' => fmt_control(c, f),
        _ => write!(f, "{c}"),
    }
}

fn fmt_characters<W: fmt::Write>(text: &str, f: &mut fmt::Formatter<W>) -> fmt::Result
    ensures { DisplaysOnOk W.write_str_gives f.old result (Some (escape text.now)) f.new }
{
    for c in text.chars() {
        fmt_character(c, f)?;
    }
    Ok(())
}

/// Writes a text in quotes.
pub fn fmt_text<W: fmt::Write>(text: &str, f: &mut fmt::Formatter<W>) -> fmt::Result
    ensures { DisplaysOnOk W.write_str_gives f.old result (Some (quoted text.now)) f.new }
{
    f.write_str("\"")?;
    fmt_characters(text, f)?;
    f.write_str("\"")
}

/// As JSON writes it; a `Decimal` as it was written.
impl fmt::Display for Literal {
    ghost output = { λ literal. Some (literal_text (literal_of literal)) };

    fn fmt<W: fmt::Write>(&self, f: &mut fmt::Formatter<W>) -> fmt::Result {
        match self {
            Literal::Natural(number) => write!(f, "{number}"),
            Literal::Negative(number) => write!(f, "{number}"),
            Literal::Decimal { text, .. } => f.write_str(text),
            Literal::Text(text) => fmt_text(text, f),
            Literal::Boolean(true) => f.write_str("true"),
            Literal::Boolean(false) => f.write_str("false"),
            Literal::Null => f.write_str("null"),
        }
    }
}
