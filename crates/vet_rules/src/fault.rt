//! Where a text stops being rules.
ghost use Rattle.std.specs.Prelude.{Some};
ghost use Rattle.std.specs.Fmt.{DisplaysOnOk};
ghost use Rattle.vet_rules.specs.Messages.{found_text, why_text, meant_text, fault_text};

use crate::error::Reason;
use crate::hint::Hint;
use crate::quoted::Quoted;
use std::fmt;

/// Where a text stops being rules, and why.
#[derive(Debug, Drop)]
pub struct Fault {
    /// From 1.
    pub line: usize,
    /// From 1, in bytes.
    pub column: usize,
    pub reason: Reason,
    /// What stands there, behind spaces: a token or as much as belongs together, nothing at the
    /// end of the line, and a comment from its `#` on. Of a repeated name, the name.
    pub found: Vec<u8>,
    /// What was likely meant, where the reason is `Expected`. Which hint that is no contract says.
    pub hint: Option<Hint>,
}

// What was found, in words or quoted.
#[derive(Drop)]
struct Found<'a>(&'a [u8]);

impl fmt::Display for Found<'_> {
    ghost output = { λ found. Some (found_text found.0.now) };

    fn fmt<W: fmt::Write>(&self, f: &mut fmt::Formatter<W>) -> fmt::Result {
        match self.0 {
            [] => f.write_str("the end of the line"),
            [b'#', ..] => f.write_str("a comment"),
            bytes => write!(f, "`{}`", Quoted(bytes)),
        }
    }
}

// Why it is a fault, with what was found.
fn fmt_why<W: fmt::Write>(reason: Reason, found: &[u8], f: &mut fmt::Formatter<W>) -> fmt::Result
    ensures { DisplaysOnOk W.write_str_gives f.old result (Some (why_text reason found.now)) f.new }
{
    match reason {
        Reason::Expected(expected) => { write!(f, "expected {expected}, found {}", Found(found)) }
        Reason::TooDeep => write!(f, "{reason}"),
        Reason::Repeated(line) => {
            let name = Quoted(found);
            write!(f, "the name `{name}` stands on line {line} already")
        }
    }
}

// What was likely meant, behind a semicolon.
fn fmt_meant<W: fmt::Write>(hint: Option<Hint>, f: &mut fmt::Formatter<W>) -> fmt::Result
    ensures { DisplaysOnOk W.write_str_gives f.old result (Some (meant_text hint)) f.new }
{
    match hint {
        Some(hint) => write!(f, "; {hint}"),
        None => Ok(()),
    }
}

/// One line: `line 1, column 7: expected .., found `=`; did you mean `==`?`, or `line 4, column 1:
/// the name `adult` stands on line 2 already`. Of what was found it quotes 32 characters, and
/// escapes what does not print.
impl fmt::Display for Fault {
    ghost output = { λ fault. Some (fault_text fault) };

    fn fmt<W: fmt::Write>(&self, f: &mut fmt::Formatter<W>) -> fmt::Result {
        write!(f, "line {}, column {}: ", self.line, self.column)?;
        fmt_why(self.reason, &self.found, f)?;
        fmt_meant(self.hint, f)
    }
}
