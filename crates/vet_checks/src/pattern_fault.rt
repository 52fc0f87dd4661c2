//! Why a pattern is no regular expression.
ghost use Rattle.std.specs.Prelude.{◌≡◌, Some, IfOk, string_bytes};
ghost use Rattle.vet_checks.specs.Refusals.{column_of, fault_text};
ghost use Rattle.regex.specs.Failures.{HasSpanIn};

use std::alloc::{AllocError, Global};
use std::fmt;

/// Why a pattern is no regular expression: what `regex` says of it.
#[derive(Debug, Drop)]
pub struct PatternFault {
    /// The pattern, as it was written.
    pub pattern: String,
    /// The character of the pattern, from 1, that it is about; none where the whole is too large.
    pub column: Option<usize>,
    /// What is wrong there, in a few words.
    pub reason: String,
}

/// The reason, and the character that it is about.
///
/// ```
/// let fault = PatternFault {
///     pattern,
///     column: Some(1),
///     reason,
/// };
/// let text = format!(in alloc; "{fault}")?;
/// assert!(rt; text.as_str() == "unclosed character class at character 1");
/// ```
impl fmt::Display for PatternFault {
    ghost output = { λ fault. Some (fault_text (string_bytes fault.reason) fault.column) };

    fn fmt<W: fmt::Write>(&self, f: &mut fmt::Formatter<W>) -> fmt::Result {
        f.write_str(&self.reason)?;
        match self.column {
            Some(column) => write!(f, " at character {column}"),
            None => Ok(()),
        }
    }
}

// The character, from 1, that an error is about.
fn column(pattern: &str, error: regex::Error) -> Option<usize>
    requires within { HasSpanIn pattern.now error }
    ensures { result ≡ column_of pattern.now error }
{
    match error {
        regex::Error::Syntax(error) => {
            let before = &pattern[..error.span.start];
            Some(before.chars().count() + 1)
        }
        _ => None,
    }
}

// What is wrong with a pattern, in a few words.
fn reason(error: regex::Error) -> &'static str {
    match error {
        regex::Error::Syntax(error) => error.kind.message(),
        _ => "too large",
    }
}

impl PatternFault {
    // The fault that `regex` found in the pattern.
    pub(crate) fn of_error(
        alloc: Global,
        pattern: String,
        error: regex::Error,
    ) -> Result<PatternFault, AllocError>
        requires within { HasSpanIn (string_bytes pattern) error }
        ensures { IfOk result (λ fault. (string_bytes fault.pattern ≡ string_bytes pattern)
            × (fault.column ≡ column_of (string_bytes pattern) error)) }
    {
        let column = column(&pattern, error);
        let reason = String::from_str(alloc, reason(error))?;
        Ok(PatternFault {
            pattern,
            column,
            reason,
        })
    }
}
