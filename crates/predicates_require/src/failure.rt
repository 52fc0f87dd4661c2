//! An expectation that is not met.

use crate::case_text::write_case;
use predicates_core::reflection::Case;
use std::fmt;

/// The label of an expectation that is not met, and the case that explains why. Its `Debug` and its
/// `Display` are the same text, that of the error of `require_as`: the label, `: `, and the lines
/// of the case. Printing it takes no memory.
///
/// ```
/// let failure = failures.pop().ok_or("met")?;
/// let text = failure.to_string(alloc)?;
/// assert!(rt; text.as_str() == "request 17: var >= 5 = false\n  - var: 3\n");
/// ```
#[derive(Drop)]
pub struct Failure {
    pub label: String,
    pub reason: Case,
}

impl fmt::Display for Failure {
    ghost use Rattle.std.specs.Prelude.{Some};
    ghost use Rattle.predicates_require.specs.Expected.{failure_text};

    ghost output = { λ failure. Some (failure_text failure) };

    fn fmt<W: fmt::Write>(&self, f: &mut fmt::Formatter<W>) -> fmt::Result {
        f.write_str(self.label.as_str())?;
        f.write_str(": ")?;
        write_case(&self.reason.root(), 0, f)
    }
}

// A test's failure is made of `Debug`, which would print the fields.
impl fmt::Debug for Failure {
    ghost use Rattle.std.specs.Prelude.{Some};
    ghost use Rattle.predicates_require.specs.Expected.{failure_text};

    ghost debug_output = { λ failure. Some (failure_text failure) };

    fn fmt<W: fmt::Write>(&self, f: &mut fmt::Formatter<W>) -> fmt::Result {
        write!(f, "{self}")
    }
}
