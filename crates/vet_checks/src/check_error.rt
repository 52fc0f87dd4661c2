//! Why a check was not made of an expression.
ghost use Rattle.std.specs.Prelude.{◌≡◌, Some};
ghost use Rattle.vet_checks.specs.Refusals.{error_text};
ghost use Rattle.vet_checks.specs.declared.check_error.CheckError.TheVariants.{NoMemory};

use crate::pattern_fault::PatternFault;
use std::alloc::{AllocError, AllocFailed};
use std::error::Error;
use std::fmt;
use vet_rules::quoted::Quoted;

/// Why a check was not made of an expression.
#[derive(Debug, Drop)]
pub enum CheckError {
    /// Memory was refused.
    NoMemory,
    /// A pattern is no regular expression, or too large.
    Pattern(PatternFault),
}

impl fmt::Display for CheckError {
    ghost output = { λ error. Some (error_text error) };

    fn fmt<W: fmt::Write>(&self, f: &mut fmt::Formatter<W>) -> fmt::Result {
        match self {
            CheckError::NoMemory => f.write_str("no memory"),
            CheckError::Pattern(fault) => {
                let pattern = Quoted(fault.pattern.as_bytes());
                write!(f, "no regular expression: {fault}: {pattern}")
            }
        }
    }
}

impl Error for CheckError {}

impl From<AllocError> for CheckError {
    ghost from_gives = { λ _ e. e ≡ NoMemory };

    fn from(_e: AllocError) -> CheckError {
        CheckError::NoMemory
    }
}

impl<T: Drop> From<AllocFailed<T>> for CheckError {
    ghost from_gives = { λ _ e. e ≡ NoMemory };

    fn from(_e: AllocFailed<T>) -> CheckError {
        CheckError::NoMemory
    }
}
