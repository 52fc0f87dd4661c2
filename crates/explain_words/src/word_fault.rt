//! Why a word was not applied.
ghost use Rattle.std.specs.Prelude.{◌≡◌};
ghost use Rattle.explain_words.specs.declared.word_fault.WordFault.TheVariants.{NoMemory};

use std::alloc::AllocError;
use std::error::Error;
use std::fmt;

/// Why a word was not applied.
#[derive(Clone, Copy, Debug, PartialEq, Eq)]
pub enum WordFault {
    /// There are fewer checks than the word takes.
    Operand,
    /// The regular expression was refused, and not for want of memory.
    Pattern,
    /// Memory was refused. After it nothing is said of the checks.
    NoMemory,
}

impl fmt::Display for WordFault {
    ghost use Rattle.std.specs.Prelude.{Some};
    ghost use Rattle.explain_words.specs.WordFault.{fault_text};

    ghost output = { λ fault. Some (fault_text fault) };

    fn fmt<W: fmt::Write>(&self, f: &mut fmt::Formatter<W>) -> fmt::Result {
        match self {
            WordFault::Operand => write!(f, "missing operand"),
            WordFault::Pattern => write!(f, "pattern refused"),
            WordFault::NoMemory => write!(f, "no memory"),
        }
    }
}

impl Error for WordFault {}

impl From<AllocError> for WordFault {
    ghost from_gives = { λ _ fault. fault ≡ NoMemory };

    fn from(_error: AllocError) -> WordFault {
        WordFault::NoMemory
    }
}
