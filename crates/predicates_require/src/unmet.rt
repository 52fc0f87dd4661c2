//! Why a requirement was not met.
ghost use Rattle.std.specs.Prelude.{◌≡◌};
ghost use Rattle.predicates_require.specs.declared.unmet.Unmet.TheVariants.{NoMemory};

use std::alloc::AllocError;
use std::error::Error;
use std::fmt;

/// Why a requirement was not met. Its `Debug` and its `Display` are the same text: the lines that
/// say why, each ended by a line feed, or `no memory`.
///
/// In a test, `?` makes a `Fail` of it, which keeps 512 bytes of `error: ` and the `Debug` text.
/// `require(..).expect(&rt, "request 17")` prints all of it, with the line of the test.
#[derive(PartialEq, Eq, Drop)]
pub enum Unmet {
    /// The predicate does not hold: the label, where there is one, and the lines of the case.
    Fails(String),
    /// Memory ran out, so there is no verdict.
    NoMemory,
}

impl fmt::Display for Unmet {
    ghost use Rattle.std.specs.Prelude.{Some};
    ghost use Rattle.predicates_require.specs.Unmet.{unmet_text};

    ghost output = { λ unmet. Some (unmet_text unmet) };

    fn fmt<W: fmt::Write>(&self, f: &mut fmt::Formatter<W>) -> fmt::Result {
        match self {
            Unmet::Fails(lines) => write!(f, "{lines}"),
            Unmet::NoMemory => write!(f, "no memory"),
        }
    }
}

// A test's failure is made of `Debug`, which would escape each line feed of a text.
impl fmt::Debug for Unmet {
    ghost use Rattle.std.specs.Prelude.{Some};
    ghost use Rattle.predicates_require.specs.Unmet.{unmet_text};

    ghost debug_output = { λ unmet. Some (unmet_text unmet) };

    fn fmt<W: fmt::Write>(&self, f: &mut fmt::Formatter<W>) -> fmt::Result {
        write!(f, "{self}")
    }
}

impl Error for Unmet {}

impl From<AllocError> for Unmet {
    ghost from_gives = { λ _ unmet. unmet ≡ NoMemory };

    fn from(_error: AllocError) -> Unmet {
        Unmet::NoMemory
    }
}
