//! What a sweep finds wrong with a call.
ghost use Rattle.std.specs.Prelude.{◌≡◌, true, IfOk};

use std::alloc::{AllocError, Global};
use std::io;

/// Why a call is not as its row says.
#[derive(Debug, Drop)]
pub enum Wrong {
    /// It is not right.
    Call {
        /// The row's name.
        call: String,
        /// What is wrong with it.
        what: &'static str,
        /// Which request was refused, from 1; 0 where memory is ample.
        refusal: u16,
    },
    /// Memory ran out where none was refused.
    NoMemory,
    /// What came of it could not be written.
    NotWritten,
}

impl From<AllocError> for Wrong {
    fn from(_error: AllocError) -> Wrong {
        Wrong::NoMemory
    }
}

impl From<io::Error> for Wrong {
    fn from(_error: io::Error) -> Wrong {
        Wrong::NotWritten
    }
}

/// Hands on what is wrong with the call, at this refusal from 1 or at none, where it is not right.
pub(crate) fn require(
    alloc: Global,
    call: &str,
    is_right: bool,
    what: &'static str,
    refusal: u16,
) -> Result<(), Wrong>
    ensures { IfOk result (λ _. is_right ≡ true) }
{
    if is_right {
        return Ok(());
    }
    let call = String::from_str(alloc, call)?;
    Err(Wrong::Call {
        call,
        what,
        refusal,
    })
}
