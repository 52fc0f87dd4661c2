//! Why a run ended before its input did.
ghost use Rattle.std.specs.Prelude.{◌≡◌, ◌≢◌};
ghost use Rattle.std.specs.IoError.{error_kind};
ghost use Rattle.streams.specs.declared.run_fault.RunFault.TheVariants.{NoMemory};

use std::alloc::AllocError;
use std::error::Error;
use std::io::ErrorKind;
use std::{fmt, io};

/// Why a run ended before its input did. After it nothing is said of how much was written.
#[derive(Clone, Copy, Debug, PartialEq, Eq)]
pub enum RunFault {
    /// Memory was refused.
    NoMemory,
    /// A read failed, or there were more lines than 64 bits count.
    Input,
    /// A write failed, of what was found or of a message.
    Output,
}

impl fmt::Display for RunFault {
    ghost use Rattle.std.specs.Prelude.{Some};
    ghost use Rattle.streams.specs.RunFault.{fault_text};

    ghost output = { λ fault. Some (fault_text fault) };

    fn fmt<W: fmt::Write>(&self, f: &mut fmt::Formatter<W>) -> fmt::Result {
        match self {
            RunFault::NoMemory => write!(f, "no memory"),
            RunFault::Input => write!(f, "input could not be read"),
            RunFault::Output => write!(f, "output could not be written"),
        }
    }
}

impl Error for RunFault {}

impl From<AllocError> for RunFault {
    ghost from_gives = { λ _ fault. fault ≡ NoMemory };

    fn from(_error: AllocError) -> RunFault {
        RunFault::NoMemory
    }
}

// The fault of a read or a write that failed: out of memory, or the one that is given.
pub(crate) fn classify_error(error: &io::Error, fault: RunFault) -> RunFault
    ensures memory { error_kind error.now ≡ ErrorKind.OutOfMemory → result ≡ NoMemory }
    ensures other { error_kind error.now ≢ ErrorKind.OutOfMemory → result ≡ fault }
{
    if error.kind() == ErrorKind::OutOfMemory {
        RunFault::NoMemory
    } else {
        fault
    }
}
