//! What is told of an input or an output that failed.
ghost use Rattle.std.specs.Prelude.{option_map};
ghost use Rattle.std.specs.IoError.{error_kind};
ghost use Rattle.vet_program.specs.Faults.{stream_fault_text};

use crate::io_fault::IoFault;
use std::{fmt, io};
use vet_run::RunFault;

/// A fault of a run, and the error of the read or the write that failed, if one did.
#[derive(Drop)]
pub(crate) struct StreamFault {
    pub(crate) fault: RunFault,
    pub(crate) error: Option<io::Error>,
}

impl fmt::Display for StreamFault {
    ghost output = { λ fault. stream_fault_text fault.fault (option_map error_kind fault.error) };

    fn fmt<W: fmt::Write>(&self, f: &mut fmt::Formatter<W>) -> fmt::Result {
        let StreamFault { fault, error } = self;
        match error {
            Some(error) => write!(f, "{fault}: {}", IoFault(error)),
            None => write!(f, "{fault}"),
        }
    }
}
