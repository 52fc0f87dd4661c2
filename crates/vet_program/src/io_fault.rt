//! What is told of a fault of the system.
use std::io::ErrorKind;
use std::{fmt, io};
use vet_run::RunFault;

// An error of the system. That memory ran out is told as everywhere, and any other in its own
// words.
#[derive(Drop)]
pub(crate) struct IoFault<'a>(pub(crate) &'a io::Error);

impl fmt::Display for IoFault<'_> {
    ghost use Rattle.std.specs.IoError.{error_kind};
    ghost use Rattle.vet_program.specs.Faults.{io_fault_text};

    ghost output = { λ fault. io_fault_text (error_kind fault.0.now) };

    fn fmt<W: fmt::Write>(&self, f: &mut fmt::Formatter<W>) -> fmt::Result {
        if self.0.kind() == ErrorKind::OutOfMemory {
            write!(f, "{}", RunFault::NoMemory)
        } else {
            write!(f, "{}", self.0)
        }
    }
}
