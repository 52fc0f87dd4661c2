//! Why a line was not read, before its place is known.

ghost use Rattle.std.specs.Prelude.{◌≡◌};
ghost use Rattle.vet_rules.specs.declared.stop.ReadError.TheVariants.{Memory};

use crate::error::Reason;
use std::alloc::{AllocError, AllocFailed};

/// Why reading stopped, and how much was left there: bytes for a lexer, tokens for a parser.
#[derive(Clone, Copy, Debug, PartialEq, Eq)]
pub struct Stop {
    pub reason: Reason,
    pub left: usize,
}

#[derive(Debug, Drop)]
pub enum ReadError {
    Memory,
    Stopped(Stop),
}

impl From<AllocError> for ReadError {
    ghost from_gives = { λ _ e. e ≡ Memory };

    fn from(_e: AllocError) -> ReadError {
        ReadError::Memory
    }
}

impl<T: Drop> From<AllocFailed<T>> for ReadError {
    ghost from_gives = { λ _ e. e ≡ Memory };

    fn from(_e: AllocFailed<T>) -> ReadError {
        ReadError::Memory
    }
}
