//! Why a path has no kind or no content.
ghost use Rattle.std.specs.Prelude.{Some, codes, IfOk};
ghost use Rattle.predicates_core.specs.Leaves.{IsShowing};
ghost use Rattle.predicates_path.specs.Fault.{IsFaultOf, fault_text};

use predicates_core::node::showing;
use predicates_core::reflection::Case;
use std::alloc::{AllocError, Global};
use std::error::Error;
use std::io::ErrorKind;
use std::{fmt, io};

/// Why a kind or a content is missing. It prints in words, such as `not found`.
#[derive(Debug, Clone, Copy, PartialEq, Eq)]
pub enum PathFault {
    /// Nothing exists at the path: `not found`.
    NotFound,
    /// The system denied access: `permission denied`.
    PermissionDenied,
    /// The path leads to something other than a regular file, so there is no content: `not a
    /// regular file`.
    NotRegular,
    /// Any other error of the system, except that memory ran out: `other fault`.
    Other,
}

impl fmt::Display for PathFault {
    ghost output = { λ fault. Some (fault_text fault) };

    fn fmt<W: fmt::Write>(&self, f: &mut fmt::Formatter<W>) -> fmt::Result {
        match self {
            PathFault::NotFound => write!(f, "not found"),
            PathFault::PermissionDenied => write!(f, "permission denied"),
            PathFault::NotRegular => write!(f, "not a regular file"),
            PathFault::Other => write!(f, "other fault"),
        }
    }
}

impl Error for PathFault {}

// The fault that an error of the system is. That memory ran out is not a fault of the path.
pub(crate) fn path_fault(error: &io::Error) -> Result<PathFault, AllocError>
    ensures { IsFaultOf error.now result }
{
    match error.kind() {
        ErrorKind::NotFound => Ok(PathFault::NotFound),
        ErrorKind::PermissionDenied => Ok(PathFault::PermissionDenied),
        ErrorKind::OutOfMemory => Err(AllocError),
        _ => Ok(PathFault::Other),
    }
}

// Adds the fault as the product `error`.
pub(crate) fn show_fault(alloc: Global, case: Case, fault: PathFault) -> Result<Case, AllocError>
    ensures { IfOk result (IsShowing (codes "error") (Some (fault_text fault)) case) }
{
    showing(case, "error", fault.to_string(alloc)?)
}
