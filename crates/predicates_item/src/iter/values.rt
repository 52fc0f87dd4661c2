//! The parameter of the memberships.
ghost use Rattle.std.specs.Prelude.{IfOk, codes};
ghost use Rattle.predicates_core.specs.Label.{FitsProducts, value_of};

use predicates_core::reflection::Parameter;
use std::alloc::{AllocError, Global};
use std::fmt;

/// The parameter `values`, which is the debug form of the members.
pub(crate) fn values<M: fmt::Debug>(
    alloc: Global,
    members: &M,
) -> Result<Vec<Parameter>, AllocError>
    ensures { IfOk result (λ ps. FitsProducts
        (value_of (codes "values") (M.debug_output members.now)) ps.items) }
{
    let mut parameters = Vec::new(alloc);
    parameters.push(Parameter::new("values", format!(in alloc; "{members:?}")?))?;
    Ok(parameters)
}
