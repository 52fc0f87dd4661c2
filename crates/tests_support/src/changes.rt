//! What would turn a predicate's verdict.
use crate::reference::{ReferenceFormula, first_change};
use crate::shown::shows;
use predicates_core::PredicateChange;
use predicates_core::reflection::Case;
use std::alloc::{AllocError, Global};

/// What would turn the verdict on one item, for each verdict that may be wanted.
#[derive(Drop)]
pub struct Changes {
    pub of_true: Option<Case>,
    pub of_false: Option<Case>,
    pub of_either: Option<Case>,
}

/// What would turn the predicate's verdict.
pub fn find_changes<P: PredicateChange<Item>, Item>(
    alloc: Global,
    predicate: &P,
    item: &Item,
) -> Result<Changes, AllocError>
    requires { P.lawful predicate.now }
{
    let of_true = predicate.find_change(alloc, Some(true), item)?;
    let of_false = predicate.find_change(alloc, Some(false), item)?;
    let of_either = predicate.find_change(alloc, None, item)?;
    Ok(Changes {
        of_true,
        of_false,
        of_either,
    })
}

impl Changes {
    /// Whether that of the formula's truth, and that of either, is the formula cut down to just the
    /// leaves that the reference program finds, and there is no other; none for a formula of more
    /// than twelve leaves.
    pub fn are_right(
        &self,
        alloc: Global,
        formula: &ReferenceFormula,
    ) -> Result<Option<bool>, AllocError> {
        let Some(first) = first_change(alloc, formula)? else {
            return Ok(None);
        };
        let (own, other) = if formula.truth() {
            (&self.of_true, &self.of_false)
        } else {
            (&self.of_false, &self.of_true)
        };
        let first = first.as_slice();
        Ok(Some(match (own, &self.of_either) {
            (Some(own), Some(either)) => {
                other.is_none()
                    && shows(first, formula, &own.root(), 0)
                    && shows(first, formula, &either.root(), 0)
            }
            _ => false,
        }))
    }
}
