//! A filter that says why it rejects.
ghost use Rattle.std.specs.Prelude.{◌≡◌, IfOk, filter, map};
ghost use Rattle.predicates_core.specs.Formula.{Formula, truth};
ghost use Rattle.predicates_require.specs.Told.{AreTold};
ghost use Rattle.predicates_require.specs.Sifted.{IsRejection};

use predicates_core::Predicate;
use predicates_core::reflection::Case;
use std::alloc::{AllocError, Global};

/// An item that was rejected, and the case that explains it.
#[derive(Drop)]
pub struct Rejection<T> {
    pub item: T,
    pub reason: Case,
}

/// Items that were kept, and those that were rejected, each in their order.
#[derive(Drop)]
pub struct Sifted<T> {
    pub kept: Vec<T>,
    pub rejected: Vec<Rejection<T>>,
}

/// Keeps the items of which the predicate holds, and gives a reason for each other one. It takes
/// memory for both lists and for the cases; where it runs out, the items are dropped.
///
/// ```
/// let sifted = sift(alloc, &predicate::ge(5), vec![in alloc; 3, 7]?)?;
/// assert!(rt; sifted.kept.as_slice() == [7].as_slice());
/// assert!(rt; sifted.rejected.len() == 1);
/// ```
pub fn sift<P: Predicate<T>, T: Drop>(
    alloc: Global,
    predicate: &P,
    items: Vec<T>,
) -> Result<Sifted<T>, AllocError>
    requires { P.lawful predicate.now }
    ensures sifted { IfOk result (λ sifted. AreTold (P.formula predicate.now)
        (IsRejection (P.formula predicate.now)) items.items sifted.kept.items
        sifted.rejected.items) }
    ensures kept { IfOk result (λ sifted. (formula_of : T → Formula)
        → ((item : T) → P.formula predicate.now item (formula_of item))
        → sifted.kept.items ≡ filter (λ item. truth (formula_of item)) items.items) }
{
    let mut kept = Vec::new(alloc);
    let mut rejected = Vec::new(alloc);
    for item in items {
        match predicate.find_case(alloc, false, &item)? {
            None => kept.push(item)?,
            Some(reason) => rejected.push(Rejection { item, reason })?,
        }
    }
    Ok(Sifted { kept, rejected })
}
