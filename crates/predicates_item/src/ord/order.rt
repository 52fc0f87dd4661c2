//! The order of the item and a constant.
ghost use Rattle.std.specs.Prelude.{◌≡◌, ◌↔◌, refl, [], codes, string_bytes};
ghost use Rattle.std.specs.Cmp.Lexicographic.{slice_cmp};
ghost use Rattle.std.specs.Ordering.{nat_cmp, is_lt, is_le, is_ge, is_gt};
ghost use Rattle.predicates_core.specs.Formula.{Formula, Leaf};
ghost use Rattle.predicates_core.specs.Label.{showing};
ghost use Rattle.predicates_core.specs.Leaves.{IsExactly};
ghost use Rattle.predicates_item.specs.Comparison.{comparison_text, ord_symbol, ord_truth};
ghost use Rattle.predicates_item.specs.Makers.{less_than, at_most, at_least, greater_than};
ghost use Rattle.predicates_core.specs.Tree.{empty};

use crate::showing::{ContentTest, ShowingPredicate};
use predicates_core::Predicate;
use predicates_core::custom::{Test, TestParameters};
use predicates_core::reflection::{Parameter, PredicateReflection};
use std::alloc::{AllocError, Global};
use std::fmt;

#[derive(Debug, Clone, Copy, PartialEq, Eq)]
enum OrdOps {
    LessThan,
    LessThanOrEqual,
    GreaterThanOrEqual,
    GreaterThan,
}

impl fmt::Display for OrdOps {
    ghost use Rattle.std.specs.Prelude.{Some};

    ghost output = { λ op. Some (ord_symbol op) };

    fn fmt<W: fmt::Write>(&self, f: &mut fmt::Formatter<W>) -> fmt::Result {
        match self {
            OrdOps::LessThan => write!(f, "<"),
            OrdOps::LessThanOrEqual => write!(f, "<="),
            OrdOps::GreaterThanOrEqual => write!(f, ">="),
            OrdOps::GreaterThan => write!(f, ">"),
        }
    }
}

/// Whether an item, on the left, has an order to a constant.
#[derive(Debug, Clone, Copy, PartialEq, Eq, Drop)]
pub struct OrdPredicate<T> {
    constant: T,
    op: OrdOps,
}

impl<T: fmt::Debug> fmt::Display for OrdPredicate<T> {
    ghost output = { λ p. comparison_text (ord_symbol p.op) (T.debug_output p.constant) };

    fn fmt<W: fmt::Write>(&self, f: &mut fmt::Formatter<W>) -> fmt::Result {
        let op = self.op;
        let constant = &self.constant;
        write!(f, "var {op} {constant:?}")
    }
}

impl<T> TestParameters for OrdPredicate<T> {
    ghost parameters_of = { λ p. [] };

    fn parameters(&self, alloc: Global) -> Result<Vec<Parameter>, AllocError> {
        Ok(Vec::new(alloc))
    }
}

impl<T: fmt::Debug + Ord> Test<T> for OrdPredicate<T> {
    ghost holds_of = { λ p v. ord_truth p.op (T.cmp v p.constant) };

    fn holds(&self, item: &T) -> bool {
        let order = item.cmp(&self.constant);
        match self.op {
            OrdOps::LessThan => order.is_lt(),
            OrdOps::LessThanOrEqual => order.is_le(),
            OrdOps::GreaterThanOrEqual => order.is_ge(),
            OrdOps::GreaterThan => order.is_gt(),
        }
    }
}

impl ContentTest for OrdPredicate<String> {
    ghost holds_of_bytes = { λ p bytes. ord_truth p.op
        (slice_cmp nat_cmp bytes (string_bytes p.constant)) };

    ghost reads_bytes = { λ p v. refl };
}

/// Holds of an item less than the constant.
///
/// ```
/// let below = predicate::lt(5);
/// assert!(rt; below.eval(alloc, &4)?);
/// assert!(rt; !below.eval(alloc, &5)?);
/// ```
pub fn lt<T: fmt::Debug + Ord>(constant: T) -> ShowingPredicate<OrdPredicate<T>>
    ensures made { result ≡ less_than constant }
    ensures formula { (v : T) (f : Formula)
        → ⟦<ShowingPredicate<OrdPredicate<T>> as Predicate<T>>⟧.formula result v f
        ↔ IsExactly
        (Leaf
        (showing (comparison_text (codes "<") (T.debug_output constant))
        (codes "var") (T.debug_output v))
        (is_lt (T.cmp v constant)))
        f }
    ensures values { ⟦<ShowingPredicate<OrdPredicate<T>> as PredicateReflection>⟧.parameters_of
        result ≡ [] }
    ensures lawful { ⟦<ShowingPredicate<OrdPredicate<T>> as Predicate<T>>⟧.lawful result }
    ensures infallible { (v : T)
        → ⟦<ShowingPredicate<OrdPredicate<T>> as Predicate<T>>⟧.infallible result v }
    ensures parts { ⟦<ShowingPredicate<OrdPredicate<T>> as PredicateReflection>⟧.children_of result
        ≡ empty }
{
    ShowingPredicate::new::<T>(OrdPredicate {
        constant,
        op: OrdOps::LessThan,
    })
}

/// Holds of an item at most the constant.
///
/// ```
/// let at_most = predicate::le(5);
/// assert!(rt; at_most.eval(alloc, &5)?);
/// assert!(rt; !at_most.eval(alloc, &6)?);
/// ```
pub fn le<T: fmt::Debug + Ord>(constant: T) -> ShowingPredicate<OrdPredicate<T>>
    ensures made { result ≡ at_most constant }
    ensures formula { (v : T) (f : Formula)
        → ⟦<ShowingPredicate<OrdPredicate<T>> as Predicate<T>>⟧.formula result v f
        ↔ IsExactly
        (Leaf
        (showing (comparison_text (codes "<=") (T.debug_output constant))
        (codes "var") (T.debug_output v))
        (is_le (T.cmp v constant)))
        f }
    ensures values { ⟦<ShowingPredicate<OrdPredicate<T>> as PredicateReflection>⟧.parameters_of
        result ≡ [] }
    ensures lawful { ⟦<ShowingPredicate<OrdPredicate<T>> as Predicate<T>>⟧.lawful result }
    ensures infallible { (v : T)
        → ⟦<ShowingPredicate<OrdPredicate<T>> as Predicate<T>>⟧.infallible result v }
    ensures parts { ⟦<ShowingPredicate<OrdPredicate<T>> as PredicateReflection>⟧.children_of result
        ≡ empty }
{
    ShowingPredicate::new::<T>(OrdPredicate {
        constant,
        op: OrdOps::LessThanOrEqual,
    })
}

/// Holds of an item at least the constant.
///
/// ```
/// let at_least = predicate::ge(5);
/// assert!(rt; at_least.eval(alloc, &5)?);
/// assert!(rt; !at_least.eval(alloc, &4)?);
/// ```
pub fn ge<T: fmt::Debug + Ord>(constant: T) -> ShowingPredicate<OrdPredicate<T>>
    ensures made { result ≡ at_least constant }
    ensures formula { (v : T) (f : Formula)
        → ⟦<ShowingPredicate<OrdPredicate<T>> as Predicate<T>>⟧.formula result v f
        ↔ IsExactly
        (Leaf
        (showing (comparison_text (codes ">=") (T.debug_output constant))
        (codes "var") (T.debug_output v))
        (is_ge (T.cmp v constant)))
        f }
    ensures values { ⟦<ShowingPredicate<OrdPredicate<T>> as PredicateReflection>⟧.parameters_of
        result ≡ [] }
    ensures lawful { ⟦<ShowingPredicate<OrdPredicate<T>> as Predicate<T>>⟧.lawful result }
    ensures infallible { (v : T)
        → ⟦<ShowingPredicate<OrdPredicate<T>> as Predicate<T>>⟧.infallible result v }
    ensures parts { ⟦<ShowingPredicate<OrdPredicate<T>> as PredicateReflection>⟧.children_of result
        ≡ empty }
{
    ShowingPredicate::new::<T>(OrdPredicate {
        constant,
        op: OrdOps::GreaterThanOrEqual,
    })
}

/// Holds of an item greater than the constant.
///
/// ```
/// let above = predicate::gt(5);
/// assert!(rt; above.eval(alloc, &6)?);
/// assert!(rt; !above.eval(alloc, &5)?);
/// ```
pub fn gt<T: fmt::Debug + Ord>(constant: T) -> ShowingPredicate<OrdPredicate<T>>
    ensures made { result ≡ greater_than constant }
    ensures formula { (v : T) (f : Formula)
        → ⟦<ShowingPredicate<OrdPredicate<T>> as Predicate<T>>⟧.formula result v f
        ↔ IsExactly
        (Leaf
        (showing (comparison_text (codes ">") (T.debug_output constant))
        (codes "var") (T.debug_output v))
        (is_gt (T.cmp v constant)))
        f }
    ensures values { ⟦<ShowingPredicate<OrdPredicate<T>> as PredicateReflection>⟧.parameters_of
        result ≡ [] }
    ensures lawful { ⟦<ShowingPredicate<OrdPredicate<T>> as Predicate<T>>⟧.lawful result }
    ensures infallible { (v : T)
        → ⟦<ShowingPredicate<OrdPredicate<T>> as Predicate<T>>⟧.infallible result v }
    ensures parts { ⟦<ShowingPredicate<OrdPredicate<T>> as PredicateReflection>⟧.children_of result
        ≡ empty }
{
    ShowingPredicate::new::<T>(OrdPredicate {
        constant,
        op: OrdOps::GreaterThan,
    })
}
