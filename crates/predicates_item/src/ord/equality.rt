//! Equality with a constant.
ghost use Rattle.std.specs.Prelude.{◌≡◌, ◌↔◌, refl, [], bytes_eq, codes, not, string_bytes};
ghost use Rattle.predicates_core.specs.Formula.{Formula, Leaf};
ghost use Rattle.predicates_core.specs.Label.{showing};
ghost use Rattle.predicates_core.specs.Leaves.{IsExactly};
ghost use Rattle.predicates_item.specs.Comparison.{comparison_text, eq_symbol, eq_truth};
ghost use Rattle.predicates_item.specs.Makers.{equal_to, unequal_to};
ghost use Rattle.predicates_core.specs.Tree.{empty};

use crate::showing::{ContentTest, ShowingPredicate};
use predicates_core::Predicate;
use predicates_core::custom::{Test, TestParameters};
use predicates_core::reflection::{Parameter, PredicateReflection};
use std::alloc::{AllocError, Global};
use std::fmt;

#[derive(Debug, Clone, Copy, PartialEq, Eq)]
enum EqOps {
    Equal,
    NotEqual,
}

impl fmt::Display for EqOps {
    ghost use Rattle.std.specs.Prelude.{Some};

    ghost output = { λ op. Some (eq_symbol op) };

    fn fmt<W: fmt::Write>(&self, f: &mut fmt::Formatter<W>) -> fmt::Result {
        match self {
            EqOps::Equal => write!(f, "=="),
            EqOps::NotEqual => write!(f, "!="),
        }
    }
}

/// Whether an item equals a constant, or whether it does not.
#[derive(Debug, Clone, Copy, PartialEq, Eq, Drop)]
pub struct EqPredicate<T> {
    constant: T,
    op: EqOps,
}

impl<T: fmt::Debug> fmt::Display for EqPredicate<T> {
    ghost output = { λ p. comparison_text (eq_symbol p.op) (T.debug_output p.constant) };

    fn fmt<W: fmt::Write>(&self, f: &mut fmt::Formatter<W>) -> fmt::Result {
        let op = self.op;
        let constant = &self.constant;
        write!(f, "var {op} {constant:?}")
    }
}

impl<T> TestParameters for EqPredicate<T> {
    ghost parameters_of = { λ p. [] };

    fn parameters(&self, alloc: Global) -> Result<Vec<Parameter>, AllocError> {
        Ok(Vec::new(alloc))
    }
}

impl<T: fmt::Debug + PartialEq> Test<T> for EqPredicate<T> {
    ghost holds_of = { λ p v. eq_truth p.op (T.eq v p.constant) };

    fn holds(&self, item: &T) -> bool {
        let equal = *item == self.constant;
        match self.op {
            EqOps::Equal => equal,
            EqOps::NotEqual => !equal,
        }
    }
}

impl ContentTest for EqPredicate<String> {
    ghost holds_of_bytes = { λ p bytes. eq_truth p.op (bytes_eq bytes (string_bytes p.constant)) };

    ghost reads_bytes = { λ p v. refl };
}

/// Holds of an item that equals the constant.
///
/// ```
/// let five = predicate::eq(5);
/// assert!(rt; five.eval(alloc, &5)?);
/// assert!(rt; !five.eval(alloc, &6)?);
/// ```
pub fn eq<T: fmt::Debug + PartialEq>(constant: T) -> ShowingPredicate<EqPredicate<T>>
    ensures made { result ≡ equal_to constant }
    ensures formula { (v : T) (f : Formula)
        → ⟦<ShowingPredicate<EqPredicate<T>> as Predicate<T>>⟧.formula result v f
        ↔ IsExactly
        (Leaf
        (showing (comparison_text (codes "==") (T.debug_output constant))
        (codes "var") (T.debug_output v))
        (T.eq v constant))
        f }
    ensures values { ⟦<ShowingPredicate<EqPredicate<T>> as PredicateReflection>⟧.parameters_of
        result ≡ [] }
    ensures lawful { ⟦<ShowingPredicate<EqPredicate<T>> as Predicate<T>>⟧.lawful result }
    ensures infallible { (v : T)
        → ⟦<ShowingPredicate<EqPredicate<T>> as Predicate<T>>⟧.infallible result v }
    ensures parts { ⟦<ShowingPredicate<EqPredicate<T>> as PredicateReflection>⟧.children_of result
        ≡ empty }
{
    ShowingPredicate::new::<T>(EqPredicate {
        constant,
        op: EqOps::Equal,
    })
}

/// Holds of an item that does not equal the constant.
///
/// ```
/// let other = predicate::ne(5);
/// assert!(rt; other.eval(alloc, &6)?);
/// assert!(rt; !other.eval(alloc, &5)?);
/// ```
pub fn ne<T: fmt::Debug + PartialEq>(constant: T) -> ShowingPredicate<EqPredicate<T>>
    ensures made { result ≡ unequal_to constant }
    ensures formula { (v : T) (f : Formula)
        → ⟦<ShowingPredicate<EqPredicate<T>> as Predicate<T>>⟧.formula result v f
        ↔ IsExactly
        (Leaf
        (showing (comparison_text (codes "!=") (T.debug_output constant))
        (codes "var") (T.debug_output v))
        (not (T.eq v constant)))
        f }
    ensures values { ⟦<ShowingPredicate<EqPredicate<T>> as PredicateReflection>⟧.parameters_of
        result ≡ [] }
    ensures lawful { ⟦<ShowingPredicate<EqPredicate<T>> as Predicate<T>>⟧.lawful result }
    ensures infallible { (v : T)
        → ⟦<ShowingPredicate<EqPredicate<T>> as Predicate<T>>⟧.infallible result v }
    ensures parts { ⟦<ShowingPredicate<EqPredicate<T>> as PredicateReflection>⟧.children_of result
        ≡ empty }
{
    ShowingPredicate::new::<T>(EqPredicate {
        constant,
        op: EqOps::NotEqual,
    })
}
