//! Bounds of floats.
//!
//! ```
//! let dear = float::ge(9.5).of_number().of_pointer("/price");
//! let value = Value::from_str(alloc, "{\"price\": 9.4999}")?;
//! let case = dear.find_case(alloc, false, &value)?.ok_or("no case")?;
//! let lines = "/price = false\n  value: var >= 9.5 = false\n    - var: 9.4999\n";
//! assert!(rt; render(alloc, &case)?.as_str() == lines);
//! ```
//!
//! No bound holds of a NaN, and a bound that is a NaN holds of nothing. The two zeros are equal.
//! Making a bound takes no memory, and neither does its `eval`, which cannot fail.
ghost use Rattle.std.specs.Prelude.{◌≡◌, ◌↔◌, [], codes, Float};
ghost use Rattle.std.specs.Float.Ieee as Ieee;
ghost use Rattle.predicates_core.specs.Formula.{Formula, Leaf};
ghost use Rattle.predicates_core.specs.Label.{showing};
ghost use Rattle.predicates_core.specs.Leaves.{IsExactly};
ghost use Rattle.predicates_core.specs.Tree.{empty};
ghost use Rattle.predicates_json.specs.Bounds.{bound_symbol, bound_text, bound_truth};

use predicates_core::Predicate;
use predicates_core::custom::{Test, TestPredicate, leaf};
use predicates_core::reflection::PredicateReflection;
use std::fmt;

#[derive(Debug, Clone, Copy, PartialEq, Eq)]
enum BoundOps {
    LessThan,
    LessThanOrEqual,
    GreaterThanOrEqual,
    GreaterThan,
}

impl fmt::Display for BoundOps {
    ghost use Rattle.std.specs.Prelude.{Some};

    ghost output = { λ op. Some (bound_symbol op) };

    fn fmt<W: fmt::Write>(&self, f: &mut fmt::Formatter<W>) -> fmt::Result {
        match self {
            BoundOps::LessThan => write!(f, "<"),
            BoundOps::LessThanOrEqual => write!(f, "<="),
            BoundOps::GreaterThanOrEqual => write!(f, ">="),
            BoundOps::GreaterThan => write!(f, ">"),
        }
    }
}

/// The side of a bound that an item has to be on. It prints the bound by `Debug`, of which the
/// standard library says nothing for an `f64`.
#[derive(Debug, Clone, Copy, PartialEq, Eq, Drop)]
pub struct Bound<T> {
    bound: T,
    op: BoundOps,
}

/// A bound of floats, whose cases show the float as `var`. Made by `lt`, `le`, `ge` and `gt`.
pub type FloatPredicate = TestPredicate<Bound<f64>>;

impl<T: fmt::Debug> fmt::Display for Bound<T> {
    ghost output = { λ b. bound_text (bound_symbol b.op) (T.debug_output b.bound) };

    fn fmt<W: fmt::Write>(&self, f: &mut fmt::Formatter<W>) -> fmt::Result {
        let op = self.op;
        let bound = &self.bound;
        write!(f, "var {op} {bound:?}")
    }
}

impl Test<f64> for Bound<f64> {
    ghost holds_of = { λ b x. bound_truth b.op x b.bound };

    fn holds(&self, item: &f64) -> bool {
        match self.op {
            BoundOps::LessThan => *item < self.bound,
            BoundOps::LessThanOrEqual => *item <= self.bound,
            BoundOps::GreaterThanOrEqual => *item >= self.bound,
            BoundOps::GreaterThan => *item > self.bound,
        }
    }
}

/// Holds of a float less than the bound.
///
/// ```
/// let below = float::lt(9.5);
/// assert!(rt; below.eval(alloc, &9.4999)?);
/// assert!(rt; !below.eval(alloc, &9.5)?);
/// ```
pub fn lt(bound: f64) -> FloatPredicate
    ensures formula { (x : Float) (f : Formula)
        → ⟦<FloatPredicate as Predicate<f64>>⟧.formula result x f
        ↔ IsExactly
        (Leaf
        (showing (bound_text (codes "<") (⟦<f64 as fmt::Debug>⟧.debug_output bound))
        (codes "var") (⟦<f64 as fmt::Debug>⟧.debug_output x))
        (Ieee.lt x bound))
        f }
    ensures lawful { ⟦<FloatPredicate as Predicate<f64>>⟧.lawful result }
    ensures infallible { (x : Float)
        → ⟦<FloatPredicate as Predicate<f64>>⟧.infallible result x }
    ensures values { ⟦<FloatPredicate as PredicateReflection>⟧.parameters_of result ≡ [] }
    ensures parts { ⟦<FloatPredicate as PredicateReflection>⟧.children_of result ≡ empty }
{
    leaf(Bound {
        bound,
        op: BoundOps::LessThan,
    })
}

/// Holds of a float at most the bound.
///
/// ```
/// let at_most = float::le(9.5);
/// assert!(rt; at_most.eval(alloc, &9.5)?);
/// assert!(rt; !at_most.eval(alloc, &9.5001)?);
/// ```
pub fn le(bound: f64) -> FloatPredicate
    ensures formula { (x : Float) (f : Formula)
        → ⟦<FloatPredicate as Predicate<f64>>⟧.formula result x f
        ↔ IsExactly
        (Leaf
        (showing (bound_text (codes "<=") (⟦<f64 as fmt::Debug>⟧.debug_output bound))
        (codes "var") (⟦<f64 as fmt::Debug>⟧.debug_output x))
        (Ieee.le x bound))
        f }
    ensures lawful { ⟦<FloatPredicate as Predicate<f64>>⟧.lawful result }
    ensures infallible { (x : Float)
        → ⟦<FloatPredicate as Predicate<f64>>⟧.infallible result x }
    ensures values { ⟦<FloatPredicate as PredicateReflection>⟧.parameters_of result ≡ [] }
    ensures parts { ⟦<FloatPredicate as PredicateReflection>⟧.children_of result ≡ empty }
{
    leaf(Bound {
        bound,
        op: BoundOps::LessThanOrEqual,
    })
}

/// Holds of a float at least the bound.
///
/// ```
/// let at_least = float::ge(9.5);
/// assert!(rt; at_least.eval(alloc, &9.5)?);
/// assert!(rt; !at_least.eval(alloc, &9.4999)?);
/// ```
pub fn ge(bound: f64) -> FloatPredicate
    ensures formula { (x : Float) (f : Formula)
        → ⟦<FloatPredicate as Predicate<f64>>⟧.formula result x f
        ↔ IsExactly
        (Leaf
        (showing (bound_text (codes ">=") (⟦<f64 as fmt::Debug>⟧.debug_output bound))
        (codes "var") (⟦<f64 as fmt::Debug>⟧.debug_output x))
        (Ieee.le bound x))
        f }
    ensures lawful { ⟦<FloatPredicate as Predicate<f64>>⟧.lawful result }
    ensures infallible { (x : Float)
        → ⟦<FloatPredicate as Predicate<f64>>⟧.infallible result x }
    ensures values { ⟦<FloatPredicate as PredicateReflection>⟧.parameters_of result ≡ [] }
    ensures parts { ⟦<FloatPredicate as PredicateReflection>⟧.children_of result ≡ empty }
{
    leaf(Bound {
        bound,
        op: BoundOps::GreaterThanOrEqual,
    })
}

/// Holds of a float greater than the bound.
///
/// ```
/// let above = float::gt(9.5);
/// assert!(rt; above.eval(alloc, &9.5001)?);
/// assert!(rt; !above.eval(alloc, &9.5)?);
/// ```
pub fn gt(bound: f64) -> FloatPredicate
    ensures formula { (x : Float) (f : Formula)
        → ⟦<FloatPredicate as Predicate<f64>>⟧.formula result x f
        ↔ IsExactly
        (Leaf
        (showing (bound_text (codes ">") (⟦<f64 as fmt::Debug>⟧.debug_output bound))
        (codes "var") (⟦<f64 as fmt::Debug>⟧.debug_output x))
        (Ieee.lt bound x))
        f }
    ensures lawful { ⟦<FloatPredicate as Predicate<f64>>⟧.lawful result }
    ensures infallible { (x : Float)
        → ⟦<FloatPredicate as Predicate<f64>>⟧.infallible result x }
    ensures values { ⟦<FloatPredicate as PredicateReflection>⟧.parameters_of result ≡ [] }
    ensures parts { ⟦<FloatPredicate as PredicateReflection>⟧.children_of result ≡ empty }
{
    leaf(Bound {
        bound,
        op: BoundOps::GreaterThan,
    })
}
