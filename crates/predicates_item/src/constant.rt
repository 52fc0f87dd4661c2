//! Predicates that answer the same on every item.
//!
//! ```
//! let open = predicate::always().or(predicate::eq(5));
//! ```
ghost use Rattle.std.specs.Prelude.{◌≡◌, ◌↔◌, refl, true, false, codes, Some};
ghost use Rattle.predicates_core.specs.Label.{plain, value_of};
ghost use Rattle.predicates_core.specs.Formula.{Formula, Leaf};
ghost use Rattle.predicates_core.specs.Tree.{empty};
ghost use Rattle.predicates_core.specs.Leaves.{IsExactly, word};
ghost use Rattle.predicates_item.specs.Constant.{answer_of};
ghost use Rattle.predicates_core.specs.LeafLaws.{exactly_text_fits, one_exactly};

use predicates_core::custom::{bare_case, leaf_change};
use predicates_core::reflection::{Case, Child, Parameter, PredicateReflection};
use predicates_core::{Content, Predicate, PredicateChange, ReadsContent, Total};
use std::alloc::{AllocError, Global};
use std::fmt;
use std::marker::PhantomData;

/// Always true, or always false. Made by `always` and `never`.
#[derive(Drop)]
#[derive_where(Debug, Clone, Copy, PartialEq, Eq)]
pub struct BooleanPredicate<Item> {
    retval: bool,
    item: PhantomData<Item>,
}

impl<Item> BooleanPredicate<Item> {
    // The predicate that answers this.
    fn new(retval: bool) -> BooleanPredicate<Item>
        ensures answer { answer_of result ≡ retval }
        ensures formula { (v : Item) (f : Formula)
            → ⟦<BooleanPredicate<Item> as Predicate<Item>>⟧.formula result v f
            ↔ IsExactly (Leaf (plain (Some (word retval))) retval) f }
        ensures lawful { ⟦<BooleanPredicate<Item> as Predicate<Item>>⟧.lawful result }
        ensures infallible { (v : Item)
            → ⟦<BooleanPredicate<Item> as Predicate<Item>>⟧.infallible result v }
        ensures values { ⟦<BooleanPredicate<Item> as PredicateReflection>⟧.parameters_of result
            ≡ value_of (codes "value") (Some (word retval)) }
        ensures parts { ⟦<BooleanPredicate<Item> as PredicateReflection>⟧.children_of result
            ≡ empty }
    {
        BooleanPredicate {
            retval,
            item: PhantomData,
        }
    }
}

/// The predicate that holds of every item. It takes no memory, and neither does its `eval`.
///
/// ```
/// let open = predicate::always();
/// assert!(rt; open.eval(alloc, &5)?);
/// ```
pub fn always<Item>() -> BooleanPredicate<Item>
    ensures answer { answer_of result ≡ true }
    ensures formula { (v : Item) (f : Formula)
        → ⟦<BooleanPredicate<Item> as Predicate<Item>>⟧.formula result v f
        ↔ IsExactly (Leaf (plain (Some (word true))) true) f }
    ensures lawful { ⟦<BooleanPredicate<Item> as Predicate<Item>>⟧.lawful result }
    ensures infallible { (v : Item)
        → ⟦<BooleanPredicate<Item> as Predicate<Item>>⟧.infallible result v }
    ensures values { ⟦<BooleanPredicate<Item> as PredicateReflection>⟧.parameters_of result
        ≡ value_of (codes "value") (Some (word true)) }
    ensures parts { ⟦<BooleanPredicate<Item> as PredicateReflection>⟧.children_of result ≡ empty }
{
    BooleanPredicate::new(true)
}

/// The predicate that holds of no item. It takes no memory, and neither does its `eval`.
///
/// ```
/// let closed = predicate::never();
/// assert!(rt; !closed.eval(alloc, &5)?);
/// ```
pub fn never<Item>() -> BooleanPredicate<Item>
    ensures answer { answer_of result ≡ false }
    ensures formula { (v : Item) (f : Formula)
        → ⟦<BooleanPredicate<Item> as Predicate<Item>>⟧.formula result v f
        ↔ IsExactly (Leaf (plain (Some (word false))) false) f }
    ensures lawful { ⟦<BooleanPredicate<Item> as Predicate<Item>>⟧.lawful result }
    ensures infallible { (v : Item)
        → ⟦<BooleanPredicate<Item> as Predicate<Item>>⟧.infallible result v }
    ensures values { ⟦<BooleanPredicate<Item> as PredicateReflection>⟧.parameters_of result
        ≡ value_of (codes "value") (Some (word false)) }
    ensures parts { ⟦<BooleanPredicate<Item> as PredicateReflection>⟧.children_of result ≡ empty }
{
    BooleanPredicate::new(false)
}

impl<Item> fmt::Display for BooleanPredicate<Item> {
    ghost output = { λ p. Some (word p.retval) };

    fn fmt<W: fmt::Write>(&self, f: &mut fmt::Formatter<W>) -> fmt::Result {
        let retval = self.retval;
        write!(f, "{retval}")
    }
}

impl<Item> PredicateReflection for BooleanPredicate<Item> {
    ghost parameters_of = { λ p. value_of (codes "value") (Some (word p.retval)) };

    ghost children_of = { λ p. empty };

    fn parameters(&self, alloc: Global) -> Result<Vec<Parameter>, AllocError> {
        let mut parameters = Vec::new(alloc);
        parameters.push(Parameter::new("value", self.retval.to_string(alloc)?))?;
        Ok(parameters)
    }

    fn children(&self, alloc: Global) -> Result<Vec<Child>, AllocError> {
        Ok(Vec::new(alloc))
    }
}

impl<Item> Predicate<Item> for BooleanPredicate<Item> {
    ghost formula = { λ p v. IsExactly (Leaf (plain (Some (word p.retval))) p.retval) };

    ghost infallible = { λ p v. Unit {0} };

    ghost text_fits = { λ p v f. exactly_text_fits };

    ghost one_formula = { λ p v f g lawful. one_exactly };

    #[tactic(auto, using(predicates_core::proofs::Leaves::leaves))]
    fn eval(&self, _alloc: Global, _item: &Item) -> Result<bool, AllocError> {
        Ok(self.retval)
    }

    fn find_case(
        &self,
        alloc: Global,
        expected: bool,
        item: &Item,
    ) -> Result<Option<Case>, AllocError> {
        self.explain(alloc, Some(expected), item)
    }

    fn explain(
        &self,
        alloc: Global,
        wanted: Option<bool>,
        _item: &Item,
    ) -> Result<Option<Case>, AllocError> {
        bare_case(alloc, self, self.retval, wanted)
    }
}

impl<Item> PredicateChange<Item> for BooleanPredicate<Item> {
    fn find_change(
        &self,
        alloc: Global,
        wanted: Option<bool>,
        item: &Item,
    ) -> Result<Option<Case>, AllocError> {
        leaf_change(alloc, self, wanted, item)
    }
}

impl<Item> Total<Item> for BooleanPredicate<Item> {
    ghost formula_of = { λ p v. Leaf (plain (Some (word p.retval))) p.retval };

    ghost always_lawful = { λ p. tt };

    ghost has_formula = { λ p v. record { is = refl } };
}

impl<Item: Content> ReadsContent<Item> for BooleanPredicate<Item> {
    ghost content_formula = { λ p bytes. Leaf (plain (Some (word p.retval))) p.retval };

    ghost always_lawful = { λ p. tt };

    ghost has_formula = { λ p v. record { is = refl } };
}
