//! Predicates of the members of a list.
//!
//! ```
//! let adults = predicate::ge(18).of_each();
//! let two_adults = predicate::ge(18).of_at_least(2);
//! ```
ghost use Rattle.std.specs.Prelude.{◌≡◌, ◌↔◌, [], ◌∷◌, codes, length, Vec};
ghost use Rattle.std.specs.Global.{Global};
ghost use Rattle.std.specs.List.{AllByRecursion};
ghost use Rattle.predicates_core.specs.Formula.{Formula};
ghost use Rattle.predicates_core.specs.HowMany.{least_of};
ghost use Rattle.predicates_core.specs.Parts.{part};
ghost use Rattle.predicates_core.specs.Thresholds.{IsOfThreshold, counted_text, threshold_formula};
ghost use Rattle.predicates_core.proofs.Several.{each_holds};
ghost use Rattle.predicates_core.proofs.ThresholdCases.{threshold_text_fits, one_by_threshold};
ghost use Rattle.predicates_core.proofs.ThresholdCases.{has_threshold};
ghost use Rattle.predicates_part.specs.Members.{inner_of, members_text, quantifier_of};

use predicates_boolean::boolean::AndPredicate;
use predicates_boolean::threshold::{LimitPredicate, Threshold};
use predicates_core::custom::{
    AtLeast, AtLeastOne, Counting, Every, HowMany, Quantifier, members_case, members_change,
    members_explained, members_hold, one_child,
};
use predicates_core::reflection::{Case, Child, Parameter, PredicateReflection};
use predicates_core::{Predicate, PredicateChange, Total};
use std::alloc::{AllocError, Global};
use std::fmt;
use std::marker::PhantomData;

/// Holds of a list where its inner predicate holds of each member, of one, or of at least so many.
/// Made by `of_each`, `of_any` and `of_at_least` of `PredicatePartExt`.
#[derive(Clone, Copy, PartialEq, Eq, Drop)]
pub struct MembersPredicate<Q, P> {
    inner: P,
    quantifier: Q,
}

/// Holds of a list where its inner predicate holds of each member.
pub type EachPredicate<P> = MembersPredicate<Every, P>;

/// Holds of a list where its inner predicate holds of a member.
pub type AnyPredicate<P> = MembersPredicate<AtLeastOne, P>;

/// Holds of a list where its inner predicate holds of at least so many members.
pub type MembersAtLeastPredicate<P> = MembersPredicate<AtLeast, P>;

/// Holds of a list where its inner predicate holds of at most so many members.
pub type MembersAtMostPredicate<P, U> = LimitPredicate<MembersAtLeastPredicate<P>, Vec<U>>;

/// Holds of a list where its inner predicate holds of so many members, and no more.
pub type MembersExactlyPredicate<P, U> = AndPredicate<
    MembersAtLeastPredicate<P>,
    MembersAtMostPredicate<P, U>,
    Vec<U>,
>;

impl<Q: Quantifier, P> MembersPredicate<Q, P> {
    /// The predicate of a list, of which so many members have to hold.
    pub fn new<U>(quantifier: Q, inner: P) -> MembersPredicate<Q, P>
    where
        P: Predicate<U>,
        ensures quantifier { quantifier_of result ≡ quantifier }
        ensures inner { inner_of result ≡ inner }
        ensures formula { (v : Vec U Global) (f : Formula)
            → ⟦<MembersPredicate<Q, P> as Predicate<Vec<U>>>⟧.formula result v f
            ↔ IsOfThreshold (least_of (Q.how_many quantifier) (length v.items))
            (members_text (Q.how_many quantifier) (P.output inner))
            (codes "item") (P.formula inner) v.items f }
        ensures lawful { ⟦<MembersPredicate<Q, P> as Predicate<Vec<U>>>⟧.lawful result
            ↔ P.lawful inner }
        ensures infallible { (v : Vec U Global)
            → ⟦<MembersPredicate<Q, P> as Predicate<Vec<U>>>⟧.infallible result v
            ↔ AllByRecursion (P.infallible inner) v.items }
        ensures values { ⟦<MembersPredicate<Q, P> as PredicateReflection>⟧.parameters_of result
            ≡ [] }
        ensures parts { ⟦<MembersPredicate<Q, P> as PredicateReflection>⟧.children_of result
            ≡ part (codes "item") (P.output inner) (P.parameters_of inner) (P.children_of inner) }
    {
        MembersPredicate { inner, quantifier }
    }

    // How many of so many members have to hold.
    fn least(&self, number: usize) -> usize
        ensures { result ≡ least_of (Q.how_many self.now.quantifier) number }
    {
        self.quantifier.how_many().least_of(number)
    }

    // What its cases of a list of so many are made of.
    fn counting(&self, number: usize) -> Counting<'_, MembersPredicate<Q, P>>
        ensures whole { result.whole.now ≡ self.now }
        ensures name { result.name.now ≡ codes "item" }
        ensures least { result.least ≡ least_of (Q.how_many self.now.quantifier) number }
    {
        Counting {
            whole: self,
            name: "item",
            least: self.least(number),
        }
    }
}

impl<Q: Quantifier, P: fmt::Display> fmt::Display for MembersPredicate<Q, P> {
    ghost output = { λ p. members_text (Q.how_many p.quantifier) (P.output (inner_of p)) };

    fn fmt<W: fmt::Write>(&self, f: &mut fmt::Formatter<W>) -> fmt::Result {
        let inner = &self.inner;
        match self.quantifier.how_many() {
            HowMany::Every => write!(f, "each({inner})"),
            HowMany::AtLeastOne => write!(f, "any({inner})"),
            HowMany::AtLeast(least) => write!(f, "at_least({least}, {inner})"),
        }
    }
}

impl<Q: Quantifier, P: fmt::Display> Threshold for MembersPredicate<Q, P> {
    ghost most_text = { λ p most. counted_text
        (codes "at_most") most (P.output (inner_of p) ∷ []) };

    fn fmt_at_most<W: fmt::Write>(&self, most: usize, f: &mut fmt::Formatter<W>) -> fmt::Result {
        let inner = &self.inner;
        write!(f, "at_most({most}, {inner})")
    }
}

// Of a threshold it tells the number.
impl<Q: Quantifier, P: fmt::Debug> fmt::Debug for MembersPredicate<Q, P> {
    fn fmt<W: fmt::Write>(&self, f: &mut fmt::Formatter<W>) -> fmt::Result {
        match self.quantifier.how_many() {
            HowMany::AtLeast(least) => f
                .debug_struct("MembersAtLeastPredicate")
                .field("least", &least)
                .field("inner", &self.inner)
                .finish(),
            _ => f
                .debug_struct("MembersPredicate")
                .field("inner", &self.inner)
                .field("quantifier", &PhantomData::<Q>)
                .finish(),
        }
    }
}

impl<Q: Quantifier, P: PredicateReflection> PredicateReflection for MembersPredicate<Q, P> {
    ghost parameters_of = { λ p. [] };

    ghost children_of = { λ p. part
        (codes "item") (P.output (inner_of p)) (P.parameters_of (inner_of p))
        (P.children_of (inner_of p)) };

    fn parameters(&self, alloc: Global) -> Result<Vec<Parameter>, AllocError> {
        Ok(Vec::new(alloc))
    }

    fn children(&self, alloc: Global) -> Result<Vec<Child>, AllocError> {
        one_child(alloc, "item", &self.inner)
    }
}

impl<Q: Quantifier, P: Predicate<U>, U> Predicate<Vec<U>> for MembersPredicate<Q, P> {
    ghost lawful = { λ p. P.lawful (inner_of p) };

    ghost formula = { λ p v. IsOfThreshold (least_of (Q.how_many p.quantifier) (length v.items))
        (members_text (Q.how_many p.quantifier) (P.output (inner_of p)))
        (codes "item") (P.formula (inner_of p)) v.items };

    ghost infallible = { λ p v. AllByRecursion (P.infallible (inner_of p)) v.items };

    ghost text_fits = { λ p v f. threshold_text_fits
        (least_of (Q.how_many p.quantifier) (length v.items)) v.items };

    ghost one_formula = { λ p v f g lawful. one_by_threshold
        (least_of (Q.how_many p.quantifier) (length v.items)) v.items
        (each_holds v.items (λ u x y. P.one_formula (inner_of p) u x y lawful)) };

    fn eval(&self, alloc: Global, item: &Vec<U>) -> Result<bool, AllocError> {
        members_hold(alloc, self.least(item.len()), &self.inner, item.as_slice())
    }

    fn find_case(
        &self,
        alloc: Global,
        expected: bool,
        item: &Vec<U>,
    ) -> Result<Option<Case>, AllocError> {
        let list = self.counting(item.len());
        members_case(alloc, list, &self.inner, expected, item.as_slice())
    }

    fn explain(
        &self,
        alloc: Global,
        wanted: Option<bool>,
        item: &Vec<U>,
    ) -> Result<Option<Case>, AllocError> {
        let list = self.counting(item.len());
        members_explained(alloc, list, &self.inner, wanted, item.as_slice())
    }
}

impl<Q: Quantifier, P: PredicateChange<U>, U> PredicateChange<Vec<U>> for MembersPredicate<Q, P> {
    fn find_change(
        &self,
        alloc: Global,
        wanted: Option<bool>,
        item: &Vec<U>,
    ) -> Result<Option<Case>, AllocError> {
        let list = self.counting(item.len());
        members_change(alloc, list, &self.inner, wanted, item.as_slice())
    }
}

impl<Q: Quantifier, P: Total<U>, U> Total<Vec<U>> for MembersPredicate<Q, P> {
    ghost formula_of = { λ p v. threshold_formula
        (least_of (Q.how_many p.quantifier) (length v.items))
        (members_text (Q.how_many p.quantifier) (P.output (inner_of p))) (codes "item")
        (P.formula_of (inner_of p)) v.items };

    ghost always_lawful = { λ p. P.always_lawful (inner_of p) };

    ghost has_formula = { λ p v. has_threshold
        (least_of (Q.how_many p.quantifier) (length v.items)) (P.formula_of (inner_of p)) v.items
        (P.has_formula (inner_of p)) };
}
