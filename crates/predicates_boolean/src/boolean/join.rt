//! Two predicates that an operator joins: and, or, xor.
ghost use Rattle.std.specs.Prelude.{◌≡◌, ◌↔◌, [], codes};
ghost use Rattle.predicates_core.specs.Label.{plain};
ghost use Rattle.predicates_core.specs.Formula.{Formula, pair};
ghost use Rattle.predicates_core.specs.declared.custom.join.Operator.{Operator};
ghost use Rattle.predicates_core.specs.declared.custom.join.Operator.TheVariants.{And, Or, Xor};
ghost use Rattle.predicates_core.specs.Parts.{two_parts};
ghost use Rattle.predicates_core.specs.Combined.{infix_text, sign, IsPair};
ghost use Rattle.predicates_core.proofs.CombinedLemmas.{pair_text_fits, one_pair, has_pair};

use predicates_core::custom::{
    Join, Operator, join_case, join_change, join_explained, join_truth, two_children,
};
use predicates_core::reflection::{Case, Child, Parameter, PredicateReflection};
use predicates_core::{Content, Predicate, PredicateChange, ReadsContent, Total};
use std::alloc::{AllocError, Global};
use std::fmt;
use std::marker::PhantomData;

/// An operator as a type, so that `and`, `or` and `xor` share one predicate.
pub trait JoinOperator {
    ghost joins_by: { Operator };

    /// The operator.
    fn operator() -> Operator
        ensures { result ≡ joins_by };
}

/// Both parts hold.
#[derive(Debug, Clone, Copy, PartialEq, Eq)]
pub struct AndOperator;

impl JoinOperator for AndOperator {
    ghost joins_by = { And };

    fn operator() -> Operator {
        Operator::And
    }
}

/// At least one part holds.
#[derive(Debug, Clone, Copy, PartialEq, Eq)]
pub struct OrOperator;

impl JoinOperator for OrOperator {
    ghost joins_by = { Or };

    fn operator() -> Operator {
        Operator::Or
    }
}

/// Exactly one part holds.
#[derive(Debug, Clone, Copy, PartialEq, Eq)]
pub struct XorOperator;

impl JoinOperator for XorOperator {
    ghost joins_by = { Xor };

    fn operator() -> Operator {
        Operator::Xor
    }
}

/// Two predicates that an operator joins. Made by `and`, `or` and `xor` of `PredicateBooleanExt`.
#[derive(Debug, Clone, Copy, PartialEq, Eq, Drop)]
pub struct JoinPredicate<O, M1, M2, Item> {
    a: M1,
    b: M2,
    operator: PhantomData<O>,
    item: PhantomData<Item>,
}

/// Both parts hold. Made by `PredicateBooleanExt::and`.
pub type AndPredicate<M1, M2, Item> = JoinPredicate<AndOperator, M1, M2, Item>;

/// At least one part holds. Made by `PredicateBooleanExt::or`.
pub type OrPredicate<M1, M2, Item> = JoinPredicate<OrOperator, M1, M2, Item>;

/// Exactly one part holds. Made by `PredicateBooleanExt::xor`.
pub type XorPredicate<M1, M2, Item> = JoinPredicate<XorOperator, M1, M2, Item>;

impl<O: JoinOperator, M1: Predicate<Item>, M2: Predicate<Item>, Item> JoinPredicate<
    O,
    M1,
    M2,
    Item,
> {
    ghost use Rattle.predicates_boolean.specs.Join.{left_of, right_of};

    /// Joins two parts; `a` is the left one and is evaluated first.
    pub fn new(a: M1, b: M2) -> JoinPredicate<O, M1, M2, Item>
        ensures left { left_of result ≡ a }
        ensures right { right_of result ≡ b }
        ensures formula { (v : Item) (f : Formula)
            → ⟦<JoinPredicate<O, M1, M2, Item> as Predicate<Item>>⟧.formula result v f
            ↔ IsPair O.joins_by (infix_text (sign O.joins_by) (M1.output a) (M2.output b))
            (M1.formula a v) (M2.formula b v) f }
        ensures lawful { ⟦<JoinPredicate<O, M1, M2, Item> as Predicate<Item>>⟧.lawful result
            ↔ M1.lawful a × M2.lawful b }
        ensures infallible { (v : Item)
            → ⟦<JoinPredicate<O, M1, M2, Item> as Predicate<Item>>⟧.infallible result v
            ↔ M1.infallible a v × M2.infallible b v }
        ensures values { ⟦<JoinPredicate<O, M1, M2, Item> as PredicateReflection>⟧.parameters_of
            result ≡ [] }
        ensures parts { ⟦<JoinPredicate<O, M1, M2, Item> as PredicateReflection>⟧.children_of result
            ≡ two_parts (codes "left") (M1.output a) (M1.parameters_of a) (M1.children_of a)
            (codes "right") (M2.output b) (M2.parameters_of b) (M2.children_of b) }
    {
        JoinPredicate {
            a,
            b,
            operator: PhantomData,
            item: PhantomData,
        }
    }
}

impl<O: JoinOperator, M1, M2, Item> JoinPredicate<O, M1, M2, Item> {
    // What its cases are made of.
    fn join(&self) -> Join<'_, JoinPredicate<O, M1, M2, Item>, M1, M2>
        ensures whole { result.whole.now ≡ self.now }
        ensures operator { result.operator ≡ O.joins_by }
        ensures left { result.left.now ≡ self.now.a }
        ensures right { result.right.now ≡ self.now.b }
    {
        Join {
            whole: self,
            operator: O::operator(),
            left: &self.a,
            right: &self.b,
        }
    }
}

impl<O: JoinOperator, M1: fmt::Display, M2: fmt::Display, Item> fmt::Display
    for JoinPredicate<O, M1, M2, Item> {
    ghost output = { λ p. infix_text (sign O.joins_by) (M1.output p.a) (M2.output p.b) };

    fn fmt<W: fmt::Write>(&self, f: &mut fmt::Formatter<W>) -> fmt::Result {
        let a = &self.a;
        let sign = O::operator().sign();
        let b = &self.b;
        write!(f, "({a}{sign}{b})")
    }
}

impl<O: JoinOperator, M1: PredicateReflection, M2: PredicateReflection, Item> PredicateReflection
    for JoinPredicate<O, M1, M2, Item> {
    ghost parameters_of = { λ p. [] };

    ghost children_of = { λ p. two_parts
        (codes "left") (M1.output p.a) (M1.parameters_of p.a) (M1.children_of p.a)
        (codes "right") (M2.output p.b) (M2.parameters_of p.b) (M2.children_of p.b) };

    fn parameters(&self, alloc: Global) -> Result<Vec<Parameter>, AllocError> {
        Ok(Vec::new(alloc))
    }

    fn children(&self, alloc: Global) -> Result<Vec<Child>, AllocError> {
        two_children(alloc, &self.a, &self.b)
    }
}

impl<O: JoinOperator, M1: Predicate<Item>, M2: Predicate<Item>, Item> Predicate<Item>
    for JoinPredicate<O, M1, M2, Item> {
    ghost lawful = { λ p. M1.lawful p.a × M2.lawful p.b };

    ghost formula = { λ p v. IsPair O.joins_by
        (infix_text (sign O.joins_by) (M1.output p.a) (M2.output p.b))
        (M1.formula p.a v)
        (M2.formula p.b v) };

    ghost infallible = { λ p v. M1.infallible p.a v × M2.infallible p.b v };

    ghost text_fits = { λ p v f. pair_text_fits };

    ghost one_formula = { λ p v f g lawful. one_pair
        (λ x y. M1.one_formula p.a v x y lawful.0)
        (λ x y. M2.one_formula p.b v x y lawful.1) };

    fn eval(&self, alloc: Global, item: &Item) -> Result<bool, AllocError> {
        join_truth(alloc, O::operator(), &self.a, &self.b, item)
    }

    fn find_case(
        &self,
        alloc: Global,
        expected: bool,
        item: &Item,
    ) -> Result<Option<Case>, AllocError> {
        join_case(alloc, self.join(), expected, item)
    }

    fn explain(
        &self,
        alloc: Global,
        wanted: Option<bool>,
        item: &Item,
    ) -> Result<Option<Case>, AllocError> {
        join_explained(alloc, self.join(), wanted, item)
    }
}

impl<O: JoinOperator, M1: PredicateChange<Item>, M2: PredicateChange<Item>, Item> PredicateChange<
    Item,
> for JoinPredicate<O, M1, M2, Item> {
    fn find_change(
        &self,
        alloc: Global,
        wanted: Option<bool>,
        item: &Item,
    ) -> Result<Option<Case>, AllocError> {
        join_change(alloc, self.join(), wanted, item)
    }
}

impl<O: JoinOperator, M1: Total<Item>, M2: Total<Item>, Item> Total<Item>
    for JoinPredicate<O, M1, M2, Item> {
    ghost formula_of = { λ p v. pair O.joins_by
        (plain (infix_text (sign O.joins_by) (M1.output p.a) (M2.output p.b)))
        (M1.formula_of p.a v)
        (M2.formula_of p.b v) };

    ghost always_lawful = { λ p. (M1.always_lawful p.a, M2.always_lawful p.b) };

    ghost has_formula = { λ p v. has_pair (M1.has_formula p.a v) (M2.has_formula p.b v) };
}

impl<O: JoinOperator, M1: ReadsContent<Item>, M2: ReadsContent<Item>, Item: Content> ReadsContent<
    Item,
> for JoinPredicate<O, M1, M2, Item> {
    ghost content_formula = { λ p bytes. pair O.joins_by
        (plain (infix_text (sign O.joins_by) (M1.output p.a) (M2.output p.b)))
        (M1.content_formula p.a bytes)
        (M2.content_formula p.b bytes) };

    ghost always_lawful = { λ p. (M1.always_lawful p.a, M2.always_lawful p.b) };

    ghost has_formula = { λ p item. has_pair (M1.has_formula p.a item) (M2.has_formula p.b item) };
}
