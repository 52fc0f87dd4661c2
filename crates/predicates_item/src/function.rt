//! Functions of the caller's own as predicates.
//!
//! ```
//! let big = predicate::function(|x: &i32| *x >= 5).fn_name("big");
//! ```
ghost use Rattle.std.specs.Prelude.{◌≡◌, ◌↔◌, [], codes};
ghost use Rattle.predicates_core.specs.Formula.{Formula};
ghost use Rattle.predicates_core.specs.Tree.{empty};
ghost use Rattle.predicates_item.specs.Function.{HasOneAnswer, IsCall, call_text, call_text_fits};
ghost use Rattle.predicates_item.specs.Function.{one_call, function_of, name_of};

use predicates_core::custom::{bare_case, leaf_change};
use predicates_core::reflection::{Case, Child, Parameter, PredicateReflection};
use predicates_core::static_text::StaticText;
use predicates_core::{Predicate, PredicateChange};
use std::alloc::{AllocError, Global};
use std::fmt;
use std::marker::PhantomData;

/// Holds of an item where a function answers true on it. Made by `function`.
#[derive(Drop)]
pub struct FnPredicate<F, T> {
    function: F,
    name: StaticText,
    item: PhantomData<T>,
}

/// The predicate that asks the function, under the name `fn`.
///
/// The function may be called on every item (`callable`) and has one answer for each
/// (`one_answer`). It takes no memory, and neither does its `eval`.
///
/// ```
/// let large = predicate::function(|x: &i32| *x >= 5);
/// assert!(rt; large.eval(alloc, &7)?);
/// assert!(rt; !large.eval(alloc, &3)?);
/// ```
pub fn function<F: Fn(&T) -> bool, T>(function: F) -> FnPredicate<F, T>
    requires callable { F.IsAlwaysCallable function }
    requires one_answer { HasOneAnswer F.Fn function }
    ensures function { function_of result ≡ function }
    ensures name { name_of result ≡ codes "fn" }
    ensures formula { (v : T) (f : Formula)
        → ⟦<FnPredicate<F, T> as Predicate<T>>⟧.formula result v f
        ↔ IsCall F.Fn function (call_text (codes "fn")) v f }
    ensures lawful { ⟦<FnPredicate<F, T> as Predicate<T>>⟧.lawful result
        ↔ F.IsAlwaysCallable function × HasOneAnswer F.Fn function }
    ensures infallible { (v : T) → ⟦<FnPredicate<F, T> as Predicate<T>>⟧.infallible result v }
    ensures values { ⟦<FnPredicate<F, T> as PredicateReflection>⟧.parameters_of result ≡ [] }
    ensures parts { ⟦<FnPredicate<F, T> as PredicateReflection>⟧.children_of result ≡ empty }
{
    FnPredicate::new(function, StaticText::new("fn"))
}

impl<F: Fn(&T) -> bool, T> FnPredicate<F, T> {
    // The predicate that asks the function, under the name.
    fn new(function: F, name: StaticText) -> FnPredicate<F, T>
        ensures function { function_of result ≡ function }
        ensures name { name_of result ≡ name }
        ensures formula { (v : T) (f : Formula)
            → ⟦<FnPredicate<F, T> as Predicate<T>>⟧.formula result v f
            ↔ IsCall F.Fn function (call_text name) v f }
        ensures lawful { ⟦<FnPredicate<F, T> as Predicate<T>>⟧.lawful result
            ↔ F.IsAlwaysCallable function × HasOneAnswer F.Fn function }
        ensures infallible { (v : T)
            → ⟦<FnPredicate<F, T> as Predicate<T>>⟧.infallible result v }
        ensures values { ⟦<FnPredicate<F, T> as PredicateReflection>⟧.parameters_of result ≡ [] }
        ensures parts { ⟦<FnPredicate<F, T> as PredicateReflection>⟧.children_of result ≡ empty }
    {
        FnPredicate {
            function,
            name,
            item: PhantomData,
        }
    }

    /// The same predicate under another name; the old one is dropped. It takes no memory.
    ///
    /// ```
    /// let large = predicate::function(|x: &i32| *x >= 5).fn_name("large");
    /// let text = large.to_string(alloc)?;
    /// assert!(rt; text.as_str() == "large(var)");
    /// ```
    pub fn fn_name(self, name: &'static str) -> FnPredicate<F, T>
        ensures function { function_of result ≡ function_of self }
        ensures name { name_of result ≡ name.now }
        ensures formula { (v : T) (f : Formula)
            → ⟦<FnPredicate<F, T> as Predicate<T>>⟧.formula result v f
            ↔ IsCall F.Fn (function_of self) (call_text name.now) v f }
        ensures lawful { ⟦<FnPredicate<F, T> as Predicate<T>>⟧.lawful result
            ↔ ⟦<FnPredicate<F, T> as Predicate<T>>⟧.lawful self }
        ensures infallible { (v : T) → ⟦<FnPredicate<F, T> as Predicate<T>>⟧.infallible result v }
        ensures values { ⟦<FnPredicate<F, T> as PredicateReflection>⟧.parameters_of result ≡ [] }
        ensures parts { ⟦<FnPredicate<F, T> as PredicateReflection>⟧.children_of result ≡ empty }
    {
        let FnPredicate {
            function,
            name: _,
            item: _,
        } = self;
        FnPredicate::new(function, StaticText::new(name))
    }
}

impl<F, T> fmt::Display for FnPredicate<F, T> {
    ghost output = { λ p. call_text p.name };

    fn fmt<W: fmt::Write>(&self, f: &mut fmt::Formatter<W>) -> fmt::Result {
        let name = self.name.as_str();
        write!(f, "{name}(var)")
    }
}

impl<F, T> PredicateReflection for FnPredicate<F, T> {
    ghost parameters_of = { λ p. [] };

    ghost children_of = { λ p. empty };

    fn parameters(&self, alloc: Global) -> Result<Vec<Parameter>, AllocError> {
        Ok(Vec::new(alloc))
    }

    fn children(&self, alloc: Global) -> Result<Vec<Child>, AllocError> {
        Ok(Vec::new(alloc))
    }
}

impl<F: Fn(&T) -> bool, T> Predicate<T> for FnPredicate<F, T> {
    ghost lawful = { λ p. F.IsAlwaysCallable p.function × HasOneAnswer F.Fn p.function };

    ghost formula = { λ p v. IsCall F.Fn p.function (call_text p.name) v };

    ghost infallible = { λ p v. Unit {0} };

    ghost text_fits = { λ p v f. call_text_fits };

    ghost one_formula = { λ p v f g lawful. one_call lawful.1 };

    fn eval(&self, _alloc: Global, item: &T) -> Result<bool, AllocError> {
        Ok((self.function)(item))
    }

    fn find_case(
        &self,
        alloc: Global,
        expected: bool,
        item: &T,
    ) -> Result<Option<Case>, AllocError> {
        self.explain(alloc, Some(expected), item)
    }

    #[tactic(auto, using(crate::proofs::Calls::answer_of_leaf))]
    fn explain(
        &self,
        alloc: Global,
        wanted: Option<bool>,
        item: &T,
    ) -> Result<Option<Case>, AllocError> {
        bare_case(alloc, self, self.eval(alloc, item)?, wanted)
    }
}

impl<F: Fn(&T) -> bool, T> PredicateChange<T> for FnPredicate<F, T> {
    fn find_change(
        &self,
        alloc: Global,
        wanted: Option<bool>,
        item: &T,
    ) -> Result<Option<Case>, AllocError> {
        leaf_change(alloc, self, wanted, item)
    }
}
