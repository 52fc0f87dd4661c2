//! The one predicate behind all adapters: another predicate, on a view of the item.
ghost use Rattle.std.specs.Prelude.{◌≡◌, [], ℕ, List, IfOk, codes, string_bytes};
ghost use Rattle.predicates_core.specs.Parts.{part};
ghost use Rattle.predicates_core.specs.Text.{Text};
ghost use Rattle.predicates_text.specs.ViewFormulas.{IsOfEach, IsViewOf, view_bytes};
ghost use Rattle.predicates_text.specs.ViewFormulaLaws.{each_text_fits, one_each, has_each};
ghost use Rattle.predicates_text.specs.ViewTexts.{view_is};

use predicates_core::custom::one_child;
use predicates_core::reflection::{Case, Child, Parameter, PredicateReflection};
use predicates_core::{Predicate, PredicateChange, ReadsContent, Total};
use std::alloc::{AllocError, Global};
use std::fmt;
use std::marker::PhantomData;

/// A view of an item as a type, so that all adapters share one predicate.
pub trait View {
    // The name of the adapter.
    ghost name_is: { List ℕ };

    /// The name of the adapter that has this view, which its `Debug` form begins with.
    fn adapter_name() -> &'static str
        ensures { result.now ≡ name_is };
}

/// A view of texts that is a text.
pub trait TextView: View {
    // The characters of a text's view.
    ghost shows: { List ℕ → List ℕ };

    /// The view of the text: the text itself where both are the same, and otherwise a copy, which
    /// is stored in `copy`. It takes memory for the copy alone.
    fn view<'a>(
        alloc: Global,
        text: &'a String,
        copy: &'a mut String,
    ) -> Result<&'a String, AllocError>
        ensures { IfOk result (λ view. IsViewOf shows text.now view.now) };

    // There is a text with those characters.
    ghost has_view: { (v : Text) → (t : Text) × IsViewOf shows v t };
}

/// Evaluates its part on a view of the item. Made by the methods of `PredicateStrExt`.
#[derive(Clone, Copy, PartialEq, Eq, Drop)]
pub struct ViewPredicate<V, P> {
    pub(crate) inner: P,
    view: PhantomData<V>,
}

impl<V, P: PredicateReflection> ViewPredicate<V, P> {
    ghost use Rattle.predicates_text.specs.AdapterParts.{inner_of};

    // The adapter over this predicate.
    pub(crate) fn new(inner: P) -> ViewPredicate<V, P>
        ensures inner { inner_of result ≡ inner }
        ensures values { ⟦<ViewPredicate<V, P> as PredicateReflection>⟧.parameters_of result
            ≡ [] }
        ensures parts { ⟦<ViewPredicate<V, P> as PredicateReflection>⟧.children_of result
            ≡ part (codes "predicate") (P.output inner) (P.parameters_of inner)
            (P.children_of inner) }
    {
        ViewPredicate {
            inner,
            view: PhantomData,
        }
    }
}

impl<V: View, P: fmt::Debug> fmt::Debug for ViewPredicate<V, P> {
    fn fmt<W: fmt::Write>(&self, f: &mut fmt::Formatter<W>) -> fmt::Result {
        f.debug_struct(V::adapter_name())
            .field("inner", &self.inner)
            .finish()
    }
}

impl<V, P: fmt::Display> fmt::Display for ViewPredicate<V, P> {
    ghost output = { λ p. P.output p.inner };

    fn fmt<W: fmt::Write>(&self, f: &mut fmt::Formatter<W>) -> fmt::Result {
        let inner = &self.inner;
        write!(f, "{inner}")
    }
}

impl<V, P: PredicateReflection> PredicateReflection for ViewPredicate<V, P> {
    ghost parameters_of = { λ p. [] };

    ghost children_of = { λ p. part
        (codes "predicate") (P.output p.inner) (P.parameters_of p.inner) (P.children_of p.inner) };

    fn parameters(&self, alloc: Global) -> Result<Vec<Parameter>, AllocError> {
        Ok(Vec::new(alloc))
    }

    fn children(&self, alloc: Global) -> Result<Vec<Child>, AllocError> {
        one_child(alloc, "predicate", &self.inner)
    }
}

impl<V: TextView, P: Predicate<String>> Predicate<String> for ViewPredicate<V, P> {
    ghost lawful = { λ p. P.lawful p.inner };

    ghost formula = { λ p v. IsOfEach (P.formula p.inner) (IsViewOf V.shows v) };

    ghost infallible = { λ p v. ⊥ };

    ghost text_fits = { λ p v f h. each_text_fits (P.output p.inner) (V.has_view v)
        (λ t. P.text_fits p.inner t f) h };

    ghost one_formula = { λ p v f g lawful h k. one_each (V.has_view v)
        (λ t. P.one_formula p.inner t f g lawful) h k };

    #[tactic(auto, using(crate::proofs::AdapterAnswers::adapters))]
    fn eval(&self, alloc: Global, item: &String) -> Result<bool, AllocError> {
        let mut copy = String::new(alloc);
        let view = V::view(alloc, item, &mut copy)?;
        self.inner.eval(alloc, view)
    }

    #[tactic(auto, using(crate::proofs::AdapterAnswers::adapters))]
    fn find_case(
        &self,
        alloc: Global,
        expected: bool,
        item: &String,
    ) -> Result<Option<Case>, AllocError> {
        let mut copy = String::new(alloc);
        let view = V::view(alloc, item, &mut copy)?;
        self.inner.find_case(alloc, expected, view)
    }

    #[tactic(auto, using(crate::proofs::AdapterAnswers::adapters))]
    fn explain(
        &self,
        alloc: Global,
        wanted: Option<bool>,
        item: &String,
    ) -> Result<Option<Case>, AllocError> {
        let mut copy = String::new(alloc);
        let view = V::view(alloc, item, &mut copy)?;
        self.inner.explain(alloc, wanted, view)
    }
}

impl<V: TextView, P: PredicateChange<String>> PredicateChange<String> for ViewPredicate<V, P> {
    #[tactic(auto, using(crate::proofs::AdapterAnswers::adapters))]
    fn find_change(
        &self,
        alloc: Global,
        wanted: Option<bool>,
        item: &String,
    ) -> Result<Option<Case>, AllocError> {
        let mut copy = String::new(alloc);
        let view = V::view(alloc, item, &mut copy)?;
        self.inner.find_change(alloc, wanted, view)
    }
}

impl<V: TextView, P: ReadsContent<String>> Total<String> for ViewPredicate<V, P> {
    ghost formula_of = { λ p v. P.content_formula p.inner (view_bytes V.shows (string_bytes v)) };

    ghost always_lawful = { λ p. P.always_lawful p.inner };

    ghost has_formula = { λ p v. has_each
        (P.content_formula p.inner) (P.formula p.inner) (IsViewOf V.shows v)
        (view_bytes V.shows (string_bytes v))
        (P.has_formula p.inner) (view_is V.shows v) };
}

impl<V: TextView, P: ReadsContent<String>> ReadsContent<String> for ViewPredicate<V, P> {
    ghost content_formula = { λ p bytes. P.content_formula p.inner (view_bytes V.shows bytes) };

    ghost always_lawful = { λ p. P.always_lawful p.inner };

    ghost has_formula = { λ p t. has_each
        (P.content_formula p.inner) (P.formula p.inner) (IsViewOf V.shows t)
        (view_bytes V.shows (string_bytes t))
        (P.has_formula p.inner) (view_is V.shows t) };
}
