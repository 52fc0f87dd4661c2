//! A predicate of texts, seen without its type.
ghost use Rattle.std.specs.Prelude.{◌≡◌, [], Option, List, ℕ, IfOk, IsOk, string_bytes};
ghost use Rattle.predicates_core.specs.Label.{Product, Fits, FitsProducts};
ghost use Rattle.predicates_core.specs.Tree.{Forest, empty, forest};
ghost use Rattle.predicates_core.specs.Parts.{Part, FitsParts};
ghost use Rattle.predicates_core.specs.Formula.{Formula, HasTruth};
ghost use Rattle.predicates_core.specs.Shows.{IsAnswer, IsFound};
ghost use Rattle.predicates_core.specs.Change.{IsFoundChange};
ghost use Rattle.predicates_core.specs.Text.{Text};
ghost use Rattle.predicates_core.specs.Leaves.{IsExactly};
ghost use Rattle.predicates.specs.Printed.{FitsRoots};

use predicates_core::reflection::{Case, Child, Parameter};
use predicates_core::{Predicate, PredicateChange, ReadsContent};
use std::alloc::{AllocError, Global};

/// A predicate of texts, seen without its type. Every predicate that shows what would turn it, and
/// whose formula is a function of the text's bytes, is one: all but those that hold a stored
/// function, a `leaf` over a test, a part by `of_field` or another box.
///
/// What it promises is what `PredicateChange<String>` and `PredicateReflection` promise of the
/// predicate.
pub trait TextPredicate: Drop {
    // The formula on a text with the bytes.
    ghost text_formula: { Self → List ℕ → Formula };

    // On the text `text_eval` takes no memory.
    ghost text_infallible: { Self → Text → Type 0 };

    // The printed text, where its bytes are stated.
    ghost text_output: { Self → Option (List ℕ) };

    // The values that `text_parameters` is to give, in order.
    ghost text_parameters_of: { Self → List Product };

    // The parts that `text_children` is to give, in order.
    ghost text_children_of: { Self → Forest Part };

    /// Whether the predicate holds of the text; refused only where memory is.
    fn text_eval(&self, alloc: Global, item: &String) -> Result<bool, AllocError>
        ensures truth { IfOk result
            (HasTruth (IsExactly (text_formula self.now (string_bytes item.now)))) }
        ensures infallible { text_infallible self.now item.now → IsOk result };

    /// A case that explains the verdict where it is the expected one, and none where it is not;
    /// refused only where memory is.
    fn text_find_case(
        &self,
        alloc: Global,
        expected: bool,
        item: &String,
    ) -> Result<Option<Case>, AllocError>
        ensures { IfOk result
            (IsAnswer (IsExactly (text_formula self.now (string_bytes item.now))) expected) };

    /// As `text_find_case`, for a predicate that was evaluated before: the case of the wanted
    /// verdict, or of whichever it is where none is wanted.
    fn text_explain(
        &self,
        alloc: Global,
        wanted: Option<bool>,
        item: &String,
    ) -> Result<Option<Case>, AllocError>
        ensures { IfOk result
            (IsFound (IsExactly (text_formula self.now (string_bytes item.now))) wanted) };

    /// What would turn the verdict, where it is the wanted one, or whichever it is where none is
    /// wanted; refused only where memory is.
    fn text_find_change(
        &self,
        alloc: Global,
        wanted: Option<bool>,
        item: &String,
    ) -> Result<Option<Case>, AllocError>
        ensures { IfOk result
            (IsFoundChange (IsExactly (text_formula self.now (string_bytes item.now))) wanted) };

    /// The values that the predicate was made with, in order; with none it does not refuse.
    fn text_parameters(&self, alloc: Global) -> Result<Vec<Parameter>, AllocError>
        ensures fits { IfOk result (λ ps. FitsProducts (text_parameters_of self.now) ps.items) }
        ensures none { text_parameters_of self.now ≡ [] → IsOk result };

    /// The parts that the predicate is made of, in order; with none it does not refuse.
    fn text_children(&self, alloc: Global) -> Result<Vec<Child>, AllocError>
        ensures fits { IfOk result (λ cs. FitsParts (text_children_of self.now) (forest cs.items)) }
        ensures none { text_children_of self.now ≡ empty → IsOk result };

    /// The printed text, in memory of its own.
    fn text_printed(&self, alloc: Global) -> Result<String, AllocError>
        ensures fits { IfOk result (λ text. Fits (text_output self.now) (string_bytes text)) }
        ensures root { IfOk result (λ text.
            FitsRoots (text_formula self.now) (string_bytes text)) };
}

impl<P: ReadsContent<String> + PredicateChange<String> + Drop> TextPredicate for P {
    ghost text_formula = { P.content_formula };

    ghost text_infallible = { P.infallible };

    ghost text_output = { P.output };

    ghost text_parameters_of = { P.parameters_of };

    ghost text_children_of = { P.children_of };

    fn text_eval(&self, alloc: Global, item: &String) -> Result<bool, AllocError> {
        self.eval(alloc, item)
    }

    fn text_find_case(
        &self,
        alloc: Global,
        expected: bool,
        item: &String,
    ) -> Result<Option<Case>, AllocError> {
        self.find_case(alloc, expected, item)
    }

    fn text_explain(
        &self,
        alloc: Global,
        wanted: Option<bool>,
        item: &String,
    ) -> Result<Option<Case>, AllocError> {
        self.explain(alloc, wanted, item)
    }

    fn text_find_change(
        &self,
        alloc: Global,
        wanted: Option<bool>,
        item: &String,
    ) -> Result<Option<Case>, AllocError> {
        self.find_change(alloc, wanted, item)
    }

    fn text_parameters(&self, alloc: Global) -> Result<Vec<Parameter>, AllocError> {
        self.parameters(alloc)
    }

    fn text_children(&self, alloc: Global) -> Result<Vec<Child>, AllocError> {
        self.children(alloc)
    }

    fn text_printed(&self, alloc: Global) -> Result<String, AllocError> {
        self.to_string(alloc)
    }
}
