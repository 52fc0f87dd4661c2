//! Predicates of bytes, evaluated on the content at a path.
ghost use Rattle.std.specs.Prelude.{◌≡◌, ◌↔◌, false, [], codes, IfOk};
ghost use Rattle.predicates_core.specs.Formula.{Formula};
ghost use Rattle.predicates_core.specs.Parts.{part};
ghost use Rattle.predicates_core.specs.Leaves.{IsExactly};
ghost use Rattle.predicates_core.specs.Shows.{IsCaseOf};
ghost use Rattle.predicates_path.specs.declared.snapshot.Snapshot.{Snapshot};
ghost use Rattle.predicates_path.specs.Snapshot.{path_of, held_of};
ghost use Rattle.predicates_path.specs.Content.{IsOfContent, inner_of, content_formula};
ghost use Rattle.predicates_path.specs.Content.{without_content};
ghost use Rattle.predicates_path.specs.ContentLaws.{content_text_fits, one_content};
ghost use Rattle.predicates_path.specs.ContentLaws.{has_content_formula};

use crate::fault::show_fault;
use crate::{PathFault, Snapshot};
use predicates_core::custom::{is_other, leaf_change, one_child};
use predicates_core::node::{leaf_node, printed};
use predicates_core::reflection::{Case, Child, Parameter, PredicateReflection};
use predicates_core::{Predicate, PredicateChange, Total};
use std::alloc::{AllocError, Global};
use std::fmt;

/// Holds where a path has a content and its inner predicate holds of the bytes. Made by
/// `PredicateFileContentExt::from_file_path`.
#[derive(Debug, Clone, Copy, PartialEq, Eq, Drop)]
pub struct FileContentPredicate<P> {
    inner: P,
}

impl<P: fmt::Display> FileContentPredicate<P> {
    // The case where the content is a fault: a false leaf that shows the path and the fault.
    fn no_content(
        &self,
        alloc: Global,
        item: &Snapshot,
        fault: PathFault,
    ) -> Result<Case, AllocError>
        ensures { IfOk result (IsCaseOf
            (IsExactly (without_content (P.output (inner_of self.now)) (path_of item.now) fault))
            false) }
    {
        let node = leaf_node(alloc, printed(alloc, self)?, false);
        let case = item.show_path(alloc, node)?;
        Ok(show_fault(alloc, case, fault)?)
    }
}

impl<P: fmt::Display> fmt::Display for FileContentPredicate<P> {
    ghost output = { λ p. P.output (inner_of p) };

    fn fmt<W: fmt::Write>(&self, f: &mut fmt::Formatter<W>) -> fmt::Result {
        let inner = &self.inner;
        write!(f, "{inner}")
    }
}

impl<P: PredicateReflection> PredicateReflection for FileContentPredicate<P> {
    ghost parameters_of = { λ p. [] };

    ghost children_of = { λ p. part
        (codes "predicate") (P.output (inner_of p)) (P.parameters_of (inner_of p))
        (P.children_of (inner_of p)) };

    fn parameters(&self, alloc: Global) -> Result<Vec<Parameter>, AllocError> {
        Ok(Vec::new(alloc))
    }

    fn children(&self, alloc: Global) -> Result<Vec<Child>, AllocError> {
        one_child(alloc, "predicate", &self.inner)
    }
}

impl<P: Predicate<Vec<u8>>> Predicate<Snapshot> for FileContentPredicate<P> {
    ghost lawful = { λ p. P.lawful (inner_of p) };

    ghost formula = { λ p s. IsOfContent (P.output (inner_of p))
        (P.formula (inner_of p)) (path_of s) (held_of s) };

    ghost infallible = { λ p s. IfOk (held_of s) (P.infallible (inner_of p)) };

    ghost text_fits = { λ p s f. content_text_fits (held_of s) (λ v. P.text_fits (inner_of p) v) };

    ghost one_formula = { λ p s f g lawful. one_content (held_of s)
        (λ v x y. P.one_formula (inner_of p) v x y lawful) };

    #[tactic(auto, using(crate::proofs::ContentCases::content_cases))]
    fn eval(&self, alloc: Global, item: &Snapshot) -> Result<bool, AllocError> {
        match item.content_or_fault() {
            Ok(bytes) => self.inner.eval(alloc, bytes),
            Err(_) => Ok(false),
        }
    }

    #[tactic(auto, using(crate::proofs::ContentCases::content_cases))]
    fn find_case(
        &self,
        alloc: Global,
        expected: bool,
        item: &Snapshot,
    ) -> Result<Option<Case>, AllocError> {
        match item.content_or_fault() {
            Ok(bytes) => {
                let Some(case) = self.inner.find_case(alloc, expected, bytes)? else {
                    return Ok(None);
                };
                Ok(Some(item.show_path(alloc, case)?))
            }
            Err(_) => self.explain(alloc, Some(expected), item),
        }
    }

    fn explain(
        &self,
        alloc: Global,
        wanted: Option<bool>,
        item: &Snapshot,
    ) -> Result<Option<Case>, AllocError> {
        match item.content_or_fault() {
            Ok(bytes) => {
                let Some(case) = self.inner.explain(alloc, wanted, bytes)? else {
                    return Ok(None);
                };
                let case = item.show_path(alloc, case)?;
                Ok(Some(case))
            }
            Err(fault) => {
                if is_other(wanted, false) {
                    return Ok(None);
                }
                Ok(Some(self.no_content(alloc, item, *fault)?))
            }
        }
    }
}

impl<P: PredicateChange<Vec<u8>>> PredicateChange<Snapshot> for FileContentPredicate<P> {
    fn find_change(
        &self,
        alloc: Global,
        wanted: Option<bool>,
        item: &Snapshot,
    ) -> Result<Option<Case>, AllocError> {
        match item.content_or_fault() {
            Ok(bytes) => {
                let Some(change) = self.inner.find_change(alloc, wanted, bytes)? else {
                    return Ok(None);
                };
                let change = item.show_path(alloc, change)?;
                Ok(Some(change))
            }
            Err(_) => leaf_change(alloc, self, wanted, item),
        }
    }
}

impl<P: Total<Vec<u8>>> Total<Snapshot> for FileContentPredicate<P> {
    ghost formula_of = { λ p s. content_formula (P.output (inner_of p)) (P.formula_of (inner_of p))
        (path_of s) (held_of s) };

    ghost always_lawful = { λ p. P.always_lawful (inner_of p) };

    ghost has_formula = { λ p s. has_content_formula
        (P.output (inner_of p)) (P.formula (inner_of p)) (P.formula_of (inner_of p)) (path_of s)
        (held_of s) (P.has_formula (inner_of p)) };
}

/// Evaluates predicates of bytes on the contents of files.
pub trait PredicateFileContentExt: Predicate<Vec<u8>> {
    /// Holds where the snapshot has a content and this predicate holds of its bytes. `eval` takes
    /// no memory where this one takes none on the bytes, or where there is no content.
    ///
    /// ```
    /// let short = predicate::le(9).of_len().from_file_path();
    /// assert!(rt; short.eval(alloc, &file)?);
    /// assert!(rt; !short.eval(alloc, &gone)?); // without a content
    /// ```
    fn from_file_path(self) -> FileContentPredicate<Self>
    where
        Self: Sized,
        ensures inner { inner_of result ≡ self }
        ensures formula { (s : Snapshot) (f : Formula)
            → ⟦<FileContentPredicate<Self> as Predicate<Snapshot>>⟧.formula result s f
            ↔ IsOfContent (Self.output self) (Self.formula self) (path_of s) (held_of s) f }
        ensures lawful { ⟦<FileContentPredicate<Self> as Predicate<Snapshot>>⟧.lawful result
            ↔ Self.lawful self }
        ensures infallible { (s : Snapshot)
            → ⟦<FileContentPredicate<Self> as Predicate<Snapshot>>⟧.infallible result s
            ↔ IfOk (held_of s) (Self.infallible self) }
        ensures values { ⟦<FileContentPredicate<Self> as PredicateReflection>⟧.parameters_of
            result ≡ [] }
        ensures parts { ⟦<FileContentPredicate<Self> as PredicateReflection>⟧.children_of result
            ≡ part (codes "predicate") (Self.output self) (Self.parameters_of self)
            (Self.children_of self) };
}

impl<P: Predicate<Vec<u8>>> PredicateFileContentExt for P {
    fn from_file_path(self) -> FileContentPredicate<Self> {
        FileContentPredicate { inner: self }
    }
}
