//! Whether a path leads to anything.
ghost use Rattle.std.specs.Prelude.{◌≡◌, ◌↔◌, true, false, [], Some};
ghost use Rattle.predicates_core.specs.Formula.{Formula};
ghost use Rattle.predicates_core.specs.Leaves.{IsExactly};
ghost use Rattle.predicates_path.specs.Existence.{asks_presence, existence_text, existence_truth};
ghost use Rattle.predicates_path.specs.Existence.{existence_formula, path_product};
ghost use Rattle.predicates_path.specs.declared.snapshot.Snapshot.{Snapshot};
ghost use Rattle.predicates_core.specs.Tree.{empty};

use crate::Snapshot;
use crate::file_test::{FileTest, FileTestPredicate};
use predicates_core::Predicate;
use predicates_core::custom::TestParameters;
use predicates_core::reflection::{Case, Parameter, PredicateReflection};
use std::alloc::{AllocError, Global};
use std::fmt;

/// Whether a path leads to anything, or to nothing.
#[derive(Debug, Clone, Copy, PartialEq, Eq)]
pub struct ExistencePredicate {
    exists: bool,
}

/// Holds where the path leads to something. It takes no memory.
///
/// ```
/// assert!(rt; predicate::path::exists().eval(alloc, &file)?);
/// assert!(rt; !predicate::path::exists().eval(alloc, &gone)?);
/// ```
pub fn exists() -> FileTestPredicate<ExistencePredicate>
    ensures presence { asks_presence result ≡ true }
    ensures formula { (s : Snapshot) (f : Formula)
        → ⟦<FileTestPredicate<ExistencePredicate> as Predicate<Snapshot>>⟧.formula result s f
        ↔ IsExactly (existence_formula true s) f }
    ensures values { ⟦<FileTestPredicate<ExistencePredicate> as PredicateReflection>⟧.parameters_of
        result ≡ [] }
    ensures lawful { ⟦<FileTestPredicate<ExistencePredicate> as Predicate<Snapshot>>⟧.lawful result }
    ensures infallible { (s : Snapshot)
        → ⟦<FileTestPredicate<ExistencePredicate> as Predicate<Snapshot>>⟧.infallible result s }
    ensures parts { ⟦<FileTestPredicate<ExistencePredicate> as PredicateReflection>⟧.children_of result ≡ empty }
{
    FileTestPredicate::new(ExistencePredicate { exists: true })
}

/// Holds where the path leads to nothing, or is a link without a target. It takes no memory.
///
/// ```
/// assert!(rt; predicate::path::missing().eval(alloc, &gone)?);
/// assert!(rt; !predicate::path::missing().eval(alloc, &file)?);
/// ```
pub fn missing() -> FileTestPredicate<ExistencePredicate>
    ensures presence { asks_presence result ≡ false }
    ensures formula { (s : Snapshot) (f : Formula)
        → ⟦<FileTestPredicate<ExistencePredicate> as Predicate<Snapshot>>⟧.formula result s f
        ↔ IsExactly (existence_formula false s) f }
    ensures values { ⟦<FileTestPredicate<ExistencePredicate> as PredicateReflection>⟧.parameters_of
        result ≡ [] }
    ensures lawful { ⟦<FileTestPredicate<ExistencePredicate> as Predicate<Snapshot>>⟧.lawful result }
    ensures infallible { (s : Snapshot)
        → ⟦<FileTestPredicate<ExistencePredicate> as Predicate<Snapshot>>⟧.infallible result s }
    ensures parts { ⟦<FileTestPredicate<ExistencePredicate> as PredicateReflection>⟧.children_of result ≡ empty }
{
    FileTestPredicate::new(ExistencePredicate { exists: false })
}

impl fmt::Display for ExistencePredicate {
    ghost output = { λ t. Some (existence_text t.exists) };

    fn fmt<W: fmt::Write>(&self, f: &mut fmt::Formatter<W>) -> fmt::Result {
        if self.exists {
            write!(f, "exists(var)")
        } else {
            write!(f, "missing(var)")
        }
    }
}

impl TestParameters for ExistencePredicate {
    ghost parameters_of = { λ t. [] };

    fn parameters(&self, alloc: Global) -> Result<Vec<Parameter>, AllocError> {
        Ok(Vec::new(alloc))
    }
}

impl FileTest<Snapshot> for ExistencePredicate {
    ghost holds_of = { λ t s. existence_truth t.exists s };

    ghost product_of = { λ t s. Some (path_product s) };

    fn holds(&self, item: &Snapshot) -> bool {
        item.followed().is_ok() == self.exists
    }

    fn show(&self, alloc: Global, case: Case, item: &Snapshot) -> Result<Case, AllocError> {
        item.show_path(alloc, case)
    }
}
