//! Which kind of file is at a path.
ghost use Rattle.std.specs.Prelude.{◌≡◌, ◌↔◌, true, false, codes, Ok, Err, Some, IfOk};
ghost use Rattle.std.specs.Prelude.{IsOkAnd, MatchResult};
ghost use Rattle.predicates_core.specs.Formula.{Formula};
ghost use Rattle.predicates_core.specs.Label.{value_of};
ghost use Rattle.predicates_core.specs.Leaves.{IsExactly, word};
ghost use Rattle.predicates_path.specs.Snapshot.{followed_of};
ghost use Rattle.predicates_path.specs.Kind.{tested_kind, follows, found_kind, has_kind};
ghost use Rattle.predicates_path.specs.Kind.{kind_leaf, kind_product, kind_predicate_text};
ghost use Rattle.predicates_path.specs.declared.snapshot.Snapshot.{Snapshot};
ghost use Rattle.predicates_core.specs.Tree.{empty};

use crate::fault::show_fault;
use crate::file_test::{FileTest, FileTestPredicate};
use crate::{FileType, PathFault, Snapshot};
use predicates_core::Predicate;
use predicates_core::custom::TestParameters;
use predicates_core::node::showing;
use predicates_core::reflection::{Case, Parameter, PredicateReflection};
use std::alloc::{AllocError, Global};
use std::fmt;

/// Whether the file at a path is of one kind.
#[derive(Debug, Clone, Copy, PartialEq, Eq)]
pub struct FileTypePredicate {
    kind: FileType,
    follow: bool,
}

// The test for the kind at the path itself.
fn plain(kind: FileType) -> FileTestPredicate<FileTypePredicate>
    ensures kind { tested_kind result ≡ kind }
    ensures follow { follows result ≡ false }
    ensures formula { (s : Snapshot) (f : Formula)
        → ⟦<FileTestPredicate<FileTypePredicate> as Predicate<Snapshot>>⟧.formula result s f
        ↔ IsExactly (kind_leaf kind false s) f }
    ensures values { ⟦<FileTestPredicate<FileTypePredicate> as PredicateReflection>⟧.parameters_of
        result ≡ value_of (codes "follow") (Some (word false)) }
{
    let follow = false;
    FileTestPredicate::new(FileTypePredicate { kind, follow })
}

/// Holds where a regular file is at the path itself, without following links, and not where the
/// kind is a fault. It takes no memory.
///
/// ```
/// assert!(rt; predicate::path::is_file().eval(alloc, &file)?);
/// assert!(rt; !predicate::path::is_file().eval(alloc, &link)?);
/// ```
pub fn is_file() -> FileTestPredicate<FileTypePredicate>
    ensures kind { tested_kind result ≡ FileType.File }
    ensures follow { follows result ≡ false }
    ensures formula { (s : Snapshot) (f : Formula)
        → ⟦<FileTestPredicate<FileTypePredicate> as Predicate<Snapshot>>⟧.formula result s f
        ↔ IsExactly (kind_leaf FileType.File false s) f }
    ensures values { ⟦<FileTestPredicate<FileTypePredicate> as PredicateReflection>⟧.parameters_of
        result ≡ value_of (codes "follow") (Some (word false)) }
    ensures lawful { ⟦<FileTestPredicate<FileTypePredicate> as Predicate<Snapshot>>⟧.lawful result }
    ensures infallible { (s : Snapshot)
        → ⟦<FileTestPredicate<FileTypePredicate> as Predicate<Snapshot>>⟧.infallible result s }
    ensures parts { ⟦<FileTestPredicate<FileTypePredicate> as PredicateReflection>⟧.children_of result ≡ empty }
{
    plain(FileType::File)
}

/// Holds where a directory is at the path itself, without following links, and not where the kind
/// is a fault. It takes no memory.
///
/// ```
/// assert!(rt; !predicate::path::is_dir().eval(alloc, &file)?);
/// ```
pub fn is_dir() -> FileTestPredicate<FileTypePredicate>
    ensures kind { tested_kind result ≡ FileType.Dir }
    ensures follow { follows result ≡ false }
    ensures formula { (s : Snapshot) (f : Formula)
        → ⟦<FileTestPredicate<FileTypePredicate> as Predicate<Snapshot>>⟧.formula result s f
        ↔ IsExactly (kind_leaf FileType.Dir false s) f }
    ensures values { ⟦<FileTestPredicate<FileTypePredicate> as PredicateReflection>⟧.parameters_of
        result ≡ value_of (codes "follow") (Some (word false)) }
    ensures lawful { ⟦<FileTestPredicate<FileTypePredicate> as Predicate<Snapshot>>⟧.lawful result }
    ensures infallible { (s : Snapshot)
        → ⟦<FileTestPredicate<FileTypePredicate> as Predicate<Snapshot>>⟧.infallible result s }
    ensures parts { ⟦<FileTestPredicate<FileTypePredicate> as PredicateReflection>⟧.children_of result ≡ empty }
{
    plain(FileType::Dir)
}

/// Holds where a link is at the path itself, whatever it leads to. It takes no memory.
///
/// ```
/// assert!(rt; predicate::path::is_symlink().eval(alloc, &link)?);
/// assert!(rt; !predicate::path::is_symlink().eval(alloc, &file)?);
/// ```
pub fn is_symlink() -> FileTestPredicate<FileTypePredicate>
    ensures kind { tested_kind result ≡ FileType.Symlink }
    ensures follow { follows result ≡ false }
    ensures formula { (s : Snapshot) (f : Formula)
        → ⟦<FileTestPredicate<FileTypePredicate> as Predicate<Snapshot>>⟧.formula result s f
        ↔ IsExactly (kind_leaf FileType.Symlink false s) f }
    ensures values { ⟦<FileTestPredicate<FileTypePredicate> as PredicateReflection>⟧.parameters_of
        result ≡ value_of (codes "follow") (Some (word false)) }
    ensures lawful { ⟦<FileTestPredicate<FileTypePredicate> as Predicate<Snapshot>>⟧.lawful result }
    ensures infallible { (s : Snapshot)
        → ⟦<FileTestPredicate<FileTypePredicate> as Predicate<Snapshot>>⟧.infallible result s }
    ensures parts { ⟦<FileTestPredicate<FileTypePredicate> as PredicateReflection>⟧.children_of result ≡ empty }
{
    plain(FileType::Symlink)
}

impl FileTestPredicate<FileTypePredicate> {
    /// Holds where a path leads to the same kind of file as the snapshot's, after following links.
    /// It fails with the snapshot's fault where that has no kind. It takes no memory.
    ///
    /// ```
    /// let same = FileTypePredicate::from_path(&link)?; // which leads to a file
    /// assert!(rt; same.eval(alloc, &file)?);
    /// assert!(rt; FileTypePredicate::from_path(&gone) == Err(PathFault::NotFound));
    /// ```
    pub fn from_path(snapshot: &Snapshot) -> Result<Self, PathFault>
        ensures found { MatchResult (followed_of snapshot.now)
            (λ kind. IsOkAnd result (λ p. tested_kind p ≡ kind))
            (λ fault. result ≡ Err fault) }
        ensures follow { IfOk result (λ p. follows p ≡ true) }
        ensures formula { IfOk (followed_of snapshot.now) (λ kind. IfOk result (λ p.
            (s : Snapshot) (f : Formula) → ⟦<Self as Predicate<Snapshot>>⟧.formula p s f
            ↔ IsExactly (kind_leaf kind true s) f)) }
        ensures values { IfOk result (λ p. ⟦<Self as PredicateReflection>⟧.parameters_of p
            ≡ value_of (codes "follow") (Some (word true))) }
        ensures lawful { IfOk result (λ p. ⟦<Self as Predicate<Snapshot>>⟧.lawful p) }
        ensures infallible { IfOk result (λ p. (s : Snapshot)
            → ⟦<Self as Predicate<Snapshot>>⟧.infallible p s) }
        ensures parts { IfOk result (λ p. ⟦<Self as PredicateReflection>⟧.children_of p ≡ empty) }
    {
        let (kind, follow) = (snapshot.followed()?, true);
        Ok(FileTestPredicate::new(FileTypePredicate { kind, follow }))
    }

    /// The predicate of the same kind, which follows links where `yes` is true. It takes no memory.
    ///
    /// ```
    /// let leads_to_file = predicate::path::is_file().follow_links(true);
    /// assert!(rt; leads_to_file.eval(alloc, &link)?);
    /// ```
    pub fn follow_links(mut self, yes: bool) -> Self
        ensures kind { tested_kind result ≡ tested_kind self }
        ensures follow { follows result ≡ yes }
        ensures formula { (s : Snapshot) (f : Formula)
            → ⟦<Self as Predicate<Snapshot>>⟧.formula result s f
            ↔ IsExactly (kind_leaf (tested_kind self) yes s) f }
        ensures values { ⟦<Self as PredicateReflection>⟧.parameters_of result
            ≡ value_of (codes "follow") (Some (word yes)) }
        ensures lawful { ⟦<Self as Predicate<Snapshot>>⟧.lawful result }
        ensures infallible { (s : Snapshot) → ⟦<Self as Predicate<Snapshot>>⟧.infallible result s }
        ensures parts { ⟦<Self as PredicateReflection>⟧.children_of result ≡ empty }
    {
        self.test.follow = yes;
        self
    }
}

impl FileTypePredicate {
    // The kind that is compared.
    fn kind_at(&self, item: &Snapshot) -> Result<FileType, PathFault>
        ensures { result ≡ found_kind self.now.follow item.now }
    {
        if self.follow {
            item.followed()
        } else {
            item.plain()
        }
    }
}

impl fmt::Display for FileTypePredicate {
    ghost output = { λ t. Some (kind_predicate_text t.kind) };

    fn fmt<W: fmt::Write>(&self, f: &mut fmt::Formatter<W>) -> fmt::Result {
        let kind = self.kind;
        write!(f, "var is {kind}")
    }
}

impl TestParameters for FileTypePredicate {
    ghost parameters_of = { λ t. value_of (codes "follow") (Some (word t.follow)) };

    fn parameters(&self, alloc: Global) -> Result<Vec<Parameter>, AllocError> {
        let mut parameters = Vec::new(alloc);
        parameters.push(Parameter::new("follow", self.follow.to_string(alloc)?))?;
        Ok(parameters)
    }
}

impl FileTest<Snapshot> for FileTypePredicate {
    ghost holds_of = { λ t s. has_kind t.kind (found_kind t.follow s) };

    ghost product_of = { λ t s. Some (kind_product (found_kind t.follow s)) };

    fn holds(&self, item: &Snapshot) -> bool {
        match self.kind_at(item) {
            Ok(found) => found == self.kind,
            Err(_) => false,
        }
    }

    fn show(&self, alloc: Global, case: Case, item: &Snapshot) -> Result<Case, AllocError> {
        match self.kind_at(item) {
            Ok(found) => showing(case, "actual filetype", found.to_string(alloc)?),
            Err(fault) => show_fault(alloc, case, fault),
        }
    }
}
