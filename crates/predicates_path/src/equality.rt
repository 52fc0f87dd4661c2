//! Whether a content equals the bytes or the text of a file.
ghost use Rattle.std.specs.Prelude.{◌≡◌, ◌↔◌, refl, codes, Ok, Err, None, Some, string_bytes};
ghost use Rattle.std.specs.Prelude.{IfOk, IfSome, IsOkAnd, MatchOption, MatchResult};
ghost use Rattle.std.specs.Str.{IsUtf8};
ghost use Rattle.predicates_core.specs.Formula.{Formula};
ghost use Rattle.predicates_core.specs.Label.{value_of};
ghost use Rattle.predicates_core.specs.Leaves.{IsExactly};
ghost use Rattle.predicates_core.specs.Text.{Text};
ghost use Rattle.predicates_path.specs.Snapshot.{Bytes, path_of, content_of};
ghost use Rattle.predicates_path.specs.Equality.{compared_path, compared_bytes, equality_text};
ghost use Rattle.predicates_path.specs.Equality.{shown_bytes, has_bytes, has_content, equals_bytes};
ghost use Rattle.predicates_path.specs.Equality.{equals_content};
ghost use Rattle.predicates_path.specs.TextEquality as text;
ghost use Rattle.predicates_path.specs.declared.snapshot.Snapshot.{Snapshot};
ghost use Rattle.predicates_core.specs.Tree.{empty};

use crate::file_test::{FileTest, FileTestPredicate};
use crate::snapshot::has_bytes;
use crate::{PathFault, Snapshot};
use predicates_core::custom::TestParameters;
use predicates_core::reflection::{Case, Parameter, PredicateReflection};
use predicates_core::{Predicate, ReadsContent};
use std::alloc::{AllocError, Global};
use std::fmt;

/// The bytes of a file.
#[derive(Debug, PartialEq, Eq, Drop)]
pub struct BinaryFilePredicate {
    path: String,
    content: Vec<u8>,
}

/// The text of a file.
#[derive(Debug, PartialEq, Eq, Drop)]
pub struct StrFilePredicate {
    path: String,
    content: String,
}

/// Holds where the content equals the snapshot's. It fails with the snapshot's fault where that has
/// no content; the path is then dropped. It takes no memory.
///
/// ```
/// let same = predicate::path::eq_file(file)?;
/// assert!(rt; same.eval(alloc, &Vec::from_slice(alloc, b"hello")?)?);
/// assert!(rt; predicate::path::eq_file(gone) == Err(PathFault::NotFound));
/// ```
pub fn eq_file(snapshot: Snapshot) -> Result<FileTestPredicate<BinaryFilePredicate>, PathFault>
    ensures content { MatchResult (content_of snapshot)
        (λ bytes. IsOkAnd result
        (λ p. (compared_path p ≡ path_of snapshot) × (compared_bytes p ≡ bytes)))
        (λ fault. result ≡ Err fault) }
    ensures formula_of_snapshots { IfOk (content_of snapshot) (λ bytes. IfOk result (λ p.
        (s : Snapshot) (f : Formula)
        → ⟦<FileTestPredicate<BinaryFilePredicate> as Predicate<Snapshot>>⟧.formula p s f
        ↔ IsExactly (equals_content (path_of snapshot) bytes s) f)) }
    ensures formula_of_bytes { IfOk (content_of snapshot) (λ bytes. IfOk result (λ p.
        (v : Bytes) (f : Formula)
        → ⟦<FileTestPredicate<BinaryFilePredicate> as Predicate<Vec<u8>>>⟧.formula p v f
        ↔ IsExactly (equals_bytes (path_of snapshot) bytes v.items) f)) }
    ensures of_bytes { IfOk result (λ p. (v : Bytes)
        → ⟦<FileTestPredicate<BinaryFilePredicate> as Predicate<Vec<u8>>>⟧.lawful p
        × ⟦<FileTestPredicate<BinaryFilePredicate> as Predicate<Vec<u8>>>⟧.infallible p v) }
    ensures values { IfOk (content_of snapshot) (λ bytes. IfOk result (λ p.
        ⟦<FileTestPredicate<BinaryFilePredicate> as PredicateReflection>⟧.parameters_of p
        ≡ value_of (codes "content") (shown_bytes bytes))) }
    ensures lawful { IfOk result (λ p.
        ⟦<FileTestPredicate<BinaryFilePredicate> as Predicate<Snapshot>>⟧.lawful p) }
    ensures infallible { IfOk result (λ p. (s : Snapshot)
        → ⟦<FileTestPredicate<BinaryFilePredicate> as Predicate<Snapshot>>⟧.infallible p s) }
    ensures parts { IfOk result (λ p.
        ⟦<FileTestPredicate<BinaryFilePredicate> as PredicateReflection>⟧.children_of p ≡ empty) }
{
    let (path, content) = (snapshot.path, snapshot.content);
    let content = content?;
    Ok(FileTestPredicate::new(BinaryFilePredicate { path, content }))
}

impl FileTestPredicate<BinaryFilePredicate> {
    /// The predicate that compares texts and contents with these bytes, where they are UTF-8. Where
    /// they are not, it is `None`, and the path and the bytes are dropped. It takes no memory.
    ///
    /// ```
    /// let same = predicate::path::eq_file(file)?.utf8().ok_or("no text")?;
    /// assert!(rt; same.eval(alloc, &"hello".to_owned(alloc)?)?);
    /// ```
    pub fn utf8(self) -> Option<FileTestPredicate<StrFilePredicate>>
        ensures text { MatchOption result (¬ (IsUtf8 (compared_bytes self)))
            (λ p. (text.compared_path p ≡ compared_path self)
            × (text.compared_text p ≡ compared_bytes self)) }
        ensures formula_of_snapshots { IfSome result (λ p. (s : Snapshot) (f : Formula)
            → ⟦<FileTestPredicate<StrFilePredicate> as Predicate<Snapshot>>⟧.formula p s f
            ↔ IsExactly (equals_content (compared_path self) (compared_bytes self) s) f) }
        ensures formula_of_texts { IfSome result (λ p. (v : Text) (f : Formula)
            → ⟦<FileTestPredicate<StrFilePredicate> as Predicate<String>>⟧.formula p v f
            ↔ IsExactly (equals_bytes (compared_path self) (compared_bytes self)
            (string_bytes v)) f) }
        ensures of_texts { IfSome result (λ p. (v : Text)
            → ⟦<FileTestPredicate<StrFilePredicate> as Predicate<String>>⟧.lawful p
            × ⟦<FileTestPredicate<StrFilePredicate> as Predicate<String>>⟧.infallible p v) }
        ensures values { IfSome result (λ p.
            ⟦<FileTestPredicate<StrFilePredicate> as PredicateReflection>⟧.parameters_of p
            ≡ value_of (codes "content") (Some (compared_bytes self))) }
        ensures lawful { IfSome result (λ p.
            ⟦<FileTestPredicate<StrFilePredicate> as Predicate<Snapshot>>⟧.lawful p) }
        ensures infallible { IfSome result (λ p. (s : Snapshot)
            → ⟦<FileTestPredicate<StrFilePredicate> as Predicate<Snapshot>>⟧.infallible p s) }
        ensures parts { IfSome result (λ p.
            ⟦<FileTestPredicate<StrFilePredicate> as PredicateReflection>⟧.children_of p ≡ empty) }
    {
        let BinaryFilePredicate { path, content } = self.test;
        match String::from_utf8(content) {
            Ok(content) => Some(FileTestPredicate::new(StrFilePredicate { path, content })),
            Err(_) => None,
        }
    }
}

impl fmt::Display for BinaryFilePredicate {
    ghost output = { λ t. Some (equality_text (string_bytes t.path)) };

    fn fmt<W: fmt::Write>(&self, f: &mut fmt::Formatter<W>) -> fmt::Result {
        let path = &self.path;
        write!(f, "var is {path}")
    }
}

impl TestParameters for BinaryFilePredicate {
    ghost parameters_of = { λ t. value_of (codes "content") (shown_bytes t.content.items) };

    fn parameters(&self, alloc: Global) -> Result<Vec<Parameter>, AllocError> {
        let content = &self.content;
        let mut parameters = Vec::new(alloc);
        parameters.push(Parameter::new("content", format!(in alloc; "{content:?}")?))?;
        Ok(parameters)
    }
}

impl FileTest<Snapshot> for BinaryFilePredicate {
    ghost holds_of = { λ t s. has_content t.content.items (content_of s) };

    ghost product_of = { λ t s. None };

    fn holds(&self, item: &Snapshot) -> bool {
        item.has_content(self.content.as_slice())
    }

    fn show(&self, _alloc: Global, case: Case, _item: &Snapshot) -> Result<Case, AllocError> {
        Ok(case)
    }
}

impl FileTest<Vec<u8>> for BinaryFilePredicate {
    ghost holds_of = { λ t v. has_bytes t.content.items v.items };

    ghost product_of = { λ t v. None };

    fn holds(&self, item: &Vec<u8>) -> bool {
        has_bytes(self.content.as_slice(), item.as_slice())
    }

    fn show(&self, _alloc: Global, case: Case, _item: &Vec<u8>) -> Result<Case, AllocError> {
        Ok(case)
    }
}

impl fmt::Display for StrFilePredicate {
    ghost output = { λ t. Some (equality_text (string_bytes t.path)) };

    fn fmt<W: fmt::Write>(&self, f: &mut fmt::Formatter<W>) -> fmt::Result {
        let file = &self.path;
        write!(f, "var is {file}")
    }
}

impl TestParameters for StrFilePredicate {
    ghost parameters_of = { λ t. value_of (codes "content") (Some (string_bytes t.content)) };

    fn parameters(&self, alloc: Global) -> Result<Vec<Parameter>, AllocError> {
        let mut parameters = Vec::new(alloc);
        parameters.push(Parameter::new("content", self.content.clone()?))?;
        Ok(parameters)
    }
}

impl FileTest<Snapshot> for StrFilePredicate {
    ghost holds_of = { λ t s. has_content (string_bytes t.content) (content_of s) };

    ghost product_of = { λ t s. None };

    fn holds(&self, item: &Snapshot) -> bool {
        item.has_content(self.content.as_bytes())
    }

    fn show(&self, _alloc: Global, case: Case, _item: &Snapshot) -> Result<Case, AllocError> {
        Ok(case)
    }
}

impl FileTest<String> for StrFilePredicate {
    ghost holds_of = { λ t v. has_bytes (string_bytes t.content) (string_bytes v) };

    ghost product_of = { λ t v. None };

    fn holds(&self, item: &String) -> bool {
        has_bytes(self.content.as_bytes(), item.as_bytes())
    }

    fn show(&self, _alloc: Global, case: Case, _item: &String) -> Result<Case, AllocError> {
        Ok(case)
    }
}

impl ReadsContent<String> for FileTestPredicate<StrFilePredicate> {
    ghost content_formula = { λ p bytes.
        equals_bytes (text.compared_path p) (text.compared_text p) bytes };

    ghost always_lawful = { λ p. tt };

    ghost has_formula = { λ p v. record { is = refl } };
}
