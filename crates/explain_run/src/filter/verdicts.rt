//! Verdicts on lines, of which nothing is told.
ghost use Rattle.std.specs.Prelude.{◌≡◌, [], IfOk, string_bytes};
ghost use Rattle.explain_run.specs.Filtered.{is_wanted, IsVerdict};

use super::is_wanted;
use crate::run::{JudgeLine, Line, drop_last};
use crate::text::set_item;
use predicates_core::Predicate;
use std::alloc::{AllocError, Global};
use std::str;

// Judges lines by what a predicate answers of them.
#[derive(Drop)]
pub(super) struct Verdicts<'a, P> {
    pub(super) predicate: &'a P,
    pub(super) wanted: bool,
}

impl<P: Predicate<String>> JudgeLine for Verdicts<'_, P> {
    ghost lawful = { λ s. P.lawful s.predicate.now };

    ghost is_verdict = { λ s. IsVerdict (P.formula s.predicate.now) };

    ghost is_kept = { λ s. is_wanted s.wanted };

    ghost is_told = { λ _ _ _ told. told ≡ [] };

    fn keeps(&self, verdict: Option<bool>) -> bool {
        is_wanted(self.wanted, verdict)
    }

    fn judge(
        &self,
        alloc: Global,
        line: Line<'_>,
        item: &mut String,
        told: &mut String,
    ) -> Result<Option<bool>, AllocError> {
        told.clear();
        match str::from_utf8(drop_last(line.bytes, b'\n')) {
            Ok(text) => {
                set_item(item, text)?;
                Ok(Some(self.predicate.eval(alloc, &*item)?))
            }
            Err(_) => Ok(None),
        }
    }
}
