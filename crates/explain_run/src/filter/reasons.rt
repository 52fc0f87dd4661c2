//! Verdicts on lines, with the reasons of those that are not wanted.
ghost use Rattle.std.specs.Prelude.{◌≡◌, ◌++◌, IfOk, OnOk, string_bytes};
ghost use Rattle.predicates_core.specs.Lines.{lines};
ghost use Rattle.explain_run.specs.Blocks.{heading};
ghost use Rattle.explain_run.specs.TextAnswers.{line_label};
ghost use Rattle.explain_run.specs.Filtered.{is_wanted, IsVerdict, IsReason};

use super::is_wanted;
use crate::block::write_verdict;
use crate::run::{JudgeLine, Line, drop_last};
use crate::text::{set_item, write_label, write_no_text};
use predicates_core::Predicate;
use predicates_core::reflection::{Case, render_onto};
use std::alloc::{AllocError, Global};
use std::str;

// Judges lines by a predicate, and tells why a verdict is not the wanted one.
#[derive(Drop)]
pub(super) struct Reasons<'a, P> {
    pub(super) predicate: &'a P,
    pub(super) wanted: bool,
}

// Writes the block of the case on the line of this number, in place of what the text held.
fn write_block(text: &mut String, number: u64, holds: bool, case: &Case) -> Result<(), AllocError>
    ensures { OnOk result
        (string_bytes text.new ≡ heading (line_label number) holds ++ lines case.now) }
{
    write_label(text, number)?;
    write_verdict(text, holds)?;
    render_onto(text, case)
}

impl<P: Predicate<String>> JudgeLine for Reasons<'_, P> {
    ghost lawful = { λ s. P.lawful s.predicate.now };

    ghost is_verdict = { λ s. IsVerdict (P.formula s.predicate.now) };

    ghost is_kept = { λ s. is_wanted s.wanted };

    ghost is_told = { λ s. IsReason (P.formula s.predicate.now) s.wanted };

    fn keeps(&self, verdict: Option<bool>) -> bool {
        is_wanted(self.wanted, verdict)
    }

    fn judge(
        &self,
        alloc: Global,
        line: Line<'_>,
        item: &mut String,
        told: &mut String,
    ) -> Result<Option<bool>, AllocError> {
        let Ok(text) = str::from_utf8(drop_last(line.bytes, b'\n')) else {
            write_no_text(told, line.number)?;
            return Ok(None);
        };
        set_item(item, text)?;
        let unwanted = !self.wanted;
        match self.predicate.explain(alloc, Some(unwanted), &*item)? {
            Some(case) => {
                write_block(told, line.number, unwanted, &case)?;
                Ok(Some(unwanted))
            }
            None => {
                told.clear();
                Ok(Some(self.wanted))
            }
        }
    }
}
