//! A filter over the lines of an input.
ghost use Rattle.std.specs.Prelude.{◌≡◌, ◌↔◌, ◌+◌, ◌<◌, ◌^◌, IfOk, IfErr, IsTrue, is_none};
ghost use Rattle.std.specs.Prelude.{if◌then◌else◌};
ghost use Rattle.explain_run.specs.Filtered.{is_wanted, IsReason};
ghost use Rattle.explain_run.specs.Filtered.{HasFiltered, HasFilteredTelling, HasFilteredUntil};
ghost use Rattle.explain_run.specs.Filtered.{HasFilteredTellingUntil};

mod reasons;
mod verdicts;

use crate::run::run_lines;
use predicates_core::Predicate;
use reasons::Reasons;
use std::alloc::Global;
use std::io::{BufRead, Write};
use streams::RunFault;
use verdicts::Verdicts;

/// How many lines a filter wrote, and how many are no text.
#[derive(Clone, Copy, Debug, PartialEq, Eq)]
pub struct Filtered {
    /// Lines that were written: those of which the verdict is the wanted one.
    pub written: u64,
    /// Lines that are not UTF-8. They have no verdict, and are never written.
    pub not_utf8: u64,
}

impl Filtered {
    // Counts one line more.
    pub(crate) fn count(self, kept: bool, verdict: Option<bool>) -> Filtered
        requires written { self.written + 1 < 2 ^ 64 }
        requires not_utf8 { self.not_utf8 + 1 < 2 ^ 64 }
        ensures written { result.written ≡ self.written + (if kept then 1 else 0) }
        ensures not_utf8 { result.not_utf8
            ≡ self.not_utf8 + (if is_none verdict then 1 else 0) }
    {
        let Filtered { written, not_utf8 } = self;
        Filtered {
            written: if kept { written + 1 } else { written },
            not_utf8: match verdict {
                Some(_) => not_utf8,
                None => not_utf8 + 1,
            },
        }
    }

    // Whether each line had a verdict.
    pub(crate) fn is_of_items(self) -> bool
        ensures { IsTrue result ↔ (self.not_utf8 ≡ 0) }
    {
        self.not_utf8 == 0
    }
}

// Whether the verdict is the wanted one.
fn is_wanted(wanted: bool, verdict: Option<bool>) -> bool
    ensures { result ≡ is_wanted wanted verdict }
{
    match verdict {
        Some(verdict) => verdict == wanted,
        None => false,
    }
}

/// Writes those lines of the input of which the verdict is the wanted one, byte for byte, and
/// answers how many.
///
/// The predicate is asked about the line without its line feed; a carriage return before it stays.
/// What is written has the line feed where the input has it. A line that is not UTF-8 is never
/// written, and counted apart. It takes memory for the longest line, which is kept between lines,
/// and what `eval` takes. Where a read fails, the lines that were taken before are judged and those
/// to be kept are written; where a write fails, no line was taken in part.
///
/// ```
/// let marked = predicate::str::contains("#".to_owned(alloc)?);
/// let kept = filter_lines(alloc, &marked, false, &mut input, &mut output)?;
/// ```
pub fn filter_lines<P: Predicate<String>, R: BufRead, W: Write>(
    alloc: Global,
    predicate: &P,
    wanted: bool,
    input: &mut R,
    output: &mut W,
) -> Result<Filtered, RunFault>
    requires { P.lawful predicate.now }
    ensures run { IfOk result (HasFiltered (P.formula predicate.now) wanted
        (R.remaining input.old) (R.remaining input.new)
        (W.contents output.old) (W.contents output.new)) }
    ensures fault { IfErr result (HasFilteredUntil (P.formula predicate.now) wanted
        (R.remaining input.old) (R.remaining input.new)
        (W.contents output.old) (W.contents output.new)) }
{
    let mut untold = Vec::new(alloc);
    let judge = Verdicts { predicate, wanted };
    run_lines(alloc, &judge, input, output, &mut untold)
}

/// Does what `filter_lines` does, and writes to `reasons` why each line that is not written has
/// another verdict: the block that `run_text` writes for it, or `line K: not UTF-8`.
///
/// The lines are numbered from 1, those that are written among them; of these nothing is told. The
/// predicate is asked once for each line, by `explain` with the verdict that is not wanted. It
/// takes memory for the longest line and the longest block, which are kept between lines, and what
/// `explain` takes. Where either writer fails, it ends by `RunFault::Output`.
///
/// ```
/// let marked = predicate::str::contains("#".to_owned(alloc)?);
/// let kept =
///     filter_with_reasons(alloc, &marked, false, &mut input, &mut output, &mut reasons)?;
/// ```
pub fn filter_with_reasons<P: Predicate<String>, R: BufRead, W: Write, T: Write>(
    alloc: Global,
    predicate: &P,
    wanted: bool,
    input: &mut R,
    output: &mut W,
    reasons: &mut T,
) -> Result<Filtered, RunFault>
    requires { P.lawful predicate.now }
    ensures run { IfOk result (HasFilteredTelling (P.formula predicate.now)
        (IsReason (P.formula predicate.now) wanted) wanted
        (R.remaining input.old) (R.remaining input.new)
        (W.contents output.old) (W.contents output.new)
        (T.contents reasons.old) (T.contents reasons.new)) }
    ensures fault { IfErr result (HasFilteredTellingUntil (P.formula predicate.now) wanted
        (R.remaining input.old) (R.remaining input.new)
        (W.contents output.old) (W.contents output.new)
        (T.contents reasons.old) (T.contents reasons.new)) }
{
    let judge = Reasons { predicate, wanted };
    run_lines(alloc, &judge, input, output, reasons)
}
