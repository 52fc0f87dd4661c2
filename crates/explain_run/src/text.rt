//! A run over texts.
ghost use Rattle.std.specs.Prelude.{◌≡◌, false, IfOk, IfErr, OnOk, string_bytes};
ghost use Rattle.std.specs.Str.{IsUtf8};
ghost use Rattle.explain_run.specs.TextAnswers.{line_label, no_text, IsTextAnswer};
ghost use Rattle.explain_run.specs.Runs.{IsItemVerdict, IsToldAs, HasRun, HasRunUntil};

use crate::block::complete_block;
use crate::run::{JudgeLine, Line, drop_last, run_lines};
use predicates_core::Predicate;
use std::alloc::{AllocError, Global};
use std::fmt::Write as _;
use std::io::{BufRead, Write};
use std::str;
use streams::RunFault;

// Answers lines of text by a predicate.
#[derive(Drop)]
struct Texts<'a, P> {
    predicate: &'a P,
}

// Writes the label of a line, in place of what the text held.
pub(crate) fn write_label(text: &mut String, number: u64) -> Result<(), AllocError>
    ensures { OnOk result (string_bytes text.new ≡ line_label number) }
{
    text.clear();
    write!(text, "line {number}")
}

// Writes that the line is no text, in place of what the text held.
pub(crate) fn write_no_text(text: &mut String, number: u64) -> Result<(), AllocError>
    ensures { OnOk result (string_bytes text.new ≡ no_text number) }
{
    text.clear();
    writeln!(text, "line {number}: not UTF-8")
}

// Puts the line in place of what the item held.
pub(crate) fn set_item(item: &mut String, line: &str) -> Result<(), AllocError>
    ensures { OnOk result (string_bytes item.new ≡ line.now) }
{
    item.clear();
    item.push_str(line)
}

impl<P: Predicate<String>> JudgeLine for Texts<'_, P> {
    ghost lawful = { λ s. P.lawful s.predicate.now };

    ghost is_verdict = { λ _. IsItemVerdict IsUtf8 };

    ghost is_kept = { λ _ _. false };

    ghost is_told = { λ s. IsToldAs (IsTextAnswer (P.formula s.predicate.now)) };

    fn keeps(&self, _verdict: Option<bool>) -> bool {
        false
    }

    fn judge(
        &self,
        alloc: Global,
        line: Line<'_>,
        item: &mut String,
        told: &mut String,
    ) -> Result<Option<bool>, AllocError> {
        match str::from_utf8(drop_last(line.bytes, b'\n')) {
            Ok(text) => {
                set_item(item, text)?;
                write_label(told, line.number)?;
                Ok(Some(complete_block(alloc, told, self.predicate, &*item)?))
            }
            Err(_) => {
                write_no_text(told, line.number)?;
                Ok(None)
            }
        }
    }
}

/// Writes, for each line of the input, the block that explains whether the predicate holds of it,
/// and says whether every line was UTF-8.
///
/// Lines end by a line feed; a carriage return before it stays. The label is `line K`, with K from
/// 1, and a line that is no text is answered by `line K: not UTF-8`. It takes memory for the
/// longest line and the longest block, which is kept between lines, and what the predicate takes. A
/// fault leaves input and output as `run_between` leaves them.
///
/// ```
/// let mut input = b"one\n\xff\n".as_slice();
/// let mut output = Vec::new(alloc);
/// let blank = predicate::str::is_empty().trim();
/// let all = run_text(alloc, &blank, &mut input, &mut output)?;
/// assert!(rt; !all && output.ends_with(b"line 2: not UTF-8\n"));
/// ```
pub fn run_text<P: Predicate<String>, R: BufRead, W: Write>(
    alloc: Global,
    predicate: &P,
    input: &mut R,
    output: &mut W,
) -> Result<bool, RunFault>
    requires { P.lawful predicate.now }
    ensures run { IfOk result (HasRun (IsTextAnswer (P.formula predicate.now)) IsUtf8
        (R.remaining input.old) (R.remaining input.new)
        (W.contents output.old) (W.contents output.new)) }
    ensures fault { IfErr result (HasRunUntil (IsTextAnswer (P.formula predicate.now))
        (R.remaining input.old) (R.remaining input.new)
        (W.contents output.old) (W.contents output.new)) }
{
    let mut unwritten = Vec::new(alloc);
    let counts = run_lines(alloc, &Texts { predicate }, input, &mut unwritten, output)?;
    Ok(counts.is_of_items())
}
