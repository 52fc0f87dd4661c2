//! A run over numbers.
ghost use Rattle.std.specs.Prelude.{◌≡◌, ℤ, false, IfOk, IfErr, OnOk, string_bytes};
ghost use Rattle.std.specs.Fmt.{signed_decimal};
ghost use Rattle.predicates_boolean.specs.Join.{left_of, right_of};
ghost use Rattle.predicates_boolean.specs.declared.boolean.join.JoinPredicate.{JoinPredicate};
ghost use Rattle.predicates_boolean.specs.declared.boolean.join.AndOperator.{AndOperator};
ghost use Rattle.predicates_item.specs.Makers.{at_least, at_most};
ghost use Rattle.predicates_item.specs.declared.ord.order.OrdPredicate.{OrdPredicate};
ghost use Rattle.predicates_item.specs.declared.showing.ShowingPredicate.{ShowingPredicate};
ghost use Rattle.explain_run.specs.Answers.{between_formula, no_number, IsNumber};
ghost use Rattle.explain_run.specs.Answers.{IsNumberAnswer};
ghost use Rattle.explain_run.specs.Runs.{IsItemVerdict, IsToldAs, HasRun, HasRunUntil};

use crate::block::complete_block;
use crate::parse_number;
use crate::run::{JudgeLine, Line, drop_last, run_lines};
use predicates_boolean::boolean::{AndPredicate, PredicateBooleanExt};
use predicates_core::Total;
use predicates_item::ord::{OrdPredicate, ge, le};
use std::alloc::{AllocError, Global};
use std::fmt::Write as _;
use std::io::{BufRead, Write};
use streams::RunFault;

// Answers lines that are numbers by a predicate.
#[derive(Drop)]
struct Numbers<'a, P> {
    predicate: &'a P,
}

// Writes the number, as the label of its block, in place of what the text held.
fn write_number(text: &mut String, n: i64) -> Result<(), AllocError>
    ensures { OnOk result (string_bytes text.new ≡ signed_decimal n) }
{
    text.clear();
    write!(text, "{n}")
}

// Writes that the line is no number, in place of what the text held.
fn write_no_number(text: &mut String, number: u64) -> Result<(), AllocError>
    ensures { OnOk result (string_bytes text.new ≡ no_number number) }
{
    text.clear();
    writeln!(text, "line {number}: not a number")
}

impl<P: Total<i64>> JudgeLine for Numbers<'_, P> {
    ghost is_verdict = { λ _. IsItemVerdict IsNumber };

    ghost is_kept = { λ _ _. false };

    ghost is_told = { λ s. IsToldAs (IsNumberAnswer (P.formula_of s.predicate.now)) };

    fn keeps(&self, _verdict: Option<bool>) -> bool {
        false
    }

    fn judge(
        &self,
        alloc: Global,
        line: Line<'_>,
        _item: &mut String,
        told: &mut String,
    ) -> Result<Option<bool>, AllocError> {
        let bare = drop_last(line.bytes, b'\n');
        match parse_number::number(drop_last(bare, b'\r')) {
            Some(n) => {
                write_number(told, n)?;
                Ok(Some(complete_block(alloc, told, self.predicate, &n)?))
            }
            None => {
                write_no_number(told, line.number)?;
                Ok(None)
            }
        }
    }
}

/// Writes, for each line of the input, the block that explains whether `ge(lo).and(le(hi))` holds
/// of the number on it, and says whether every line was a number.
///
/// Lines end by a line feed, and one carriage return before it is dropped. A line that is no number
/// is answered by `line K: not a number`, with K from 1. It takes memory for one line and one block
/// at a time. Where a read fails, what was written answers first lines of the input whole; where a
/// write fails, no line was taken in part, and a part of an answer may have been written.
///
/// ```
/// let mut input = b"7\n11\n".as_slice();
/// let mut output = Vec::new(alloc);
/// let all = run_between(alloc, 5, 10, &mut input, &mut output)?;
/// assert!(rt; all && output.starts_with(b"7: true\n"));
/// ```
pub fn run_between<R: BufRead, W: Write>(
    alloc: Global,
    lo: i64,
    hi: i64,
    input: &mut R,
    output: &mut W,
) -> Result<bool, RunFault>
    ensures run { IfOk result (HasRun (IsNumberAnswer (between_formula lo hi)) IsNumber
        (R.remaining input.old) (R.remaining input.new)
        (W.contents output.old) (W.contents output.new)) }
    ensures fault { IfErr result (HasRunUntil (IsNumberAnswer (between_formula lo hi))
        (R.remaining input.old) (R.remaining input.new)
        (W.contents output.old) (W.contents output.new)) }
    ensures formula { (both : JoinPredicate AndOperator
        (ShowingPredicate (OrdPredicate ℤ)) (ShowingPredicate (OrdPredicate ℤ)) ℤ) (n : ℤ)
        → left_of both ≡ at_least lo → right_of both ≡ at_most hi
        → ⟦<AndPredicate<OrdPredicate<i64>, OrdPredicate<i64>, i64> as Total<i64>>⟧.formula_of
        both n ≡ between_formula lo hi n }
{
    let between = ge(lo).and(le(hi));
    let judge = Numbers {
        predicate: &between,
    };
    let mut unwritten = Vec::new(alloc);
    let counts = run_lines(alloc, &judge, input, &mut unwritten, output)?;
    Ok(counts.is_of_items())
}
