//! A run over the lines of an input: some of them are written, and something is told of each.
ghost use Rattle.std.specs.Prelude.{◌≡◌, ◌≢◌, ℕ, List, [], Bool, Option, Err, IfOk, IfErr, OnOk};
ghost use Rattle.std.specs.Prelude.{string_bytes, if◌then◌else◌};
ghost use Rattle.std.specs.Io.BufRead.{strip_last};
ghost use Rattle.std.specs.Io.KnownBytes.{Appends};
ghost use Rattle.streams.specs.declared.run_fault.RunFault.TheVariants.{Input};
ghost use Rattle.explain_run.specs.Filtered.{Judged, HasJudgedTelling, HasStopped};

use crate::filter::Filtered;
use std::alloc::{AllocError, Global};
use std::io::{BufRead, Write};
use streams::{RunFault, flush, next_line, write_bytes};

// A line of an input, with its line feed, and its number, from 1.
#[derive(Clone, Copy)]
pub(crate) struct Line<'a> {
    pub(crate) number: u64,
    pub(crate) bytes: &'a [u8],
}

// Judges lines one by one, and says which are written and what is told of them.
pub(crate) trait JudgeLine {
    // It may be asked about every line.
    ghost lawful: { Self → Type 0 } = { λ _. Unit {0} };

    // The verdict that a line may have; none where it is no item.
    ghost is_verdict: { Self → List ℕ → Option Bool → Type 0 };

    // Whether a line with this verdict is written.
    ghost is_kept: { Self → Option Bool → Bool };

    // What may be told of the line of this number, with its verdict.
    ghost is_told: { Self → ℕ → Judged → List ℕ → Type 0 };

    fn keeps(&self, verdict: Option<bool>) -> bool
        ensures { result ≡ is_kept self.now verdict };

    // The verdict on the line. Writes what is told of it in place of what `told` held. The item
    // takes memory once for many lines, and what it holds has no meaning.
    fn judge(
        &self,
        alloc: Global,
        line: Line<'_>,
        item: &mut String,
        told: &mut String,
    ) -> Result<Option<bool>, AllocError>
        requires { lawful self.now }
        ensures verdict { IfOk result (is_verdict self.now line.entry.bytes.now) }
        ensures told { IfOk result (λ verdict. is_told self.now line.entry.number
            (line.entry.bytes.now, verdict) (string_bytes told.new)) };
}

// The bytes without one at the end, if it is this one.
pub(crate) fn drop_last(line: &[u8], byte: u8) -> &[u8]
    ensures { result.now ≡ strip_last byte line.now }
{
    match line {
        [front @ .., last] if *last == byte => front,
        _ => line,
    }
}

// Writes the line if it is to be kept.
fn write_if<W: Write>(output: &mut W, kept: bool, line: &[u8]) -> Result<(), RunFault>
    ensures written { OnOk result (Appends (W.contents output.old) (W.contents output.new)
        (if kept then line.now else [])) }
    ensures fault { result ≢ Err Input }
{
    if kept {
        write_bytes(output, line)
    } else {
        Ok(())
    }
}

// Writes the lines that the judge keeps, and what is told of each line.
pub(crate) fn run_lines<J: JudgeLine, R: BufRead, W: Write, T: Write>(
    alloc: Global,
    judge: &J,
    input: &mut R,
    output: &mut W,
    reasons: &mut T,
) -> Result<Filtered, RunFault>
    requires { J.lawful judge.now }
    ensures run { IfOk result (HasJudgedTelling (J.is_verdict judge.now) (J.is_kept judge.now)
        (J.is_told judge.now) (R.remaining input.old) (R.remaining input.new)
        (W.contents output.old) (W.contents output.new)
        (T.contents reasons.old) (T.contents reasons.new)) }
    ensures fault { IfErr result (HasStopped (J.is_verdict judge.now) (J.is_kept judge.now)
        (J.is_told judge.now) (R.remaining input.old) (R.remaining input.new)
        (W.contents output.old) (W.contents output.new)
        (T.contents reasons.old) (T.contents reasons.new)) }
{
    let mut line = Vec::new(alloc);
    let mut item = String::new(alloc);
    let mut told = String::new(alloc);
    let mut counts = Filtered {
        written: 0,
        not_utf8: 0,
    };
    for taken in 0..u64::MAX {
        if !next_line(input, &mut line)? {
            flush(output)?;
            flush(reasons)?;
            return Ok(counts);
        }
        let number = taken + 1;
        let bytes = line.as_slice();
        let verdict = judge.judge(alloc, Line { number, bytes }, &mut item, &mut told)?;
        let kept = judge.keeps(verdict);
        write_if(output, kept, bytes)?;
        write_bytes(reasons, told.as_bytes())?;
        counts = counts.count(kept, verdict);
    }
    // More lines than can be counted.
    if next_line(input, &mut line)? {
        return Err(RunFault::Input);
    }
    flush(output)?;
    flush(reasons)?;
    Ok(counts)
}
