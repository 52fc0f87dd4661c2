//! The lines of an input up to a length.
ghost use Rattle.std.specs.Prelude.{◌≡◌, ◌≢◌, ◌-◌, ◌<◌, ◌≤◌, ℕ, List, [], ◌∷◌, Some, Ok, Err};
ghost use Rattle.std.specs.Prelude.{length, take, All, OnErr};
ghost use Rattle.std.specs.Option.{ForSome};
ghost use Rattle.streams.specs.Lines.{ended_lines};
ghost use Rattle.streams.specs.Steps.{IsInside, TakesPart, TakesFront, PassesRest};
ghost use Rattle.streams.specs.declared.run_fault.RunFault.TheVariants.{Output};
ghost use Rattle.streams.specs.declared.taken_line.TakenLine.TheVariants.{Line, TooLong};
ghost use Rattle.streams.specs.declared.taken_line.TakenLine.TheVariants.{End};

use crate::run_fault::{RunFault, classify_error};
use crate::taken_line::TakenLine;
use memchr::memchr;
use std::io::{BufRead, ErrorKind};

/// How many bytes a line may have where the caller has no other limit: 64 MiB.
pub const MAX_LINE: u32 = 1 << 26;

// The length through the first line feed, or the whole length, and `most` at most.
fn len_through(shown: &[u8], most: usize) -> usize
    ensures bound { result ≤ length shown.now }
    ensures most { result ≤ most }
    ensures some { 0 < length shown.now → 0 < most → 0 < result }
    ensures before { All (λ x. x ≢ 10) (take (result - 1) shown.now) }
{
    let part = &shown[..most.min(shown.len())];
    match memchr(b'\n', part) {
        Some(at) => at + 1,
        None => part.len(),
    }
}

// Takes what the reader shows of the line, `most` bytes at most, and says whether the line ends
// with it. Where a signal interrupts the read, it takes nothing.
fn take_part<R: BufRead>(input: &mut R, line: &mut Vec<u8>, most: usize) -> Result<bool, RunFault>
    requires { 0 < most }
    ensures part { TakesPart (R.remaining input.old) (R.remaining input.new)
        line.old.items line.new.items most result }
    ensures fault { result ≢ Err Output }
{
    let shown = match input.fill_buf() {
        Ok(shown) => shown,
        Err(error) => {
            return if error.kind() == ErrorKind::Interrupted {
                Ok(false)
            } else {
                Err(classify_error(&error, RunFault::Input))
            };
        }
    };
    let end = len_through(shown, most);
    line.extend_from_slice(&shown[..end])?;
    let is_ended = end == 0 || shown[end - 1] == b'\n';
    input.consume(end);
    Ok(is_ended)
}

// Takes the line, and answers `true`, or its front where it is longer than the limit.
fn take_front<R: BufRead>(input: &mut R, line: &mut Vec<u8>, limit: u32) -> Result<bool, RunFault>
    ensures front { TakesFront (R.remaining input.old) (R.remaining input.new) line.new.items
        limit result }
    ensures fault { result ≢ Err Output }
{
    let most = limit as usize + 1;
    line.clear();
    for _ in 0..u64::MAX {
        if line.len() >= most {
            return Ok(false);
        }
        if take_part(input, line, most - line.len())? {
            return Ok(true);
        }
    }
    Err(RunFault::Input)
}

// Passes over the rest of the line. What `line` holds has no meaning then.
fn pass_rest<R: BufRead>(input: &mut R, line: &mut Vec<u8>, limit: u32) -> Result<(), RunFault>
    ensures rest { PassesRest (R.remaining input.old) (R.remaining input.new) result }
    ensures fault { result ≢ Err Output }
{
    for _ in 0..u64::MAX {
        line.clear();
        if take_part(input, line, limit as usize + 1)? {
            return Ok(());
        }
    }
    Err(RunFault::Input)
}

/// Takes the next line of the input as `next_line`, where it has no more than `limit` bytes with
/// its line feed. A longer one is passed over, and the next call takes the line behind it.
///
/// Beside what the reader takes, it takes memory where `line` has less room than the line and, of a
/// longer one, than the limit and a byte. Where a line is too long, what `line` holds has no
/// meaning. It fails where a read fails or memory is refused; then the next call goes on inside the
/// same line.
///
/// ```
/// let mut input = b"one\nthree\ntwo".as_slice();
/// let mut line = Vec::new(alloc);
/// assert!(rt; next_line_within(&mut input, &mut line, 4)? == TakenLine::Line);
/// assert!(rt; line.ends_with(b"one\n"));
/// assert!(rt; next_line_within(&mut input, &mut line, 4)? == TakenLine::TooLong);
/// assert!(rt; next_line_within(&mut input, &mut line, 4)? == TakenLine::Line);
/// assert!(rt; line.ends_with(b"two"));
/// ```
pub fn next_line_within<R: BufRead>(
    input: &mut R,
    line: &mut Vec<u8>,
    limit: u32,
) -> Result<TakenLine, RunFault>
    ensures line { result ≡ Ok Line → ForSome (R.remaining input.old) (λ bytes. (left : List ℕ)
        × (R.remaining input.new ≡ Some left)
        × (ended_lines bytes ≡ line.new.items ∷ ended_lines left)) }
    ensures short { result ≡ Ok Line → length line.new.items ≤ limit }
    ensures too_long { result ≡ Ok TooLong → ForSome (R.remaining input.old) (λ bytes.
        (long : List ℕ) × (left : List ℕ) × (R.remaining input.new ≡ Some left)
        × (ended_lines bytes ≡ long ∷ ended_lines left) × (limit < length long)) }
    ensures end { result ≡ Ok End → ForSome (R.remaining input.old) (λ bytes.
        (R.remaining input.new ≡ Some []) × (ended_lines bytes ≡ [])) }
    ensures inside { OnErr result ((taken : List ℕ)
        × IsInside (R.remaining input.old) (R.remaining input.new) taken) }
    ensures fault { result ≢ Err Output }
{
    if !take_front(input, line, limit)? {
        pass_rest(input, line, limit)?;
        Ok(TakenLine::TooLong)
    } else if line.len() > limit as usize {
        Ok(TakenLine::TooLong)
    } else if line.is_empty() {
        Ok(TakenLine::End)
    } else {
        Ok(TakenLine::Line)
    }
}
