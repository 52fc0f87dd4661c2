//! The lines of an input, one after another.
ghost use Rattle.std.specs.Prelude.{◌≡◌, ◌≢◌, ℕ, List, [], ◌∷◌, Some, Ok, Err, true, false, OnErr};
ghost use Rattle.std.specs.Option.{ForSome};
ghost use Rattle.std.specs.Io.KnownBytes.{Consumes};
ghost use Rattle.streams.specs.Lines.{ended_lines};
ghost use Rattle.streams.specs.declared.run_fault.RunFault.TheVariants.{Output};

use crate::run_fault::{RunFault, classify_error};
use std::io::BufRead;

/// Takes the next line of the input, with its line feed, in place of what `line` held. The answer
/// is `false` at the end of the input.
///
/// The last line has no line feed where the input ends without one. Beside what the reader takes,
/// it takes memory where the line is longer than `line` has room for. It fails where a read fails
/// or memory is refused; then `line` holds what was taken of the line, and the next call goes on
/// behind that.
///
/// ```
/// let mut input = b"one\ntwo".as_slice();
/// let mut line = Vec::new(alloc);
/// assert!(rt; next_line(&mut input, &mut line)? && line.ends_with(b"one\n"));
/// assert!(rt; next_line(&mut input, &mut line)? && line.ends_with(b"two"));
/// assert!(rt; !next_line(&mut input, &mut line)?);
/// ```
pub fn next_line<R: BufRead>(input: &mut R, line: &mut Vec<u8>) -> Result<bool, RunFault>
    ensures more { result ≡ Ok true → ForSome (R.remaining input.old) (λ bytes. (left : List ℕ)
        × (R.remaining input.new ≡ Some left)
        × (ended_lines bytes ≡ line.new.items ∷ ended_lines left)) }
    ensures end { result ≡ Ok false → ForSome (R.remaining input.old) (λ bytes.
        (R.remaining input.new ≡ Some []) × (ended_lines bytes ≡ [])) }
    ensures taken { OnErr result (Consumes (R.remaining input.old) (R.remaining input.new)
        line.new.items) }
    ensures fault { result ≢ Err Output }
{
    line.clear();
    match input.read_until(b'\n', line) {
        Ok(0) => Ok(false),
        Ok(_) => Ok(true),
        Err(error) => Err(classify_error(&error, RunFault::Input)),
    }
}
