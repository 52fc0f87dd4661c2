//! The byte order mark that an editor may have put before an input.
ghost use Rattle.std.specs.Prelude.{◌≡◌, ◌≢◌, Ok, Err, None, IfOk, option_map, option_to_list};
ghost use Rattle.std.specs.Io.KnownBytes.{Consumes, IsAtEnd, Keeps, prepend_known};
ghost use Rattle.streams.specs.declared.run_fault.RunFault.TheVariants.{Output};
ghost use Rattle.vet_rules.specs.Rules.{without_mark};

use crate::bytes::push_bytes;
use std::alloc::Global;
use std::io::{ErrorKind, Read};
use streams::RunFault;

const MARK: &[u8] = b"\xef\xbb\xbf";

// Takes the next byte of the input; none at its end.
fn next_byte<R: Read>(input: &mut R) -> Result<Option<u8>, RunFault>
    ensures taken { IfOk result (λ byte.
        Consumes (R.remaining input.old) (R.remaining input.new) (option_to_list byte)) }
    ensures end { result ≡ Ok None → IsAtEnd (R.remaining input.new) }
    ensures fault { result ≢ Err Output }
{
    let mut byte = [0];
    for _ in 0..u64::MAX {
        match input.read(&mut byte) {
            Ok(0) => return Ok(None),
            Ok(_) => return Ok(Some(byte[0])),
            Err(error) => match error.kind() {
                ErrorKind::Interrupted => {}
                ErrorKind::OutOfMemory => return Err(RunFault::NoMemory),
                _ => return Err(RunFault::Input),
            },
        }
    }
    Err(RunFault::Input)
}

/// Takes the byte order mark that stands before the records of an input, where one does. The answer
/// is what else was taken, at most three bytes: behind these stands what the input has left.
///
/// It takes no byte behind one that is none of a mark, and memory for what it takes. It fails where
/// a read fails or memory is refused.
///
/// ```
/// let mut input = b"\xef\xbb\xbf{}".as_slice();
/// assert!(rt; take_mark(alloc, &mut input)?.is_empty() && input == b"{}".as_slice());
/// ```
pub fn take_mark<R: Read>(alloc: Global, input: &mut R) -> Result<Vec<u8>, RunFault>
    ensures front { IfOk result (λ front. Keeps (option_map without_mark (R.remaining input.old))
        (prepend_known front.items (R.remaining input.new))) }
    ensures fault { result ≢ Err Output }
{
    let mut front = Vec::new(alloc);
    for expected in MARK {
        let Some(byte) = next_byte(input)? else {
            return Ok(front);
        };
        push_bytes(&mut front, &[byte])?;
        if byte != *expected {
            return Ok(front);
        }
    }
    front.clear();
    Ok(front)
}
