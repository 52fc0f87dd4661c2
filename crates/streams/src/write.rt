//! Bytes onto an output.
ghost use Rattle.std.specs.Prelude.{◌≢◌, OnOk, Err};
ghost use Rattle.std.specs.Io.KnownBytes.{Appends, Keeps};
ghost use Rattle.streams.specs.declared.run_fault.RunFault.TheVariants.{Input};

use crate::run_fault::{RunFault, classify_error};
use std::io::Write;

/// Writes the bytes behind what the output holds.
///
/// It takes no memory but what the writer takes. It fails where a write fails or takes nothing;
/// then a front of the bytes may have been written.
///
/// ```
/// let mut output = Vec::new(alloc);
/// write_bytes(&mut output, b"one\n")?;
/// assert!(rt; output.ends_with(b"one\n"));
/// ```
pub fn write_bytes<W: Write>(output: &mut W, bytes: &[u8]) -> Result<(), RunFault>
    ensures written { OnOk result (Appends (W.contents output.old) (W.contents output.new)
        bytes.now) }
    ensures fault { result ≢ Err Input }
{
    output
        .write_all(bytes)
        .map_err(|error| classify_error(&error, RunFault::Output))
}

/// Passes on to the system what the writer keeps back.
///
/// It takes no memory but what the writer takes, and fails where a write fails.
///
/// ```
/// let mut output = BufWriter::new(alloc, rt.stdout())?;
/// write_bytes(&mut output, b"one\n")?;
/// flush(&mut output)?;
/// ```
pub fn flush<W: Write>(output: &mut W) -> Result<(), RunFault>
    ensures kept { OnOk result (Keeps (W.contents output.old) (W.contents output.new)) }
    ensures fault { result ≢ Err Input }
{
    output
        .flush()
        .map_err(|error| classify_error(&error, RunFault::Output))
}
