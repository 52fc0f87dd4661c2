//! What a value prints, as a text.
//!
//! ```
//! let text = printed(alloc, self)?;
//! ```
ghost use Rattle.std.specs.Prelude.{◌≡◌, IfOk, IfSome, string_bytes};

use std::alloc::{AllocError, Global};
use std::fmt;

// The bytes that a printed text has room for at first.
const ROOM: usize = 64;

/// What the value prints, in a text with room for 64 bytes at first, so that a short one takes
/// memory once.
///
/// ```
/// let text = printed(alloc, &predicate::ge(5))?;
/// assert!(rt; text.as_str() == "var >= 5");
/// ```
pub fn printed<T: fmt::Display>(alloc: Global, value: &T) -> Result<String, AllocError>
    ensures { IfOk result (λ text.
        IfSome (T.output value.now) (λ bytes. string_bytes text ≡ bytes)) }
{
    let mut text = String::with_capacity(alloc, ROOM)?;
    text.write(value)?;
    Ok(text)
}
