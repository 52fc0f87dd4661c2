//! A line that is a number.
ghost use Rattle.std.specs.Prelude.{◌≡◌, ◌↔◌, ℤ, Some};
ghost use Rattle.explain_run.specs.Number.{Reads};

use std::str;

/// The number that the line writes, by an optional `+` or `-` and one or more digits, within the 64
/// bits of an `i64`; none for any other line. It takes no memory.
///
/// ```
/// assert!(rt; number(b"-7") == Some(-7));
/// assert!(rt; number(b"7 ").is_none());
/// ```
pub fn number(line: &[u8]) -> Option<i64>
    ensures { (n : ℤ) → (result ≡ Some n) ↔ Reads line.now n }
{
    match str::from_utf8(line) {
        Ok(text) => text.parse::<i64>().ok(),
        Err(_) => None,
    }
}
