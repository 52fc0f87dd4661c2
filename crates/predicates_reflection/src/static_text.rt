//! Texts that are there for good, held without a lifetime.
//!
//! ```
//! let any = predicate::always::<i64>().name(StaticText::new("any"));
//! ```

ghost use Rattle.std.specs.Prelude.{◌≡◌, ℕ, List, length, ◌^◌, ◌<◌};
ghost use denote.RawPtr.{Ptr};
ghost use Rattle.predicates_reflection.specs.Ownership.{IsPlaced, static_bytes_own};

use std::marker::Model;
use std::{slice, str};

// The right to read `items` at `ptr` for good. It takes no memory.
#[derive(Drop)]
struct StaticBytes {
    ghost ptr: { Ptr },
    ghost items: { List ℕ },
    ghost placed: { IsPlaced ptr × (length items < 2 ^ 63) },
}

impl Model for StaticBytes {
    ghost also_owns = { λ s. static_bytes_own s.ptr s.items };

    ghost also_shares = { λ s _ _. static_bytes_own s.ptr s.items };
}

impl StaticBytes {
    fn forever(bytes: &'static [u8]) -> (*const u8, StaticBytes)
        ensures { (result.1.ptr ≡ result.0) × (result.1.items ≡ bytes.now) }
    {
        (bytes.as_ptr(), StaticBytes {})
    }

    fn read(&self, ptr: *const u8, len: usize) -> &'static [u8]
        requires { (self.now.ptr ≡ ptr) × (length self.now.items ≡ len) }
        ensures { result.now ≡ self.now.items }
    {
        unsafe { slice::from_raw_parts(ptr, len) }
    }
}

/// A text that is there for good, in a type that names no lifetime. A clause sees its bytes.
///
/// It is moved and never copied: to have it twice, make it twice of one `&'static str`.
#[derive(Drop)]
pub struct StaticText {
    at: *const u8,
    len: usize,
    seen: StaticBytes,
}

impl Model for StaticText {
    ghost use Rattle.std.specs.Prelude.{◌≡◌, ℕ, List, length, IsUtf8};

    ghost Value = { List ℕ };

    ghost view = { λ t. t.seen.items };

    ghost invariant = { λ t. (t.seen.ptr ≡ t.at) × (length t.seen.items ≡ t.len)
        × IsUtf8 t.seen.items };
}

impl StaticText {
    /// Holds `text`. It takes no memory and cannot fail.
    ///
    /// ```
    /// let name = StaticText::new("any");
    /// assert!(rt; name.as_str() == "any");
    /// ```
    pub fn new(text: &'static str) -> StaticText
        ensures { result ≡ text.now }
    {
        let bytes = text.as_bytes();
        let (at, seen) = StaticBytes::forever(bytes);
        StaticText {
            at,
            len: bytes.len(),
            seen,
        }
    }

    /// The text, which is still there once `self` is gone.
    ///
    /// ```
    /// assert!(rt; StaticText::new("any").as_str() == "any");
    /// ```
    pub fn as_str(&self) -> &'static str
        ensures { result.now ≡ self.now }
    {
        let bytes = self.seen.read(self.at, self.len);
        unsafe { str::from_utf8_unchecked(bytes) }
    }
}
