//! What holds a text that is there for good.
//!
//! ```
//! let plain = predicate::eq(5).name("five");
//! let boxed = predicate::always::<i64>().name(StaticText::new("any"));
//! ```

ghost use Rattle.std.specs.Prelude.{◌≡◌, ℕ, List};

use crate::static_text::StaticText;

/// A text that is there for good: the name of a predicate. A `&'static str` is one, and so is a
/// `StaticText`, whose type names no lifetime.
pub trait AsStaticStr {
    // The bytes of the text.
    ghost bytes: { Self → List ℕ };

    /// The text itself. It takes no memory.
    ///
    /// ```
    /// assert!(rt; StaticText::new("any").text() == "any");
    /// ```
    fn text(&self) -> &'static str
        ensures { result.now ≡ bytes self.now };
}

impl AsStaticStr for &'static str {
    ghost bytes = { λ s. s.now };

    fn text(&self) -> &'static str {
        *self
    }
}

impl AsStaticStr for StaticText {
    ghost bytes = { λ s. s };

    fn text(&self) -> &'static str {
        self.as_str()
    }
}
