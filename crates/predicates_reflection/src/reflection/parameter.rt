//! A named value that a predicate was made with.
ghost use Rattle.std.specs.Prelude.{◌≡◌, string_bytes};

use crate::static_text::StaticText;
use std::marker::Model;

/// A named value that a predicate was made with, such as a set count.
#[derive(Drop)]
pub struct Parameter {
    name: StaticText,
    value: String,
}

impl Model for Parameter {
    ghost use Rattle.std.specs.Prelude.{string_bytes};
    ghost use Rattle.predicates_reflection.specs.Describe.{NamedBytes};

    ghost Value = { NamedBytes };

    ghost view = { λ p. (p.name, string_bytes p.value) };
}

impl Parameter {
    /// The value under the name; both are kept as they are.
    ///
    /// ```
    /// let parameter = Parameter::new("count", "2".to_owned(alloc)?);
    /// assert!(rt; parameter.name() == "count" && parameter.value() == "2");
    /// ```
    pub fn new(name: &'static str, value: String) -> Parameter
        ensures { result ≡ (name.entry.now, string_bytes value) }
    {
        Parameter {
            name: StaticText::new(name),
            value,
        }
    }

    /// The name that the value stands under.
    ///
    /// ```
    /// assert!(rt; Parameter::new("count", "2".to_owned(alloc)?).name() == "count");
    /// ```
    pub fn name(&self) -> &'static str
        ensures { result.now ≡ self.now.0 }
    {
        self.name.as_str()
    }

    /// The value, as it is printed.
    ///
    /// ```
    /// assert!(rt; Parameter::new("count", "2".to_owned(alloc)?).value() == "2");
    /// ```
    pub fn value(&self) -> &str
        ensures { result.now ≡ self.now.1 }
    {
        self.value.as_str()
    }
}
