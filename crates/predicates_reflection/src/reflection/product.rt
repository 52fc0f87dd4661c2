//! A named value that a case shows.
ghost use Rattle.std.specs.Prelude.{◌≡◌, string_bytes};

use crate::static_text::StaticText;
use std::marker::Model;

/// A named value that a case shows, such as the item under `var`.
#[derive(Drop)]
pub struct Product {
    name: StaticText,
    value: String,
}

impl Model for Product {
    ghost use Rattle.std.specs.Prelude.{string_bytes};
    ghost use Rattle.predicates_reflection.specs.Describe.{NamedBytes};

    ghost Value = { NamedBytes };

    ghost view = { λ p. (p.name, string_bytes p.value) };
}

impl Product {
    /// The value under the name; both are kept as they are.
    ///
    /// ```
    /// let product = Product::new("var", "3".to_owned(alloc)?);
    /// assert!(rt; product.name() == "var" && product.value() == "3");
    /// ```
    pub fn new(name: &'static str, value: String) -> Product
        ensures { result ≡ (name.entry.now, string_bytes value) }
    {
        Product {
            name: StaticText::new(name),
            value,
        }
    }

    /// The name that the value stands under.
    ///
    /// ```
    /// assert!(rt; Product::new("var", "3".to_owned(alloc)?).name() == "var");
    /// ```
    pub fn name(&self) -> &'static str
        ensures { result.now ≡ self.now.0 }
    {
        self.name.as_str()
    }

    /// The value, as it is printed.
    ///
    /// ```
    /// assert!(rt; Product::new("var", "3".to_owned(alloc)?).value() == "3");
    /// ```
    pub fn value(&self) -> &str
        ensures { result.now ≡ self.now.1 }
    {
        self.value.as_str()
    }
}
