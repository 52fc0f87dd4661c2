//! Nodes of cases, from their printed text and their parts.
//!
//! ```
//! let text = printed(alloc, self)?;
//! Ok(Some(unary_node(alloc, text, expected, "predicate", part)?))
//! ```
//!
//! A call fails only where memory runs out, and then drops its arguments.
ghost use Rattle.std.specs.Prelude.{◌≡◌, [], ◌∷◌, codes, Some, IfOk, string_bytes};
ghost use Rattle.predicates_core.specs.Shows.{IsNode, found_parts};
ghost use Rattle.predicates_core.specs.Details.{with_products};
ghost use Rattle.predicates_core.specs.Leaves.{IsShowing};

use crate::reflection::{Case, Product};
pub use predicates_reflection::printing::printed;
use std::alloc::{AllocError, Global};
use std::fmt;

/// A node without products and children. It takes no memory.
///
/// ```
/// let case = leaf_node(alloc, "never".to_owned(alloc)?, false);
/// assert!(rt; !case.root().result());
/// ```
#[inline(always)] // a call would copy the case
pub fn leaf_node(alloc: Global, text: String, outcome: bool) -> Case
    ensures { IsNode (Some (string_bytes text)) outcome [] result }
{
    Case::new(alloc, Some(text), outcome)
}

/// A node over one part, which stands under the name.
///
/// ```
/// let part = leaf_node(alloc, "a".to_owned(alloc)?, false);
/// let whole = unary_node(alloc, "(! a)".to_owned(alloc)?, true, "predicate", part)?;
/// let lines = render(alloc, &whole)?;
/// assert!(rt; lines.as_str() == "(! a) = true\n  predicate: a = false\n");
/// ```
pub fn unary_node(
    alloc: Global,
    text: String,
    outcome: bool,
    name: &'static str,
    part: Case,
) -> Result<Case, AllocError>
    ensures { IfOk result
        (IsNode (Some (string_bytes text)) outcome ((name.entry.now, part) ∷ [])) }
{
    leaf_node(alloc, text, outcome).add_child(name, part)
}

/// A node over a left and a right part, under the names `left` and `right`.
///
/// ```
/// let (a, b) = ("a".to_owned(alloc)?, "b".to_owned(alloc)?);
/// let (left, right) = (leaf_node(alloc, a, true), leaf_node(alloc, b, true));
/// let whole = binary_node(alloc, "(a && b)".to_owned(alloc)?, true, left, right)?;
/// assert!(rt; whole.root().children().count() == 2);
/// ```
pub fn binary_node(
    alloc: Global,
    text: String,
    outcome: bool,
    left: Case,
    right: Case,
) -> Result<Case, AllocError>
    ensures { IfOk result
        (IsNode (Some (string_bytes text)) outcome
        ((codes "left", left) ∷ (codes "right", right) ∷ [])) }
{
    leaf_node(alloc, text, outcome)
        .add_child("left", left)?
        .add_child("right", right)
}

/// A node over the parts whose cases were found: the left one, the right one, both or none.
///
/// ```
/// let right = leaf_node(alloc, "b".to_owned(alloc)?, false);
/// let whole = binary_node_of(alloc, "(a && b)".to_owned(alloc)?, false, None, Some(right))?;
/// let lines = render(alloc, &whole)?;
/// assert!(rt; lines.as_str() == "(a && b) = false\n  right: b = false\n");
/// ```
#[inline(never)]
pub fn binary_node_of(
    alloc: Global,
    text: String,
    outcome: bool,
    left: Option<Case>,
    right: Option<Case>,
) -> Result<Case, AllocError>
    ensures { IfOk result
        (IsNode (Some (string_bytes text)) outcome (found_parts left right)) }
{
    match (left, right) {
        (Some(left), Some(right)) => binary_node(alloc, text, outcome, left, right),
        (Some(left), None) => unary_node(alloc, text, outcome, "left", left),
        (None, Some(right)) => unary_node(alloc, text, outcome, "right", right),
        (None, None) => Ok(leaf_node(alloc, text, outcome)),
    }
}

/// Adds a product to the root, behind those that are there. The value is moved into the case.
///
/// ```
/// let case = leaf_node(alloc, "even".to_owned(alloc)?, false);
/// let case = showing(case, "remainder", "1".to_owned(alloc)?)?;
/// let lines = render(alloc, &case)?;
/// assert!(rt; lines.as_str() == "even = false\n  - remainder: 1\n");
/// ```
#[inline(always)] // a call would copy the case
pub fn showing(case: Case, name: &'static str, value: String) -> Result<Case, AllocError>
    ensures { IfOk result (IsShowing name.entry.now (Some (string_bytes value)) case) }
{
    case.add_product(Product::new(name, value))
}

/// Adds the products to the root, behind those that are there and in their order. They are moved
/// into the case.
///
/// ```
/// let mut products = Vec::new(alloc);
/// products.push(Product::new("quotient", "3".to_owned(alloc)?))?;
/// products.push(Product::new("remainder", "1".to_owned(alloc)?))?;
/// let case = leaf_node(alloc, "even".to_owned(alloc)?, false);
/// let lines = render(alloc, &showing_all(case, products)?)?;
/// assert!(rt; lines.as_str() == "even = false\n  - quotient: 3\n  - remainder: 1\n");
/// ```
pub fn showing_all(case: Case, products: Vec<Product>) -> Result<Case, AllocError>
    ensures { IfOk result (λ c. c ≡ with_products case products.items) }
{
    let mut shown = case;
    for product in products {
        shown = shown.add_product(product)?;
    }
    Ok(shown)
}

/// Adds a product to the root, behind those that are there. The text is copied.
///
/// ```
/// let case = leaf_node(alloc, "is text".to_owned(alloc)?, false);
/// let case = showing_text(alloc, case, "error", "invalid")?;
/// let lines = render(alloc, &case)?;
/// assert!(rt; lines.as_str() == "is text = false\n  - error: invalid\n");
/// ```
#[inline(always)] // a call would copy the case
pub fn showing_text(
    alloc: Global,
    case: Case,
    name: &'static str,
    text: &str,
) -> Result<Case, AllocError>
    ensures { IfOk result (IsShowing name.entry.now (Some text.now) case) }
{
    showing(case, name, String::from_str(alloc, text)?)
}

/// Adds the item's debug form as the product `var`, behind those that are there.
///
/// ```
/// let case = leaf_node(alloc, "var >= 5".to_owned(alloc)?, false);
/// let case = showing_item(alloc, case, &3)?;
/// let lines = render(alloc, &case)?;
/// assert!(rt; lines.as_str() == "var >= 5 = false\n  - var: 3\n");
/// ```
pub fn showing_item<T: fmt::Debug>(alloc: Global, case: Case, item: &T) -> Result<Case, AllocError>
    ensures { IfOk result (IsShowing (codes "var") (T.debug_output item.now) case) }
{
    case.add_product(Product::new("var", format!(in alloc; "{item:?}")?))
}
