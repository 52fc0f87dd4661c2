//! Descriptions of predicates, and the cases that explain their verdicts.
//!
//! ```
//! use predicates::reflection::{PredicateReflection, render};
//!
//! let text = predicate.to_string(alloc)?;
//! let parts = predicate.children(alloc)?;
//! if let Some(case) = predicate.find_case(alloc, false, &item)? {
//!     println!(rt; "{}", render(alloc, &case)?)?;
//! }
//! ```
ghost use Rattle.std.specs.Prelude.{◌≡◌, List, [], IfOk, IsOk};
ghost use Rattle.predicates_reflection.specs.Label.{Product, FitsProducts};
ghost use Rattle.predicates_reflection.specs.Tree.{Forest, empty, forest};
ghost use Rattle.predicates_reflection.specs.Parts.{Part, FitsParts, IsPart};

mod case;
mod child;
mod parameter;
mod product;
mod text;

use crate::as_static_str::AsStaticStr;
use crate::printing::printed;
pub use case::{Case, CaseChild, CaseChildren, CaseView};
pub use child::Child;
pub use parameter::Parameter;
pub use product::Product;
use std::alloc::{AllocError, Global};
use std::fmt;
pub use text::{render, render_onto};

/// A printed text, the values that a predicate was made with, and its parts.
///
/// Both calls take memory for what they answer, and none where there is nothing to list.
pub trait PredicateReflection: fmt::Display {
    // The values that `parameters` is to give, in order.
    ghost parameters_of: { Self → List Product };

    // The parts that `children` is to give, in order, each down to its leaves.
    ghost children_of: { Self → Forest Part };

    /// The values that the predicate was made with, in order. Where there are none it cannot fail.
    fn parameters(&self, alloc: Global) -> Result<Vec<Parameter>, AllocError>
        ensures fits { IfOk result (λ ps. FitsProducts (parameters_of self.now) ps.items) }
        ensures none { parameters_of self.now ≡ [] → IsOk result };

    /// The parts that the predicate is made of, in order. Where there are none it cannot fail.
    fn children(&self, alloc: Global) -> Result<Vec<Child>, AllocError>
        ensures fits { IfOk result (λ cs. FitsParts (children_of self.now) (forest cs.items)) }
        ensures none { children_of self.now ≡ empty → IsOk result };
}

/// The description of a part that stands under a name: its printed text, its parameters and its own
/// parts, down to the leaves. It takes memory for all of these, and fails where that runs out.
///
/// ```
/// let part = describe(alloc, "left", &predicate::ge(5))?;
/// assert!(rt; part.name() == "left" && part.text() == "var >= 5");
/// ```
pub fn describe<P: PredicateReflection, N: AsStaticStr + Copy>(
    alloc: Global,
    name: N,
    part: &P,
) -> Result<Child, AllocError>
    ensures { IfOk result
        (IsPart (N.bytes name) (P.output part.now) (P.parameters_of part.now)
        (P.children_of part.now)) }
{
    Ok(Child::new(
        name.text(),
        printed(alloc, part)?,
        part.parameters(alloc)?,
        part.children(alloc)?,
    ))
}
