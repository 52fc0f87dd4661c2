//! Laws of predicates, as contracts of calls that do nothing and take no memory.
//!
//! ```
//! // From here on a proof knows that the name changes neither the verdict nor the leaves.
//! laws::named(&check, &item, "policy");
//! ```

mod rewriting;

pub use predicates_core::laws::{
    each_meets_each, enough_children, first_changes, first_reasons, minimal_reasons, one_child,
};
pub use rewriting::{
    complements, de_morgan, double_negation, exclusive_or, memberships, named, one_case,
    one_verdict, same_function,
};
