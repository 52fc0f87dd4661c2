//! What code that checks with predicates names.
//!
//! ```
//! use predicates::prelude::*;
//!
//! let between = predicate::ge(5).and(predicate::le(10));
//! let case = between.find_case(alloc, false, &11)?.ok_or("it holds")?;
//! let lines = render(alloc, &case)?;
//! ```

pub use crate::{BoxPredicate, laws};
pub use predicates_boolean::boolean::PredicateBooleanExt;
pub use predicates_core::name::PredicateNameExt;
pub use predicates_core::reflection::render;
pub use predicates_core::static_text::StaticText;
pub use predicates_core::{Predicate, PredicateChange};
pub use predicates_part::PredicatePartExt;
pub use predicates_path::{PredicateFileContentExt, Snapshot};
pub use predicates_require::{
    Unmet, add_failure, check_all, expect, failures, require, require_all, require_as,
    require_styled, required_change, sift,
};
pub use predicates_text::PredicateStrExt;

/// The functions that make predicates.
pub mod predicate {
    pub use predicates_boolean::rules::{all_of, any_of};
    pub use predicates_boolean::threshold::{at_least, at_most, exactly};
    pub use predicates_item::constant::{always, never};
    pub use predicates_item::function::function;
    pub use predicates_item::iter::{in_hash, in_iter, same_members};
    pub use predicates_item::ord::{eq, ge, gt, le, lt, ne};

    /// Predicates of texts.
    pub mod str {
        pub use predicates_text::{
            contains, ends_with, eq_ignore_case, is_empty, is_match, starts_with,
        };
    }

    /// Predicates of what stands at a path.
    pub mod path {
        pub use predicates_path::{eq_file, exists, is_dir, is_file, is_symlink, missing};
    }
}
