//! Boolean checks that explain their answers.
//!
//! ```
//! use predicates::prelude::*;
//!
//! let between = predicate::ge(5).and(predicate::le(10));
//! assert!(rt; between.eval(alloc, &7)?);
//! let case = between.find_case(alloc, false, &11)?.ok_or("it holds")?;
//! let lines = render(alloc, &case)?;
//! ```
//!
//! The lines show what decided, and nothing else:
//!
//! ```text
//! (var >= 5 && var <= 10) = false
//!   right: var <= 10 = false
//!     - var: 11
//! ```
//!
//! # Choosing a predicate
//!
//! Of any item: `always`, `never`; `eq`, `ne`, `lt`, `le`, `ge`, `gt`; `in_iter`, `in_hash` and
//! `InPredicate::sort`; `function` over a function or a closure. Of a list: `same_members`.
//!
//! Over other predicates: `and`, `or`, `xor`, `not`, and `name`; `all_of`, `any_of`, `at_least`,
//! `at_most` and `exactly` over a list of them. Of parts of an item: `of`, `of_ref`, `of_some_ref`
//! and `of_field`; `of_some`, `of_ok` and `of_err` of what an `Option` or a `Result` holds;
//! `of_each`, `of_any`, `of_at_least`, `of_at_most`, `of_exactly` and `of_len` of a list.
//!
//! Of texts: `str::is_empty`, `str::starts_with`, `str::ends_with`, `str::contains` and its
//! `count`, `str::is_match` and its `count`, `str::eq_ignore_case`; `trim`, `normalize` and
//! `fold_case` over a predicate of texts, and `from_utf8`, which makes of it one of bytes.
//!
//! Of paths, over a `Snapshot`: `path::exists`, `path::missing`, `path::is_file`, `path::is_dir`,
//! `path::is_symlink`, `path::eq_file`; `from_file_path` over a predicate of bytes.
//!
//! Of your own: `custom::leaf` over a test of an item; the rest of `custom` makes the cases and
//! descriptions of other custom predicates.
//!
//! # Checking
//!
//! `check::require` makes an error of a predicate that does not hold, `check::failures` says which
//! of many rules do not, `check::sift` keeps the items of which one holds, and `check::check_all`
//! says which of many expectations are not met. Each gives the case that explains why.
//! `check::require_all` makes one error of all expectations that are not met.
//!
//! # Memory
//!
//! A call that may take memory takes the allocator and returns a `Result`. `eval` and `find_case`
//! fail only where memory is refused. A predicate that is infallible on an item, as a comparison is
//! on every item, takes no memory to evaluate it.
#![tactic(auto)]

mod boxed;
pub mod laws;
pub mod prelude;
pub mod semantics;

pub use boxed::{BoxPredicate, TextPredicate};
pub use predicates_boolean::{boolean, rules, threshold};
pub use predicates_core::{
    Content, Predicate, PredicateChange, ReadsContent, Total, as_static_str, custom,
    default_find_case, name, node, reflection, static_text,
};
pub use predicates_item::{constant, function, iter, ord};
pub use predicates_part as part;
pub use predicates_path as path;
pub use predicates_require as check;
pub use predicates_text as str;
