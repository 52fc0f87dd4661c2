//! What custom predicates are made of: `leaf` over a test of an item, and the verdicts and cases of
//! leaves and of combinators whose formula is that of a combinator of the library.
//!
//! The `find_case` of the library's combinators evaluates once before it asks the parts to
//! `explain` the verdict. So each leaf is evaluated at most twice, however deep the combinators are
//! nested.
//!
//! A combinator over two parts answers each question by one call, and so does one over a list:
//!
//! ```
//! let holds = join_truth(alloc, Operator::Or, &self.left, &self.right, item)?;
//! let join = Join { whole: self, operator: Operator::Or, left: &self.left, right: &self.right };
//! let case = join_explained(alloc, join, wanted, item)?;
//! let change = join_change(alloc, join, wanted, item)?;
//! let children = two_children(alloc, &self.left, &self.right)?;
//!
//! let holds = members_hold(alloc, members.len(), &self.part, members)?;
//! let list = Counting { whole: self, name: "item", least: members.len() };
//! let case = members_explained(alloc, list, &self.part, wanted, members)?;
//! let change = members_change(alloc, list, &self.part, wanted, members)?;
//! ```
mod ask;
mod changes;
mod children;
mod detailed_test;
mod join;
mod leaf_cases;
mod members;
mod named;
mod not;
mod parts;
mod present;
mod quantifier;
mod tally;
mod test_predicate;
mod threshold;

pub use changes::{join_change, leaf_change, named_change, not_change};
pub use children::{one_child, two_children};
pub use detailed_test::{DetailedPredicate, DetailedTest, TestParameters, detailed_leaf};
pub use join::{
    Join, Operator, is_other, join_case, join_explained, join_truth, kept_if, shown_verdict,
};
pub use leaf_cases::{absent_case, bare_case, showing_case};
pub use members::{members_case, members_change, members_explained, members_hold};
pub use named::{named_case, named_explained};
pub use not::{not_case, not_explained, opposite_of};
pub use parts::{each_child, parts_case, parts_change, parts_explained, parts_hold};
pub use present::{present_case, present_change, present_explained, present_holds};
pub use quantifier::{AtLeast, AtLeastOne, Every, HowMany, Quantifier};
pub use tally::{Sought, Tally, Told};
pub use test_predicate::{Test, TestPredicate, leaf};
pub use threshold::{Counting, enough_of, is_absent, is_settled, settled_case, with_index};
