//! What the tests of refused memory share: a call, of which each request for memory is refused in
//! turn by the allocator of `refused/`, and rows of such calls of a predicate.
#![tactic(auto)]

mod allocator;
mod answer;
mod call;
mod predicate_calls;
mod refusals;
mod requests;
mod without;
mod written_row;
mod wrong;

pub use answer::Answer;
pub use call::{Call, Memory, Rendered};
pub use predicate_calls::{Row, count_asked_calls, leaf, over, sweep_calls};
pub use refusals::sweep;
pub use requests::count_asked;
pub use without::{Without, refusing};
pub use written_row::WrittenRow;
pub use wrong::Wrong;
