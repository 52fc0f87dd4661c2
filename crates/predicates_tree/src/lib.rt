//! Checks whose shape comes at run time, over leaves of one type.
//!
//! ```
//! let adult = Check::leaf(predicate::ge(18));
//! let retired = Check::leaf(predicate::ge(67)).not(alloc)?;
//! let works = adult.and(alloc, retired)?.name(alloc, "works")?;
//! ```
#![tactic(auto)]

mod answer;
mod build;
mod check;
mod depth;
mod describe;
mod evaluate;
mod hold;
mod members;
mod odd;
mod question;
mod quota;
mod quota_tally;
pub mod semantics;
mod take_apart;
mod view;
mod wording;

pub use check::Check;
pub use evaluate::{EvaluateWith, NoContext};
pub use members::{Members, NoMembers};
pub use quota::Quota;
pub use view::{Items, Listed, NoItems, View};
pub use wording::{Computed, Wording};
