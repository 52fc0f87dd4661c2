//! An input taken line by line or record by record, an output that grows by bytes, and why a run
//! over them ended early.
//!
//! ```
//! let mut line = Vec::new(alloc);
//! for _ in 0..u64::MAX {
//!     if !next_line(&mut input, &mut line)? {
//!         break;
//!     }
//!     write_bytes(&mut output, &line)?;
//! }
//! flush(&mut output)?;
//! ```
#![tactic(auto)]

mod read;
mod records;
mod run_fault;
mod stderr;
mod taken_line;
mod within;
mod write;

pub use read::next_line;
pub use records::{Position, TakenRecord, next_record};
pub use run_fault::RunFault;
pub use stderr::Stderr;
pub use taken_line::TakenLine;
pub use within::{MAX_LINE, next_line_within};
pub use write::{flush, write_bytes};
