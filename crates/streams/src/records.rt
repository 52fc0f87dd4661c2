//! The records of an input: values of JSON one after another, or the members of an array.
//!
//! ```
//! let mut position = Position::Outside;
//! let mut value = Vec::new(alloc);
//! for _ in 0..u64::MAX {
//!     match next_record(&mut input, &mut position, &mut value, MAX_LINE)? {
//!         TakenRecord::Record => write_bytes(&mut output, &value)?,
//!         TakenRecord::TooLong | TakenRecord::Unclosed => return Ok(false),
//!         TakenRecord::End => return Ok(true),
//!     }
//! }
//! ```
mod part;
mod position;
mod read;
mod step;
mod taken_record;

pub use position::Position;
pub use read::next_record;
pub use taken_record::TakenRecord;
