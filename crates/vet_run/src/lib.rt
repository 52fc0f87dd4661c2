//! Checks records of JSON, one on a line, against rules as text: which records break a rule, and
//! why.
#![tactic(auto)]

mod annotations;
mod bytes;
mod counts;
mod document;
mod first_blocks;
mod github;
mod input_format;
mod job;
mod judgement;
pub mod laws;
mod line;
mod mark;
mod object;
mod piece;
mod place;
mod read_summary;
mod record;
mod rule_fault;
mod rules_fault;
mod rules_file;
mod run;
mod run_streams;
pub mod settings;
mod summary;
mod summary_json;
mod summary_lines;
mod tally;
mod workspace;
mod xml;

pub use counts::Counts;
pub use document::junit;
pub use input_format::InputFormat;
pub use job::Job;
pub use mark::take_mark;
pub use read_summary::ReadSummaryError;
pub use rule_fault::RuleFault;
pub use rules_fault::RulesFault;
pub use rules_file::{ReadChecksError, read_checks};
pub use run::run_records;
pub use run_streams::Streams;
pub use streams::RunFault;
pub use summary::{NoSum, RuleCount, Summary};
pub use tally::Tally;
