//! The program `vet`: what its words ask for, what it writes, and how it ends.
#![tactic(auto)]

mod colours;
mod command;
mod document;
mod end;
mod flags;
mod format;
mod input_format;
mod inputs;
mod io_fault;
mod length;
mod merge;
mod meter;
mod metered;
mod process;
mod progress;
mod rule_file;
mod shown;
mod stdout;
mod stream_fault;
mod summary_form;
mod tell;
mod terminals;
mod version;
mod wanted;
mod watched;
mod words;
mod words_fault;

pub use process::run_program;
pub use terminals::Terminals;
