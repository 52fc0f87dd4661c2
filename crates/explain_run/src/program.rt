//! The program `explain`: what its words ask for, what it writes, and how it ends.

mod command_line;
mod exit;
mod read;
mod runtime;

pub use command_line::run_command_line;
pub use exit::Exit;
pub use runtime::run_program;
