//! Which outputs of a process are terminals.
ghost use Rattle.std.specs.Prelude.{◌≡◌, false};

use std::env::FillError;
use std::rt::Env;

/// Which outputs of a process are terminals.
#[derive(Clone, Copy, Debug, PartialEq, Eq)]
pub struct Terminals {
    pub output: bool,
    pub error: bool,
}

// Whether the variable of this name has a text that is not empty.
fn is_set<E: Env>(rt: &E, name: &str) -> bool {
    match rt.var(name, &mut [0; 1]) {
        Ok(len) => len > 0,
        Err(FillError::TooLong) => true,
        Err(FillError::NotPresent) => false,
    }
}

// Whether the terminal says of itself that it shows characters alone.
fn is_dumb<E: Env>(rt: &E) -> bool {
    let mut name = [0; 5];
    match rt.var("TERM", &mut name) {
        Ok(len) => len == 4 && name.starts_with(b"dumb"),
        Err(_) => false,
    }
}

/// Whether what is written to standard output may be coloured, where nothing is said of it: on a
/// terminal, where the environment has nothing against it.
pub(crate) fn shows_colours<E: Env>(rt: &E, terminals: Terminals) -> bool
    ensures { terminals.output ≡ false → result ≡ false }
{
    terminals.output && !is_set(rt, "NO_COLOR") && !is_dumb(rt)
}
