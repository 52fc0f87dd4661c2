//! What became of a run.
use std::alloc::{AllocError, Global};
use std::str;
use streams::RunFault;
use tests_sweep::Rendered;

/// How a run ended, unless memory ran out.
#[derive(Drop)]
pub enum EndedRun {
    /// Whether each line was an item or kept the rules, and what was written.
    Wrote(bool, Vec<u8>),
    OtherFault,
}

impl EndedRun {
    /// How a run ended that wrote this, by what it answered. One that tells that it had no memory
    /// for a case ran out of memory.
    pub fn of(ended: Result<bool, RunFault>, written: Vec<u8>) -> Result<EndedRun, AllocError> {
        match ended {
            Ok(_) if tells_refusal(&written) => Err(AllocError),
            Ok(all) => Ok(EndedRun::Wrote(all, written)),
            Err(RunFault::NoMemory) => Err(AllocError),
            Err(_) => Ok(EndedRun::OtherFault),
        }
    }
}

// Whether a run of `vet` tells that there was no memory for a case.
fn tells_refusal(written: &[u8]) -> bool {
    match str::from_utf8(written) {
        Ok(text) => text.contains("no memory to show why") || text.contains("\"case\":null"),
        Err(_) => false,
    }
}

// Whether all did, and below it what was written.
fn render_run(alloc: Global, all: bool, written: &[u8]) -> Result<String, AllocError> {
    match str::from_utf8(written) {
        Ok(written) => format!(in alloc; "{all}\n{written}"),
        Err(_) => String::from_str(alloc, "no text was written"),
    }
}

impl Rendered for EndedRun {
    fn rendered(&self, alloc: Global) -> Result<String, AllocError> {
        match self {
            EndedRun::Wrote(all, written) => render_run(alloc, *all, written.as_slice()),
            EndedRun::OtherFault => String::from_str(alloc, "another fault"),
        }
    }
}
