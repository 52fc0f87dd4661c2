//! Calls that make no request for memory.
ghost use Rattle.std.specs.Prelude.{◌≡◌, true, IfOk};

use crate::allocator;
use crate::wrong::{Wrong, require};
use std::alloc::Global;

/// The time in which no request for memory may be made.
#[derive(Drop)]
pub struct Without<'a> {
    name: &'a str,
}

/// From here on each request is refused.
pub fn refusing(alloc: Global, name: &str) -> Without<'_> {
    allocator::refuse(alloc, 1, false);
    Without { name }
}

impl Without<'_> {
    /// No request was made, and the answer is right.
    pub fn end<R: AllocGlobal + Print>(self, rt: &R, right: bool) -> Result<(), Wrong>
        ensures { IfOk result (λ _. right ≡ true) }
    {
        let alloc = rt.alloc();
        let listens = allocator::listens(alloc);
        let requested = listens && allocator::was_refused(alloc);
        let name = self.name;
        require(alloc, name, !requested, "it requests memory", 0)?;
        require(alloc, name, right, "another answer", 0)?;
        if listens {
            println!(rt; "{name}: without memory")?;
        }
        Ok(())
    }
}
