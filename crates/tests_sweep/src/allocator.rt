//! Words with the allocator of `refused/`, which refuses the requests that it is ordered to refuse.
//!
//! A word is a request for a block of a size that nothing else requests. That allocator says yes by
//! refusing it. Any other one serves it, which is a no, and the block goes back at once.
use std::alloc::Global;

const LISTENS: usize = 17_000_001;

const IS_LEVEL: usize = 17_000_002;

const WAS_REFUSED: usize = 17_000_003;

const TAKE_LEVEL: usize = 17_000_004;

// And the number of the request that is to be refused.
const REFUSE: usize = 18_000_000;

const REFUSE_FROM: usize = 19_000_000;

fn says_yes(alloc: Global, word: usize) -> bool {
    Vec::<u8>::with_capacity(alloc, word).is_err()
}

/// Whether it is the allocator that refuses requests on demand.
pub fn listens(alloc: Global) -> bool {
    says_yes(alloc, LISTENS)
}

/// Has the request of this number refused, counted from here, alone or with each one after it.
pub fn refuse(alloc: Global, nth: u16, alone: bool) {
    let word = if alone { REFUSE } else { REFUSE_FROM };
    says_yes(alloc, word + usize::from(nth));
}

/// Ends the refusals, and says whether there was one.
pub fn was_refused(alloc: Global) -> bool {
    says_yes(alloc, WAS_REFUSED)
}

/// Counts the blocks that are there.
pub fn take_level(alloc: Global) {
    says_yes(alloc, TAKE_LEVEL);
}

/// Whether there are as many blocks as were counted.
pub fn is_level(alloc: Global) -> bool {
    says_yes(alloc, IS_LEVEL)
}
