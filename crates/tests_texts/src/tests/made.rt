//! What the helpers of tests take, and values that they own.
use std::process::Abort;

/// The runtime of a test, which ends the test and has memory.
pub trait Host: Abort + AllocGlobal {}

impl<R: Abort + AllocGlobal> Host for R {}

/// These members.
pub fn vec_of<T: Copy>(rt: &impl Host, members: &[T]) -> Vec<T> {
    Vec::from_slice(rt.alloc(), members).expect(rt, "memory")
}

/// These words.
pub fn owned(rt: &impl Host, words: &str) -> String {
    String::from_str(rt.alloc(), words).expect(rt, "memory")
}
