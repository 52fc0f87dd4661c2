//! What the helpers of tests take, and values that they own.
use std::process::Abort;

/// The runtime of a test, which ends the test and has memory.
pub trait Host: Abort + AllocGlobal {}

impl<R: Abort + AllocGlobal> Host for R {}

/// The value in a box.
pub fn in_box<T: Drop>(rt: &impl Host, value: T) -> Box<T> {
    Box::new(rt.alloc(), value).expect(rt, "memory")
}

/// These members.
pub fn vec_of<T: Copy>(rt: &impl Host, members: &[T]) -> Vec<T> {
    Vec::from_slice(rt.alloc(), members).expect(rt, "memory")
}
