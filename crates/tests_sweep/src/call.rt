//! A call whose requests for memory are refused in turn.
use std::alloc::{AllocError, Global};

/// What a call answers, which a row compares as a text.
pub trait Rendered: Drop {
    /// The answer as a text, with ample memory.
    fn rendered(&self, alloc: Global) -> Result<String, AllocError>;
}

/// A call that may request memory.
pub trait Call {
    // It may be made.
    ghost ready: { Self → Type 0 } = { λ _. Unit {0} };

    /// What the call takes and uses up.
    type Operand: Drop;

    /// What the call answers.
    type Answer: Rendered;

    /// Makes the operand, with ample memory.
    fn operand(&self, alloc: Global) -> Result<Self::Operand, AllocError>;

    /// Makes the call. Each error that says that memory ran out comes as this one.
    fn call(&self, alloc: Global, operand: Self::Operand) -> Result<Self::Answer, AllocError>
        requires { ready self.now };
}

/// What a call does with a request that is refused.
#[derive(Clone, Copy, PartialEq)]
pub enum Memory {
    /// It makes none.
    Never,
    /// It answers that memory ran out.
    Taken,
    /// That, where it requests any.
    Perhaps,
    /// A library under it may go on by other means; the answer is then right.
    GoesOn,
}
