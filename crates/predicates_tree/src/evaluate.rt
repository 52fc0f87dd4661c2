//! Predicates that are evaluated with what a run keeps.
ghost use Rattle.std.specs.Prelude.{◌≡◌, IfOk, IsOk};
ghost use Rattle.predicates_core.specs.Formula.{HasTruth};

use predicates_core::Predicate;
use std::alloc::{AllocError, Global};

/// A predicate whose `eval` can use what a run over many items keeps for it, such as the matchers
/// of its patterns.
///
/// Every predicate is one with `NoContext`.
pub trait EvaluateWith<Item, Context>: Predicate<Item> {
    // What a call may make of what the run keeps.
    ghost keeps: { Context → Context → Type 0 } = { λ _ _. Unit {0} };

    /// As `eval`, with what the run keeps. Only the time and the memory that it takes depend on
    /// that.
    fn eval_with(
        &self,
        alloc: Global,
        context: &mut Context,
        item: &Item,
    ) -> Result<bool, AllocError>
        requires { Self.lawful self.now }
        ensures truth { IfOk result (HasTruth (Self.formula self.now item.now)) }
        ensures infallible { Self.infallible self.now item.now → IsOk result }
        ensures keeps { keeps context.old context.new };
}

/// What a run keeps for predicates that need nothing.
#[derive(Debug, Clone, Copy, PartialEq, Eq, Drop)]
pub struct NoContext;

impl<P: Predicate<Item>, Item> EvaluateWith<Item, NoContext> for P {
    ghost keeps = { λ before after. after ≡ before };

    fn eval_with(
        &self,
        alloc: Global,
        _context: &mut NoContext,
        item: &Item,
    ) -> Result<bool, AllocError> {
        self.eval(alloc, item)
    }
}
