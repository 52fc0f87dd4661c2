//! What would have to change for a verdict to turn.
ghost use Rattle.std.specs.Prelude.{IfOk};
ghost use Rattle.predicates_core.specs.Change.{IsFoundChange};

use crate::Predicate;
use crate::reflection::Case;
use std::alloc::{AllocError, Global};

/// A predicate that can show what would turn its verdict.
pub trait PredicateChange<Item>: Predicate<Item> {
    /// What would turn the verdict, where it is the wanted one, or whichever it is where none is
    /// wanted: the predicate cut down to the first of all minimal changes. A change is a set of
    /// leaves: where exactly these answer otherwise, and all others as they do, the verdict turns.
    /// A minimal one contains no other, and the first is that whose leaves stand furthest left.
    ///
    /// So the case of a false `and` has each part that is false, and that of a false `or` its first
    /// part alone; each node has its present result. Each leaf is asked to `explain` once.
    ///
    /// It takes memory for the case, and what `explain` takes. The one error is that memory ran
    /// out: there is then no answer, and the predicate is as before.
    ///
    /// ```
    /// let between = predicate::ge(5).and(predicate::le(10));
    /// let change = between.find_change(alloc, None, &7)?.ok_or("no change")?;
    /// let lines = "(var >= 5 && var <= 10) = true\n  left: var >= 5 = true\n    - var: 7\n";
    /// assert!(rt; render(alloc, &change)?.as_str() == lines);
    /// ```
    fn find_change(
        &self,
        alloc: Global,
        wanted: Option<bool>,
        item: &Item,
    ) -> Result<Option<Case>, AllocError>
        requires { Self.lawful self.now }
        ensures { IfOk result (IsFoundChange (Self.formula self.now item.now) wanted) };
}
