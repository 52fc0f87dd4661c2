//! Verdicts and cases over the members of a list, by one predicate of a member.
ghost use Rattle.std.specs.List.{AllByRecursion};
ghost use Rattle.std.specs.Prelude.{ℕ, List, IfOk, IsOk};
ghost use Rattle.predicates_core.specs.Change.{IsFoundChange};
ghost use Rattle.predicates_core.specs.Formula.{HasTruth};
ghost use Rattle.predicates_core.specs.Label.{Entry};
ghost use Rattle.predicates_core.specs.Shows.{IsAnswer, IsFound};
ghost use Rattle.predicates_core.specs.Thresholds.{IsOfThreshold};

use crate::custom::ask::{ByPredicate, Changes, Reasons};
use crate::custom::threshold::{Counting, counted, counted_case, counted_hold};
use crate::reflection::Case;
use crate::{Predicate, PredicateChange};
use std::alloc::{AllocError, Global};
use std::fmt;

/// The `eval` of a predicate that holds where at least so many of its members do. It stops at the
/// member that decides.
///
/// ```
/// let even = leaf(MultipleOf { divisor: 2 });
/// assert!(rt; members_hold(alloc, 2, &even, &[1, 2, 4])?);
/// ```
pub fn members_hold<P: Predicate<Item>, Item>(
    alloc: Global,
    least: usize,
    part: &P,
    members: &[Item],
) -> Result<bool, AllocError>
    requires { P.lawful part.now }
    ensures truth { IfOk result (λ held. (text : Entry) (name : List ℕ)
        → HasTruth (IsOfThreshold least text name (P.formula part.now) members.now) held) }
    ensures infallible { AllByRecursion (P.infallible part.now) members.now → IsOk result }
{
    counted_hold::<ByPredicate, P, Item>(alloc, least, part, members)
}

/// The `find_case` of such a predicate. The node has the cases of the first members that decide,
/// each under the name.
pub fn members_case<W: fmt::Display, P: Predicate<Item>, Item>(
    alloc: Global,
    list: Counting<'_, W>,
    part: &P,
    expected: bool,
    members: &[Item],
) -> Result<Option<Case>, AllocError>
    requires { P.lawful part.now }
    ensures { IfOk result (IsAnswer (IsOfThreshold list.entry.least
        (W.output list.entry.whole.now) list.entry.name.now
        (P.formula part.now) members.now) expected) }
{
    counted_case::<W, ByPredicate, P, Item>(alloc, list, part, expected, members)
}

/// The `explain` of such a predicate.
pub fn members_explained<W: fmt::Display, P: Predicate<Item>, Item>(
    alloc: Global,
    list: Counting<'_, W>,
    part: &P,
    wanted: Option<bool>,
    members: &[Item],
) -> Result<Option<Case>, AllocError>
    requires { P.lawful part.now }
    ensures { IfOk result (IsFound (IsOfThreshold list.entry.least
        (W.output list.entry.whole.now) list.entry.name.now
        (P.formula part.now) members.now) wanted) }
{
    counted::<Reasons, W, ByPredicate, P, Item>(alloc, list, part, wanted, members)
}

/// The `find_change` of such a predicate. Of the members with the whole's verdict, as many as turn
/// it are shown, the first ones. Where their number alone decides, no member is asked; otherwise
/// each is asked once, and memory is taken for every change that is found.
pub fn members_change<W: fmt::Display, P: PredicateChange<Item>, Item>(
    alloc: Global,
    list: Counting<'_, W>,
    part: &P,
    wanted: Option<bool>,
    members: &[Item],
) -> Result<Option<Case>, AllocError>
    requires { P.lawful part.now }
    ensures { IfOk result (IsFoundChange (IsOfThreshold list.entry.least
        (W.output list.entry.whole.now) list.entry.name.now
        (P.formula part.now) members.now) wanted) }
{
    counted::<Changes, W, ByPredicate, P, Item>(alloc, list, part, wanted, members)
}
