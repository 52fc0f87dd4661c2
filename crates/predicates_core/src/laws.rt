//! Laws of formulas and of their cases, as contracts of calls that do nothing.
//!
//! ```
//! // From here on a proof knows that each formula has exactly one first reason.
//! laws::first_reasons();
//! ```
ghost use Rattle.predicates_core.specs.Change.{EachMeetsEach};
ghost use Rattle.predicates_core.specs.Kinds.{reasons, changes, NoneIsEmpty};
ghost use Rattle.predicates_core.specs.Laws.{EnoughChildren, FirstChanges, FirstReasons, OneChild};
ghost use Rattle.predicates_core.specs.Laws.{MinimalReasons};

/// Each formula has exactly one first reason, and that has at least one leaf. So a case that is cut
/// down to it always shows a leaf.
pub fn first_reasons()
    ensures one { FirstReasons }
    ensures some { NoneIsEmpty reasons }
{}

/// No leaf of a minimal reason can be dropped, and so neither can several at once.
pub fn minimal_reasons()
    ensures { MinimalReasons }
{}

/// Where one part decides a join, the case has exactly one child: that of the first part that does.
/// So a false `and` and a true `or` of any number of parts show one part.
pub fn one_child()
    ensures { OneChild }
{}

/// The case of a threshold of `k` of `n` parts has `k` children where it holds, and `n - k + 1`
/// where it fails: the first parts that decide.
pub fn enough_children()
    ensures { EnoughChildren }
{}

/// Each formula has exactly one first change, and that has at least one leaf. So what would turn a
/// verdict can always be shown.
pub fn first_changes()
    ensures one { FirstChanges }
    ensures some { NoneIsEmpty changes }
{}

/// Each reason of a formula has a leaf of each of its changes. So what leaves one reason as it is
/// turns no verdict.
pub fn each_meets_each()
    ensures { EachMeetsEach }
{}
