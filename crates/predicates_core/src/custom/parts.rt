//! Verdicts and cases of several predicates of one item.
ghost use Rattle.std.specs.Prelude.{◌≡◌, ℕ, [], List, IfOk, IsOk};
ghost use Rattle.std.specs.List.{AllByRecursion};
ghost use Rattle.predicates_core.specs.Change.{IsFoundChange};
ghost use Rattle.predicates_core.specs.Formula.{HasTruth};
ghost use Rattle.predicates_core.specs.Label.{Entry};
ghost use Rattle.predicates_core.specs.Parts.{FitsParts, part_of_each};
ghost use Rattle.predicates_core.specs.Shows.{IsAnswer, IsFound};
ghost use Rattle.predicates_core.specs.Thresholds.{IsOfThreshold};
ghost use Rattle.predicates_core.specs.Tree.{forest};

use crate::custom::ask::{Changes, OfItem, Reasons};
use crate::custom::threshold::{Counting, counted, counted_case, counted_hold};
use crate::reflection::{Case, Child, PredicateReflection, describe};
use crate::{Predicate, PredicateChange};
use std::alloc::{AllocError, Global};
use std::fmt;

/// The `eval` of a predicate that holds where at least so many of its parts do. It stops at the
/// part that decides.
///
/// ```
/// let rules = [predicate::ge(5), predicate::le(10), predicate::gt(7)];
/// assert!(rt; parts_hold(alloc, 2, &rules, &7)?);
/// ```
pub fn parts_hold<P: Predicate<Item>, Item>(
    alloc: Global,
    least: usize,
    parts: &[P],
    item: &Item,
) -> Result<bool, AllocError>
    requires { AllByRecursion P.lawful parts.now }
    ensures truth { IfOk result (λ held. (text : Entry) (name : List ℕ)
        → HasTruth (IsOfThreshold least text name (λ p. P.formula p item.now) parts.now) held) }
    ensures infallible { AllByRecursion (λ p. P.infallible p item.now) parts.now → IsOk result }
{
    counted_hold::<OfItem, Item, P>(alloc, least, item, parts)
}

/// The `find_case` of such a predicate. The node has the cases of the first parts that decide, each
/// under the name.
pub fn parts_case<W: fmt::Display, P: Predicate<Item>, Item>(
    alloc: Global,
    list: Counting<'_, W>,
    parts: &[P],
    expected: bool,
    item: &Item,
) -> Result<Option<Case>, AllocError>
    requires { AllByRecursion P.lawful parts.now }
    ensures { IfOk result (IsAnswer (IsOfThreshold list.entry.least
        (W.output list.entry.whole.now) list.entry.name.now
        (λ p. P.formula p item.now) parts.now) expected) }
{
    counted_case::<W, OfItem, Item, P>(alloc, list, item, expected, parts)
}

/// The `explain` of such a predicate.
pub fn parts_explained<W: fmt::Display, P: Predicate<Item>, Item>(
    alloc: Global,
    list: Counting<'_, W>,
    parts: &[P],
    wanted: Option<bool>,
    item: &Item,
) -> Result<Option<Case>, AllocError>
    requires { AllByRecursion P.lawful parts.now }
    ensures { IfOk result (IsFound (IsOfThreshold list.entry.least
        (W.output list.entry.whole.now) list.entry.name.now
        (λ p. P.formula p item.now) parts.now) wanted) }
{
    counted::<Reasons, W, OfItem, Item, P>(alloc, list, item, wanted, parts)
}

/// The `find_change` of such a predicate. Of the parts with the whole's verdict, as many as turn it
/// are shown, the first ones. Where the number alone decides, no part is asked; otherwise each is
/// asked once, and memory is taken for every change that is found.
pub fn parts_change<W: fmt::Display, P: PredicateChange<Item>, Item>(
    alloc: Global,
    list: Counting<'_, W>,
    parts: &[P],
    wanted: Option<bool>,
    item: &Item,
) -> Result<Option<Case>, AllocError>
    requires { AllByRecursion P.lawful parts.now }
    ensures { IfOk result (IsFoundChange (IsOfThreshold list.entry.least
        (W.output list.entry.whole.now) list.entry.name.now
        (λ p. P.formula p item.now) parts.now) wanted) }
{
    counted::<Changes, W, OfItem, Item, P>(alloc, list, item, wanted, parts)
}

/// The descriptions of several parts under one name, for `children`.
///
/// ```
/// let rules = [predicate::ge(5), predicate::le(10)];
/// assert!(rt; each_child(alloc, "rule", &rules)?.len() == 2);
/// ```
pub fn each_child<P: PredicateReflection>(
    alloc: Global,
    name: &'static str,
    parts: &[P],
) -> Result<Vec<Child>, AllocError>
    ensures fits { IfOk result (λ children. FitsParts
        (part_of_each name.entry.now P.output P.parameters_of P.children_of parts.now)
        (forest children.items)) }
    ensures none { parts.now ≡ [] → IsOk result }
{
    let mut children = Vec::new(alloc);
    for part in parts {
        children.push(describe(alloc, name, part)?)?;
    }
    Ok(children)
}
