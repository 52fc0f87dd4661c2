//! Verdicts of checks.
ghost use Rattle.std.specs.Prelude.{◌≡◌, ℕ, List, IfOk, IsOk};
ghost use Rattle.std.specs.List.{AllByRecursion};
ghost use Rattle.predicates_core.specs.Formula.{HasTruth};
ghost use Rattle.predicates_core.specs.Label.{Entry};
ghost use Rattle.predicates_tree.specs.Trees.{AllAsked, AllOf, tree_of, Words};
ghost use Rattle.predicates_tree.specs.Trees.{AsksAll, Not, Named, Pair, Members};
ghost use Rattle.predicates_tree.specs.Formulas.{Has, HasFormula, HasOn};
ghost use Rattle.predicates_tree.specs.Kept.{AreSteps};
ghost use Rattle.predicates_tree.specs.Quotas.{IsOfQuota};

use crate::check::Check;
use crate::evaluate::{EvaluateWith, NoContext};
use crate::quota::{Quota, counted};
use crate::view::View;
use crate::wording::Wording;
use predicates_core::Predicate;
use predicates_core::custom::Operator;
use std::alloc::{AllocError, Global};

// The `eval` of the check, with what a run keeps for its leaves.
#[cycle(hold)]
pub(crate) fn holds<L: EvaluateWith<Item, C>, V: View<Item>, S: Wording, Item, C>(
    alloc: Global,
    check: &Check<L, V, S>,
    context: &mut C,
    item: &Item,
) -> Result<bool, AllocError>
    requires { AllOf L.lawful S.words check.now }
    ensures truth { IfOk result (HasTruth
        (Has L.output V.output L.formula V.gives V.absence_of S.words item.now check.now)) }
    ensures infallible { AsksAll L.infallible V.lends V.gives S.words item.now check.now
        → IsOk result }
    ensures keeps { AreSteps L.keeps context.old context.new }
{
    match check {
        Check::Leaf(leaf) => leaf.eval_with(alloc, context, item),
        Check::Not(_, inner) => not_holds(alloc, inner, context, item),
        Check::Named(_, inner) => named_holds(alloc, inner, context, item),
        Check::Pair(_, operator, part, right_part) => {
            let operator = *operator;
            let part: &Check<L, V, S> = part;
            let found = holds(alloc, part, context, item)?;
            let left = Left {
                operator,
                part,
                found,
            };
            pair_holds(alloc, right_part, context, left, item)
        }
        Check::Row(_, quota, parts) => parts_hold(alloc, parts, context, *quota, item),
        Check::Members(_, quota, view, inner) => {
            viewed_hold(alloc, inner, context, *quota, Viewed { view, item })
        }
    }
}

// The `eval` of a check whose leaves keep nothing.
pub(crate) fn verdict<L: Predicate<Item>, V: View<Item>, S: Wording, Item>(
    alloc: Global,
    check: &Check<L, V, S>,
    item: &Item,
) -> Result<bool, AllocError>
    requires { AllOf L.lawful S.words check.now }
    ensures truth { IfOk result (HasTruth
        (Has L.output V.output L.formula V.gives V.absence_of S.words item.now check.now)) }
    ensures infallible { AsksAll L.infallible V.lends V.gives S.words item.now check.now
        → IsOk result }
{
    holds(alloc, check, &mut NoContext, item)
}

// The same of a check that is denied.
#[cycle(hold)]
fn not_holds<L: EvaluateWith<Item, C>, V: View<Item>, S: Wording, Item, C>(
    alloc: Global,
    inner: &Check<L, V, S>,
    context: &mut C,
    item: &Item,
) -> Result<bool, AllocError>
    requires { AllOf L.lawful S.words inner.now }
    ensures truth { IfOk result (λ held. (w : Words) → HasTruth
        (HasFormula L.output V.output L.formula V.gives V.absence_of item.now
        (Not w (tree_of S.words inner.now))) held) }
    ensures infallible { AsksAll L.infallible V.lends V.gives S.words item.now inner.now
        → IsOk result }
    ensures keeps { AreSteps L.keeps context.old context.new }
{
    let held = holds(alloc, inner, context, item)?;
    Ok(!held)
}

// The same of a check under a name.
#[cycle(hold)]
fn named_holds<L: EvaluateWith<Item, C>, V: View<Item>, S: Wording, Item, C>(
    alloc: Global,
    inner: &Check<L, V, S>,
    context: &mut C,
    item: &Item,
) -> Result<bool, AllocError>
    requires { AllOf L.lawful S.words inner.now }
    ensures truth { IfOk result (λ held. (name : List ℕ) → HasTruth
        (HasFormula L.output V.output L.formula V.gives V.absence_of item.now
        (Named name (tree_of S.words inner.now))) held) }
    ensures infallible { AsksAll L.infallible V.lends V.gives S.words item.now inner.now
        → IsOk result }
    ensures keeps { AreSteps L.keeps context.old context.new }
{
    let held = holds(alloc, inner, context, item)?;
    Ok(held)
}

// The left of two checks that an operator joins, and what was found of it.
#[derive(Drop)]
pub(crate) struct Left<'a, L, V, S, Found> {
    pub(crate) operator: Operator,
    pub(crate) part: &'a Check<L, V, S>,
    pub(crate) found: Found,
}

// The same of two checks that an operator joins, from the verdict of the left one. The measure is
// the first check, so the right one comes first.
#[cycle(hold)]
fn pair_holds<L: EvaluateWith<Item, C>, V: View<Item>, S: Wording, Item, C>(
    alloc: Global,
    right_part: &Check<L, V, S>,
    context: &mut C,
    left: Left<'_, L, V, S, bool>,
    item: &Item,
) -> Result<bool, AllocError>
    requires lawful { AllOf L.lawful S.words right_part.now }
    requires left { HasTruth
        (Has L.output V.output L.formula V.gives V.absence_of S.words item.now left.part.now)
        left.found }
    ensures truth { IfOk result (λ held. (w : Words) → HasTruth
        (HasFormula L.output V.output L.formula V.gives V.absence_of item.now
        (Pair w left.entry.operator (tree_of S.words left.entry.part.now)
        (tree_of S.words right_part.now))) held) }
    ensures infallible { AsksAll L.infallible V.lends V.gives S.words item.now right_part.now
        → IsOk result }
    ensures keeps { AreSteps L.keeps context.old context.new }
{
    let operator = left.operator;
    if !operator.asks(left.found) {
        return Ok(operator.apply(left.found, false));
    }
    let right_holds = holds(alloc, right_part, context, item)?;
    Ok(operator.apply(left.found, right_holds))
}

// The same of a row of checks. It stops at the part that decides.
#[cycle(hold)]
fn parts_hold<L: EvaluateWith<Item, C>, V: View<Item>, S: Wording, Item, C>(
    alloc: Global,
    parts: &[Check<L, V, S>],
    context: &mut C,
    quota: Quota,
    item: &Item,
) -> Result<bool, AllocError>
    requires { AllByRecursion (AllOf L.lawful S.words) parts.now }
    ensures truth { IfOk result (λ held. (text : Entry) (name : List ℕ) → HasTruth
        (IsOfQuota quota text name
        (Has L.output V.output L.formula V.gives V.absence_of S.words item.now) parts.now)
        held) }
    ensures infallible { AllByRecursion
        (AsksAll L.infallible V.lends V.gives S.words item.now) parts.now → IsOk result }
    ensures keeps { AreSteps L.keeps context.old context.new }
{
    let mut held = 0usize;
    for (index, part) in parts.iter().enumerate() {
        if let Some(decided) = quota.decided(parts.len(), index, held) {
            return Ok(decided);
        }
        let verdict = holds(alloc, part, context, item)?;
        held = counted(held, verdict);
    }
    Ok(quota.is_met(parts.len(), held))
}

// A view, and the item whose members it gives.
#[derive(Drop)]
struct Viewed<'a, V, Item> {
    view: &'a V,
    item: &'a Item,
}

// The same of a check of the members that a view gives.
#[cycle(hold)]
fn viewed_hold<L: EvaluateWith<Item, C>, V: View<Item>, S: Wording, Item, C>(
    alloc: Global,
    inner: &Check<L, V, S>,
    context: &mut C,
    quota: Quota,
    viewed: Viewed<'_, V, Item>,
) -> Result<bool, AllocError>
    requires { AllOf L.lawful S.words inner.now }
    ensures truth { IfOk result (λ held. (w : Words) → HasTruth
        (HasFormula L.output V.output L.formula V.gives V.absence_of viewed.entry.item.now
        (Members w quota viewed.entry.view.now (tree_of S.words inner.now))) held) }
    ensures infallible { (w : Words) → AllAsked L.infallible V.lends V.gives
        viewed.entry.item.now
        (Members w quota viewed.entry.view.now (tree_of S.words inner.now)) → IsOk result }
    ensures keeps { AreSteps L.keeps context.old context.new }
{
    match viewed.view.list(alloc, viewed.item)? {
        Some(members) => {
            let held = members_hold(alloc, inner, context, quota, members.as_slice())?;
            Ok(held)
        }
        None => Ok(false), // not even where each has to hold
    }
}

// The same of the members. It stops at the one that decides.
#[cycle(hold)]
fn members_hold<L: EvaluateWith<Item, C>, V: View<Item>, S: Wording, Item, C>(
    alloc: Global,
    inner: &Check<L, V, S>,
    context: &mut C,
    quota: Quota,
    members: &[Item],
) -> Result<bool, AllocError>
    requires { AllOf L.lawful S.words inner.now }
    ensures truth { IfOk result (λ held. (text : Entry) (name : List ℕ) → HasTruth
        (IsOfQuota quota text name
        (HasOn L.output V.output L.formula V.gives V.absence_of S.words inner.now)
        members.now) held) }
    ensures infallible { AllByRecursion (λ member. AsksAll L.infallible V.lends V.gives
        S.words member inner.now) members.now → IsOk result }
    ensures keeps { AreSteps L.keeps context.old context.new }
{
    let mut held = 0usize;
    for (index, member) in members.iter().enumerate() {
        if let Some(decided) = quota.decided(members.len(), index, held) {
            return Ok(decided);
        }
        let verdict = holds(alloc, inner, context, member)?;
        held = counted(held, verdict);
    }
    Ok(quota.is_met(members.len(), held))
}
