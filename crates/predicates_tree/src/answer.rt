//! What is answered of checks: why they have their verdicts, and what would turn these.
ghost use Rattle.std.specs.Prelude.{◌≡◌, codes, map, IfOk, Some, None, not};
ghost use Rattle.std.specs.List.{AllByRecursion};
ghost use Rattle.predicates_core.specs.Asked.{left_wanted};
ghost use Rattle.predicates_core.specs.Shows.{IsAnswer, IsFoundBy};
ghost use Rattle.predicates_core.specs.Tally.{kind_of, IsAsked};
ghost use Rattle.predicates_tree.specs.Formulas.{check_text, Has, HasOn};
ghost use Rattle.predicates_tree.specs.Questions.{IsRight, sought_by};
ghost use Rattle.predicates_tree.specs.Quotas.{IsOfQuota};
ghost use Rattle.predicates_tree.specs.Trees.{AllOf, tree_of, trees_of, words_of};
ghost use Rattle.predicates_tree.specs.Trees.{Not, Named, Pair, Row, Members};

use crate::check::Check;
use crate::hold::{Left, verdict};
use crate::question::{Answers, Reasons, is_asked, right_asks};
use crate::quota::Quota;
use crate::quota_tally::QuotaTally;
use crate::view::{View, absent_found};
use crate::wording::Wording;
use predicates_core::Predicate;
use predicates_core::custom::{
    Counting, Operator, Sought, Told, is_other, kept_if, opposite_of, shown_verdict,
};
use predicates_core::node::{binary_node_of, printed, unary_node};
use predicates_core::reflection::Case;
use std::alloc::{AllocError, Global};

// The `find_case` of a check that is no leaf.
pub(crate) fn found<L: Predicate<Item>, V: View<Item>, S: Wording, Item>(
    alloc: Global,
    check: &Check<L, V, S>,
    expected: bool,
    item: &Item,
) -> Result<Option<Case>, AllocError>
    requires { AllOf L.lawful S.words check.now }
    ensures { IfOk result (IsAnswer
        (Has L.output V.output L.formula V.gives V.absence_of S.words item.now check.now)
        expected) }
{
    if verdict(alloc, check, item)? != expected {
        return Ok(None);
    }
    answered::<Reasons, L, V, S, Item>(alloc, check, Some(expected), item)
}

// The check that is asked, the verdict that is wanted of it, if any, and the item.
#[derive(Drop)]
struct Asked<'a, L, V, S, Item> {
    whole: &'a Check<L, V, S>,
    wanted: Option<bool>,
    item: &'a Item,
}

// The `explain` of the check, or its `find_change`.
#[cycle(answer)]
pub(crate) fn answered<Q, L: Answers<Q, Item>, V: View<Item>, S: Wording, Item>(
    alloc: Global,
    check: &Check<L, V, S>,
    wanted: Option<bool>,
    item: &Item,
) -> Result<Option<Case>, AllocError>
    requires { AllOf L.lawful S.words check.now }
    ensures { IfOk result (IsFoundBy (kind_of L.turns)
        (Has L.output V.output L.formula V.gives V.absence_of S.words item.now check.now) wanted) }
{
    let asked = Asked {
        whole: check,
        wanted,
        item,
    };
    match check {
        Check::Leaf(leaf) => <L as Answers<Q, Item>>::answer(leaf, alloc, wanted, item),
        Check::Not(_, inner) => not_answered::<Q, L, V, S, Item>(alloc, inner, asked),
        Check::Named(name, inner) => {
            named_answered::<Q, L, V, S, Item>(alloc, inner, name.as_str(), asked)
        }
        Check::Pair(_, operator, part, right_part) => {
            let operator = *operator;
            let part: &Check<L, V, S> = part;
            let left_wanted = operator.left_wanted(wanted);
            let found = answered::<Q, L, V, S, Item>(alloc, part, left_wanted, item)?;
            let left = Left {
                operator,
                part,
                found,
            };
            pair_answered::<Q, L, V, S, Item>(alloc, right_part, left, asked)
        }
        Check::Row(_, quota, parts) => {
            row_answered::<Q, L, V, S, Item>(alloc, parts, *quota, asked)
        }
        Check::Members(_, quota, view, inner) => {
            viewed_answered::<Q, L, V, S, Item>(alloc, inner, view, *quota, asked)
        }
    }
}

// The same of a check that is denied, from the part and the whole.
#[cycle(answer)]
fn not_answered<Q, L: Answers<Q, Item>, V: View<Item>, S: Wording, Item>(
    alloc: Global,
    inner: &Check<L, V, S>,
    asked: Asked<'_, L, V, S, Item>,
) -> Result<Option<Case>, AllocError>
    requires lawful { AllOf L.lawful S.words inner.now }
    requires whole { tree_of S.words asked.whole.now ≡ Not (words_of S.words asked.whole.now)
        (tree_of S.words inner.now) }
    ensures { IfOk result (IsFoundBy (kind_of L.turns)
        (Has L.output V.output L.formula V.gives V.absence_of S.words asked.entry.item.now
        asked.entry.whole.now) asked.entry.wanted) }
{
    let wanted = opposite_of(asked.wanted);
    let Some(part) = answered::<Q, L, V, S, Item>(alloc, inner, wanted, asked.item)? else {
        return Ok(None);
    };
    let text = printed(alloc, asked.whole)?;
    let outcome = !part.root().result();
    let node = unary_node(alloc, text, outcome, "predicate", part)?;
    Ok(Some(node))
}

// The same of a check under a name.
#[cycle(answer)]
fn named_answered<Q, L: Answers<Q, Item>, V: View<Item>, S: Wording, Item>(
    alloc: Global,
    inner: &Check<L, V, S>,
    name: &'static str,
    asked: Asked<'_, L, V, S, Item>,
) -> Result<Option<Case>, AllocError>
    requires lawful { AllOf L.lawful S.words inner.now }
    requires whole { tree_of S.words asked.whole.now ≡ Named name.now (tree_of S.words inner.now) }
    ensures { IfOk result (IsFoundBy (kind_of L.turns)
        (Has L.output V.output L.formula V.gives V.absence_of S.words asked.entry.item.now
        asked.entry.whole.now) asked.entry.wanted) }
{
    let wanted = asked.wanted;
    let Some(part) = answered::<Q, L, V, S, Item>(alloc, inner, wanted, asked.item)? else {
        return Ok(None);
    };
    let text = String::from_str(alloc, name)?;
    let outcome = part.root().result();
    let node = unary_node(alloc, text, outcome, name, part)?;
    Ok(Some(node))
}

// What a part tells that is asked for its case, or for its verdict alone.
#[cycle(answer)]
fn part_told<Q, L: Answers<Q, Item>, V: View<Item>, S: Wording, Item>(
    alloc: Global,
    part: &Check<L, V, S>,
    asks: Option<Option<bool>>,
    item: &Item,
) -> Result<Told, AllocError>
    requires { AllOf L.lawful S.words part.now }
    ensures asked { IfOk result (λ told. IsAsked asks told.asked told.found) }
    ensures found { IfOk result (λ told. IsFoundBy (kind_of L.turns)
        (Has L.output V.output L.formula V.gives V.absence_of S.words item.now part.now)
        told.asked told.found) }
{
    match asks {
        Some(asked) => {
            let found = answered::<Q, L, V, S, Item>(alloc, part, asked, item)?;
            Ok(Told { asked, found })
        }
        None => {
            let holds = verdict(alloc, part, item)?;
            Ok(Told::verdict(holds))
        }
    }
}

// What the right part of two tells, where the left one has this verdict.
#[cycle(answer)]
fn right_told<Q, L: Answers<Q, Item>, V: View<Item>, S: Wording, Item>(
    alloc: Global,
    part: &Check<L, V, S>,
    operator: Operator,
    left_holds: bool,
    wanted: Option<bool>,
    item: &Item,
) -> Result<Told, AllocError>
    requires { AllOf L.lawful S.words part.now }
    ensures { IfOk result (λ told. IsRight L.turns operator left_holds wanted
        (Has L.output V.output L.formula V.gives V.absence_of S.words item.now part.now)
        told.asked told.found) }
{
    let turns = <L as Answers<Q, Item>>::turns();
    let asked = operator.right_wanted(wanted, left_holds);
    if !is_asked(turns, operator, left_holds) {
        return Ok(Told { asked, found: None });
    }
    let told = part_told::<Q, L, V, S, Item>(
        alloc,
        part,
        right_asks(turns, operator, asked),
        item,
    )?;
    Ok(told)
}

// The same of two checks that an operator joins, where this was found of the left one.
#[cycle(answer)]
fn pair_answered<Q, L: Answers<Q, Item>, V: View<Item>, S: Wording, Item>(
    alloc: Global,
    right_part: &Check<L, V, S>,
    left: Left<'_, L, V, S, Option<Case>>,
    asked: Asked<'_, L, V, S, Item>,
) -> Result<Option<Case>, AllocError>
    requires lawful { AllOf L.lawful S.words right_part.now }
    requires left { IsFoundBy (kind_of L.turns)
        (Has L.output V.output L.formula V.gives V.absence_of S.words asked.item.now left.part.now)
        (left_wanted left.operator asked.wanted) left.found }
    requires whole { tree_of S.words asked.whole.now ≡ Pair
        (words_of S.words asked.whole.now) left.operator (tree_of S.words left.part.now)
        (tree_of S.words right_part.now) }
    ensures { IfOk result (IsFoundBy (kind_of L.turns)
        (Has L.output V.output L.formula V.gives V.absence_of S.words asked.entry.item.now
        asked.entry.whole.now) asked.entry.wanted) }
{
    let operator = left.operator;
    let wanted = asked.wanted;
    let left_holds = shown_verdict(operator.left_wanted(wanted), &left.found);
    let right = right_told::<Q, L, V, S, Item>(
        alloc, right_part, operator, left_holds, wanted, asked.item,
    )?;
    let right_holds = shown_verdict(right.asked, &right.found);
    let holds = operator.apply(left_holds, right_holds);
    if is_other(wanted, holds) {
        return Ok(None);
    }
    let kept = kept_if(operator.keeps(left_holds, right_holds), left.found);
    let text = printed(alloc, asked.whole)?;
    let node = binary_node_of(alloc, text, holds, kept, right.found)?;
    Ok(Some(node))
}

// The same of a row of checks.
#[cycle(answer)]
fn row_answered<Q, L: Answers<Q, Item>, V: View<Item>, S: Wording, Item>(
    alloc: Global,
    parts: &[Check<L, V, S>],
    quota: Quota,
    asked: Asked<'_, L, V, S, Item>,
) -> Result<Option<Case>, AllocError>
    requires lawful { AllByRecursion (AllOf L.lawful S.words) parts.now }
    requires whole { tree_of S.words asked.whole.now ≡ Row (words_of S.words asked.whole.now)
        quota (trees_of (map (tree_of S.words) parts.now)) }
    ensures { IfOk result (IsFoundBy (kind_of L.turns)
        (Has L.output V.output L.formula V.gives V.absence_of S.words asked.entry.item.now
        asked.entry.whole.now) asked.entry.wanted) }
{
    let list = Several {
        whole: asked.whole,
        name: asked.whole.part(),
        quota,
    };
    let found = parts_answered::<Q, L, V, S, Item>(alloc, parts, list, asked.wanted, asked.item)?;
    Ok(found)
}

// The same of the members that a view gives.
#[cycle(answer)]
fn viewed_answered<Q, L: Answers<Q, Item>, V: View<Item>, S: Wording, Item>(
    alloc: Global,
    inner: &Check<L, V, S>,
    view: &V,
    quota: Quota,
    asked: Asked<'_, L, V, S, Item>,
) -> Result<Option<Case>, AllocError>
    requires lawful { AllOf L.lawful S.words inner.now }
    requires whole { tree_of S.words asked.whole.now ≡ Members
        (words_of S.words asked.whole.now) quota view.now (tree_of S.words inner.now) }
    ensures { IfOk result (IsFoundBy (kind_of L.turns)
        (Has L.output V.output L.formula V.gives V.absence_of S.words asked.entry.item.now
        asked.entry.whole.now) asked.entry.wanted) }
{
    match view.list(alloc, asked.item)? {
        Some(members) => {
            let list = Several {
                whole: asked.whole,
                name: "item",
                quota,
            };
            let wanted = asked.wanted;
            let members = members.as_slice();
            let found = members_answered::<Q, L, V, S, Item>(alloc, inner, list, wanted, members)?;
            Ok(found)
        }
        None => absent_found(alloc, asked.whole, view, asked.wanted, asked.item),
    }
}

// The same of the parts of a row, about which all are asked.
#[cycle(answer)]
fn parts_answered<Q, L: Answers<Q, Item>, V: View<Item>, S: Wording, Item>(
    alloc: Global,
    parts: &[Check<L, V, S>],
    list: Several<'_, Check<L, V, S>>,
    wanted: Option<bool>,
    item: &Item,
) -> Result<Option<Case>, AllocError>
    requires { AllByRecursion (AllOf L.lawful S.words) parts.now }
    ensures { IfOk result (IsFoundBy (kind_of L.turns) (IsOfQuota list.entry.quota
        (check_text L.output V.output S.words list.entry.whole.now) list.entry.name.now
        (Has L.output V.output L.formula V.gives V.absence_of S.words item.now) parts.now) wanted) }
{
    let sought = list.sought(<L as Answers<Q, Item>>::turns(), wanted, parts.len());
    let counting = list.counting(sought.least);
    let mut tally = QuotaTally::new(alloc, list.quota, sought);
    for part in parts {
        if tally.is_done() {
            return tally.answer(alloc, counting);
        }
        let told = part_told::<Q, L, V, S, Item>(alloc, part, tally.asks(), item)?;
        tally.take(alloc, counting, told)?;
    }
    tally.answer(alloc, counting)
}

// The same of the members of an item.
#[cycle(answer)]
fn members_answered<Q, L: Answers<Q, Item>, V: View<Item>, S: Wording, Item>(
    alloc: Global,
    inner: &Check<L, V, S>,
    list: Several<'_, Check<L, V, S>>,
    wanted: Option<bool>,
    members: &[Item],
) -> Result<Option<Case>, AllocError>
    requires { AllOf L.lawful S.words inner.now }
    ensures { IfOk result (IsFoundBy (kind_of L.turns) (IsOfQuota list.entry.quota
        (check_text L.output V.output S.words list.entry.whole.now) list.entry.name.now
        (HasOn L.output V.output L.formula V.gives V.absence_of S.words inner.now) members.now)
        wanted) }
{
    let sought = list.sought(<L as Answers<Q, Item>>::turns(), wanted, members.len());
    let counting = list.counting(sought.least);
    let mut tally = QuotaTally::new(alloc, list.quota, sought);
    for member in members {
        if tally.is_done() {
            return tally.answer(alloc, counting);
        }
        let told = part_told::<Q, L, V, S, Item>(alloc, inner, tally.asks(), member)?;
        tally.take(alloc, counting, told)?;
    }
    tally.answer(alloc, counting)
}

// What holds where as many of several do as have to: what prints it, and the name that each has in
// a case.
#[derive(Drop)]
struct Several<'a, W> {
    whole: &'a W,
    name: &'static str,
    quota: Quota,
}

impl<'a, W> Several<'a, W> {
    // What is sought of it over so many.
    fn sought(&self, turns: bool, wanted: Option<bool>, number: usize) -> Sought
        ensures { result ≡ sought_by self.now.quota turns wanted number }
    {
        Sought {
            turns,
            wanted,
            least: self.quota.least(number),
            number,
        }
    }

    // What prints its cases.
    fn counting(&self, least: usize) -> Counting<'a, W>
        ensures whole { result.whole ≡ self.now.whole }
        ensures name { result.name ≡ self.now.name }
    {
        Counting {
            whole: self.whole,
            name: self.name,
            least,
        }
    }
}
