//! Verdicts and cases of a list whose members are each asked, of which at least so many have to
//! hold: all of them for `each`, one for `any`.
ghost use Rattle.std.specs.Prelude.{◌≡◌, ◌≢◌, ◌<◌, ◌≤◌, ℕ, List, length, take, Some, None, true};
ghost use Rattle.std.specs.Prelude.{false, cond, not, codes, IfOk, IsOk, ⊤};
ghost use Rattle.std.specs.Fmt.{decimal};
ghost use Rattle.std.specs.List.{AllByRecursion};
ghost use Rattle.predicates_core.specs.Formula.{enough_of, Leaf, HasTruth};
ghost use Rattle.predicates_core.specs.Label.{Entry, showing};
ghost use Rattle.predicates_core.specs.Leaves.{IsExactly, IsShowing};
ghost use Rattle.predicates_core.specs.Several.{is_absent};
ghost use Rattle.predicates_core.specs.Shows.{IsAnswer, IsFound, IsFoundBy};
ghost use Rattle.predicates_core.specs.Tally.{IsFront, IsNext, IsOpen, IsTallyOf, kind_of};
ghost use Rattle.predicates_core.specs.Thresholds.{IsSettled, settled, IsOfThreshold};

use crate::custom::ask::{Ask, AskFor, Reasons, Seeks};
use crate::custom::is_other;
use crate::custom::tally::{Sought, Tally, Told, Verdicts};
use crate::node::{leaf_node, printed, showing};
use crate::reflection::Case;
use std::alloc::{AllocError, Global};
use std::fmt;

/// A whole that holds where at least `least` of its members do.
#[derive(Drop)]
pub struct Counting<'a, W> {
    /// What prints the whole.
    pub whole: &'a W,
    /// The name that the members have in a case.
    pub name: &'static str,
    /// How many members have to hold.
    pub least: usize,
}

impl<'a, W> Copy for Counting<'a, W> {}

impl<'a, W> Clone for Counting<'a, W> {
    ghost is_clone = { λ x y. y ≡ x };

    ghost is_infallible = { λ _. ⊤ };

    fn clone(&self) -> Result<Self, AllocError> {
        Ok(*self)
    }
}

/// Whether so many of the number hold, or fail to, whatever they answer: none is needed, or more
/// than there are.
///
/// ```
/// assert!(rt; is_settled(0, 3) && is_settled(4, 3) && !is_settled(2, 3));
/// ```
pub fn is_settled(least: usize, number: usize) -> bool
    ensures settled { result ≡ true → IsSettled least number }
    ensures some { result ≡ false → 1 ≤ least }
    ensures within { result ≡ false → least ≤ number }
{
    least == 0 || number < least
}

/// How many of the number decide by having the verdict, where at least so many have to hold.
///
/// ```
/// assert!(rt; enough_of(true, 2, 5) == 2 && enough_of(false, 2, 5) == 4);
/// ```
pub fn enough_of(decides: bool, least: usize, number: usize) -> usize
    requires some { 1 ≤ least }
    requires within { least ≤ number }
    ensures { result ≡ enough_of decides least number }
{
    if decides { least } else { number - least + 1 }
}

// The members at the front by their verdicts, and the verdict of the one behind them.
#[derive(Clone, Copy)]
struct Front {
    passed: Verdicts,
    next: Option<bool>,
}

// Evaluates the members up to the one by which more of them hold, or more fail, than are spared.
#[inline]
fn front_of<A: Ask<Common, Member>, Common, Member>(
    alloc: Global,
    common: &Common,
    spare: Verdicts,
    members: &[Member],
) -> Result<Front, AllocError>
    requires { AllByRecursion (A.lawful_of common.now) members.now }
    ensures front { IfOk result (λ front. IsFront (A.formula_of common.now) spare members.now
        front.passed front.next) }
    ensures infallible { AllByRecursion (A.infallible_of common.now) members.now → IsOk result }
{
    let mut held = 0usize;
    let mut failed = 0usize;
    for member in members {
        if A::eval(alloc, common, member)? {
            if held == spare.held {
                return Ok(Front {
                    passed: Verdicts { held, failed },
                    next: Some(true),
                });
            }
            held += 1;
        } else {
            if failed == spare.failed {
                return Ok(Front {
                    passed: Verdicts { held, failed },
                    next: Some(false),
                });
            }
            failed += 1;
        }
    }
    Ok(Front {
        passed: Verdicts { held, failed },
        next: None,
    })
}

// The `eval` of a predicate that holds where at least so many of its members do. It stops at the
// member that decides.
pub(super) fn counted_hold<A: Ask<Common, Member>, Common, Member>(
    alloc: Global,
    least: usize,
    common: &Common,
    members: &[Member],
) -> Result<bool, AllocError>
    requires { AllByRecursion (A.lawful_of common.now) members.now }
    ensures truth { IfOk result (λ held. (text : Entry) (name : List ℕ)
        → HasTruth (IsOfThreshold least text name (A.formula_of common.now) members.now) held) }
    ensures infallible { AllByRecursion (A.infallible_of common.now) members.now → IsOk result }
{
    if is_settled(least, members.len()) {
        return Ok(least <= members.len());
    }
    let spare = Verdicts {
        held: least - 1,
        failed: members.len() - least,
    };
    let front = front_of::<A, Common, Member>(alloc, common, spare, members)?;
    match front.next {
        Some(holds) => Ok(holds),
        None => Ok(false),
    }
}

// The `find_case` of such a predicate. The node has the cases of the first members that decide,
// each under the name. Where one member decides, no other one is asked for its case.
pub(super) fn counted_case<W: fmt::Display, A: AskFor<Reasons, Common, Member>, Common, Member>(
    alloc: Global,
    list: Counting<'_, W>,
    common: &Common,
    expected: bool,
    members: &[Member],
) -> Result<Option<Case>, AllocError>
    requires { AllByRecursion (A.lawful_of common.now) members.now }
    ensures { IfOk result (IsAnswer (IsOfThreshold list.entry.least
        (W.output list.entry.whole.now) list.entry.name.now
        (A.formula_of common.now) members.now) expected) }
{
    if decides_alone(expected, list.least, members.len()) {
        return alone_case::<W, A, Common, Member>(alloc, list, common, expected, members);
    }
    if counted_hold::<A, Common, Member>(alloc, list.least, common, members)? != expected {
        return Ok(None);
    }
    counted::<Reasons, W, A, Common, Member>(alloc, list, common, Some(expected), members)
}

// Whether one member with the verdict decides.
fn decides_alone(verdict: bool, least: usize, number: usize) -> bool
    ensures { result ≡ true → least ≡ cond verdict 1 number }
{
    let one = if verdict { 1 } else { number };
    least == one
}

// The case of a verdict that one member decides: that of the first behind the front.
fn alone_case<W: fmt::Display, A: AskFor<Reasons, Common, Member>, Common, Member>(
    alloc: Global,
    list: Counting<'_, W>,
    common: &Common,
    expected: bool,
    members: &[Member],
) -> Result<Option<Case>, AllocError>
    requires lawful { AllByRecursion (A.lawful_of common.now) members.now }
    requires alone { list.least ≡ cond expected 1 (length members.now) }
    ensures { IfOk result (IsAnswer (IsOfThreshold list.entry.least
        (W.output list.entry.whole.now) list.entry.name.now
        (A.formula_of common.now) members.now) expected) }
{
    let number = members.len();
    let spare = Verdicts::alike(!expected, number);
    let front = front_of::<A, Common, Member>(alloc, common, spare, members)?;
    match front.next {
        Some(_) => {
            let mut tally = Tally::new(Sought {
                turns: false,
                wanted: Some(expected),
                least: list.least,
                number,
            });
            tally.count(front.passed);
            counted_on::<Reasons, W, A, Common, Member>(alloc, list, common, tally, members)
        }
        None => Ok(None),
    }
}

// The members at the front that told no case, and what the one behind them told.
#[derive(Drop)]
struct Next {
    passed: Verdicts,
    told: Option<Told>,
}

// Asks the members up to the one that tells its case, or by which more have a verdict than are
// spared.
fn next_told<K: Seeks, A: AskFor<K, Common, Member>, Common, Member>(
    alloc: Global,
    common: &Common,
    asks: Option<Option<bool>>,
    spare: Verdicts,
    members: &[Member],
) -> Result<Next, AllocError>
    requires { AllByRecursion (A.lawful_of common.now) members.now }
    ensures { IfOk result (λ next. IsNext (kind_of K.turns) (A.formula_of common.now) asks spare
        members.now next.passed next.told) }
{
    match asks {
        Some(asked) => next_asked::<K, A, Common, Member>(alloc, common, asked, spare, members),
        None => {
            let Front { passed, next } = front_of::<A, Common, Member>(
                alloc, common, spare, members,
            )?;
            match next {
                Some(holds) => Ok(Next {
                    passed,
                    told: Some(Told::verdict(holds)),
                }),
                None => Ok(Next { passed, told: None }),
            }
        }
    }
}

// The same, of members that are asked for their cases.
#[inline]
fn next_asked<K: Seeks, A: AskFor<K, Common, Member>, Common, Member>(
    alloc: Global,
    common: &Common,
    asked: Option<bool>,
    spare: Verdicts,
    members: &[Member],
) -> Result<Next, AllocError>
    requires { AllByRecursion (A.lawful_of common.now) members.now }
    ensures { IfOk result (λ next. IsNext (kind_of K.turns) (A.formula_of common.now) (Some asked)
        spare members.now next.passed next.told) }
{
    let other = is_other(asked, true);
    let most = spare.with(other);
    let mut passed = 0usize;
    for member in members {
        let found = A::find(alloc, common, asked, member)?;
        if passed == most || is_shown(asked, &found) {
            return Ok(Next {
                passed: Verdicts::alike(other, passed),
                told: Some(Told { asked, found }),
            });
        }
        passed += 1;
    }
    Ok(Next {
        passed: Verdicts::alike(other, passed),
        told: None,
    })
}

// Whether a part told its case, or that it has no formula.
fn is_shown(asked: Option<bool>, found: &Option<Case>) -> bool
    ensures none { result ≡ false → found.now ≡ None }
    ensures asked { result ≡ false → asked ≢ None }
{
    match (asked, found) {
        (Some(_), None) => false,
        (_, _) => true,
    }
}

/// Whether nothing was found of a part, whichever its verdict: it has no formula then.
pub fn is_absent(wanted: Option<bool>, found: &Option<Case>) -> bool
    ensures { result ≡ is_absent wanted found.now }
{
    match (wanted, found) {
        (None, None) => true,
        (_, _) => false,
    }
}

// The `explain` of such a predicate, or its `find_change`. Where their number alone decides, no
// member is asked; otherwise each is asked once, until the answer is known. Memory is taken for no
// more changes than may have to be shown: of `each` that holds, for the first alone.
pub(super) fn counted<K: Seeks, W: fmt::Display, A: AskFor<K, Common, Member>, Common, Member>(
    alloc: Global,
    list: Counting<'_, W>,
    common: &Common,
    wanted: Option<bool>,
    members: &[Member],
) -> Result<Option<Case>, AllocError>
    requires { AllByRecursion (A.lawful_of common.now) members.now }
    ensures { IfOk result (IsFoundBy (kind_of K.turns) (IsOfThreshold list.entry.least
        (W.output list.entry.whole.now) list.entry.name.now
        (A.formula_of common.now) members.now) wanted) }
{
    let tally = Tally::new(Sought {
        turns: K::turns(),
        wanted,
        least: list.least,
        number: members.len(),
    });
    counted_on::<K, W, A, Common, Member>(alloc, list, common, tally, members)
}

// What is found of the whole, where the tally is of the first members.
fn counted_on<K: Seeks, W: fmt::Display, A: AskFor<K, Common, Member>, Common, Member>(
    alloc: Global,
    list: Counting<'_, W>,
    common: &Common,
    tally: Tally,
    members: &[Member],
) -> Result<Option<Case>, AllocError>
    requires lawful { AllByRecursion (A.lawful_of common.now) members.now }
    requires turns { tally.sought.turns ≡ K.turns }
    requires least { tally.sought.least ≡ list.least }
    requires number { tally.sought.number ≡ length members.now }
    requires tally { IsTallyOf tally.sought (W.output list.whole.now) list.name.now
        (A.formula_of common.now) (take tally.seen members.now) tally }
    ensures { IfOk result (IsFoundBy (kind_of K.turns) (IsOfThreshold list.entry.least
        (W.output list.entry.whole.now) list.entry.name.now
        (A.formula_of common.now) members.now) tally.sought.wanted) }
{
    let mut tally = tally;
    while !tally.is_done() {
        count_next::<K, W, A, Common, Member>(alloc, list, common, &mut tally, members)?;
    }
    tally.answer(alloc, list)
}

// Takes what the next members tell.
fn count_next<K: Seeks, W: fmt::Display, A: AskFor<K, Common, Member>, Common, Member>(
    alloc: Global,
    list: Counting<'_, W>,
    common: &Common,
    tally: &mut Tally,
    members: &[Member],
) -> Result<(), AllocError>
    requires lawful { AllByRecursion (A.lawful_of common.now) members.now }
    requires open { IsOpen tally.old }
    requires turns { tally.old.sought.turns ≡ K.turns }
    requires number { tally.old.sought.number ≡ length members.now }
    requires tally { IsTallyOf tally.old.sought (W.output list.whole.now) list.name.now
        (A.formula_of common.now) (take tally.old.seen members.now) tally.old }
    ensures seen { IfOk result (λ _. tally.old.seen < tally.new.seen) }
    ensures tally { IfOk result (λ _. IsTallyOf tally.old.sought (W.output list.entry.whole.now)
        list.entry.name.now (A.formula_of common.now) (take tally.new.seen members.now) tally.new) }
{
    let rest = &members[tally.seen..];
    let asks = tally.asks();
    let next = next_told::<K, A, Common, Member>(alloc, common, asks, tally.spare(), rest)?;
    tally.count(next.passed);
    match next.told {
        Some(told) => {
            tally.take(alloc, list, told)?;
            Ok(())
        }
        None => Ok(()),
    }
}

/// The case with a part's number, from 0, as the last of its products, `index`.
///
/// ```
/// let case = with_index(alloc, 2, leaf_node(alloc, "a".to_owned(alloc)?, true))?;
/// assert!(rt; render(alloc, &case)?.as_str() == "a = true\n  - index: 2\n");
/// ```
pub fn with_index(alloc: Global, index: usize, case: Case) -> Result<Case, AllocError>
    ensures { IfOk result (IsShowing (codes "index") (Some (decimal index)) case) }
{
    Ok(showing(case, "index", format!(in alloc; "{index}")?)?)
}

/// What is found of a whole that is decided whatever its parts answer: a leaf with the whole's text
/// and the product `len`, how many there are. It takes memory for the case.
pub fn settled_case<W: fmt::Display>(
    alloc: Global,
    whole: &W,
    least: usize,
    number: usize,
    wanted: Option<bool>,
) -> Result<Option<Case>, AllocError>
    ensures { IfOk result (IsFound (IsExactly (settled (W.output whole.now) least number)) wanted) }
{
    let holds = least <= number;
    if is_other(wanted, holds) {
        return Ok(None);
    }
    make_settled_case(alloc, whole, number, holds)
}

fn make_settled_case<W: fmt::Display>(
    alloc: Global,
    whole: &W,
    number: usize,
    holds: bool,
) -> Result<Option<Case>, AllocError>
    ensures { IfOk result (IsAnswer (IsExactly
        (Leaf (showing (W.output whole.now) (codes "len") (Some (decimal number))) holds)) holds) }
{
    let node = leaf_node(alloc, printed(alloc, whole)?, holds);
    Ok(Some(showing_number(alloc, node, number)?))
}

fn showing_number(alloc: Global, node: Case, number: usize) -> Result<Case, AllocError>
    ensures { IfOk result (IsShowing (codes "len") (Some (decimal number)) node) }
{
    Ok(showing(node, "len", format!(in alloc; "{number}")?)?)
}
