//! Laws of predicates, as contracts of calls that do nothing and take no memory: what a check may
//! be rewritten to, with the same verdict and the same leaves in every case.
//!
//! ```
//! // From here on a proof knows that the name changes neither the verdict nor the leaves.
//! laws::named(&check, &item, "policy");
//! ```
ghost use Rattle.std.specs.Prelude.{◌≡◌, List};
ghost use Rattle.std.specs.List.Sorted.{IsPermutation};
ghost use Rattle.predicates_core.specs.declared.custom.join.Operator.TheVariants.{And, Or, Xor};
ghost use Rattle.predicates_core.specs.Formula.{Formula};
ghost use Rattle.predicates_core.specs.Combined.{infix_text, not_text, sign};
ghost use Rattle.predicates_core.specs.Alike.{AreAlike, AreSameFunction, HasStatedLabels};
ghost use Rattle.predicates_item.specs.Makers.{equal_to, unequal_to, less_than, at_most, at_least};
ghost use Rattle.predicates_item.specs.Makers.{greater_than};
ghost use Rattle.predicates_item.specs.Members.{has_equal, first_of_equals};
ghost use Rattle.predicates.specs.Laws.{opposite, twice_opposite, under_name, joined};
ghost use Rattle.predicates.specs.Laws.{AreOpposite, HasAtMostOneCase, HasOneAnswer};

use predicates_core::Predicate;
use predicates_item::ord::{EqPredicate, OrdPredicate};
use std::fmt;
use std::hash::Hash;

/// `p.not().not()` has the verdict of `p`, and the same leaves explain it.
///
/// ```
/// laws::double_negation(&predicate::ge(5), &7); // as `ge(5).not().not()`
/// ```
pub fn double_negation<P: Predicate<Item>, Item>(predicate: &P, item: &Item)
    ensures { (f : Formula) → P.formula predicate.now item.now f
        → AreAlike (twice_opposite (P.output predicate.now) f) f }
{}

/// `p.name(name)` has the verdict of `p`, and the same leaves explain it.
///
/// ```
/// laws::named(&predicate::ge(5), &7, "large"); // as `ge(5).name("large")`
/// ```
pub fn named<P: Predicate<Item>, Item>(predicate: &P, item: &Item, name: &'static str)
    ensures { (f : Formula) → P.formula predicate.now item.now f
        → AreAlike (under_name name.entry.now f) f }
{}

/// Two predicates that are the same function of the same leaves have the same verdict, and the same
/// leaves explain it.
///
/// ```
/// let (left, right) = (predicate::ge(5), predicate::le(10));
/// laws::same_function(&left.or(right), &right.or(left), &7);
/// ```
pub fn same_function<P: Predicate<Item>, Q: Predicate<Item>, Item>(
    predicate: &P,
    other: &Q,
    item: &Item,
)
    ensures { (f g : Formula) → P.formula predicate.now item.now f
        → Q.formula other.now item.now g → AreSameFunction f g → AreAlike f g }
{}

/// `p.and(q).not()` and `p.not().or(q.not())` have the same verdict, and the same leaves explain
/// it; so have `p.or(q).not()` and `p.not().and(q.not())`.
///
/// ```
/// laws::de_morgan(&predicate::ge(5), &predicate::le(10), &7);
/// ```
pub fn de_morgan<P: Predicate<Item>, Q: Predicate<Item>, Item>(left: &P, right: &Q, item: &Item)
    ensures not_both { (f g : Formula) → P.formula left.now item.now f
        → Q.formula right.now item.now g → AreAlike
        (opposite (infix_text (sign And) (P.output left.now) (Q.output right.now))
        (joined And (P.output left.now) (Q.output right.now) f g))
        (joined Or (not_text (P.output left.now)) (not_text (Q.output right.now))
        (opposite (P.output left.now) f) (opposite (Q.output right.now) g)) }
    ensures not_either { (f g : Formula) → P.formula left.now item.now f
        → Q.formula right.now item.now g → AreAlike
        (opposite (infix_text (sign Or) (P.output left.now) (Q.output right.now))
        (joined Or (P.output left.now) (Q.output right.now) f g))
        (joined And (not_text (P.output left.now)) (not_text (Q.output right.now))
        (opposite (P.output left.now) f) (opposite (Q.output right.now) g)) }
{}

/// `p.xor(q).not()` and `p.not().xor(q)` have the same verdict, and the same leaves explain it.
///
/// ```
/// laws::exclusive_or(&predicate::ge(5), &predicate::le(10), &7);
/// ```
pub fn exclusive_or<P: Predicate<Item>, Q: Predicate<Item>, Item>(left: &P, right: &Q, item: &Item)
    ensures { (f g : Formula) → P.formula left.now item.now f → Q.formula right.now item.now g
        → AreAlike
        (opposite (infix_text (sign Xor) (P.output left.now) (Q.output right.now))
        (joined Xor (P.output left.now) (Q.output right.now) f g))
        (joined Xor (not_text (P.output left.now)) (Q.output right.now)
        (opposite (P.output left.now) f) g) }
{}

/// Where a predicate's formula leaves no entry open, there is one case that explains it and no
/// other, however it was found.
///
/// ```
/// laws::one_case(&predicate::ge(5), &7);
/// ```
pub fn one_case<P: Predicate<Item>, Item>(predicate: &P, item: &Item)
    ensures { (f : Formula) → P.formula predicate.now item.now f → HasStatedLabels f
        → HasAtMostOneCase f }
{}

/// Of the two questions for a case, that for a true and that for a false verdict, one finds a case
/// and the other finds none.
///
/// ```
/// laws::one_verdict(&predicate::ge(5), &7);
/// ```
pub fn one_verdict<P: Predicate<Item>, Item>(predicate: &P, item: &Item)
    ensures { (f : Formula) → P.formula predicate.now item.now f
        → HasOneAnswer (P.formula predicate.now item.now) }
{}

/// `lt` and `ge`, `gt` and `le`, and `eq` and `ne` of one constant have opposite verdicts.
///
/// ```
/// laws::complements(&5, &7); // `lt(5)` and `ge(5)`, and so on
/// ```
pub fn complements<T: fmt::Debug + Ord>(constant: &T, item: &T)
    ensures lt_ge { AreOpposite
        (⟦<OrdPredicate<T> as Predicate<T>>⟧.formula (less_than constant.now) item.now)
        (⟦<OrdPredicate<T> as Predicate<T>>⟧.formula (at_least constant.now) item.now) }
    ensures gt_le { AreOpposite
        (⟦<OrdPredicate<T> as Predicate<T>>⟧.formula (greater_than constant.now) item.now)
        (⟦<OrdPredicate<T> as Predicate<T>>⟧.formula (at_most constant.now) item.now) }
    ensures eq_ne { AreOpposite
        (⟦<EqPredicate<T> as Predicate<T>>⟧.formula (equal_to constant.now) item.now)
        (⟦<EqPredicate<T> as Predicate<T>>⟧.formula (unequal_to constant.now) item.now) }
{}

/// Some member equals the item in a list, in each rearrangement of it, and in what is left of it
/// without the later of equal members, or in none of them.
///
/// ```
/// laws::memberships(&[3, 1, 3], &1); // as in [1, 3, 3], and as in [3, 1]
/// ```
pub fn memberships<T: Ord + Hash>(members: &[T], item: &T)
    ensures rearranged { (sorted : List T) → IsPermutation members.now sorted
        → has_equal T.eq sorted item.now ≡ has_equal T.eq members.now item.now }
    ensures first { has_equal T.eq (first_of_equals T.eq members.now) item.now
        ≡ has_equal T.eq members.now item.now }
{}
