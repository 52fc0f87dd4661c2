//! Predicates that hold where at least, at most or exactly so many of a list of predicates of one
//! type do.
//!
//! ```
//! let two_of_three = at_least(2, rules);
//! ```
ghost use Rattle.std.specs.Prelude.{◌≡◌, IfOk};
ghost use Rattle.std.specs.List.{AllZip};
ghost use Rattle.predicates_boolean.specs.Join.{left_of, right_of};
ghost use Rattle.predicates_boolean.specs.Limit.{limit_of, threshold_of};
ghost use Rattle.predicates_boolean.specs.Rules.{needed_of, one_more, rules_of};

use crate::boolean::AndPredicate;
pub use crate::limit::{LimitPredicate, Threshold};
use crate::rules::RulesPredicate;
use predicates_core::Predicate;
use predicates_core::custom::AtLeast;
use std::alloc::AllocError;

/// Holds where at least so many of its rules do. Made by `at_least`.
pub type AtLeastPredicate<P> = RulesPredicate<AtLeast, P>;

/// Holds where at least so many of the rules do; `eval` stops at the one that decides. It prints
/// `at_least(2, ..)`. Where no rule is needed it holds, and where there are fewer rules than are
/// needed it does not, whatever they answer. Making it takes no memory.
///
/// The case shows the first rules that decide: `least` that hold, or of those that fail one more
/// than may. Unless these are all, each has its number as the product `index`.
///
/// ```
/// let grades = vec![in alloc; predicate::ge(5), predicate::le(10), predicate::lt(3)]?;
/// let two_of_three = predicate::at_least(2, grades);
/// assert!(rt; two_of_three.eval(alloc, &7)?);
/// assert!(rt; !two_of_three.eval(alloc, &11)?);
/// ```
pub fn at_least<P>(least: usize, rules: Vec<P>) -> AtLeastPredicate<P>
    ensures least { needed_of result ≡ least }
    ensures rules { rules_of result ≡ rules.items }
{
    RulesPredicate::new(AtLeast { least }, rules)
}

/// At most so many of the rules hold. Made by `at_most`.
pub type AtMostPredicate<P, Item> = LimitPredicate<AtLeastPredicate<P>, Item>;

/// So many of the rules hold, and no more. Made by `exactly`.
pub type ExactlyPredicate<P, Item> = AndPredicate<
    AtLeastPredicate<P>,
    AtMostPredicate<P, Item>,
    Item,
>;

/// Holds where at most so many of the rules do: it is not that one more of them hold, which its case
/// shows. It prints `at_most(2, ..)`. Making it takes no memory.
///
/// ```
/// let grades = vec![in alloc; predicate::ge(5), predicate::le(10), predicate::lt(3)]?;
/// let one_at_most = predicate::at_most(1, grades);
/// assert!(rt; one_at_most.eval(alloc, &11)?);
/// assert!(rt; !one_at_most.eval(alloc, &7)?);
/// ```
pub fn at_most<P: Predicate<Item>, Item>(most: usize, rules: Vec<P>) -> AtMostPredicate<P, Item>
    ensures limit { limit_of result ≡ most }
    ensures most { needed_of (threshold_of result) ≡ one_more most }
    ensures rules { rules_of (threshold_of result) ≡ rules.items }
{
    LimitPredicate::new(most, at_least(one_more(most), rules))
}

/// Holds where so many of the rules do, and no more: `at_least` of the number, and `at_most` of it
/// over a copy of the rules. So each rule is asked for either, and a true one needs every rule for
/// its reason. It takes memory for the copy.
///
/// ```
/// let grades = vec![in alloc; predicate::ge(5), predicate::le(10), predicate::lt(3)]?;
/// let two = predicate::exactly(2, grades)?;
/// assert!(rt; two.eval(alloc, &7)?);
/// assert!(rt; !two.eval(alloc, &11)?);
/// ```
pub fn exactly<P: Predicate<Item> + Clone, Item>(
    number: usize,
    rules: Vec<P>,
) -> Result<ExactlyPredicate<P, Item>, AllocError>
    ensures least { IfOk result (λ both. needed_of (left_of both) ≡ number) }
    ensures rules { IfOk result (λ both. rules_of (left_of both) ≡ rules.items) }
    ensures limit { IfOk result (λ both. limit_of (right_of both) ≡ number) }
    ensures most { IfOk result (λ both.
        needed_of (threshold_of (right_of both)) ≡ one_more number) }
    ensures copied { IfOk result (λ both.
        AllZip P.is_clone rules.items (rules_of (threshold_of (right_of both)))) }
{
    let copied = rules.clone()?;
    Ok(AndPredicate::new(at_least(number, rules), at_most(number, copied)))
}

/// One more than the number, or the number itself where no number is larger.
pub fn one_more(number: usize) -> usize
    ensures { result ≡ one_more number }
{
    match number.checked_add(1) {
        Some(next) => next,
        None => number,
    }
}
