//! What lists of rules mean on an item of any type, as contracts of calls that do nothing: the
//! calls that make a list don't name the items that it is asked of.
//!
//! ```
//! // From here on a proof knows the formulas of `all` on `item`, and when it takes no memory.
//! semantics::rules(&all, &item);
//! ```
//!
//! Each clause holds for every predicate of the type and every item. The clauses state the
//! predicate's formulas, what `eval` requires, when `eval` takes no memory, and the predicate's
//! parameters and children.
ghost use Rattle.std.specs.Prelude.{◌≡◌, ◌↔◌, [], codes, map};
ghost use Rattle.std.specs.List.{AllByRecursion};
ghost use Rattle.predicates_core.specs.Formula.{Formula};
ghost use Rattle.predicates_core.specs.Parts.{part_of_each};
ghost use Rattle.predicates_core.specs.Thresholds.{IsOfThreshold};
ghost use Rattle.predicates_boolean.specs.Rules.{least_of_rules, quantifier_of, rules_of, rules_text};

use crate::rules::RulesPredicate;
use predicates_core::Predicate;
use predicates_core::custom::Quantifier;
use predicates_core::reflection::PredicateReflection;

/// Its formulas are `AtLeast` over a formula of each rule, in order, under the name `rule`: so many as
/// have to hold; where their number alone settles it, it is one leaf.
pub fn rules<Q: Quantifier, P: Predicate<Item>, Item>(rules: &RulesPredicate<Q, P>, item: &Item)
    ensures formula { (f : Formula)
        → ⟦<RulesPredicate<Q, P> as Predicate<Item>>⟧.formula rules.now item.now f
        ↔ IsOfThreshold (least_of_rules Q.how_many rules.now)
        (rules_text (Q.how_many (quantifier_of rules.now)) (map P.output (rules_of rules.now)))
        (codes "rule") (λ p. P.formula p item.now) (rules_of rules.now) f }
    ensures lawful { ⟦<RulesPredicate<Q, P> as Predicate<Item>>⟧.lawful rules.now
        ↔ AllByRecursion P.lawful (rules_of rules.now) }
    ensures infallible { ⟦<RulesPredicate<Q, P> as Predicate<Item>>⟧.infallible rules.now item.now
        ↔ AllByRecursion (λ p. P.infallible p item.now) (rules_of rules.now) }
    ensures values { ⟦<RulesPredicate<Q, P> as PredicateReflection>⟧.parameters_of rules.now ≡ [] }
    ensures parts { ⟦<RulesPredicate<Q, P> as PredicateReflection>⟧.children_of rules.now
        ≡ part_of_each (codes "rule") P.output P.parameters_of P.children_of (rules_of rules.now) }
{}
