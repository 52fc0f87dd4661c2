//! What checks mean, as a contract of a call that does nothing.
//!
//! ```
//! // From here on a proof knows the formulas of `works` on `item`, and when it takes no memory.
//! semantics::check(&works, &item);
//! ```
//!
//! Each clause holds for every check and every item. The clauses state the check's formulas, what
//! `eval` requires, when `eval` takes no memory, and the check's parameters and children.
ghost use Rattle.std.specs.Prelude.{◌≡◌, ◌↔◌};
ghost use Rattle.predicates_core.specs.Formula.{Formula};
ghost use Rattle.predicates_tree.specs.Described.{tree_parameters, tree_parts};
ghost use Rattle.predicates_tree.specs.Formulas.{HasFormula};
ghost use Rattle.predicates_tree.specs.Trees.{tree_of, AllLeaves, AllAsked};

use crate::check::Check;
use crate::view::View;
use crate::wording::Wording;
use predicates_core::Predicate;
use predicates_core::reflection::PredicateReflection;

/// Its formulas are those of its tree, from those of its leaves.
pub fn check<L: Predicate<Item>, V: View<Item>, S: Wording, Item>(
    check: &Check<L, V, S>,
    item: &Item,
)
    ensures formula { (f : Formula)
        → ⟦<Check<L, V, S> as Predicate<Item>>⟧.formula check.now item.now f
        ↔ HasFormula L.output V.output L.formula V.gives V.absence_of item.now
        (tree_of S.words check.now) f }
    ensures lawful { ⟦<Check<L, V, S> as Predicate<Item>>⟧.lawful check.now
        ↔ AllLeaves L.lawful (tree_of S.words check.now) }
    ensures infallible { ⟦<Check<L, V, S> as Predicate<Item>>⟧.infallible check.now item.now
        ↔ AllAsked L.infallible V.lends V.gives item.now (tree_of S.words check.now) }
    ensures values { ⟦<Check<L, V, S> as PredicateReflection>⟧.parameters_of check.now
        ≡ tree_parameters L.parameters_of (tree_of S.words check.now) }
    ensures parts { ⟦<Check<L, V, S> as PredicateReflection>⟧.children_of check.now
        ≡ tree_parts L.output V.output L.parameters_of L.children_of (tree_of S.words check.now) }
{}
