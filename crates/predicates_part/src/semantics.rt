//! What predicates of a variant and of a length mean on an item of any type, as contracts of calls
//! that do nothing: the calls that make them don't name the items that they are asked of.
//!
//! ```
//! // From here on a proof knows the formulas of `short` on `list`, and when it takes no memory.
//! semantics::length(&short, &list);
//! ```
ghost use Rattle.std.specs.Prelude.{◌↔◌, codes, IfSome};
ghost use Rattle.predicates_core.specs.Combined.{IsNamed};
ghost use Rattle.predicates_core.specs.Formula.{Formula};
ghost use Rattle.predicates_core.specs.Present.{IsOfPresent};
ghost use Rattle.predicates_part.specs.Length as Length;
ghost use Rattle.predicates_part.specs.Optional as Optional;

use crate::{Length, LengthPredicate, Variant, VariantPredicate};
use predicates_core::Predicate;

/// On an item of the variant its formulas are those of the inner predicate on the value, and on
/// another it is one false leaf.
pub fn variant<V: Variant<T>, P: Predicate<V::Value>, T>(
    predicate: &VariantPredicate<V, P>,
    item: &T,
)
    ensures formula { (f : Formula)
        → ⟦<VariantPredicate<V, P> as Predicate<T>>⟧.formula predicate.now item.now f
        ↔ IsOfPresent (P.output (Optional.inner_of predicate.now)) V.absent
        (P.formula (Optional.inner_of predicate.now)) (V.value_of item.now) f }
    ensures lawful { ⟦<VariantPredicate<V, P> as Predicate<T>>⟧.lawful predicate.now
        ↔ P.lawful (Optional.inner_of predicate.now) }
    ensures infallible { ⟦<VariantPredicate<V, P> as Predicate<T>>⟧.infallible
        predicate.now item.now
        ↔ IfSome (V.value_of item.now) (P.infallible (Optional.inner_of predicate.now)) }
{}

/// Its formulas are `Named` over a formula of the inner predicate on the length.
pub fn length<P: Predicate<usize>, T: Length>(predicate: &LengthPredicate<P>, item: &T)
    ensures formula { (f : Formula)
        → ⟦<LengthPredicate<P> as Predicate<T>>⟧.formula predicate.now item.now f
        ↔ IsNamed (codes "len")
        (P.formula (Length.inner_of predicate.now) (T.length_of item.now)) f }
    ensures lawful { ⟦<LengthPredicate<P> as Predicate<T>>⟧.lawful predicate.now
        ↔ P.lawful (Length.inner_of predicate.now) }
    ensures infallible { ⟦<LengthPredicate<P> as Predicate<T>>⟧.infallible predicate.now item.now
        ↔ P.infallible (Length.inner_of predicate.now) (T.length_of item.now) }
{}
