//! Combinators of predicates over one item type.
//!
//! ```
//! let between = predicate::ge(5).and(predicate::le(10));
//! let outside = predicate::ge(5).and(predicate::le(10)).not();
//! ```
//!
//! Making one takes no memory. `eval` takes none where those of the parts take none.
ghost use Rattle.std.specs.Prelude.{◌≡◌, ◌↔◌};
ghost use Rattle.predicates_core.specs.Combined.{infix_text, not_text, sign, IsNot, IsPair};
ghost use Rattle.predicates_core.specs.Formula.{Formula};
ghost use Rattle.predicates_core.specs.declared.custom.join.Operator.TheVariants.{And, Or, Xor};
ghost use Rattle.predicates_boolean.specs.Join.{left_of, right_of};
ghost use Rattle.predicates_boolean.specs.Not.{inner_of};

mod join;
mod not;

pub use join::{
    AndOperator, AndPredicate, JoinOperator, JoinPredicate, OrOperator, OrPredicate, XorOperator,
    XorPredicate,
};
pub use not::NotPredicate;
use predicates_core::Predicate;

/// Combines any predicates over one item type.
pub trait PredicateBooleanExt<Item>: Predicate<Item> {
    /// Both `self` and `other` hold; `other` is evaluated only where `self` holds.
    ///
    /// ```
    /// let between = predicate::ge(5).and(predicate::le(10));
    /// assert!(rt; between.eval(alloc, &7)?);
    /// assert!(rt; !between.eval(alloc, &11)?);
    /// ```
    fn and<B: Predicate<Item>>(self, other: B) -> AndPredicate<Self, B, Item>
    where
        Self: Sized,
        ensures left { left_of result ≡ self }
        ensures right { right_of result ≡ other }
        ensures formula { (v : Item) (f : Formula)
            → ⟦<AndPredicate<Self, B, Item> as Predicate<Item>>⟧.formula result v f
            ↔ IsPair And (infix_text (sign And) (Self.output self) (B.output other))
            (Self.formula self v) (B.formula other v) f };

    /// `self` or `other` holds; `other` is evaluated only where `self` does not hold.
    ///
    /// ```
    /// let outside = predicate::lt(5).or(predicate::gt(10));
    /// assert!(rt; outside.eval(alloc, &11)?);
    /// assert!(rt; !outside.eval(alloc, &7)?);
    /// ```
    fn or<B: Predicate<Item>>(self, other: B) -> OrPredicate<Self, B, Item>
    where
        Self: Sized,
        ensures left { left_of result ≡ self }
        ensures right { right_of result ≡ other }
        ensures formula { (v : Item) (f : Formula)
            → ⟦<OrPredicate<Self, B, Item> as Predicate<Item>>⟧.formula result v f
            ↔ IsPair Or (infix_text (sign Or) (Self.output self) (B.output other))
            (Self.formula self v) (B.formula other v) f };

    /// Exactly one of `self` and `other` holds; both are evaluated.
    ///
    /// ```
    /// let one = predicate::ge(5).xor(predicate::ge(10));
    /// assert!(rt; one.eval(alloc, &7)?);
    /// assert!(rt; !one.eval(alloc, &11)?);
    /// ```
    fn xor<B: Predicate<Item>>(self, other: B) -> XorPredicate<Self, B, Item>
    where
        Self: Sized,
        ensures left { left_of result ≡ self }
        ensures right { right_of result ≡ other }
        ensures formula { (v : Item) (f : Formula)
            → ⟦<XorPredicate<Self, B, Item> as Predicate<Item>>⟧.formula result v f
            ↔ IsPair Xor (infix_text (sign Xor) (Self.output self) (B.output other))
            (Self.formula self v) (B.formula other v) f };

    /// `self` does not hold.
    ///
    /// ```
    /// let small = predicate::ge(5).not();
    /// assert!(rt; small.eval(alloc, &3)?);
    /// assert!(rt; !small.eval(alloc, &7)?);
    /// ```
    fn not(self) -> NotPredicate<Self, Item>
    where
        Self: Sized,
        ensures inner { inner_of result ≡ self }
        ensures formula { (v : Item) (f : Formula)
            → ⟦<NotPredicate<Self, Item> as Predicate<Item>>⟧.formula result v f
            ↔ IsNot (not_text (Self.output self)) (Self.formula self v) f };
}

impl<P: Predicate<Item>, Item> PredicateBooleanExt<Item> for P {
    fn and<B: Predicate<Item>>(self, other: B) -> AndPredicate<Self, B, Item> {
        AndPredicate::new(self, other)
    }

    fn or<B: Predicate<Item>>(self, other: B) -> OrPredicate<Self, B, Item> {
        OrPredicate::new(self, other)
    }

    fn xor<B: Predicate<Item>>(self, other: B) -> XorPredicate<Self, B, Item> {
        XorPredicate::new(self, other)
    }

    fn not(self) -> NotPredicate<Self, Item> {
        NotPredicate::new(self)
    }
}
