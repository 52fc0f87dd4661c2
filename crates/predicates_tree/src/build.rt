//! How checks are made.
ghost use Rattle.std.specs.Prelude.{◌≡◌, suc, min, IfOk, map};
ghost use Rattle.predicates_core.specs.declared.custom.join.Operator.TheVariants.{And, Or, Xor};
ghost use Rattle.predicates_core.specs.declared.custom.quantifier.HowMany.TheVariants.{
  Every,
  AtLeastOne,
  AtLeast,
};
ghost use Rattle.predicates_tree.specs.declared.quota.Quota.TheVariants.{Threshold, Odd};
ghost use Rattle.predicates_tree.specs.Trees.{computed, computed_tree, trees_of};
ghost use Rattle.predicates_tree.specs.Trees.{Leaf, Not, Named, Pair, Row, Members};

use crate::check::Check;
use crate::quota::Quota;
use crate::wording::Computed;
use predicates_core::custom::{HowMany, Operator};
use predicates_core::static_text::StaticText;
use std::alloc::{AllocError, Global};

impl<L: Drop> Check<L> {
    /// Holds where the leaf does. It takes no memory.
    ///
    /// ```
    /// let grown = Check::leaf(predicate::ge(5));
    /// assert!(rt; grown.eval(alloc, &7)?);
    /// assert!(rt; !grown.eval(alloc, &3)?);
    /// ```
    pub fn leaf(leaf: L) -> Check<L>
        ensures { computed_tree result ≡ Leaf leaf }
    {
        Check::Leaf(leaf)
    }
}

impl<L: Drop, V: Drop> Check<L, V> {
    /// Holds where the leaf does, in a check that asks members too, so with a view `V`. It takes no
    /// memory.
    ///
    /// ```
    /// let large: Check<TestPredicate<Size>, Entries> =
    ///     Check::leaf_beside_members(leaf(Size { least: 25 }));
    /// assert!(rt; large.eval(alloc, &folder)?);
    /// ```
    pub fn leaf_beside_members(leaf: L) -> Check<L, V>
        ensures { computed_tree result ≡ Leaf leaf }
    {
        Check::Leaf(leaf)
    }

    /// Holds where the check does not.
    ///
    /// ```
    /// let small = Check::leaf(predicate::ge(5)).not(alloc)?;
    /// assert!(rt; small.eval(alloc, &3)?);
    /// assert!(rt; !small.eval(alloc, &7)?);
    /// ```
    pub fn not(self, alloc: Global) -> Result<Check<L, V>, AllocError>
        ensures { IfOk result (λ made. computed_tree made ≡ Not computed (computed_tree self)) }
    {
        Ok(Check::Not(Computed, Box::new(alloc, self)?))
    }

    /// The check under a name, which is printed in its place.
    ///
    /// ```
    /// let adult = Check::leaf(predicate::ge(18)).name(alloc, "adult")?;
    /// assert!(rt; adult.to_string(alloc)?.as_str() == "adult");
    /// ```
    pub fn name(self, alloc: Global, name: &'static str) -> Result<Check<L, V>, AllocError>
        ensures { IfOk result (λ made. computed_tree made ≡ Named name.entry.now
            (computed_tree self)) }
    {
        Ok(Check::Named(StaticText::new(name), Box::new(alloc, self)?))
    }

    /// Holds where both checks do; the other one is asked only where this one holds.
    ///
    /// ```
    /// let between = Check::leaf(predicate::ge(5)).and(alloc, Check::leaf(predicate::le(10)))?;
    /// assert!(rt; between.eval(alloc, &7)?);
    /// assert!(rt; !between.eval(alloc, &11)?);
    /// ```
    pub fn and(self, alloc: Global, other: Check<L, V>) -> Result<Check<L, V>, AllocError>
        ensures { IfOk result (λ made. computed_tree made ≡ Pair computed And (computed_tree self)
            (computed_tree other)) }
    {
        Ok(Check::Pair(
            Computed,
            Operator::And,
            Box::new(alloc, self)?,
            Box::new(alloc, other)?,
        ))
    }

    /// Holds where one or both checks do; the other one is asked only where this one does not hold.
    ///
    /// ```
    /// let outside = Check::leaf(predicate::lt(5)).or(alloc, Check::leaf(predicate::gt(10)))?;
    /// assert!(rt; outside.eval(alloc, &11)?);
    /// assert!(rt; !outside.eval(alloc, &7)?);
    /// ```
    pub fn or(self, alloc: Global, other: Check<L, V>) -> Result<Check<L, V>, AllocError>
        ensures { IfOk result (λ made. computed_tree made ≡ Pair computed Or (computed_tree self)
            (computed_tree other)) }
    {
        Ok(Check::Pair(
            Computed,
            Operator::Or,
            Box::new(alloc, self)?,
            Box::new(alloc, other)?,
        ))
    }

    /// Holds where exactly one of the checks does; both are asked.
    ///
    /// ```
    /// let one = Check::leaf(predicate::ge(5)).xor(alloc, Check::leaf(predicate::ge(10)))?;
    /// assert!(rt; one.eval(alloc, &7)?);
    /// assert!(rt; !one.eval(alloc, &11)?);
    /// ```
    pub fn xor(self, alloc: Global, other: Check<L, V>) -> Result<Check<L, V>, AllocError>
        ensures { IfOk result (λ made. computed_tree made ≡ Pair computed Xor (computed_tree self)
            (computed_tree other)) }
    {
        Ok(Check::Pair(
            Computed,
            Operator::Xor,
            Box::new(alloc, self)?,
            Box::new(alloc, other)?,
        ))
    }

    /// Holds where each of the parts does, as `all_of`. It takes no memory.
    ///
    /// ```
    /// let low = Check::leaf(predicate::ge(5));
    /// let high = Check::leaf(predicate::ge(10));
    /// let all = Check::all(vec![in alloc; low, high]?);
    /// assert!(rt; all.eval(alloc, &11)?);
    /// assert!(rt; !all.eval(alloc, &7)?);
    /// ```
    pub fn all(parts: Vec<Check<L, V>>) -> Check<L, V>
        ensures { computed_tree result ≡ Row computed (Threshold Every) (trees_of
            (map computed_tree parts.items)) }
    {
        Check::Row(Computed, Quota::Threshold(HowMany::Every), parts)
    }

    /// Holds where one of the parts does, as `any_of`. It takes no memory.
    ///
    /// ```
    /// let low = Check::leaf(predicate::eq(5));
    /// let high = Check::leaf(predicate::eq(10));
    /// let any = Check::any(vec![in alloc; low, high]?);
    /// assert!(rt; any.eval(alloc, &10)?);
    /// assert!(rt; !any.eval(alloc, &7)?);
    /// ```
    pub fn any(parts: Vec<Check<L, V>>) -> Check<L, V>
        ensures { computed_tree result ≡ Row computed (Threshold AtLeastOne) (trees_of
            (map computed_tree parts.items)) }
    {
        Check::Row(Computed, Quota::Threshold(HowMany::AtLeastOne), parts)
    }

    /// Holds where at least so many of the parts do, as `at_least`. It takes no memory.
    ///
    /// ```
    /// let low = Check::leaf(predicate::ge(5));
    /// let high = Check::leaf(predicate::le(10));
    /// let two = Check::at_least(2, vec![in alloc; low, high]?);
    /// assert!(rt; two.eval(alloc, &7)?);
    /// assert!(rt; !two.eval(alloc, &11)?);
    /// ```
    pub fn at_least(least: usize, parts: Vec<Check<L, V>>) -> Check<L, V>
        ensures { computed_tree result ≡ Row computed (Threshold (AtLeast least)) (trees_of
            (map computed_tree parts.items)) }
    {
        Check::Row(Computed, Quota::Threshold(HowMany::AtLeast(least)), parts)
    }

    /// Holds where at most so many of the parts do, as `at_most`: it is not that one more of them
    /// hold, and prints `(! at_least(2, ..))` for one.
    ///
    /// ```
    /// let low = Check::leaf(predicate::ge(5));
    /// let high = Check::leaf(predicate::le(10));
    /// let one = Check::at_most(alloc, 1, vec![in alloc; low, high]?)?;
    /// assert!(rt; one.eval(alloc, &11)?);
    /// assert!(rt; !one.eval(alloc, &7)?);
    /// ```
    pub fn at_most(
        alloc: Global,
        most: usize,
        parts: Vec<Check<L, V>>,
    ) -> Result<Check<L, V>, AllocError>
        ensures { IfOk result (λ made. computed_tree made ≡ Not computed (Row computed
            (Threshold (AtLeast (min (suc most) 18446744073709551615)))
            (trees_of (map computed_tree parts.items)))) }
    {
        Check::at_least(most.saturating_add(1), parts).not(alloc)
    }

    /// Holds where an odd number of the parts do, as `xor` of two. It takes no memory.
    ///
    /// ```
    /// let low = Check::leaf(predicate::ge(5));
    /// let middle = Check::leaf(predicate::ge(10));
    /// let high = Check::leaf(predicate::ge(15));
    /// let odd = Check::odd(vec![in alloc; low, middle, high]?);
    /// assert!(rt; odd.eval(alloc, &16)?);
    /// assert!(rt; !odd.eval(alloc, &11)?);
    /// ```
    pub fn odd(parts: Vec<Check<L, V>>) -> Check<L, V>
        ensures { computed_tree result ≡ Row computed Odd (trees_of
            (map computed_tree parts.items)) }
    {
        Check::Row(Computed, Quota::Odd, parts)
    }

    /// Holds of an item where the check does of each of its members, as `of_each`; and not where
    /// the view gives no list.
    ///
    /// ```
    /// let all_large = large().of_each(alloc, Entries)?;
    /// assert!(rt; !all_large.eval(alloc, &folder)?);
    /// ```
    pub fn of_each(self, alloc: Global, view: V) -> Result<Check<L, V>, AllocError>
        ensures { IfOk result (λ made. computed_tree made ≡ Members computed (Threshold Every) view
            (computed_tree self)) }
    {
        let inner = Box::new(alloc, self)?;
        Ok(Check::Members(Computed, Quota::Threshold(HowMany::Every), view, inner))
    }

    /// Holds of an item where the check does of one of its members, as `of_any`; and not where the
    /// view gives no list.
    ///
    /// ```
    /// let some_large = large().of_any(alloc, Entries)?;
    /// assert!(rt; some_large.eval(alloc, &folder)?);
    /// ```
    pub fn of_any(self, alloc: Global, view: V) -> Result<Check<L, V>, AllocError>
        ensures { IfOk result (λ made. computed_tree made ≡ Members computed (Threshold AtLeastOne) view
            (computed_tree self)) }
    {
        let inner = Box::new(alloc, self)?;
        Ok(Check::Members(Computed, Quota::Threshold(HowMany::AtLeastOne), view, inner))
    }

    /// Holds of an item where the check does of at least so many of its members, as `of_at_least`;
    /// and not where the view gives no list.
    ///
    /// ```
    /// let two_large = large().of_at_least(alloc, 2, Entries)?;
    /// assert!(rt; !two_large.eval(alloc, &folder)?);
    /// ```
    pub fn of_at_least(
        self,
        alloc: Global,
        least: usize,
        view: V,
    ) -> Result<Check<L, V>, AllocError>
        ensures { IfOk result (λ made. computed_tree made ≡ Members computed (Threshold (AtLeast least)) view
            (computed_tree self)) }
    {
        let inner = Box::new(alloc, self)?;
        Ok(Check::Members(
            Computed,
            Quota::Threshold(HowMany::AtLeast(least)),
            view,
            inner,
        ))
    }

    /// Holds of an item where the check does of at most so many of its members, as `of_at_most`; and
    /// where the view gives no list: it is not that one more of the members hold.
    ///
    /// ```
    /// let one_large = large().of_at_most(alloc, 1, Entries)?;
    /// assert!(rt; one_large.eval(alloc, &folder)?);
    /// ```
    pub fn of_at_most(self, alloc: Global, most: usize, view: V) -> Result<Check<L, V>, AllocError>
        ensures { IfOk result (λ made. computed_tree made ≡ Not computed (Members computed
            (Threshold (AtLeast (min (suc most) 18446744073709551615))) view
            (computed_tree self))) }
    {
        self.of_at_least(alloc, most.saturating_add(1), view)?
            .not(alloc)
    }
}
