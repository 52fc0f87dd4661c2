//! Predicates of parts of an item, as of the fields of a struct.
//!
//! ```
//! let adult = predicate::ge(18).of("age", |person: &Person| person.age);
//! ```
//!
//! Its case on a person of 17 shows the part that decided:
//!
//! ```text
//! age = false
//!   age: var >= 18 = false
//!     - var: 17
//! ```
#![tactic(auto)]

ghost use Rattle.std.specs.Prelude.{◌≡◌, ◌↔◌, [], ◌∷◌, codes, length, option_copied, IfOk};
ghost use Rattle.std.specs.Prelude.{IfSome, Option, Vec};
ghost use Rattle.std.specs.Global.{Global};
ghost use Rattle.predicates_core.specs.Combined.{IsNamed};
ghost use Rattle.predicates_core.specs.Formula.{Formula};
ghost use Rattle.predicates_core.specs.Present.{IsOfPresent};
ghost use Rattle.predicates_core.specs.Thresholds.{IsOfThreshold, counted_text};
ghost use Rattle.predicates_part.specs.Part.{HasOnePart, IsOfPart, IsInfallibleOnPart};
ghost use Rattle.predicates_part.specs.Part.{owned, borrowed};
ghost use Rattle.predicates_part.specs.Part.{inner_of, function_of, name_of};
ghost use Rattle.predicates_part.specs.Length as Length;
ghost use Rattle.predicates_boolean.specs.Join.{left_of, right_of};
ghost use Rattle.predicates_boolean.specs.Limit.{limit_of, threshold_of};
ghost use Rattle.predicates_boolean.specs.Rules.{one_more};
ghost use Rattle.predicates_part.specs.Members as Members;
ghost use Rattle.predicates_part.specs.Members.{applied_text};
ghost use Rattle.predicates_part.specs.Optional as Optional;

mod length;
mod members;
mod part;
pub mod semantics;
mod variant;

pub use length::{Length, LengthPredicate};
pub use members::{
    AnyPredicate, EachPredicate, MembersAtLeastPredicate, MembersAtMostPredicate,
    MembersExactlyPredicate, MembersPredicate,
};
pub use part::{ByField, ByOption, ByReference, ByValue, Field, FieldPredicate, PartPredicate};
use predicates_boolean::boolean::AndPredicate;
use predicates_boolean::threshold::{LimitPredicate, one_more};
use predicates_core::Predicate;
use predicates_core::as_static_str::AsStaticStr;
use predicates_core::custom::{AtLeast, AtLeastOne, Every};
use predicates_core::name::NamePredicate;
use std::alloc::AllocError;
pub use variant::{
    ErrPredicate, ErrVariant, OkPredicate, OkVariant, SomePredicate, SomeVariant, Variant,
    VariantPredicate,
};

/// Makes a predicate of parts one of the items that have them.
pub trait PredicatePartExt<U>: Predicate<U> {
    /// The predicate that holds of an item where this one holds of the part that the function
    /// gives. It prints the part's name.
    ///
    /// The function may be called on every item (`callable`) and gives one part of each
    /// (`one_part`). Making it takes no memory, and its `eval` takes what this one's does.
    ///
    /// ```
    /// let adult = predicate::ge(18).of("age", |guest: &Guest| guest.age);
    /// assert!(rt; adult.eval(alloc, &ada)?);
    /// assert!(rt; !adult.eval(alloc, &bob)?);
    /// ```
    fn of<F: Fn(&T) -> U, T, N: AsStaticStr>(
        self,
        name: N,
        function: F,
    ) -> FieldPredicate<Self, F, T, U, N, ByValue>
    where
        Self: Sized,
        U: Drop,
        requires callable { F.IsAlwaysCallable function }
        requires one_part { HasOnePart F.Fn owned function }
        ensures inner { inner_of result ≡ self }
        ensures function { function_of result ≡ function }
        ensures name { name_of result ≡ name }
        ensures formula { (v : T) (f : Formula)
            → ⟦<FieldPredicate<Self, F, T, U, N, ByValue> as Predicate<T>>⟧.formula result v f
            ↔ IsNamed (N.bytes name) (IsOfPart F.Fn owned function (Self.formula self) v) f }
        ensures lawful { ⟦<FieldPredicate<Self, F, T, U, N, ByValue> as Predicate<T>>⟧.lawful result
            ↔ Self.lawful self × F.IsAlwaysCallable function
            × HasOnePart F.Fn owned function }
        ensures infallible { (v : T)
            → ⟦<FieldPredicate<Self, F, T, U, N, ByValue> as Predicate<T>>⟧.infallible result v
            ↔ IsInfallibleOnPart F.Fn owned function (Self.infallible self) v };

    /// As `of`, of a part that the function borrows from the item. The function is a named one with
    /// an `ensures`, as `fn name_of(person: &Person) -> &String`, and no closure.
    ///
    /// ```
    /// let first = predicate::eq("Ada".to_owned(alloc)?).of_ref("name", name_of);
    /// assert!(rt; first.eval(alloc, &ada)?);
    /// assert!(rt; !first.eval(alloc, &bob)?);
    /// ```
    fn of_ref<F: Fn(&T) -> &U, T, N: AsStaticStr>(
        self,
        name: N,
        function: F,
    ) -> FieldPredicate<Self, F, T, U, N, ByReference>
    where
        Self: Sized,
        requires callable { F.IsAlwaysCallable function }
        requires one_part { HasOnePart F.Fn borrowed function }
        ensures inner { inner_of result ≡ self }
        ensures function { function_of result ≡ function }
        ensures name { name_of result ≡ name }
        ensures formula { (v : T) (f : Formula)
            → ⟦<FieldPredicate<Self, F, T, U, N, ByReference> as Predicate<T>>⟧.formula result v f
            ↔ IsNamed (N.bytes name) (IsOfPart F.Fn borrowed function (Self.formula self) v) f }
        ensures lawful { ⟦<FieldPredicate<Self, F, T, U, N, ByReference> as Predicate<T>>⟧.lawful
            result ↔ Self.lawful self × F.IsAlwaysCallable function
            × HasOnePart F.Fn borrowed function }
        ensures infallible { (v : T)
            → ⟦<FieldPredicate<Self, F, T, U, N, ByReference> as Predicate<T>>⟧.infallible result v
            ↔ IsInfallibleOnPart F.Fn borrowed function (Self.infallible self) v };

    /// As `of_ref`, of a part that an item may lack, as the value under a key of a map, the first
    /// member of a list or an enum's variant. Where there is none, this one does not hold; the case
    /// then shows one false leaf under the name, with the product `error`.
    ///
    /// ```
    /// let front = predicate::le(9).of_some_ref("seat", seat_of);
    /// assert!(rt; front.eval(alloc, &ada)?);
    /// assert!(rt; !front.eval(alloc, &bob)?); // without a seat
    /// ```
    fn of_some_ref<F: Fn(&T) -> Option<&U>, T, N: AsStaticStr>(
        self,
        name: N,
        function: F,
    ) -> FieldPredicate<Self, F, T, U, N, ByOption>
    where
        Self: Sized,
        requires callable { F.IsAlwaysCallable function }
        requires one_part { HasOnePart F.Fn option_copied function }
        ensures inner { inner_of result ≡ self }
        ensures function { function_of result ≡ function }
        ensures name { name_of result ≡ name }
        ensures formula { (v : T) (f : Formula)
            → ⟦<FieldPredicate<Self, F, T, U, N, ByOption> as Predicate<T>>⟧.formula result v f
            ↔ IsNamed (N.bytes name) (IsOfPart F.Fn option_copied function
            (IsOfPresent (Self.output self) (codes "no value") (Self.formula self)) v) f }
        ensures lawful { ⟦<FieldPredicate<Self, F, T, U, N, ByOption> as Predicate<T>>⟧.lawful
            result ↔ Self.lawful self × F.IsAlwaysCallable function
            × HasOnePart F.Fn option_copied function }
        ensures infallible { (v : T)
            → ⟦<FieldPredicate<Self, F, T, U, N, ByOption> as Predicate<T>>⟧.infallible result v
            ↔ IsInfallibleOnPart F.Fn option_copied function
            (λ held. IfSome held (Self.infallible self)) v };

    /// As `of`, of a field. There is no condition, and where this one is `Total` so is the result.
    ///
    /// ```
    /// let adult = predicate::ge(18).of_field("age", Age);
    /// assert!(rt; adult.eval(alloc, &ada)?);
    /// assert!(rt; !adult.eval(alloc, &bob)?);
    /// ```
    fn of_field<F: Field<T, U>, T, N: AsStaticStr>(
        self,
        name: N,
        field: F,
    ) -> FieldPredicate<Self, F, T, U, N, ByField>
    where
        Self: Sized,
        ensures inner { inner_of result ≡ self }
        ensures function { function_of result ≡ field }
        ensures name { name_of result ≡ name }
        ensures formula { (v : T) (f : Formula)
            → ⟦<FieldPredicate<Self, F, T, U, N, ByField> as Predicate<T>>⟧.formula result v f
            ↔ IsNamed (N.bytes name) (Self.formula self (F.part_of field v)) f }
        ensures lawful { ⟦<FieldPredicate<Self, F, T, U, N, ByField> as Predicate<T>>⟧.lawful result
            ↔ Self.lawful self }
        ensures infallible { (v : T)
            → ⟦<FieldPredicate<Self, F, T, U, N, ByField> as Predicate<T>>⟧.infallible result v
            ↔ Self.infallible self (F.part_of field v) };

    /// The predicate of an `Option` that holds of `Some` where this one holds of its value, and
    /// does not hold of `None`. It takes no memory of its own, and prints what this one prints.
    ///
    /// ```
    /// let adult = predicate::ge(18).of_some();
    /// assert!(rt; adult.eval(alloc, &Some(18))?);
    /// assert!(rt; !adult.eval(alloc, &None)?);
    /// ```
    fn of_some(self) -> SomePredicate<Self>
    where
        Self: Sized,
        ensures inner { Optional.inner_of result ≡ self }
        ensures formula { (v : Option U) (f : Formula)
            → ⟦<SomePredicate<Self> as Predicate<Option<U>>>⟧.formula result v f
            ↔ IsOfPresent (Self.output self) (codes "no value") (Self.formula self) v f };

    /// The predicate of a `Result` that holds of `Ok` where this one holds of its value, and does
    /// not hold of `Err`. It takes no memory of its own, and prints what this one prints.
    ///
    /// ```
    /// let found = predicate::eq(200u16).of_ok();
    /// let (answered, failed): (Result<u16, u8>, Result<u16, u8>) = (Ok(200), Err(7));
    /// assert!(rt; found.eval(alloc, &answered)?);
    /// assert!(rt; !found.eval(alloc, &failed)?);
    /// ```
    fn of_ok(self) -> OkPredicate<Self>
    where
        Self: Sized,
        ensures inner { Optional.inner_of result ≡ self };

    /// The predicate of a `Result` that holds of `Err` where this one holds of its error, and does
    /// not hold of `Ok`. It takes no memory of its own, and prints what this one prints.
    ///
    /// ```
    /// let seven = predicate::eq(7u8).of_err();
    /// let (answered, failed): (Result<u16, u8>, Result<u16, u8>) = (Ok(200), Err(7));
    /// assert!(rt; seven.eval(alloc, &failed)?);
    /// assert!(rt; !seven.eval(alloc, &answered)?);
    /// ```
    fn of_err(self) -> ErrPredicate<Self>
    where
        Self: Sized,
        ensures inner { Optional.inner_of result ≡ self };

    /// The predicate of a list that holds where this one holds of each member. It prints
    /// `each(..)`, and takes no memory of its own.
    ///
    /// `eval` stops at the first member of which this one does not hold. The case of a list that
    /// holds has a node for each member, so it takes memory in proportion to the list.
    ///
    /// ```
    /// let adults = predicate::ge(18).of_each();
    /// assert!(rt; adults.eval(alloc, &vec![in alloc; 18, 40]?)?);
    /// assert!(rt; !adults.eval(alloc, &vec![in alloc; 17, 40]?)?);
    /// ```
    fn of_each(self) -> EachPredicate<Self>
    where
        Self: Sized,
        ensures inner { Members.inner_of result ≡ self }
        ensures formula { (v : Vec U Global) (f : Formula)
            → ⟦<EachPredicate<Self> as Predicate<Vec<U>>>⟧.formula result v f
            ↔ IsOfThreshold (length v.items) (applied_text (codes "each") (Self.output self))
            (codes "item") (Self.formula self) v.items f };

    /// The predicate of a list that holds where this one holds of a member. It prints `any(..)`,
    /// and takes no memory of its own.
    ///
    /// `eval` stops at the first member of which this one holds. The case of a list that does not
    /// hold has a node for each member, so it takes memory in proportion to the list.
    ///
    /// ```
    /// let accompanied = predicate::ge(18).of_any();
    /// assert!(rt; accompanied.eval(alloc, &vec![in alloc; 17, 40]?)?);
    /// assert!(rt; !accompanied.eval(alloc, &vec![in alloc; 16, 17]?)?);
    /// ```
    fn of_any(self) -> AnyPredicate<Self>
    where
        Self: Sized,
        ensures inner { Members.inner_of result ≡ self }
        ensures formula { (v : Vec U Global) (f : Formula)
            → ⟦<AnyPredicate<Self> as Predicate<Vec<U>>>⟧.formula result v f
            ↔ IsOfThreshold 1 (applied_text (codes "any") (Self.output self)) (codes "item")
            (Self.formula self) v.items f };

    /// The predicate of a list that holds where this one holds of at least so many members. It
    /// prints `at_least(2, ..)`, and takes no memory of its own.
    ///
    /// `eval` stops at the member that decides. The case shows the first members that decide:
    /// `least` that hold, or of those that do not one more than may be. Unless these are all, each
    /// has its number as the product `index`. Where the number alone settles it, as where none is
    /// needed, it is one leaf.
    ///
    /// ```
    /// let two_adults = predicate::ge(18).of_at_least(2);
    /// assert!(rt; two_adults.eval(alloc, &vec![in alloc; 17, 40, 18]?)?);
    /// assert!(rt; !two_adults.eval(alloc, &vec![in alloc; 17, 40, 16]?)?);
    /// ```
    fn of_at_least(self, least: usize) -> MembersAtLeastPredicate<Self>
    where
        Self: Sized,
        ensures least { Members.needed_of result ≡ least }
        ensures inner { Members.inner_of result ≡ self }
        ensures formula { (v : Vec U Global) (f : Formula)
            → ⟦<MembersAtLeastPredicate<Self> as Predicate<Vec<U>>>⟧.formula result v f
            ↔ IsOfThreshold least
            (counted_text (codes "at_least") least (Self.output self ∷ [])) (codes "item")
            (Self.formula self) v.items f };

    /// The predicate of a list that holds where this one holds of at most so many members: it is
    /// not that one more of them hold, which its case shows. It prints `at_most(2, ..)`, and takes
    /// no memory of its own.
    ///
    /// ```
    /// let one_child = predicate::lt(18).of_at_most(1);
    /// assert!(rt; one_child.eval(alloc, &vec![in alloc; 17, 40, 18]?)?);
    /// assert!(rt; !one_child.eval(alloc, &vec![in alloc; 17, 40, 16]?)?);
    /// ```
    fn of_at_most(self, most: usize) -> MembersAtMostPredicate<Self, U>
    where
        Self: Sized,
        ensures limit { limit_of result ≡ most }
        ensures most { Members.needed_of (threshold_of result) ≡ one_more most }
        ensures inner { Members.inner_of (threshold_of result) ≡ self };

    /// The predicate of a list that holds where this one holds of so many members, and no more:
    /// `of_at_least` of the number, and `of_at_most` of it by a copy of this one. So each member is
    /// asked about for either, and a list of which it holds needs every member for its reason. It
    /// takes memory for the copy.
    ///
    /// ```
    /// let two_adults = predicate::ge(18).of_exactly(2)?;
    /// assert!(rt; two_adults.eval(alloc, &vec![in alloc; 17, 40, 18]?)?);
    /// assert!(rt; !two_adults.eval(alloc, &vec![in alloc; 20, 40, 18]?)?);
    /// ```
    fn of_exactly(self, number: usize) -> Result<MembersExactlyPredicate<Self, U>, AllocError>
    where
        Self: Sized + Clone,
        ensures least { IfOk result (λ both. Members.needed_of (left_of both) ≡ number) }
        ensures inner { IfOk result (λ both. Members.inner_of (left_of both) ≡ self) }
        ensures limit { IfOk result (λ both. limit_of (right_of both) ≡ number) }
        ensures most { IfOk result (λ both.
            Members.needed_of (threshold_of (right_of both)) ≡ one_more number) }
        ensures copied { IfOk result (λ both.
            Self.is_clone self (Members.inner_of (threshold_of (right_of both)))) };

    /// The predicate of a list or a text that holds where this one, a predicate of `usize`, holds
    /// of its length: the number of members, or of bytes. It prints `len`, and takes no memory of
    /// its own.
    ///
    /// ```
    /// let short = predicate::le(2).of_len();
    /// assert!(rt; short.eval(alloc, &"ab".to_owned(alloc)?)?);
    /// assert!(rt; !short.eval(alloc, &"abc".to_owned(alloc)?)?);
    /// ```
    fn of_len(self) -> LengthPredicate<Self>
    where
        Self: Predicate<usize> + Sized,
        ensures inner { Length.inner_of result ≡ self };
}

impl<P: Predicate<U>, U> PredicatePartExt<U> for P {
    fn of<F: Fn(&T) -> U, T, N: AsStaticStr>(
        self,
        name: N,
        function: F,
    ) -> FieldPredicate<Self, F, T, U, N, ByValue>
    where
        U: Drop,
    {
        NamePredicate::new(PartPredicate::new(self, function), name)
    }

    fn of_ref<F: Fn(&T) -> &U, T, N: AsStaticStr>(
        self,
        name: N,
        function: F,
    ) -> FieldPredicate<Self, F, T, U, N, ByReference> {
        NamePredicate::new(PartPredicate::new(self, function), name)
    }

    fn of_some_ref<F: Fn(&T) -> Option<&U>, T, N: AsStaticStr>(
        self,
        name: N,
        function: F,
    ) -> FieldPredicate<Self, F, T, U, N, ByOption> {
        NamePredicate::new(PartPredicate::new(self, function), name)
    }

    fn of_field<F: Field<T, U>, T, N: AsStaticStr>(
        self,
        name: N,
        field: F,
    ) -> FieldPredicate<Self, F, T, U, N, ByField> {
        NamePredicate::new(PartPredicate::new(self, field), name)
    }

    fn of_some(self) -> SomePredicate<Self> {
        VariantPredicate::new(self)
    }

    fn of_ok(self) -> OkPredicate<Self> {
        VariantPredicate::new(self)
    }

    fn of_err(self) -> ErrPredicate<Self> {
        VariantPredicate::new(self)
    }

    fn of_each(self) -> EachPredicate<Self> {
        MembersPredicate::new(Every, self)
    }

    fn of_any(self) -> AnyPredicate<Self> {
        MembersPredicate::new(AtLeastOne, self)
    }

    fn of_at_least(self, least: usize) -> MembersAtLeastPredicate<Self> {
        MembersPredicate::new(AtLeast { least }, self)
    }

    fn of_at_most(self, most: usize) -> MembersAtMostPredicate<Self, U> {
        LimitPredicate::new(most, self.of_at_least(one_more(most)))
    }

    fn of_exactly(self, number: usize) -> Result<MembersExactlyPredicate<Self, U>, AllocError>
    where
        Self: Clone,
    {
        let copied = self.clone()?;
        Ok(AndPredicate::new(self.of_at_least(number), copied.of_at_most(number)))
    }

    fn of_len(self) -> LengthPredicate<Self> {
        LengthPredicate::new(self)
    }
}
