//! A check whose shape comes at run time.
ghost use Rattle.std.specs.Prelude.{◌≡◌, ◌<◌, refl, codes, map, option_map};
ghost use Rattle.std.specs.Prelude.{None, Some, IfOk, IfSome, IsOk};
ghost use Rattle.std.specs.Fmt.{DisplaysOnOk};
ghost use Rattle.predicates_core.specs.Several.{further_texts, listed_text};
ghost use Rattle.predicates_core.specs.Thresholds.{counted_text};
ghost use Rattle.predicates_core.specs.Formula.{HasTruth};
ghost use Rattle.predicates_core.specs.Label.{value_of};
ghost use Rattle.predicates_tree.specs.Kept.{AreSteps};
ghost use Rattle.predicates_tree.specs.Trees.{tree_of, words_of, AllOf, AsksAll};
ghost use Rattle.predicates_tree.specs.Formulas.{check_text, own_text, Has, tree_formula};
ghost use Rattle.predicates_tree.specs.Quotas.{row_text, member_words, members_text};
ghost use Rattle.predicates_tree.specs.Quotas.{viewed_text};
ghost use Rattle.predicates_tree.specs.Described.{check_parameters, check_parts};
ghost use Rattle.predicates_tree.specs.Listed.{joined_texts, text_at};
ghost use Rattle.predicates_tree.specs.Sizes.{left_over};
ghost use Rattle.predicates_tree.specs.Laws.{tree_text_fits, one_tree, has_tree, all_leaves};
ghost use Rattle.predicates_tree.specs.Laws.{members_as_they_are, none_read};

use crate::answer::{answered, found};
use crate::describe::parts_of;
use crate::evaluate::EvaluateWith;
use crate::hold::{holds, verdict};
use crate::members::{Members, NoMembers};
use crate::question::{Changes, Reasons};
use crate::quota::Quota;
use crate::take_apart::{left_first, parts_apart, resumed};
use crate::view::View;
use crate::wording::{Computed, Wording};
use predicates_core::custom::{HowMany, Operator};
use predicates_core::reflection::{Case, Child, Parameter, PredicateReflection};
use predicates_core::static_text::StaticText;
use predicates_core::{Content, Predicate, PredicateChange, ReadsContent, Total};
use std::alloc::{AllocError, Global};
use std::fmt;

/// A check of items whose shape comes at run time: a tree over leaves of one type `L`, which may be
/// any predicate. `S` says what each node keeps of its words; `Computed`, the default, keeps none.
///
/// It means and explains what the library's own combinators do over the same parts: `not`, `name`,
/// `and`, `or`, `xor`, for several parts `all_of`, `any_of` and `at_least`, and over the members
/// that a view `V` gives of an item `of_each`, `of_any` and `of_at_least`. It prints the same, but
/// for a view, which stands before what it is asked: `each VIEW(..)`. That an odd number of several
/// has to hold is a check's alone. Each leaf is evaluated at most twice on an item, however deep it
/// stands.
///
/// A call takes up to five stack frames a level, as to print a row; making and dropping a check
/// takes no more for a deep one. `is_deeper_than` says whether a check is deeper than a limit.
pub enum Check<L, V = NoMembers, S = Computed> {
    /// The leaf holds. It prints and shows what the leaf does.
    Leaf(L),
    /// The part does not hold.
    Not(S, Box<Check<L, V, S>>),
    /// The part holds; the name is printed in its place.
    Named(StaticText, Box<Check<L, V, S>>),
    /// Two parts that an operator joins.
    Pair(S, Operator, Box<Check<L, V, S>>, Box<Check<L, V, S>>),
    /// As many of the parts hold as have to.
    Row(S, Quota, Vec<Check<L, V, S>>),
    /// The part holds of as many of the members that the view gives as have to hold.
    Members(S, Quota, V, Box<Check<L, V, S>>),
}

impl<L: Drop, V: Drop, S: Drop> Check<L, V, S> {
    // What is left of a check that is being dropped, beside what waits: the check to go on with,
    // and what then waits. None where nothing is left. It takes no memory: what waits is put into
    // boxes and into places of rows that get free.
    fn take_apart(
        self,
        waiting: Option<Check<L, V, S>>,
    ) -> Option<(Check<L, V, S>, Option<Check<L, V, S>>)>
        ensures { IfSome result (λ next. left_over next.0 next.1 < left_over self waiting) }
    {
        match self {
            Check::Leaf(leaf) => {
                drop(leaf);
                resumed(waiting)
            }
            Check::Not(_, inner) => Some((Box::into_inner(inner), waiting)),
            Check::Named(_, inner) => Some((Box::into_inner(inner), waiting)),
            Check::Pair(wording, operator, left, right) => {
                Some(left_first(wording, operator, left, right, waiting))
            }
            Check::Row(wording, _, parts) => parts_apart(wording, parts, waiting),
            Check::Members(_, _, _, inner) => Some((Box::into_inner(inner), waiting)),
        }
    }
}

// A loop, so that a deep check does not run out of stack. It takes no memory.
impl<L: Drop, V: Drop, S: Drop> Drop for Check<L, V, S> {
    fn drop(mut self) {
        let mut waiting: Option<Check<L, V, S>> = None;
        loop {
            match self.take_apart(waiting) {
                Some((next, rest)) => {
                    self = next;
                    waiting = rest;
                }
                None => return,
            }
        }
    }
}

impl<L, V, S: Wording> Check<L, V, S> {
    // The text that is kept for the check, if one is.
    fn kept_text(&self) -> Option<&str>
        ensures { option_map (λ text. text.now) result ≡ (words_of S.words self.now).text }
    {
        match self {
            Check::Leaf(_) | Check::Named(_, _) => None,
            Check::Not(wording, _)
            | Check::Pair(wording, _, _, _)
            | Check::Row(wording, _, _)
            | Check::Members(wording, _, _, _) => wording.text(),
        }
    }

    // What each part is called where they are several.
    pub(crate) fn part(&self) -> &'static str
        ensures { result.now ≡ (words_of S.words self.now).part }
    {
        match self {
            Check::Leaf(_) | Check::Named(_, _) => "rule",
            Check::Not(wording, _)
            | Check::Pair(wording, _, _, _)
            | Check::Row(wording, _, _)
            | Check::Members(wording, _, _, _) => wording.part(),
        }
    }
}

impl<L: fmt::Display, V: fmt::Display, S: Wording> Check<L, V, S> {
    // A row.
    #[cycle(text)]
    fn fmt_row<W: fmt::Write>(
        parts: &[Check<L, V, S>],
        quota: Quota,
        f: &mut fmt::Formatter<W>,
    ) -> fmt::Result
        ensures { DisplaysOnOk W.write_str_gives f.old result
            (row_text quota (map (check_text L.output V.output S.words) parts.now)) f.new }
    {
        match quota {
            Quota::Threshold(HowMany::Every) => Check::<L, V, S>::fmt_listed(parts, "all_of", f),
            Quota::Threshold(HowMany::AtLeastOne) => {
                Check::<L, V, S>::fmt_listed(parts, "any_of", f)
            }
            Quota::Threshold(HowMany::AtLeast(least)) => {
                Check::<L, V, S>::fmt_counted(parts, least, f)
            }
            Quota::Odd => Check::<L, V, S>::fmt_listed(parts, "odd_of", f),
        }
    }

    // The parts of a row in parentheses, behind the word.
    #[cycle(text)]
    fn fmt_listed<W: fmt::Write>(
        parts: &[Check<L, V, S>],
        word: &str,
        f: &mut fmt::Formatter<W>,
    ) -> fmt::Result
        ensures { DisplaysOnOk W.write_str_gives f.old result
            (listed_text word.now (map (check_text L.output V.output S.words) parts.now)) f.new }
    {
        f.write_str(word)?;
        write!(f, "(")?;
        Check::<L, V, S>::fmt_parts(parts, f)?;
        write!(f, ")")
    }

    // The parts of a row.
    #[cycle(text)]
    fn fmt_parts<W: fmt::Write>(parts: &[Check<L, V, S>], f: &mut fmt::Formatter<W>) -> fmt::Result
        ensures { DisplaysOnOk W.write_str_gives f.old result
            (joined_texts (map (check_text L.output V.output S.words) parts.now)) f.new }
    {
        for (index, part) in parts.iter().enumerate() {
            Check::<L, V, S>::fmt_part(part, index, f)?;
        }
        Ok(())
    }

    // A part of a row, behind a comma where it is not the first.
    #[cycle(text)]
    fn fmt_part<W: fmt::Write>(
        part: &Check<L, V, S>,
        index: usize,
        f: &mut fmt::Formatter<W>,
    ) -> fmt::Result
        ensures { DisplaysOnOk W.write_str_gives f.old result
            (text_at index (check_text L.output V.output S.words part.now)) f.new }
    {
        if index == 0 {
            return fmt::Display::fmt(part, f);
        }
        write!(f, ", ")?;
        fmt::Display::fmt(part, f)
    }

    // Parts of which at least so many have to hold: the number and the parts in parentheses.
    #[cycle(text)]
    fn fmt_counted<W: fmt::Write>(
        parts: &[Check<L, V, S>],
        least: usize,
        f: &mut fmt::Formatter<W>,
    ) -> fmt::Result
        ensures { DisplaysOnOk W.write_str_gives f.old result (counted_text (codes "at_least") least
            (map (check_text L.output V.output S.words) parts.now)) f.new }
    {
        write!(f, "at_least({least}")?;
        Check::<L, V, S>::fmt_further(parts, f)?;
        write!(f, ")")
    }

    // The parts, each behind a comma.
    #[cycle(text)]
    fn fmt_further<W: fmt::Write>(
        parts: &[Check<L, V, S>],
        f: &mut fmt::Formatter<W>,
    ) -> fmt::Result
        ensures { DisplaysOnOk W.write_str_gives f.old result
            (further_texts (map (check_text L.output V.output S.words) parts.now)) f.new }
    {
        for part in parts {
            Check::<L, V, S>::fmt_part(part, 1, f)?;
        }
        Ok(())
    }
}

// What is printed before a view of members.
fn fmt_member_words<W: fmt::Write>(quota: Quota, f: &mut fmt::Formatter<W>) -> fmt::Result
    ensures { DisplaysOnOk W.write_str_gives f.old result (member_words quota) f.new }
{
    match quota {
        Quota::Threshold(HowMany::Every) => f.write_str("each "),
        Quota::Threshold(HowMany::AtLeastOne) => f.write_str("any "),
        Quota::Threshold(HowMany::AtLeast(least)) => write!(f, "at_least {least} "),
        Quota::Odd => f.write_str("odd "),
    }
}

impl<L: fmt::Display, V: fmt::Display, S: Wording> Check<L, V, S> {
    // A check of members.
    #[cycle(text)]
    fn fmt_members<W: fmt::Write>(
        inner: &Check<L, V, S>,
        view: &V,
        quota: Quota,
        f: &mut fmt::Formatter<W>,
    ) -> fmt::Result
        ensures { DisplaysOnOk W.write_str_gives f.old result (members_text quota
            (V.output view.now) (check_text L.output V.output S.words inner.now)) f.new }
    {
        fmt_member_words(quota, f)?;
        Check::<L, V, S>::fmt_viewed(inner, view, f)
    }

    // The view of the members, and the check of a member in parentheses.
    #[cycle(text)]
    fn fmt_viewed<W: fmt::Write>(
        inner: &Check<L, V, S>,
        view: &V,
        f: &mut fmt::Formatter<W>,
    ) -> fmt::Result
        ensures { DisplaysOnOk W.write_str_gives f.old result (viewed_text
            (V.output view.now) (check_text L.output V.output S.words inner.now)) f.new }
    {
        fmt::Display::fmt(view, f)?;
        write!(f, "(")?;
        fmt::Display::fmt(inner, f)?;
        write!(f, ")")
    }
}

impl<L: fmt::Display, V: fmt::Display, S: Wording> Check<L, V, S> {
    // The text that is made of those of the parts.
    #[cycle(text)]
    fn fmt_computed<W: fmt::Write>(&self, f: &mut fmt::Formatter<W>) -> fmt::Result
        ensures { DisplaysOnOk W.write_str_gives f.old result
            (own_text L.output V.output (tree_of S.words self.now)) f.new }
    {
        match self {
            Check::Leaf(leaf) => fmt::Display::fmt(leaf, f),
            Check::Not(_, inner) => {
                write!(f, "(! ")?;
                fmt::Display::fmt(&**inner, f)?;
                write!(f, ")")
            }
            Check::Named(name, _) => f.write_str(name.as_str()),
            Check::Pair(_, operator, left, right) => {
                write!(f, "(")?;
                fmt::Display::fmt(&**left, f)?;
                f.write_str(operator.sign())?;
                fmt::Display::fmt(&**right, f)?;
                write!(f, ")")
            }
            Check::Row(_, quota, parts) => Check::<L, V, S>::fmt_row(parts, *quota, f),
            Check::Members(_, quota, view, inner) => {
                Check::<L, V, S>::fmt_members(inner, view, *quota, f)
            }
        }
    }
}

impl<L: fmt::Display, V: fmt::Display, S: Wording> fmt::Display for Check<L, V, S> {
    ghost output = { λ c. check_text L.output V.output S.words c };

    #[cycle(text)]
    fn fmt<W: fmt::Write>(&self, f: &mut fmt::Formatter<W>) -> fmt::Result {
        match self.kept_text() {
            Some(text) => f.write_str(text),
            None => self.fmt_computed(f),
        }
    }
}

impl<L: PredicateReflection, V: fmt::Display, S: Wording> PredicateReflection for Check<L, V, S> {
    ghost parameters_of = { λ c. check_parameters L.parameters_of S.words c };

    ghost children_of = { λ c.
        check_parts L.output V.output L.parameters_of L.children_of S.words c };

    fn parameters(&self, alloc: Global) -> Result<Vec<Parameter>, AllocError> {
        match self {
            Check::Leaf(leaf) => leaf.parameters(alloc),
            _ => Ok(Vec::new(alloc)),
        }
    }

    fn children(&self, alloc: Global) -> Result<Vec<Child>, AllocError> {
        parts_of(alloc, self)
    }
}

impl<L: Predicate<Item>, V: View<Item>, S: Wording, Item> Predicate<Item> for Check<L, V, S> {
    ghost lawful = { λ c. AllOf L.lawful S.words c };

    ghost formula = { λ c v. Has L.output V.output L.formula V.gives V.absence_of S.words v c };

    ghost infallible = { λ c v. AsksAll L.infallible V.lends V.gives S.words v c };

    ghost text_fits = { λ c v f. tree_text_fits L.output V.output L.formula V.gives V.absence_of
        L.text_fits V.given v (tree_of S.words c) f };

    ghost one_formula = { λ c v f g. one_tree L.output V.output L.formula V.gives V.absence_of
        L.lawful L.one_formula V.given v (tree_of S.words c) f g };

    fn eval(&self, alloc: Global, item: &Item) -> Result<bool, AllocError> {
        verdict(alloc, self, item)
    }

    fn find_case(
        &self,
        alloc: Global,
        expected: bool,
        item: &Item,
    ) -> Result<Option<Case>, AllocError> {
        match self {
            Check::Leaf(leaf) => leaf.find_case(alloc, expected, item),
            _ => found(alloc, self, expected, item),
        }
    }

    fn explain(
        &self,
        alloc: Global,
        wanted: Option<bool>,
        item: &Item,
    ) -> Result<Option<Case>, AllocError> {
        answered::<Reasons, L, V, S, Item>(alloc, self, wanted, item)
    }
}

impl<L, V, S: Wording> Check<L, V, S> {
    /// As `eval`, by what a run over many items keeps for the leaves.
    ///
    /// ```
    /// let mut searches = Searches::new(alloc);
    /// assert!(rt; check.eval_with(alloc, &mut searches, &line)?);
    /// ```
    pub fn eval_with<Item, C>(
        &self,
        alloc: Global,
        context: &mut C,
        item: &Item,
    ) -> Result<bool, AllocError>
    where
        L: EvaluateWith<Item, C>,
        V: View<Item>,
        requires { AllOf L.lawful S.words self.now }
        ensures truth { IfOk result (HasTruth
            (Has L.output V.output L.formula V.gives V.absence_of S.words item.now self.now)) }
        ensures infallible { AsksAll L.infallible V.lends V.gives S.words item.now self.now
            → IsOk result }
        // Of what the run keeps nothing is changed but by its leaves, in turn.
        ensures keeps { AreSteps L.keeps context.old context.new }
    {
        holds(alloc, self, context, item)
    }
}

impl<L: PredicateChange<Item>, V: View<Item>, S: Wording, Item> PredicateChange<Item>
    for Check<L, V, S> {
    fn find_change(
        &self,
        alloc: Global,
        wanted: Option<bool>,
        item: &Item,
    ) -> Result<Option<Case>, AllocError> {
        answered::<Changes, L, V, S, Item>(alloc, self, wanted, item)
    }
}

impl<L: Total<Item>, V: Members<Item>, S: Wording, Item> Total<Item> for Check<L, V, S> {
    ghost formula_of = { λ c v. tree_formula L.output V.output L.formula_of V.members_of
        (λ view item. value_of (codes "error") (Some (V.reason_of view item))) v
        (tree_of S.words c) };

    ghost always_lawful = { λ c. all_leaves L.lawful L.always_lawful (tree_of S.words c) };

    ghost has_formula = { λ c v. has_tree L.output V.output L.formula
        (λ view item o. V.members_of view item ≡ o)
        (λ view item. value_of (codes "error") (Some (V.reason_of view item)))
        (λ item. item) L.formula_of V.members_of
        (λ view item. value_of (codes "error") (Some (V.reason_of view item))) L.has_formula
        (members_as_they_are V.members_of) (λ view item. refl) v (tree_of S.words c) };
}

// A view reads the item, so this is for checks that ask no members.
impl<L: ReadsContent<Item>, S: Wording, Item: Content> ReadsContent<Item>
    for Check<L, NoMembers, S> {
    ghost content_formula = { λ c bytes. tree_formula L.output (λ _. Some (codes ""))
        L.content_formula (λ _ _. None) (λ _ _. value_of (codes "error") (Some (codes ""))) bytes
        (tree_of S.words c) };

    ghost always_lawful = { λ c. all_leaves L.lawful L.always_lawful (tree_of S.words c) };

    ghost has_formula = { λ c v. has_tree L.output (λ _. Some (codes "")) L.formula
        (λ _ _ o. None ≡ o) (λ _ _. value_of (codes "error") (Some (codes ""))) Item.content
        L.content_formula (λ _ _. None) (λ _ _. value_of (codes "error") (Some (codes "")))
        L.has_formula (λ view item o is. none_read _ is) (λ view item. refl) v
        (tree_of S.words c) };
}
