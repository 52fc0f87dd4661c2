//! What has been found so far of the parts of a whole that holds where at least so many of them do.
//!
//! A loop over the parts asks each as the tally says, until that is done:
//!
//! ```
//! let mut tally = Tally::new(Sought { turns: false, wanted, least: 2, number: parts.len() });
//! for part in parts {
//!     if tally.is_done() {
//!         break;
//!     }
//!     let told = match tally.asks() {
//!         Some(asked) => Told { asked, found: part.explain(alloc, asked, item)? },
//!         None => Told::verdict(part.eval(alloc, item)?),
//!     };
//!     tally.take(alloc, list, told)?;
//! }
//! tally.answer(alloc, list)
//! ```
ghost use Rattle.std.specs.Prelude.{◌≡◌, ◌<◌, ◌≤◌, ◌-◌, ◌+◌, ◌^◌, ℕ, List, [], suc, true, false};
ghost use Rattle.std.specs.Prelude.{cond, min, not, option_map, IfOk};
ghost use Rattle.predicates_core.specs.Describe.{with_first_children};
ghost use Rattle.predicates_core.specs.Formula.{enough_of};
ghost use Rattle.predicates_core.specs.Label.{Entry};
ghost use Rattle.predicates_core.specs.Leaves.{IsExactly};
ghost use Rattle.predicates_core.specs.Shows.{IsFoundBy, numbered, tells_numbers};
ghost use Rattle.predicates_core.specs.Tally.{Answers, IsAsked, IsDecided, IsDone, kind_of};
ghost use Rattle.predicates_core.specs.Tally.{IsNextCase, IsNodeWith, IsOpen, IsSpare, IsTally};
ghost use Rattle.predicates_core.specs.Tally.{Counts, MayCount, Takes, asks, asks_for, held_of};
ghost use Rattle.predicates_core.specs.Thresholds.{IsSettled, settled};

use crate::custom::threshold::{
    Counting, enough_of, is_absent, is_settled, settled_case, with_index,
};
use crate::custom::{is_other, shown_verdict};
use crate::node::{printed, unary_node};
use crate::reflection::Case;
use std::alloc::{AllocError, Global};
use std::fmt;

/// What is sought of a whole.
#[derive(Clone, Copy)]
pub struct Sought {
    /// Whether it is what would turn the verdict, in place of what it comes from.
    pub turns: bool,
    /// The verdict that is wanted, or whichever the whole has.
    pub wanted: Option<bool>,
    /// How many parts have to hold.
    pub least: usize,
    /// How many parts there are.
    pub number: usize,
}

/// What a part told.
#[derive(Drop)]
pub struct Told {
    /// The verdict of which the case was sought, or whichever.
    pub asked: Option<bool>,
    /// The case, where the part has that verdict.
    pub found: Option<Case>,
}

impl Told {
    /// Of a part that told its verdict alone.
    pub fn verdict(holds: bool) -> Told
        ensures asked { result.asked ≡ Some (not holds) }
        ensures found { result.found ≡ None }
    {
        Told {
            asked: Some(!holds),
            found: None,
        }
    }
}

// How many parts hold and how many fail.
#[derive(Clone, Copy)]
pub(super) struct Verdicts {
    pub(super) held: usize,
    pub(super) failed: usize,
}

impl Verdicts {
    // So many with the verdict, and none with the other.
    pub(super) fn alike(verdict: bool, number: usize) -> Verdicts
        ensures held { result.held ≡ held_of verdict number }
        ensures failed { result.failed ≡ held_of (not verdict) number }
    {
        Verdicts {
            held: if verdict { number } else { 0 },
            failed: if verdict { 0 } else { number },
        }
    }

    // How many have the verdict.
    pub(super) fn with(self, verdict: bool) -> usize
        ensures { result ≡ cond verdict self.held self.failed }
    {
        if verdict { self.held } else { self.failed }
    }
}

// The parts with one verdict: how many they are, and the node over the cases of the first of them.
#[derive(Drop)]
struct Kept {
    count: usize,
    node: Option<Case>,
}

/// What has been found of the parts so far.
#[derive(Drop)]
pub struct Tally {
    sought: Sought,
    pub(super) seen: usize,
    held: Kept,
    failed: Kept,
    absent: bool,
}

impl Tally {
    /// Of no part so far. It takes no memory.
    #[inline]
    pub fn new(sought: Sought) -> Tally
        ensures sought { result.sought ≡ sought }
        ensures seen { result.seen ≡ 0 }
        ensures held { result.held.count ≡ 0 }
        ensures failed { result.failed.count ≡ 0 }
        ensures tally { (text : Entry) (name : List ℕ) → IsTally text name [] result }
    {
        Tally {
            sought,
            seen: 0,
            held: Kept {
                count: 0,
                node: None,
            },
            failed: Kept {
                count: 0,
                node: None,
            },
            absent: false,
        }
    }

    /// Whether the whole's answer is known, so that no part has to be asked any more.
    #[inline]
    pub fn is_done(&self) -> bool
        ensures done { result ≡ true → IsDone self.now }
        ensures open { result ≡ false → IsOpen self.now }
    {
        let sought = self.sought;
        self.absent
            || self.seen >= sought.number
            || is_settled(sought.least, sought.number)
            || sought.is_decided(true, self.held.count)
            || sought.is_decided(false, self.failed.count)
    }

    /// What the next part is asked: for its case if it has the verdict, or whichever, or its verdict
    /// alone.
    #[inline]
    pub fn asks(&self) -> Option<Option<bool>>
        requires { IsOpen self.now }
        ensures { result ≡ asks self.now }
    {
        let of_held = self
            .sought
            .asks_for(true, self.held.count, self.failed.count);
        let of_failed = self
            .sought
            .asks_for(false, self.failed.count, self.held.count);
        match (of_held, of_failed) {
            (true, true) => Some(None),
            (true, false) => Some(Some(true)),
            (false, true) => Some(Some(false)),
            (false, false) => None,
        }
    }

    /// Takes what the next part told. Memory is taken where it told a case: for the node, for the
    /// first case its text, and for a number.
    pub fn take<W: fmt::Display>(
        &mut self,
        alloc: Global,
        list: Counting<'_, W>,
        told: Told,
    ) -> Result<(), AllocError>
        requires open { IsOpen self.old }
        requires asked { IsAsked (asks self.old) told.asked told.found }
        ensures sought { IfOk result (λ _. self.new.sought ≡ self.old.sought) }
        ensures seen { IfOk result (λ _. self.new.seen ≡ suc self.old.seen) }
        ensures takes { IfOk result (λ _. Takes (W.output list.entry.whole.now) list.entry.name.now
            told.asked told.found self.old self.new) }
    {
        let sought = self.sought;
        let index = self.seen;
        self.seen = sought.next(index);
        if is_absent(told.asked, &told.found) {
            self.absent = true;
            return Ok(());
        }
        let verdict = shown_verdict(told.asked, &told.found);
        let found = numbered(alloc, sought.tells_numbers(verdict), index, told.found)?;
        if verdict {
            self.held.add(alloc, list, true, found)?;
            Ok(())
        } else {
            self.failed.add(alloc, list, false, found)?;
            Ok(())
        }
    }

    // How many more parts with each verdict leave open what the whole's answer is, and what the next
    // part is asked.
    #[inline]
    pub(super) fn spare(&self) -> Verdicts
        requires { IsOpen self.now }
        ensures held { IsSpare true self.now.sought self.now.held.count result.held }
        ensures failed { IsSpare false self.now.sought self.now.failed.count result.failed }
    {
        Verdicts {
            held: self.sought.spare(true, self.held.count),
            failed: self.sought.spare(false, self.failed.count),
        }
    }

    // Counts further parts of which no case is sought.
    #[inline]
    pub(super) fn count(&mut self, more: Verdicts)
        requires fits { self.old.seen + (more.held + more.failed) < 2 ^ 64 }
        requires held { MayCount true self.old.sought self.old.held.count self.old.failed.count
            more.held }
        requires failed { MayCount false self.old.sought self.old.failed.count self.old.held.count
            more.failed }
        ensures sought { self.new.sought ≡ self.old.sought }
        ensures absent { self.new.absent ≡ self.old.absent }
        ensures seen { self.new.seen ≡ self.old.seen + (more.held + more.failed) }
        ensures held { self.new.held.count ≡ min (self.old.held.count + more.held) (2 ^ 64 - 1) }
        ensures failed { self.new.failed.count
            ≡ min (self.old.failed.count + more.failed) (2 ^ 64 - 1) }
        ensures counts { (text : Entry) (name : List ℕ)
            → Counts text name more.held more.failed self.old self.new }
    {
        // There are no more of either than parts, so that the sums fit.
        self.seen += more.held + more.failed;
        self.held.count = self.held.count.saturating_add(more.held);
        self.failed.count = self.failed.count.saturating_add(more.failed);
    }

    /// What is found of the whole. It takes memory only where no part is asked.
    pub fn answer<W: fmt::Display>(
        self,
        alloc: Global,
        list: Counting<'_, W>,
    ) -> Result<Option<Case>, AllocError>
        requires { IsDone self }
        ensures settled { IsSettled self.sought.least self.sought.number → IfOk result
            (IsFoundBy (kind_of self.sought.turns) (IsExactly (settled (W.output list.entry.whole.now)
            self.sought.least self.sought.number)) self.sought.wanted) }
        ensures counted { IfOk result
            (Answers (W.output list.entry.whole.now) list.entry.name.now self) }
    {
        let Tally {
            sought,
            held,
            failed,
            absent,
            ..
        } = self;
        let Sought { least, number, .. } = sought;
        if is_settled(least, number) {
            return settled_case(alloc, list.whole, least, number, sought.wanted);
        }
        let verdict = held.count >= least;
        if absent {
            return Ok(None);
        }
        if is_other(sought.wanted, verdict) {
            return Ok(None);
        }
        if verdict {
            Ok(held.answer(sought.turns, least))
        } else {
            Ok(failed.answer(sought.turns, enough_of(false, least, number)))
        }
    }
}

impl Sought {
    // The number behind that of a part.
    fn next(self, index: usize) -> usize
        requires { index < self.number }
        ensures { result ≡ suc index }
    {
        index + 1
    }

    // Whether so many parts with the verdict settle the answer.
    fn is_decided(self, verdict: bool, such: usize) -> bool
        requires some { 1 ≤ self.least }
        requires within { self.least ≤ self.number }
        ensures decided { result ≡ true → IsDecided verdict self such }
        ensures undecided { result ≡ false → IsDecided verdict self such → ⊥ }
    {
        such >= enough_of(verdict, self.least, self.number)
            && (!self.turns || is_other(self.wanted, verdict))
    }

    // Whether a part with the verdict is asked for its case, where so many have it, and so many others
    // do not. Of changes no more are sought than may have to be shown.
    fn asks_for(self, verdict: bool, such: usize, others: usize) -> bool
        requires some { 1 ≤ self.least }
        requires within { self.least ≤ self.number }
        ensures { result ≡ asks_for verdict self such others }
    {
        let room = enough_of(!verdict, self.least, self.number);
        !is_other(self.wanted, verdict) && (!self.turns || such < room && others < room)
    }

    // How many more parts with the verdict leave too few of them, where so many have it.
    fn spare(self, verdict: bool, such: usize) -> usize
        requires some { 1 ≤ self.least }
        requires within { self.least ≤ self.number }
        ensures { IsSpare verdict self such result }
    {
        let enough = enough_of(verdict, self.least, self.number);
        if such < enough {
            enough - such - 1
        } else {
            self.number
        }
    }

    // Whether the cases of parts with the verdict tell their numbers.
    fn tells_numbers(self, verdict: bool) -> bool
        requires some { 1 ≤ self.least }
        requires within { self.least ≤ self.number }
        ensures { result ≡ tells_numbers (kind_of self.turns) verdict self.least self.number }
    {
        self.turns || enough_of(verdict, self.least, self.number) < self.number
    }
}

impl Kept {
    // One part more, and its case, where that was asked for.
    #[inline(always)] // a call would copy the case
    fn add<W: fmt::Display>(
        &mut self,
        alloc: Global,
        list: Counting<'_, W>,
        verdict: bool,
        found: Option<Case>,
    ) -> Result<(), AllocError>
        ensures count { IfOk result (λ _. self.old.count + 1 < 2 ^ 64
            → self.new.count ≡ suc self.old.count) }
        ensures node { IfOk result (λ _. IsNodeWith verdict (W.output list.entry.whole.now)
            list.entry.name.now self.old.node found self.new.node) }
    {
        // There are no more than parts, so that the sum fits.
        self.count = self.count.saturating_add(1);
        if let Some(case) = found {
            let node = next_case(alloc, list, verdict, self.node.take(), case)?;
            self.node = Some(node);
        }
        Ok(())
    }

    // The node with the cases that are shown: of a change as many as have to turn.
    #[inline(always)] // a call would copy the case
    fn answer(self, turns: bool, enough: usize) -> Option<Case>
        requires { 1 ≤ enough }
        ensures reason { turns ≡ false → result ≡ self.node }
        ensures change { turns ≡ true
            → result ≡ option_map (with_first_children (suc self.count - enough)) self.node }
    {
        if !turns {
            return self.node;
        }
        let shown = self.count.saturating_sub(enough - 1);
        match self.node {
            Some(node) => Some(node.with_first_children(shown)),
            None => None,
        }
    }
}

#[inline(always)] // a call would copy the case
fn next_case<W: fmt::Display>(
    alloc: Global,
    list: Counting<'_, W>,
    verdict: bool,
    node: Option<Case>,
    case: Case,
) -> Result<Case, AllocError>
    ensures { IfOk result (IsNextCase verdict (W.output list.entry.whole.now)
        list.entry.name.now case node) }
{
    match node {
        Some(whole) => whole.add_child(list.name, case),
        None => unary_node(alloc, printed(alloc, list.whole)?, verdict, list.name, case),
    }
}

// The case that was found, with its number where numbers are told.
#[inline(always)] // a call would copy the case
fn numbered(
    alloc: Global,
    tells: bool,
    index: usize,
    found: Option<Case>,
) -> Result<Option<Case>, AllocError>
    ensures { IfOk result (λ told. told ≡ option_map (numbered tells index) found) }
{
    match found {
        Some(case) => {
            if tells {
                Ok(Some(with_index(alloc, index, case)?))
            } else {
                Ok(Some(case))
            }
        }
        None => Ok(None),
    }
}
