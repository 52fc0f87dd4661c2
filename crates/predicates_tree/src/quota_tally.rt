//! What has been found so far of several of which as many hold as have to.
ghost use Rattle.std.specs.Prelude.{◌≡◌, true, false, IfOk};
ghost use Rattle.predicates_core.specs.Tally.{IsAsked};
ghost use Rattle.predicates_tree.specs.QuotaTallies.{quota_asks, HasRoom, IsOver, IsOpenFor};
ghost use Rattle.predicates_tree.specs.QuotaTallies.{Starts, TakesPart, QuotaAnswers};

use crate::odd::OddTally;
use crate::quota::Quota;
use predicates_core::custom::{Counting, Sought, Tally, Told};
use predicates_core::reflection::Case;
use std::alloc::{AllocError, Global};
use std::fmt;

// The tally by which a loop over them asks each, until it is done.
#[derive(Drop)]
pub(crate) enum QuotaTally {
    Threshold(Tally),
    Odd(OddTally),
}

impl QuotaTally {
    // Of no part so far.
    pub(crate) fn new(alloc: Global, quota: Quota, sought: Sought) -> QuotaTally
        ensures { Starts quota sought result }
    {
        match quota {
            Quota::Threshold(_) => QuotaTally::Threshold(Tally::new(sought)),
            Quota::Odd => QuotaTally::Odd(OddTally::new(alloc, sought)),
        }
    }

    // Whether no more parts have to be asked.
    pub(crate) fn is_done(&self) -> bool
        ensures done { result ≡ true → IsOver self.now }
        ensures open { result ≡ false → IsOpenFor self.now }
    {
        match self {
            QuotaTally::Threshold(tally) => tally.is_done(),
            QuotaTally::Odd(tally) => tally.is_done(),
        }
    }

    // What the next part is asked: for its case with the verdict, or whichever, or its verdict alone.
    pub(crate) fn asks(&self) -> Option<Option<bool>>
        requires { IsOpenFor self.now }
        ensures { result ≡ quota_asks self.now }
    {
        match self {
            QuotaTally::Threshold(tally) => tally.asks(),
            QuotaTally::Odd(tally) => tally.asks(),
        }
    }

    // Takes what the next part told.
    pub(crate) fn take<W: fmt::Display>(
        &mut self,
        alloc: Global,
        list: Counting<'_, W>,
        told: Told,
    ) -> Result<(), AllocError>
        requires open { IsOpenFor self.old }
        requires room { HasRoom self.old }
        requires asked { IsAsked (quota_asks self.old) told.asked told.found }
        ensures { IfOk result (λ _. TakesPart (W.output list.entry.whole.now) list.entry.name.now
            told.asked told.found self.old self.new) }
    {
        match self {
            QuotaTally::Threshold(tally) => tally.take(alloc, list, told),
            QuotaTally::Odd(tally) => tally.take(told),
        }
    }

    // What is found of the whole.
    pub(crate) fn answer<W: fmt::Display>(
        self,
        alloc: Global,
        list: Counting<'_, W>,
    ) -> Result<Option<Case>, AllocError>
        requires { IsOver self }
        ensures { QuotaAnswers (W.output list.entry.whole.now) list.entry.name.now self result }
    {
        match self {
            QuotaTally::Threshold(tally) => tally.answer(alloc, list),
            QuotaTally::Odd(tally) => tally.answer(alloc, list),
        }
    }
}
