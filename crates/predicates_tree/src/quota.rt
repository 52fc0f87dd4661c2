//! How many of several have to hold.
ghost use Rattle.std.specs.Prelude.{◌≡◌, ◌≤◌, ◌<◌, ◌+◌};
ghost use Rattle.predicates_core.specs.Formula.{one_if};
ghost use Rattle.predicates_tree.specs.Quotas.{decided, least, meets};

use predicates_core::custom::HowMany;

/// How many of several parts have to hold, or of the members of an item.
#[derive(Debug, Clone, Copy, PartialEq, Eq, Drop)]
pub enum Quota {
    /// Each of them, one at least, or at least so many.
    Threshold(HowMany),
    /// An odd number of them.
    Odd,
}

impl Quota {
    // How many of the number have to hold; where an odd number has to, one at least.
    pub(crate) fn least(self, number: usize) -> usize
        ensures { result ≡ least self number }
    {
        match self {
            Quota::Threshold(how_many) => how_many.least_of(number),
            Quota::Odd => 1,
        }
    }

    // Whether it is met where so many of the number hold.
    pub(crate) fn is_met(self, number: usize, held: usize) -> bool
        ensures { result ≡ meets self number held }
    {
        match self {
            Quota::Threshold(how_many) => how_many.least_of(number) <= held,
            Quota::Odd => held % 2 == 1,
        }
    }

    // The verdict over the number, where the first ones settle it, of which so many hold.
    pub(crate) fn decided(self, number: usize, first: usize, held: usize) -> Option<bool>
        requires first { first ≤ number }
        requires held { held ≤ first }
        ensures { result ≡ decided self number first held }
    {
        let Quota::Threshold(how_many) = self else {
            return None;
        };
        let least = how_many.least_of(number);
        if least <= held {
            return Some(true);
        }
        if number - first + held < least {
            return Some(false);
        }
        None
    }
}

// How many hold, of one more.
pub(crate) fn counted(held: usize, holds: bool) -> usize
    requires { held < 18446744073709551615 }
    ensures { result ≡ held + one_if holds }
{
    if holds { held + 1 } else { held }
}
