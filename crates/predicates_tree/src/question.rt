//! What is asked of a check: why it has its verdict, or what would turn that.
ghost use Rattle.std.specs.Prelude.{◌≡◌, Bool, true, false, IfOk, ◌||◌};
ghost use Rattle.predicates_core.specs.Asked.{asks};
ghost use Rattle.predicates_core.specs.Shows.{IsFoundBy};
ghost use Rattle.predicates_core.specs.Tally.{kind_of};
ghost use Rattle.predicates_tree.specs.Questions.{right_asks};

use predicates_core::custom::Operator;
use predicates_core::reflection::Case;
use predicates_core::{Predicate, PredicateChange};
use std::alloc::{AllocError, Global};

// A leaf that answers what is asked by `Q`.
pub(crate) trait Answers<Q, Item>: Predicate<Item> {
    // Whether it is what would turn the verdict.
    ghost turns: { Bool };

    fn turns() -> bool
        ensures { result ≡ turns };

    fn answer(
        &self,
        alloc: Global,
        wanted: Option<bool>,
        item: &Item,
    ) -> Result<Option<Case>, AllocError>
        requires { Self.lawful self.now }
        ensures { IfOk result (IsFoundBy (kind_of turns) (Self.formula self.now item.now) wanted) };
}

// Why a check has its verdict, as `explain`.
pub(crate) struct Reasons;

// What would turn its verdict, as `find_change`.
pub(crate) struct Changes;

impl<L: Predicate<Item>, Item> Answers<Reasons, Item> for L {
    ghost turns = { false };

    fn turns() -> bool {
        false
    }

    fn answer(
        &self,
        alloc: Global,
        wanted: Option<bool>,
        item: &Item,
    ) -> Result<Option<Case>, AllocError> {
        self.explain(alloc, wanted, item)
    }
}

impl<L: PredicateChange<Item>, Item> Answers<Changes, Item> for L {
    ghost turns = { true };

    fn turns() -> bool {
        true
    }

    fn answer(
        &self,
        alloc: Global,
        wanted: Option<bool>,
        item: &Item,
    ) -> Result<Option<Case>, AllocError> {
        self.find_change(alloc, wanted, item)
    }
}

// Whether the right part of two is asked: what would turn it may belong to what would turn the whole,
// but the case of one that does not count belongs to none.
pub(crate) fn is_asked(turns: bool, operator: Operator, left_holds: bool) -> bool
    ensures { result ≡ turns || asks operator left_holds }
{
    turns || operator.asks(left_holds)
}

// For what it is asked, where the case of this verdict would be wanted of it. Where the whole is to
// turn, that is its change where that belongs to the whole's, and else its verdict alone.
pub(crate) fn right_asks(
    turns: bool,
    operator: Operator,
    wanted: Option<bool>,
) -> Option<Option<bool>>
    ensures { result ≡ right_asks turns operator wanted }
{
    if !turns {
        return Some(wanted);
    }
    match operator {
        Operator::And => Some(Some(false)),
        Operator::Or => Some(Some(true)),
        Operator::Xor => None,
    }
}
