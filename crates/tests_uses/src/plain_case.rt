//! A check that is explained in a plainer form than it was written in.
ghost use Rattle.std.specs.Prelude.{IfOk};
ghost use Rattle.tests_uses.specs.PlainCase.{written, IsPlainAnswer};

use predicates::reflection::Case;
use predicates::{Predicate, laws};
use std::alloc::{AllocError, Global};

/// What a policy writes around a check, and what changes neither its verdict nor its reason.
#[derive(Clone, Copy)]
pub enum Around {
    /// `check.name(name)`.
    Name(&'static str),
    /// `check.not().not()`.
    TwoNegations,
}

/// The case of a check without what is written around it. It shows the leaves that explain the
/// check as it was written, and is there where that has the expected verdict. It takes memory for
/// the case alone.
pub fn find_plain_case<P: Predicate<Item>, Item>(
    alloc: Global,
    check: &P,
    around: Around,
    expected: bool,
    item: &Item,
) -> Result<Option<Case>, AllocError>
    requires { P.lawful check.now }
    ensures { IfOk result (IsPlainAnswer
        (P.formula check.now item.now) (written around (P.output check.now)) expected) }
{
    match around {
        Around::Name(name) => laws::named(check, item, name),
        Around::TwoNegations => laws::double_negation(check, item),
    }
    check.find_case(alloc, expected, item)
}
