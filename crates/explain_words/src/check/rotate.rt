//! The rotation by which a deep check is dropped.
ghost use Rattle.std.specs.Prelude.{◌≡◌, ◌+◌, ◌*◌, ◌<◌, true, false};
ghost use Rattle.explain_words.specs.Weight.{weight, IsLeafCheck};

use crate::check::TextCheck;
use std::mem;

// Each check to the place before its own, and the first to the last.
fn rotate(first: &mut Box<TextCheck>, second: &mut Box<TextCheck>, third: &mut Box<TextCheck>)
    ensures first { first.new.value ≡ second.old.value }
    ensures second { second.new.value ≡ third.old.value }
    ensures third { third.new.value ≡ first.old.value }
{
    mem::swap(second, third);
    mem::swap(first, third);
}

// Where the left part has parts, swaps its first one with the right part, and says that it had
// some.
pub(crate) fn rotate_left(left: &mut TextCheck, right: &mut Box<TextCheck>) -> bool
    ensures rotated { result ≡ true
        → 2 * weight right.new.value + weight left.new < 2 * weight left.old + weight
        right.old.value }
    ensures leaf { result ≡ false → IsLeafCheck left.new }
    ensures right { result ≡ false → right.new.value ≡ right.old.value }
{
    match left {
        TextCheck::Trim(inner) => mem::swap(inner, right),
        TextCheck::Normalize(inner) => mem::swap(inner, right),
        TextCheck::Not(inner) => mem::swap(inner, right),
        TextCheck::And(first, second) => rotate(first, second, right),
        TextCheck::Or(first, second) => rotate(first, second, right),
        TextCheck::Xor(first, second) => rotate(first, second, right),
        _ => return false,
    }
    true
}
