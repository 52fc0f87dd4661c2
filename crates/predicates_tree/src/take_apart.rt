//! Steps of the loop by which a check is dropped.
ghost use Rattle.std.specs.Prelude.{◌≡◌, ◌+◌, ◌<◌, ◌≤◌, ◌∷◌, suc};
ghost use Rattle.std.specs.Prelude.{vec_len, vec_capacity, IfSome};
ghost use Rattle.predicates_tree.specs.Sizes.{left_of, left_over, size_of, size_left, sizes_of};

use crate::check::Check;
use crate::quota::Quota;
use predicates_core::custom::Operator;
use std::mem;

// What waits.
pub(crate) fn resumed<L, V, S>(
    waiting: Option<Check<L, V, S>>,
) -> Option<(Check<L, V, S>, Option<Check<L, V, S>>)>
    ensures { IfSome result (λ next.
        (size_left next.1 ≡ 0) × (size_of next.0 ≡ size_left waiting)) }
{
    let next = waiting?;
    Some((next, None))
}

// The left part of two; the right one waits.
pub(crate) fn left_first<L, V, S: Drop>(
    wording: S,
    operator: Operator,
    mut left: Box<Check<L, V, S>>,
    right: Box<Check<L, V, S>>,
    waiting: Option<Check<L, V, S>>,
) -> (Check<L, V, S>, Option<Check<L, V, S>>)
    ensures first { size_of result.0 ≡ size_of left.value }
    ensures total { size_of result.0 + size_left result.1
        ≤ suc (size_of left.value + size_of right.value) + size_left waiting }
{
    match waiting {
        None => (Box::into_inner(left), Some(Box::into_inner(right))),
        Some(rest) => {
            let first = mem::replace(&mut *left, rest);
            (first, Some(Check::Pair(wording, operator, right, left)))
        }
    }
}

// The last part of several, where there is one, and else what waits.
pub(crate) fn parts_apart<L, V, S: Drop>(
    wording: S,
    mut parts: Vec<Check<L, V, S>>,
    waiting: Option<Check<L, V, S>>,
) -> Option<(Check<L, V, S>, Option<Check<L, V, S>>)>
    ensures { IfSome result (λ next. left_over next.0 next.1
        < left_of (suc (sizes_of parts.items)) waiting) }
{
    match parts.pop() {
        Some(last) => Some(last_first(wording, parts, last, waiting)),
        None => {
            parts.destroy_empty();
            resumed(waiting)
        }
    }
}

// The last part of several; the others wait, as a row, with what waited in its place. A row that is
// empty does not wait: rows of rows would be taken apart again and again.
fn last_first<L, V, S: Drop>(
    wording: S,
    parts: Vec<Check<L, V, S>>,
    last: Check<L, V, S>,
    waiting: Option<Check<L, V, S>>,
) -> (Check<L, V, S>, Option<Check<L, V, S>>)
    requires { vec_len parts < vec_capacity parts }
    ensures first { size_of result.0 ≡ size_of last }
    ensures total { size_of result.0 + size_left result.1
        ≤ size_of last + suc (sizes_of parts.items) + size_left waiting }
{
    if parts.is_empty() {
        parts.destroy_empty();
        return (last, waiting);
    }
    let parts = with_waiting(parts, waiting);
    (last, Some(Check::Row(wording, Quota::Odd, parts)))
}

// The parts, and before them what waits: so it waits until they are dropped, and is moved once.
fn with_waiting<L, V, S>(
    parts: Vec<Check<L, V, S>>,
    waiting: Option<Check<L, V, S>>,
) -> Vec<Check<L, V, S>>
    requires { vec_len parts < vec_capacity parts }
    ensures { sizes_of result.items ≡ sizes_of parts.items + size_left waiting }
{
    match waiting {
        None => parts,
        Some(rest) => with_first(parts, rest),
    }
}

// One more and the parts, for which there is room.
fn with_first<L, V, S>(mut parts: Vec<Check<L, V, S>>, first: Check<L, V, S>) -> Vec<Check<L, V, S>>
    requires { vec_len parts < vec_capacity parts }
    ensures { result.items ≡ first ∷ parts.items }
{
    match parts.insert(0, first) {
        Ok(()) => parts,
        Err(_) => unreachable!(),
    }
}
