ghost use Rattle.std.specs.Prelude.{◌≡◌, IfOk};
ghost use Rattle.std.specs.Ordering.{int_eq};
ghost use Rattle.predicates_item.specs.In.{members_of};
ghost use Rattle.predicates_item.specs.HashableIn as HashableIn;
ghost use Rattle.predicates_item.specs.Members.{first_of_equals};

use crate::tests::made::{Host, describes, vec_of};
use predicates::iter::{HashableInPredicate, InPredicate, in_hash, in_iter};
use predicates_core::PredicateChange;
use predicates_core::reflection::PredicateReflection;
use std::alloc::{AllocError, Global};
use tests_support::verdict;

// What a caller can prove of the members of a list.
fn of_vec(alloc: Global, members: Vec<i64>) -> Result<InPredicate<i64>, AllocError>
    ensures { IfOk result (λ p. members_of p ≡ members.items) }
{
    in_iter(alloc, members)
}

// What a caller can prove of the members of a set: the first of equal ones is kept.
fn first_of_vec(alloc: Global, members: Vec<i64>) -> Result<HashableInPredicate<i64>, AllocError>
    ensures { IfOk result (λ p.
        HashableIn.members_of p ≡ first_of_equals int_eq members.items) }
{
    in_hash(alloc, members)
}

#[test]
fn members_in_their_kept_order(rt: HostRuntime) {
    let alloc = rt.alloc();
    let listed = of_vec(alloc, vec_of(&rt, &[3, 1, 3])).expect(&rt, "memory");
    assert!(rt; describes(&rt, listed, "var in values\nvalues=[3, 1, 3]\n"));
    let listed = of_vec(alloc, vec_of(&rt, &[3, 1, 3])).expect(&rt, "memory");
    let sorted = listed.sort().expect(&rt, "memory");
    assert!(rt; describes(&rt, sorted, "var in values\nvalues=[1, 3, 3]\n"));
    let hashed = first_of_vec(alloc, vec_of(&rt, &[3, 1, 3])).expect(&rt, "memory");
    assert!(rt; describes(&rt, hashed, "var in values\nvalues={3, 1}\n"));
}

// Whether the first parameter has this many bytes.
fn has_bytes<P: PredicateReflection>(rt: &impl Host, predicate: &P, bytes: usize) -> bool {
    match predicate
        .parameters(rt.alloc())
        .expect(rt, "memory")
        .first()
    {
        Some(values) => values.value().len() == bytes,
        None => false,
    }
}

// The numbers from 0 to the first of the ends hold, and the second one does not.
fn has_ends<P: PredicateChange<i64>>(rt: &impl Host, predicate: &P, ends: (i64, i64)) -> bool
    requires { P.lawful predicate.now }
{
    let (last, next) = ends;
    let of_next = verdict(rt.alloc(), predicate, &next).expect(rt, "memory");
    let of_last = verdict(rt.alloc(), predicate, &last).expect(rt, "memory");
    let of_half = verdict(rt.alloc(), predicate, &(next / 2)).expect(rt, "memory");
    let some = Some(last >= 0);
    of_next == Some(false) && of_last == some && of_half == some
}

// The same, where the printed members have this many bytes.
fn holds_numbers<P: PredicateChange<i64>>(
    rt: &impl Host,
    predicate: &P,
    ends: (i64, i64),
    bytes: usize,
) -> bool
    requires { P.lawful predicate.now }
{
    let has_ends = has_ends(rt, predicate, ends);
    has_bytes(rt, predicate, bytes) && has_ends
}

// Whether the list of the numbers below the second end, the sorted list and the set do so.
fn holds_below(rt: &impl Host, ends: (i64, i64), bytes: usize) -> bool {
    let listed = in_iter(rt.alloc(), 0..ends.1).expect(rt, "memory");
    let is_listed = holds_numbers(rt, &listed, ends, bytes);
    let sorted = listed.sort().expect(rt, "memory");
    let is_sorted = holds_numbers(rt, &sorted, ends, bytes);
    let hashed = in_hash(rt.alloc(), 0..ends.1).expect(rt, "memory");
    is_listed && is_sorted && holds_numbers(rt, &hashed, ends, bytes)
}

// The ends, and the bytes: a number has as many as digits, and a comma and a space stand between
// two.
const ENDS: [(i64, i64, usize); 4] = [
    (-1, 0, 2),
    (0, 1, 3),
    (299, 300, 10 + 2 * 90 + 3 * 200 + 2 * 299 + 2),
    (
        69_999,
        70_000,
        10 + 2 * 90 + 3 * 900 + 4 * 9_000 + 5 * 60_000 + 2 * 69_999 + 2,
    ),
];

#[test]
fn no_members_and_many(rt: HostRuntime) {
    for (last, next, bytes) in ENDS {
        assert!(rt; holds_below(&rt, (last, next), bytes), "below {next}");
    }
}
