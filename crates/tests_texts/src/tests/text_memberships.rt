//! Memberships among texts.
use super::asked::verdict_of;
use crate::tests::made::{Host, owned};
use predicates::iter::{in_hash, in_iter};

fn letters(rt: &impl Host) -> Vec<String> {
    let mut letters = Vec::new(rt.alloc());
    for letter in ["a", "c", "e"] {
        letters.push(owned(rt, letter)).expect(rt, "memory");
    }
    letters
}

// The verdict of the list, of the sorted list and of the set of the letters; none where a verdict
// has not just its own case.
fn verdicts(rt: &impl Host, item: &str) -> [Option<bool>; 3] {
    let listed = in_iter(rt.alloc(), letters(rt)).expect(rt, "memory");
    let of_list = verdict_of(rt, listed, owned(rt, item));
    let listed = in_iter(rt.alloc(), letters(rt)).expect(rt, "memory");
    let of_sorted = verdict_of(rt, listed.sort().expect(rt, "memory"), owned(rt, item));
    let hashed = in_hash(rt.alloc(), letters(rt)).expect(rt, "memory");
    [of_list, of_sorted, verdict_of(rt, hashed, owned(rt, item))]
}

#[test]
fn letters_among_a_c_e(rt: HostRuntime) {
    for (item, verdict) in [("a", true), ("b", false), ("c", true)] {
        assert!(rt; verdicts(&rt, item) == [Some(verdict); 3], "{item}");
    }
}
