//! What a predicate that is handed over answers of an item.
use crate::tests::made::Host;
use predicates_core::{PredicateChange, Total};
use std::fmt;
use tests_support::{differ, explains, verdict};

/// Whether it holds of the item.
pub fn holds<P: Total<Item> + Drop, Item: Drop>(rt: &impl Host, predicate: P, item: Item) -> bool {
    predicate.eval(rt.alloc(), &item).expect(rt, "memory")
}

/// Its verdict; none where it has not just the verdict's case.
pub fn verdict_of<P: Total<Item> + PredicateChange<Item> + Drop, Item: Drop>(
    rt: &impl Host,
    predicate: P,
    item: Item,
) -> Option<bool> {
    verdict(rt.alloc(), &predicate, &item).expect(rt, "memory")
}

/// Whether its only case, which is the verdict's, has these lines.
pub fn shows<P: Total<Item> + Drop, Item: Drop>(
    rt: &impl Host,
    predicate: P,
    item: Item,
    lines: &str,
) -> bool {
    explains(rt.alloc(), &predicate, &item, lines).expect(rt, "memory")
}

/// Whether the two are shown, and each equals itself alone.
pub fn are_apart<T: fmt::Debug + Eq + Drop>(rt: &impl Host, left: T, right: T) -> bool {
    differ(rt.alloc(), &left, &right).expect(rt, "memory")
}
