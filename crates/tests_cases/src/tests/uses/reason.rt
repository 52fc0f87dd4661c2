// What README puts into a crate of one's own.
use predicates::prelude::*;
use std::alloc::{AllocError, Global};

/// Why the number is not between 5 and 10; none where it is.
pub fn why_not(alloc: Global, number: i64) -> Result<Option<String>, AllocError> {
    let between = predicate::ge(5).and(predicate::le(10));
    match between.find_case(alloc, false, &number)? {
        None => Ok(None),
        Some(case) => Ok(Some(render(alloc, &case)?)),
    }
}

#[test]
fn explains_why(rt: HostRuntime) {
    let alloc = rt.alloc();
    assert!(rt; why_not(alloc, 7).expect(&rt, "memory").is_none());
    let lines = why_not(alloc, 11)
        .expect(&rt, "memory")
        .expect(&rt, "it is");
    assert_eq!(rt;
        lines.as_str(),
        "(var >= 5 && var <= 10) = false\n  right: var <= 10 = false\n    - var: 11\n"
    );
}
