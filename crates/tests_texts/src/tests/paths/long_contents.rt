//! A long content, handed on as a whole, or refused where its last character is cut.
use super::helpers::file;
use crate::tests::asked::shows;
use crate::tests::made::Host;
use predicates::boolean::PredicateBooleanExt;
use predicates::str::{PredicateStrExt, is_empty};
use predicates_path::PredicateFileContentExt;
use tests_support::repeated;

const LENGTH: u32 = 69_999;

// Whether nested predicates have these lines on the content.
fn is_explained(rt: &impl Host, content: &[u8], lines: &str) -> bool {
    let some = is_empty().not().normalize().from_utf8().from_file_path();
    shows(rt, some, file(rt, content), lines)
}

fn is_handed_on(rt: &impl Host) -> bool {
    let content = repeated(rt.alloc(), "a", LENGTH, "\r\n").expect(rt, "memory");
    let long = content.as_str();
    let even = repeated(rt.alloc(), "a", LENGTH, "\n").expect(rt, "memory");
    let lines = format!(in rt.alloc();
        "\
(! var.is_empty()) = true
  - var as str: {long}
  - var: p
  predicate: var.is_empty() = false
    - var: {even}
"
    )
    .expect(rt, "memory");
    is_explained(rt, long.as_bytes(), lines.as_str())
}

fn is_refused(rt: &impl Host) -> bool {
    let content = repeated(rt.alloc(), "a", LENGTH, "\nä").expect(rt, "memory");
    let Some((_, cut)) = content.as_str().as_bytes().split_last() else {
        return false;
    };
    let lines = "\
(! var.is_empty()) = false
  - error: Invalid UTF-8 string
  - var: p
";
    is_explained(rt, cut, lines)
}

#[test]
fn long_contents(rt: HostRuntime) {
    assert!(rt; is_handed_on(&rt));
    assert!(rt; is_refused(&rt));
}
