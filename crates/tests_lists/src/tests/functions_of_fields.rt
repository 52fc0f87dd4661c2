//! Functions of the fields of a struct.
use crate::tests::made::{Host, owned};
use predicates::boolean::PredicateBooleanExt;
use predicates::function::function;
use tests_support::verdict;

#[derive(Drop)]
struct Greeting {
    text: String,
    number: i64,
}

// The verdict of two functions; none where it has not just its own case.
fn greets(rt: &impl Host, words: &str, number: i64) -> Option<bool> {
    let greeting = Greeting {
        text: owned(rt, words),
        number,
    };
    let greets = function(|g: &Greeting| g.text.as_str() == "hello").and(function(
        |g: &Greeting| g.number == 42,
    ));
    verdict(rt.alloc(), &greets, &greeting).expect(rt, "memory")
}

const GREETINGS: [(&str, i64, bool); 3] = [
    ("hello", 42, true),
    ("goodbye", 0, false),
    ("hello", 0, false),
];

#[test]
fn functions_of_fields(rt: HostRuntime) {
    for (text, number, expected) in GREETINGS {
        assert!(rt;
            greets(&rt, text, number) == Some(expected),
            "{text}, {number}"
        );
    }
}
