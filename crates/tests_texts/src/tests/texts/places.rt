//! Places, counts and views of texts, by the calls themselves.
use predicates_text::{count, lines_even, search, trimmed};
use tests_support::repeated;

#[test]
fn places_of_patterns(rt: HostRuntime) {
    for pattern in ["", "Hello", "World", "lo Wo"] {
        assert!(rt; search::contains("Hello World", pattern), "{pattern}");
    }
    assert!(rt; search::starts_with("Hello World", "Hello") && search::starts_with("", ""));
    assert!(rt; !search::starts_with("Hello World", "World") && !search::starts_with("a", "aa"));
    assert!(rt; search::ends_with("Hello World", "World") && search::ends_with("ä", ""));
    assert!(rt; !search::ends_with("Hello World", "Hello") && !search::contains("a", "aa"));
    assert!(rt; search::is_empty("") && !search::is_empty(" "));
    let long = repeated(rt.alloc(), "aä", 300, "").expect(&rt, "memory");
    assert!(rt; !search::contains(&long, "b") && !search::contains(&long, "aa"));
    let long = repeated(rt.alloc(), "aä", 300, "b").expect(&rt, "memory");
    for pattern in ["", "b", "äb", "aäa", "ä"] {
        assert!(rt; search::contains(&long, pattern), "{pattern}");
    }
}

// The tables ask these calls of many texts.
#[test]
fn counts_and_views(rt: HostRuntime) {
    assert_eq!(rt; count::count("ababa", "aba"), 1);
    assert_eq!(rt;
        trimmed(rt.alloc(), "\u{a0}a b\t")
            .expect(&rt, "memory")
            .as_str(),
        "a b"
    );
    assert_eq!(rt;
        trimmed(rt.alloc(), "\u{a0}a\t")
            .expect(&rt, "memory")
            .as_str(),
        "a"
    );
    assert_eq!(rt;
        lines_even(rt.alloc(), "a\rb\r\n")
            .expect(&rt, "memory")
            .as_str(),
        "a\nb\n"
    );
}
