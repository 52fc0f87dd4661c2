//! Texts without regard to case. The foldings are those of Unicode's `CaseFolding.txt`.
use crate::tests::asked::shows;
use crate::tests::made::{Host, owned};
use predicates::ord::eq;
use predicates_text::{
    PredicateStrExt, case_folded, case_folded_view, eq_ignore_case, is_case_folded, search,
};
use tests_support::{is_described, repeated};

// A text and its folding.
const FOLDED: [(&str, &str); 8] = [
    ("", ""),
    ("Hello, World 7", "hello, world 7"),
    ("MASSE", "masse"),
    ("Maße", "masse"),
    ("ΌΣΟΣ", "όσοσ"),
    ("όσος", "όσοσ"),
    ("ﬁn", "fin"),
    ("İ", "i\u{307}"),
];

#[test]
fn foldings(rt: HostRuntime) {
    for (item, folded) in FOLDED {
        assert_eq!(rt;
            case_folded(rt.alloc(), item).expect(&rt, "memory").as_str(),
            folded,
            "{item}"
        );
        assert_eq!(rt; is_case_folded(item), item == folded, "{item}");
        assert!(rt; is_case_folded(folded), "{folded}");
    }
}

// Two texts, and whether they differ in case alone.
const PAIRS: [(&str, &str, bool); 8] = [
    ("MASSE", "Maße", true),
    ("ΌΣΟΣ", "όσος", true),
    ("Hello", "hELLO", true),
    ("ﬁn", "FIN", true),
    ("", "", true),
    ("", "a", false),
    ("Maße", "Mase", false),
    ("é", "e\u{301}", false),
];

#[test]
fn texts_that_differ_in_case_alone(rt: HostRuntime) {
    for (left, right, same) in PAIRS {
        assert!(rt;
            search::eq_ignore_case(left, right) == same,
            "{left} and {right}"
        );
        assert!(rt;
            search::eq_ignore_case(right, left) == same,
            "{right} and {left}"
        );
    }
}

// What a folded text is to be, an item, and the lines of the case.
const VIEWED: [(&str, &str, &str); 6] = [
    (
        "masse",
        "MASSE",
        "var == \"masse\" = true\n  - var: \"masse\"\n",
    ),
    (
        "masse",
        "Maße",
        "var == \"masse\" = true\n  - var: \"masse\"\n",
    ),
    (
        "Maße",
        "Maße",
        "var == \"Maße\" = false\n  - var: \"masse\"\n",
    ),
    (
        "όσοσ",
        "ΌΣΟΣ",
        "var == \"όσοσ\" = true\n  - var: \"όσοσ\"\n",
    ),
    ("a b", "a b", "var == \"a b\" = true\n  - var: \"a b\"\n"),
    ("", "", "var == \"\" = true\n  - var: \"\"\n"),
];

fn shows_view(rt: &impl Host, wanted: &str, item: &str, lines: &str) -> bool {
    let equal = eq(owned(rt, wanted)).fold_case();
    shows(rt, equal, owned(rt, item), lines)
}

#[test]
fn the_case_shows_the_folded_text(rt: HostRuntime) {
    for (wanted, item, lines) in VIEWED {
        assert!(rt; shows_view(&rt, wanted, item, lines), "{wanted} and {item}");
    }
}

// A text, an item, and the lines of the case.
const COMPARED: [(&str, &str, &str); 4] = [
    (
        "Maße",
        "MASSE",
        "var.eq_ignore_case(\"Maße\") = true\n  - var: MASSE\n",
    ),
    (
        "όσος",
        "ΌΣΟΣ",
        "var.eq_ignore_case(\"όσος\") = true\n  - var: ΌΣΟΣ\n",
    ),
    (
        "Maße",
        "Mase",
        "var.eq_ignore_case(\"Maße\") = false\n  - var: Mase\n",
    ),
    ("", "", "var.eq_ignore_case(\"\") = true\n  - var: \n"),
];

fn shows_leaf(rt: &impl Host, other: &str, item: &str, lines: &str) -> bool {
    let same = eq_ignore_case(owned(rt, other));
    shows(rt, same, owned(rt, item), lines)
}

#[test]
fn the_case_shows_the_item_of_a_comparison(rt: HostRuntime) {
    for (other, item, lines) in COMPARED {
        assert!(rt; shows_leaf(&rt, other, item, lines), "{other} and {item}");
    }
}

fn is_described_by_its_part(rt: &impl Host) -> bool {
    let equal = eq(owned(rt, "a")).fold_case();
    is_described(
        rt.alloc(),
        &equal,
        "var == \"a\"\npredicate: var == \"a\"\n",
    )
    .expect(rt, "memory")
}

#[test]
fn it_is_described_by_its_part(rt: HostRuntime) {
    assert!(rt; is_described_by_its_part(&rt));
}

// The number of bytes of the copy that the view of the text takes.
fn copied(rt: &impl Host, item: &String) -> usize {
    let mut copy = String::new(rt.alloc());
    case_folded_view(rt.alloc(), item, &mut copy).expect(rt, "memory");
    copy.len()
}

#[test]
fn long_texts_are_copied_where_they_change(rt: HostRuntime) {
    let alloc = rt.alloc();
    let long = repeated(alloc, "aä", 3000, "").expect(&rt, "memory");
    assert_eq!(rt; copied(&rt, &long), 0);
    let long = repeated(alloc, "aä", 3000, "ß").expect(&rt, "memory");
    assert_eq!(rt; copied(&rt, &long), 9002);
}
