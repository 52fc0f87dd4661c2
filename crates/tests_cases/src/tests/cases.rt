//! What no clause says of cases: that the calls answer with ample memory, and how a case prints.
use crate::tests::made::{Host, owned};
use predicates_core::node::{
    binary_node, binary_node_of, leaf_node, printed, showing, showing_item, showing_text,
    unary_node,
};
use predicates_core::reflection::{Case, Child, Parameter, Product, render, render_onto};
use std::fmt::Write;
use tests_support::{description, repeated};

// A case of a text alone, for true.
fn leaf(rt: &impl Host, words: &str) -> Case {
    leaf_node(rt.alloc(), owned(rt, words), true)
}

// The lines of a case, which ends here.
fn lines_of(rt: &impl Host, case: Case) -> String {
    render(rt.alloc(), &case).expect(rt, "memory")
}

// Whether it has these lines.
fn has_lines(rt: &impl Host, case: Case, lines: &str) -> bool {
    lines_of(rt, case).as_str() == lines
}

fn both(rt: &impl Host) -> Case {
    let left = showing_item(rt.alloc(), leaf(rt, "var >= 5"), &7).expect(rt, "memory");
    let right = showing_text(rt.alloc(), leaf(rt, "named"), "name", "a\nb").expect(rt, "memory");
    binary_node(rt.alloc(), owned(rt, "both"), true, left, right).expect(rt, "memory")
}

fn not_both(rt: &impl Host) -> Case {
    let part = both(rt);
    unary_node(rt.alloc(), owned(rt, "(! both)"), false, "predicate", part).expect(rt, "memory")
}

#[test]
fn a_case_of_four_nodes(rt: HostRuntime) {
    let lines = "\
(! both) = false
  predicate: both = true
    left: var >= 5 = true
      - var: 7
    right: named = true
      - name: a
b
";
    assert!(rt; has_lines(&rt, not_both(&rt), lines));
}

fn found_on_the_left(rt: &impl Host) -> Case {
    let seven = leaf_node(
        rt.alloc(),
        printed(rt.alloc(), &7).expect(rt, "memory"),
        true,
    );
    binary_node_of(
        rt.alloc(),
        printed(rt.alloc(), &"a").expect(rt, "memory"),
        false,
        Some(seven),
        None,
    )
    .expect(rt, "memory")
}

fn found_on_the_right(rt: &impl Host) -> Case {
    let none = binary_node_of(
        rt.alloc(),
        printed(rt.alloc(), &"").expect(rt, "memory"),
        false,
        None,
        None,
    )
    .expect(rt, "memory");
    binary_node_of(
        rt.alloc(),
        printed(rt.alloc(), &"b").expect(rt, "memory"),
        true,
        None,
        Some(none),
    )
    .expect(rt, "memory")
}

fn found_on_both_sides(rt: &impl Host) -> Case {
    let left = found_on_the_left(rt);
    let right = found_on_the_right(rt);
    binary_node_of(
        rt.alloc(),
        printed(rt.alloc(), &-1).expect(rt, "memory"),
        true,
        Some(left),
        Some(right),
    )
    .expect(rt, "memory")
}

#[test]
fn parts_that_were_found(rt: HostRuntime) {
    let lines = "\
-1 = true
  left: a = false
    left: 7 = true
  right: b = true
    right:  = false
";
    assert!(rt; has_lines(&rt, found_on_both_sides(&rt), lines));
}

fn without_texts(rt: &impl Host) -> Case {
    let shown = showing(Case::new(rt.alloc(), None, true), "var", owned(rt, "")).expect(
        rt, "memory",
    );
    let parent = Case::new(rt.alloc(), Some(owned(rt, "")), false);
    let product = Product::new("error", owned(rt, "none"));
    parent
        .add_child("", shown)
        .expect(rt, "memory")
        .add_product(product)
        .expect(rt, "memory")
}

#[test]
fn a_case_without_a_text(rt: HostRuntime) {
    let lines = " = false\n  - error: none\n  : predicate = true\n    - var: \n";
    assert!(rt; has_lines(&rt, without_texts(&rt), lines));
}

// A list of one child with the text, a parameter of the value, and these children.
fn only_child(rt: &impl Host, words: &str, below: Vec<Child>) -> Vec<Child> {
    let mut parameters = Vec::new(rt.alloc());
    parameters
        .push(Parameter::new("value", owned(rt, words)))
        .expect(rt, "memory");
    let mut children = Vec::new(rt.alloc());
    children
        .push(Child::new("part", owned(rt, words), parameters, below))
        .expect(rt, "memory");
    children
}

// The lines of such a child over another one.
fn lines_of_nested(rt: &impl Host, words: &str) -> String {
    let inner = only_child(rt, "b", Vec::new(rt.alloc()));
    description(rt.alloc(), &[], only_child(rt, words, inner).as_slice()).expect(rt, "memory")
}

// A case of the text, which shows it and, as an item, once more.
fn shown_twice(rt: &impl Host, words: &String) -> Case {
    let case = showing_text(rt.alloc(), leaf(rt, words), "var", words).expect(rt, "memory");
    showing_item(rt.alloc(), case, words).expect(rt, "memory")
}

// Its lines, after the text itself.
fn lines_after(rt: &impl Host, words: &String) -> String {
    let case = shown_twice(rt, words);
    let mut lines = words.clone().expect(rt, "memory");
    render_onto(&mut lines, &case).expect(rt, "memory");
    lines
}

// The lines of such a case.
fn twice(rt: &impl Host, words: &str) -> String {
    let shown = "  - var: ";
    format!(in rt.alloc(); "{words} = true\n{shown}{words}\n{shown}{words:?}\n").expect(
        rt, "memory",
    )
}

// Whether the case of a text of this length has them.
fn is_shown_twice(rt: &impl Host, length: u32) -> bool {
    let words = repeated(rt.alloc(), "x", length, "").expect(rt, "memory");
    let lines = lines_of(rt, shown_twice(rt, &words));
    lines == twice(rt, words.as_str())
}

// Whether it has them behind the text.
fn is_shown_after(rt: &impl Host, length: u32) -> bool {
    let words = repeated(rt.alloc(), "x", length, "").expect(rt, "memory");
    let lines = twice(rt, words.as_str());
    let after = format!(in rt.alloc(); "{words}{lines}").expect(rt, "memory");
    lines_after(rt, &words) == after
}

// Whether a child with the text is described over another one.
fn is_nested(rt: &impl Host, length: u32) -> bool {
    let words = repeated(rt.alloc(), "x", length, "").expect(rt, "memory");
    let below = "  part: b\n    value=b\n";
    let nested = format!(in rt.alloc(); "part: {words}\n  value={words}\n{below}").expect(
        rt, "memory",
    );
    lines_of_nested(rt, words.as_str()) == nested
}

#[test]
fn texts_of_any_length(rt: HostRuntime) {
    for length in [0, 1, 300, 70_000] {
        assert!(rt; is_shown_twice(&rt, length), "{length}");
        assert!(rt; is_shown_after(&rt, length), "{length}");
        assert!(rt; is_nested(&rt, length), "{length}");
    }
}

const MANY: i32 = 300;

// A part that prints the number, over one without a text.
fn numbered(rt: &impl Host, number: i32) -> Case {
    let inner = Case::new(rt.alloc(), None, true);
    unary_node(
        rt.alloc(),
        printed(rt.alloc(), &number).expect(rt, "memory"),
        false,
        "inner",
        inner,
    )
    .expect(rt, "memory")
}

fn many_products(rt: &impl Host) -> Case {
    let mut case = Case::new(rt.alloc(), None, true);
    for number in 0..MANY {
        case = showing_item(rt.alloc(), case, &number).expect(rt, "memory");
    }
    case
}

fn many_parts(rt: &impl Host) -> Case {
    let mut case = many_products(rt);
    for number in 0..MANY {
        case = case
            .add_child("part", numbered(rt, number))
            .expect(rt, "memory");
    }
    case
}

fn lines_of_many(rt: &impl Host) -> String {
    let mut lines = owned(rt, "predicate = true\n");
    for number in 0..MANY {
        writeln!(lines, "  - var: {number}").expect(rt, "memory");
    }
    for number in 0..MANY {
        let part = "    inner: predicate = true";
        writeln!(lines, "  part: {number} = false\n{part}").expect(rt, "memory");
    }
    lines
}

fn are_many_shown(rt: &impl Host) -> bool {
    let lines = lines_of_many(rt);
    has_lines(rt, many_parts(rt), lines.as_str())
}

#[test]
fn many_products_and_children(rt: HostRuntime) {
    assert!(rt; are_many_shown(&rt));
}

fn chain(rt: &impl Host, length: usize) -> Case {
    let mut case = Case::new(rt.alloc(), None, true);
    for _ in 0..length {
        case = unary_node(rt.alloc(), owned(rt, "predicate"), true, "part", case).expect(
            rt, "memory",
        );
    }
    case
}

fn lines_of_chain(rt: &impl Host, length: usize) -> String {
    let mut lines = owned(rt, "predicate = true\n");
    let mut indent = String::new(rt.alloc());
    for _ in 0..length {
        indent.push_str("  ").expect(rt, "memory");
        writeln!(lines, "{indent}part: predicate = true").expect(rt, "memory");
    }
    lines
}

fn is_chain_shown(rt: &impl Host, length: usize) -> bool {
    let lines = lines_of_chain(rt, length);
    has_lines(rt, chain(rt, length), lines.as_str())
}

#[test]
fn a_chain_of_children(rt: HostRuntime) {
    assert!(rt; is_chain_shown(&rt, 1_000));
}
