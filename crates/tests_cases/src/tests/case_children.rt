//! The children of a node, without theirs.
use crate::tests::made::{Host, owned};
use predicates::boolean::PredicateBooleanExt;
use predicates::constant::always;
use predicates_core::Predicate;
use predicates_core::reflection::{Case, CaseView};

fn node(rt: &impl Host, text: &str) -> Case {
    Case::new(rt.alloc(), Some(owned(rt, text)), true)
}

// A line for each child of the root, and an indented one for each child of these.
fn lines_of(rt: &impl Host, root: &CaseView<'_>) -> String {
    let mut out = String::new(rt.alloc());
    for child in root.children() {
        let (name, text) = (child.name, child.case.predicate().unwrap_or("none"));
        writeln!(out, "{name}: {text}").expect(rt, "memory");
        for below in child.case.children() {
            let (name, text) = (below.name, below.case.predicate().unwrap_or("none"));
            writeln!(out, "  {name}: {text}").expect(rt, "memory");
        }
    }
    out
}

// A root with `a` and `b` below it, and with `c` below `a`.
fn grown(rt: &impl Host) -> Case {
    let below = node(rt, "of a")
        .add_child("c", node(rt, "of c"))
        .expect(rt, "memory");
    node(rt, "root")
        .add_child("a", below)
        .expect(rt, "memory")
        .add_child("b", node(rt, "of b"))
        .expect(rt, "memory")
}

#[test]
fn children_without_their_own(rt: HostRuntime) {
    let case = grown(&rt);
    let lines = lines_of(&rt, &case.root());
    assert_eq!(rt; lines.as_str(), "a: of a\n  c: of c\nb: of b\n");
}

#[test]
fn one_child_and_its_two(rt: HostRuntime) {
    let alloc = rt.alloc();
    let either = always().and(always()).or(always());
    let case = either
        .find_case(alloc, true, &4)
        .expect(&rt, "memory")
        .expect(&rt, "no case");
    let lines = lines_of(&rt, &case.root());
    assert_eq!(rt;
        lines.as_str(),
        "left: (true && true)\n  left: true\n  right: true\n"
    );
}
