use crate::tests::made::{Host, describes, explains};
use predicates::function::function;
use predicates::name::PredicateNameExt;
use predicates::ord::{eq, lt};
use predicates_core::default_find_case;
use predicates_core::reflection::render;

// A name of 300 bytes.
const LONG: &str = "\
0123456789 0123456789 0123456789 0123456789 0123456789 0123456789 012345678\
0123456789 0123456789 0123456789 0123456789 0123456789 0123456789 012345678\
0123456789 0123456789 0123456789 0123456789 0123456789 0123456789 012345678\
0123456789 0123456789 0123456789 0123456789 0123456789 0123456789 012345678";

// Whether a comparison under the name shows it in its case on the item.
fn explains_name(rt: &impl Host, name: &'static str, item: i32, verdict: bool) -> bool {
    let lines = format!(in rt.alloc();
        "{name} = {verdict}\n  {name}: var < 3 = {verdict}\n    - var: {item}\n"
    ).expect(rt, "memory");
    explains(rt, lt(3i32).name(name), item, lines.as_str())
}

// Whether a function of the name shows it in its case.
fn explains_function(rt: &impl Host, name: &'static str) -> bool {
    let named = function(|x: &i32| *x < 3).fn_name(name);
    let lines = format!(in rt.alloc(); "{name}(var) = false\n").expect(rt, "memory");
    explains(rt, named, 3, lines.as_str())
}

// Whether a comparison under the name describes itself by it.
fn describes_name(rt: &impl Host, name: &'static str) -> bool {
    let lines = format!(in rt.alloc(); "{name}\n{name}: var < 3\n").expect(rt, "memory");
    describes(rt, lt(3i32).name(name), lines.as_str())
}

// Whether a comparison and a function of the name show it.
fn is_shown(rt: &impl Host, name: &'static str) -> [bool; 4] {
    [
        describes_name(rt, name),
        explains_name(rt, name, 1, true),
        explains_name(rt, name, 3, false),
        explains_function(rt, name),
    ]
}

#[test]
fn names_of_no_bytes_and_of_300(rt: HostRuntime) {
    assert!(rt; LONG.len() == 300);
    for name in ["", LONG] {
        assert!(rt; is_shown(&rt, name) == [true; 4], "{name}");
    }
}

// The lines of the case of the verdict that the item is the long text, or of none.
fn lines_of_default_case(rt: &impl Host, item: &'static str, verdict: bool) -> Option<String> {
    match default_find_case(rt.alloc(), &eq(LONG), verdict, &item).expect(rt, "memory") {
        Some(case) => Some(render(rt.alloc(), &case).expect(rt, "memory")),
        None => None,
    }
}

// Whether the case of the verdict has the lines, with none for the opposite.
fn has_default_case(rt: &impl Host, item: &'static str, verdict: bool) -> bool {
    let is_none = lines_of_default_case(rt, item, !verdict).is_none();
    let lines = format!(in rt.alloc(); "var == {LONG:?} = {verdict}\n").expect(rt, "memory");
    is_none && lines_of_default_case(rt, item, verdict) == Some(lines)
}

#[test]
fn bare_leaf_of_a_long_text(rt: HostRuntime) {
    for (item, verdict) in [("", false), (LONG, true)] {
        assert!(rt; has_default_case(&rt, item, verdict), "on {item:?}");
    }
}
