use crate::tests::made::{Host, describes, explains, in_box, owned};
use predicates::prelude::*;
use predicates::static_text::StaticText;
use predicates::{BoxPredicate, TextPredicate};
use tests_support::{render_verdict, repeated};

// A box over a leaf.
fn is_empty(rt: &impl Host) -> BoxPredicate {
    BoxPredicate::new(rt.alloc(), in_box(rt, predicate::str::is_empty())).expect(rt, "memory")
}

// A box over a leaf with a pattern.
fn contains_a(rt: &impl Host) -> BoxPredicate {
    let part = predicate::str::contains(owned(rt, "a"));
    BoxPredicate::new(rt.alloc(), in_box(rt, part)).expect(rt, "memory")
}

// A box over a named constant.
fn any(rt: &impl Host) -> BoxPredicate {
    let any = predicate::always().name(StaticText::new("any"));
    BoxPredicate::new(rt.alloc(), in_box(rt, any)).expect(rt, "memory")
}

fn three_boxes(rt: &impl Host) -> Vec<BoxPredicate> {
    vec![in rt.alloc(); is_empty(rt), contains_a(rt), any(rt)].expect(rt, "memory")
}

// The lines of the boxes' cases on the text, in order.
fn lines_of(rt: &impl Host, boxes: &[BoxPredicate], item: &String) -> String {
    let mut out = String::new(rt.alloc());
    for check in boxes {
        render_verdict(rt.alloc(), &mut out, check, item).expect(rt, "memory");
    }
    out
}

// Whether the cases of three boxes on the text have these lines.
fn explains_three(rt: &impl Host, item: &str, lines: &str) -> bool {
    let item = owned(rt, item);
    let boxes = three_boxes(rt);
    lines_of(rt, boxes.as_slice(), &item).as_str() == lines
}

#[test]
fn boxes_in_a_loop(rt: HostRuntime) {
    let lines = "\
var.is_empty() = false
  - var: b
var.contains(a) = false
  - var: b
any = true
  any: true = true
";
    assert!(rt; explains_three(&rt, "b", lines));
    assert!(rt; describes(&rt, any(&rt), "any\nany: true\n  value=true\n"));
}

// A constant in a box.
fn constant(rt: &impl Host) -> BoxPredicate {
    let made: Box<dyn TextPredicate> = in_box(rt, predicate::always());
    BoxPredicate::new(rt.alloc(), made).expect(rt, "memory")
}

// Whether it has the debug form of a box.
fn is_constant_shown(rt: &impl Host) -> bool {
    let boxed = constant(rt);
    format!(in rt.alloc(); "{boxed:?}")
        .expect(rt, "memory")
        .as_str()
        == "BoxPredicate"
}

#[test]
fn a_constant_in_a_box(rt: HostRuntime) {
    assert!(rt; explains(&rt, constant(&rt), owned(&rt, "b"), "true = true\n"));
    assert!(rt; describes(&rt, constant(&rt), "true\nvalue=true\n"));
    assert!(rt; is_constant_shown(&rt));
}

#[test]
fn a_box_under_others(rt: HostRuntime) {
    let lines = "\
(blank || var.contains(a)) = true
  left: blank = true
    blank: var.is_empty() = true
      - var: \n";
    let described = "\
(blank || var.contains(a))
left: blank
  blank: var.is_empty()
    predicate: var.is_empty()
right: var.contains(a)
";
    let either = is_empty(&rt).trim().name("blank").or(contains_a(&rt));
    assert!(rt; explains(&rt, either, owned(&rt, "  "), lines));
    let either = is_empty(&rt).trim().name("blank").or(contains_a(&rt));
    assert!(rt; describes(&rt, either, described));
}

// `xor` under `trim` and a name, in a box.
fn boxed_xor(rt: &impl Host) -> BoxPredicate {
    let part = predicate::str::contains(owned(rt, "a"));
    let either = predicate::str::is_empty().xor(part).trim();
    let named = either.name(StaticText::new("either"));
    BoxPredicate::new(rt.alloc(), in_box(rt, named)).expect(rt, "memory")
}

#[test]
fn xor_trimmed_named_and_boxed(rt: HostRuntime) {
    let lines = "\
either = true
  either: (var.is_empty() ^ var.contains(a)) = true
    left: var.is_empty() = false
      - var: a
    right: var.contains(a) = true
      - var: a
";
    assert!(rt; explains(&rt, boxed_xor(&rt), owned(&rt, " a "), lines));
}

#[test]
fn explained_boxed_or_not(rt: HostRuntime) {
    let lines = "var > \"5\" = false\n  - var: \"4\"\n";
    let item = owned(&rt, "4");
    assert!(rt; explains(&rt, predicate::gt(owned(&rt, "5")), item, lines));
    let held = in_box(&rt, predicate::gt(owned(&rt, "5")));
    let boxed = BoxPredicate::new(rt.alloc(), held).expect(&rt, "memory");
    assert!(rt; explains(&rt, boxed, owned(&rt, "4"), lines));
}

// A boxed comparison with the letters.
fn boxed_letters(rt: &impl Host, letters: &String) -> BoxPredicate {
    let is_letters = predicate::eq(letters.clone().expect(rt, "memory"));
    BoxPredicate::new(rt.alloc(), in_box(rt, is_letters)).expect(rt, "memory")
}

// Whether one with this many letters is explained on them.
fn explains_letters(rt: &impl Host, length: u32) -> bool {
    let letters = repeated(rt.alloc(), "a", length, "").expect(rt, "memory");
    let lines = format!(in rt.alloc();
        "var == \"{letters}\" = true\n  - var: \"{letters}\"\n"
    ).expect(rt, "memory");
    explains(rt, boxed_letters(rt, &letters), letters, lines.as_str())
}

// Whether it is on `b`.
fn explains_other(rt: &impl Host, length: u32) -> bool {
    let (letters, other) = (
        repeated(rt.alloc(), "a", length, "").expect(rt, "memory"),
        owned(rt, "b"),
    );
    let lines = format!(in rt.alloc(); "var == \"{letters}\" = false\n  - var: \"b\"\n").expect(
        rt, "memory",
    );
    explains(rt, boxed_letters(rt, &letters), other, lines.as_str())
}

#[test]
fn boxes_of_long_texts(rt: HostRuntime) {
    for length in [0, 1, 300, 70_000] {
        assert!(rt; explains_letters(&rt, length), "{length}");
        assert!(rt; explains_other(&rt, length), "{length}");
    }
}
