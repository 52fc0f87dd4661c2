//! Paths and contents of 0, 1, 300 and 70 000 bytes, under both verdicts.
use super::helpers::{file_at, nothing_at, same_bytes};
use crate::tests::asked::shows;
use crate::tests::made::{Host, vec_of};
use predicates_core::Total;
use predicates_path::{
    BinaryFilePredicate, PredicateFileContentExt, Snapshot, StrFilePredicate, eq_file, exists,
};
use tests_support::{is_described, repeated};

// Whether the case of the existence shows the path, which is this text.
fn explains_existence(rt: &impl Host, item: Snapshot, text: &str, verdict: bool) -> bool {
    let lines = format!(in rt.alloc(); "exists(var) = {verdict}\n  - var: {text}\n").expect(
        rt, "memory",
    );
    shows(rt, exists(), item, &lines)
}

// Whether the content of what stands at the path, which is this text, is handed on to the
// comparison with an empty file, or its fault is shown.
fn explains_content(rt: &impl Host, item: Snapshot, text: &str, verdict: bool, more: &str) -> bool {
    let lines = format!(in rt.alloc(); "var is p = {verdict}\n  - var: {text}\n{more}").expect(
        rt, "memory",
    );
    let none = same_bytes(rt, b"").from_file_path();
    shows(rt, none, item, &lines)
}

// A path and a content that are this text.
fn explains_path(rt: &impl Host, text: &str) -> bool {
    let exists = explains_existence(rt, file_at(rt, text), text, true);
    let is_empty = text.is_empty();
    let is_handed_on = explains_content(rt, file_at(rt, text), text, is_empty, "");
    exists && is_handed_on
}

// A path that is this text, where nothing stands.
fn explains_nothing(rt: &impl Host, text: &str) -> bool {
    let is_missing = explains_existence(rt, nothing_at(rt, text), text, false);
    let more = "  - error: not found\n";
    let is_refused = explains_content(rt, nothing_at(rt, text), text, false, more);
    is_missing && is_refused
}

// Whether the comparison with the text answers this of the item.
fn equals<P: Total<Item> + Drop, Item: Drop>(
    rt: &impl Host,
    predicate: P,
    item: Item,
    text: &str,
    verdict: bool,
) -> bool {
    let lines = format!(in rt.alloc(); "var is {text} = {verdict}\n").expect(rt, "memory");
    shows(rt, predicate, item, &lines)
}

// The text as a file, as bytes and as a text.
fn bytes_of(rt: &impl Host, text: &str) -> BinaryFilePredicate {
    eq_file(file_at(rt, text)).expect(rt, "memory")
}

fn text_of(rt: &impl Host, text: &str) -> StrFilePredicate {
    bytes_of(rt, text).utf8().expect(rt, "no text")
}

// The text as a file beside its bytes and this one more, if any.
fn equals_bytes(rt: &impl Host, text: &str, more: &[u8], verdict: bool) -> bool {
    let mut bytes = vec_of(rt, text.as_bytes());
    bytes.extend_from_slice(more).expect(rt, "memory");
    equals(rt, bytes_of(rt, text), bytes, text, verdict)
}

// The text as a file beside the text and this one more, if any.
fn equals_text(rt: &impl Host, text: &str, more: &str, verdict: bool) -> bool {
    let item = format!(in rt.alloc(); "{text}{more}").expect(rt, "memory");
    equals(rt, text_of(rt, text), item, text, verdict)
}

// Whether the comparison with the bytes lists them, and that with the text shows it.
fn lists_bytes(rt: &impl Host, text: &str, listed: &str) -> bool {
    let lines = format!(in rt.alloc(); "var is {text}\ncontent={listed}\n").expect(rt, "memory");
    is_described(rt.alloc(), &bytes_of(rt, text), &lines).expect(rt, "memory")
}

fn shows_text(rt: &impl Host, text: &str) -> bool {
    let lines = format!(in rt.alloc(); "var is {text}\ncontent={text}\n").expect(rt, "memory");
    is_described(rt.alloc(), &text_of(rt, text), &lines).expect(rt, "memory")
}

// How many bytes, and the debug form of all but the last one.
const LENGTHS: [(u32, u32); 4] = [(0, 0), (1, 0), (300, 299), (70_000, 69_999)];

// A text of this many letters.
fn letters(rt: &impl Host, length: u32) -> String {
    repeated(rt.alloc(), "a", length, "").expect(rt, "memory")
}

#[test]
fn paths_of_any_size(rt: HostRuntime) {
    for (length, _) in LENGTHS {
        let text = letters(&rt, length);
        assert!(rt; explains_path(&rt, &text), "{length}");
        assert!(rt; explains_nothing(&rt, &text), "{length}");
    }
}

#[test]
fn contents_of_any_size(rt: HostRuntime) {
    for (length, _) in LENGTHS {
        let text = letters(&rt, length);
        assert!(rt; equals_bytes(&rt, &text, b"", true), "{length}");
        assert!(rt; equals_bytes(&rt, &text, b"\0", false), "{length}");
        assert!(rt; equals_text(&rt, &text, "", true), "{length}");
        assert!(rt; equals_text(&rt, &text, "a", false), "{length}");
    }
}

#[test]
fn files_of_any_size(rt: HostRuntime) {
    for (length, _) in LENGTHS {
        let text = letters(&rt, length);
        assert!(rt;
            equals(&rt, bytes_of(&rt, &text), file_at(&rt, &text), &text, true),
            "{length}"
        );
        assert!(rt;
            equals(&rt, text_of(&rt, &text), file_at(&rt, &text), &text, true),
            "{length}"
        );
        let nothing = nothing_at(&rt, &text);
        assert!(rt;
            equals(&rt, bytes_of(&rt, &text), nothing, &text, false),
            "{length}"
        );
        let nothing = nothing_at(&rt, &text);
        assert!(rt;
            equals(&rt, text_of(&rt, &text), nothing, &text, false),
            "{length}"
        );
    }
}

// The debug form of this many bytes, the last of them after that many others.
fn listed(rt: &impl Host, length: u32, but_one: u32) -> String {
    let bytes = repeated(
        rt.alloc(),
        "97, ",
        but_one,
        if length == 0 { "" } else { "97" },
    )
    .expect(rt, "memory");
    format!(in rt.alloc(); "[{bytes}]").expect(rt, "memory")
}

// Whether both comparisons show the content.
fn are_shown(rt: &impl Host, length: u32, but_one: u32) -> [bool; 2] {
    let text = letters(rt, length);
    let is_listed = lists_bytes(rt, &text, &listed(rt, length, but_one));
    [is_listed, shows_text(rt, &text)]
}

#[test]
fn shown_contents_of_any_size(rt: HostRuntime) {
    for (length, but_one) in LENGTHS {
        assert!(rt; are_shown(&rt, length, but_one) == [true; 2], "{length}");
    }
}
