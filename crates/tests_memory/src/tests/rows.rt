//! Predicates that are made of words, one a row: leaves, combinators, names and adapters.
use predicates::str::Utf8Predicate;
use std::process::Abort;
use tests_support::{
    FromWords, Level, NumberLeaf, NumberWord, TextLeaf, TextLevel, TextWord, read_number_words,
    read_text_words,
};
use tests_sweep::{WrittenRow, sweep_calls};

// Over numbers.
const NUMBERS: [&str; 3] = [
    r"in_iter=.@1@never taken never@var in values = false\n  - var: 1\n@values=[]\n@",
    r"sorted=.@1@never taken never@var in values = false\n  - var: 1\n@values=[]\n@",
    r"in_hash=.@1@never taken never@var in values = false\n  - var: 1\n@values={}\n@",
];

// Over texts.
const TEXTS: [&str; 10] = [
    r#"eq=Hello@@never taken never@var == "Hello" = false\n  - var: ""\n@@"#,
    r#"starts=@@never taken never@var.starts_with("") = true\n  - var: \n@@"#,
    r#"ends=@@never taken never@var.ends_with("") = true\n  - var: \n@@"#,
    r"contains=@@never taken never@var.contains() = true\n  - var: \n@@",
    r"contains= count=3@@never taken never@var.contains() = false\n  - var: \n  - actual count: 1\n@count=3\n@",
    r"empty not name=non-empty@@never taken perhaps@non-empty = false\n  non-empty: (! var.is_empty()) = false\n    predicate: var.is_empty() = true\n      - var: \n@@non-empty: (! var.is_empty())\n  predicate: var.is_empty()\n",
    r"empty name=@@never taken perhaps@ = true\n  : var.is_empty() = true\n    - var: \n@@: var.is_empty()\n",
    r"empty name= not@a@never taken perhaps@(! ) = true\n  predicate:  = false\n    : var.is_empty() = false\n      - var: a\n@@predicate: \n  : var.is_empty()\n",
    r#"eq=Hello trim@    Hello    @taken taken taken@var == "Hello" = true\n  - var: "Hello"\n@@predicate: var == "Hello"\n"#,
    r#"eq=a normalize@a\r\n@taken taken taken@var == "a" = false\n  - var: "a\\n"\n@@predicate: var == "a"\n"#,
];

// Over bytes, which stand beside the row.
const BYTES: [(&[u8], &str); 3] = [
    (
        b"a",
        r"empty not from_utf8@a@taken taken taken@(! var.is_empty()) = true\n  - var as str: a\n  predicate: var.is_empty() = false\n    - var: a\n@@predicate: (! var.is_empty())\n  predicate: var.is_empty()\n",
    ),
    (
        b"\xff",
        r"empty not from_utf8@a byte that is no text@never taken never@(! var.is_empty()) = false\n  - error: Invalid UTF-8 string\n@@predicate: (! var.is_empty())\n  predicate: var.is_empty()\n",
    ),
    (
        b"",
        r"empty not from_utf8@@perhaps taken perhaps@(! var.is_empty()) = false\n  - var as str: \n  predicate: var.is_empty() = true\n    - var: \n@@predicate: (! var.is_empty())\n  predicate: var.is_empty()\n",
    ),
];

// Sweeps over the calls of the predicate of the words.
fn sweep_words<R: Abort + AllocGlobal + Print, P: FromWords<W, Item>, W: Drop, Item>(
    rt: &R,
    words: Option<Vec<W>>,
    item: &Item,
    row: &WrittenRow,
) {
    let Some(mut words) = words else {
        panic!(rt; "an unknown word");
    };
    match P::from_words(rt.alloc(), &mut words).expect(rt, "memory") {
        Some(predicate) => {
            sweep_calls(rt, &predicate, item, row.row().expect(rt, "memory")).expect(rt, "memory")
        }
        None => panic!(rt; "no predicate"),
    }
}

type Numbers = Level<Level<NumberLeaf, i64>, i64>;

type Texts = TextLevel<TextLevel<TextLeaf>>;

type Bytes = Utf8Predicate<Texts>;

#[test]
fn calls_of_predicates_of_numbers(rt: HostRuntime) {
    let alloc = rt.alloc();
    for row in NUMBERS {
        let row = WrittenRow::read(alloc, row).expect(&rt, "memory");
        let item = row
            .item
            .as_str()
            .parse::<i64>()
            .ok()
            .expect(&rt, "no number");
        let words = read_number_words(alloc, row.words.as_str()).expect(&rt, "memory");
        sweep_words::<HostRuntime, Numbers, NumberWord, i64>(&rt, words, &item, &row);
    }
}

#[test]
fn calls_of_predicates_of_texts(rt: HostRuntime) {
    let alloc = rt.alloc();
    for row in TEXTS {
        let row = WrittenRow::read(alloc, row).expect(&rt, "memory");
        let words = read_text_words(alloc, row.words.as_str()).expect(&rt, "memory");
        sweep_words::<HostRuntime, Texts, TextWord, String>(&rt, words, &row.item, &row);
    }
}

#[test]
fn calls_of_predicates_of_bytes(rt: HostRuntime) {
    let alloc = rt.alloc();
    for (item, row) in BYTES {
        let row = WrittenRow::read(alloc, row).expect(&rt, "memory");
        let words = read_text_words(alloc, row.words.as_str()).expect(&rt, "memory");
        let item = Vec::from_slice(alloc, item).expect(&rt, "memory");
        sweep_words::<HostRuntime, Bytes, TextWord, Vec<u8>>(&rt, words, &item, &row);
    }
}
