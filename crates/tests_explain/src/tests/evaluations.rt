//! How often the leaves of a predicate are asked by filters, runs and blocks, which no contract
//! says, and that no check of words asks a part at each level twice.
use super::{Host, nested};
use explain_run::{TextCheck, explain_one, filter_lines, filter_with_reasons, run_text};
use predicates::constant::{BooleanPredicate, always, never};
use predicates::prelude::*;
use std::cell::Cell;
use std::rc::Rc;
use tests_support::Counting;

// An input, how many of its lines are texts, and how many are none.
const INPUTS: [(&[u8], usize); 4] = [
    (b"", 0),
    (b"a", 1),
    (b"a\n\xff\n\nb\r\n", 3),
    (b"\xff\n", 0),
];

type Leaf = Counting<BooleanPredicate<String>>;

// A leaf that has this verdict of each line, and counts how often it is asked.
fn leaf(rt: &impl Host, asked: &Rc<Cell<usize>>, verdict: bool) -> Leaf {
    Counting {
        held: if verdict { always() } else { never() },
        asked: asked.clone().expect(rt, "memory"),
    }
}

fn none_yet(rt: &impl Host) -> Rc<Cell<usize>> {
    Rc::new(rt.alloc(), Cell::new(0)).expect(rt, "memory")
}

// What is made of an input: its lines of the wanted verdict, alone or with the reasons of the
// others, or the block of each line.
#[derive(Clone, Copy)]
enum Made {
    Filtered(bool),
    Told(bool),
    Run,
}

// How often two leaves are asked, of which the second has this verdict.
fn asked_by(rt: &impl Host, made: Made, verdict: bool, input: &[u8]) -> usize {
    let alloc = rt.alloc();
    let asked = none_yet(rt);
    let both = leaf(rt, &asked, true).and(leaf(rt, &asked, verdict));
    let (mut reader, mut output, mut reasons) = (input, Vec::new(alloc), Vec::new(alloc));
    let is_ended = match made {
        Made::Filtered(wanted) => {
            filter_lines(alloc, &both, wanted, &mut reader, &mut output).is_ok()
        }
        Made::Told(wanted) => {
            filter_with_reasons(
                alloc,
                &both,
                wanted,
                &mut reader,
                &mut output,
                &mut reasons,
            ).is_ok()
        }
        Made::Run => run_text(alloc, &both, &mut reader, &mut output).is_ok(),
    };
    assert!(rt; is_ended);
    asked.get()
}

// Each leaf is asked once for each line that is a text, also where the line's reason is told, and
// once more where its block is written.
#[test]
fn inputs_ask_each_leaf_once_or_twice(rt: HostRuntime) {
    for (input, texts) in INPUTS {
        for verdict in [false, true] {
            for wanted in [false, true] {
                for made in [Made::Filtered(wanted), Made::Told(wanted)] {
                    let asked = asked_by(&rt, made, verdict, input);
                    assert!(rt; asked == texts.saturating_mul(2), "{input:?}");
                }
            }
            let asked = asked_by(&rt, Made::Run, verdict, input);
            assert!(rt; asked == texts.saturating_mul(4), "{input:?}");
        }
    }
}

// How often the leaves are asked by one block.
fn asked_by_block(rt: &impl Host, verdict: bool) -> usize {
    let asked = none_yet(rt);
    let both = leaf(rt, &asked, true).and(leaf(rt, &asked, verdict));
    let item = String::from_str(rt.alloc(), "a").expect(rt, "memory");
    explain_one(rt.alloc(), &both, "a", &item).expect(rt, "memory");
    asked.get()
}

#[test]
fn a_block_asks_each_leaf_twice(rt: HostRuntime) {
    for verdict in [false, true] {
        assert!(rt; asked_by_block(&rt, verdict) == 4, "{verdict}");
    }
}

// How many levels a check has. Where a part were asked twice at each, the leaf below would be asked
// 2^100 times, and no call would end.
const LEVELS: usize = 100;

// `empty` and the token so many times, the second behind all of the first.
fn nested_right(rt: &impl Host, token: &str, times: usize) -> Vec<String> {
    let mut words = nested(rt, &["empty"], times);
    for _ in 0..times {
        let word = String::from_str(rt.alloc(), token).expect(rt, "memory");
        words.push(word).expect(rt, "memory");
    }
    words
}

// Whether the check has this verdict on the item by each call: a case of it and none of the other,
// a reason and a change.
fn has_verdict(rt: &impl Host, check: &TextCheck, item: &str, holds: bool) -> bool {
    let alloc = rt.alloc();
    let item = String::from_str(alloc, item).expect(rt, "memory");
    let verdict = check.eval(alloc, &item).expect(rt, "memory");
    let of_true = check.find_case(alloc, true, &item).expect(rt, "memory");
    let of_false = check.find_case(alloc, false, &item).expect(rt, "memory");
    let reason = check.explain(alloc, None, &item).expect(rt, "memory");
    let change = check.find_change(alloc, None, &item).expect(rt, "memory");
    verdict == holds
        && of_true.is_some() == holds
        && of_false.is_some() != holds
        && reason.is_some()
        && change.is_some()
}

// Whether the check of the words answers so, which holds of no characters, and not of one.
fn is_answered(rt: &impl Host, words: &[String]) -> bool {
    let check = TextCheck::from_words(rt.alloc(), words).expect(rt, "memory");
    has_verdict(rt, &check, "", true) && has_verdict(rt, &check, "a", false)
}

// Tokens of a level, of which a hundred hold of no characters, and not of one.
const LEFT: [&[&str]; 7] = [
    &["empty", "xor"],
    &["empty", "and"],
    &["empty", "or"],
    &["empty", "xor", "trim"],
    &["empty", "xor", "normalize"],
    &["empty", "xor", "not"],
    &["not"],
];

#[test]
fn checks_of_many_levels_end(rt: HostRuntime) {
    for tokens in LEFT {
        let words = nested(&rt, tokens, LEVELS);
        assert!(rt; is_answered(&rt, &words), "{tokens:?}");
    }
    for token in ["xor", "and", "or"] {
        let words = nested_right(&rt, token, LEVELS);
        assert!(rt; is_answered(&rt, &words), "{token}");
    }
}
