mod derives;
mod evaluations;
mod filters;
mod from_words;
mod numbers;
mod program;
mod text_rows;
mod texts;
mod words;

use explain_run::TextCheck;
use std::fmt;
use std::process::Abort;

// The runtime of a test, which ends the test and has memory.
trait Host: Abort + AllocGlobal {}

impl<R: Abort + AllocGlobal> Host for R {}

// The tokens as texts.
fn texts_of(rt: &impl Host, tokens: &[&str]) -> Vec<String> {
    let mut words = Vec::new(rt.alloc());
    for token in tokens {
        words
            .push(String::from_str(rt.alloc(), token).expect(rt, "memory"))
            .expect(rt, "memory");
    }
    words
}

// The tokens, each so many times in its turn, behind `empty`.
fn nested(rt: &impl Host, tokens: &[&str], times: usize) -> Vec<String> {
    let mut words = texts_of(rt, &["empty"]);
    for _ in 0..times {
        let mut level = texts_of(rt, tokens);
        words.append(&mut level).expect(rt, "memory");
    }
    words
}

// The one check that the tokens leave.
fn read_check(rt: &impl Host, tokens: &[&str]) -> TextCheck {
    TextCheck::from_words(rt.alloc(), &texts_of(rt, tokens)).expect(rt, "memory")
}

// Whether this is printed of the value.
fn is_shown<T: fmt::Display + Drop>(rt: &impl Host, value: T, expected: &str) -> bool {
    let text = value.to_string(rt.alloc()).expect(rt, "memory");
    text.as_str() == expected
}
