//! The leaves that a case keeps of each short formula, beside those of the reference program.
use crate::tests::made::Host;
use predicates_core::static_text::StaticText;
use tests_support::{NumberWord, ReferenceFormula, answer_number, number_formula};

// The item of every formula here.
const ITEM: i64 = 4;

// A true leaf, a false leaf, and the combinators.
fn word(number: u64) -> NumberWord {
    match number % 7 {
        0 => NumberWord::Less(5),
        1 => NumberWord::Less(3),
        2 => NumberWord::And,
        3 => NumberWord::Or,
        4 => NumberWord::Xor,
        5 => NumberWord::Not,
        _ => NumberWord::Named(StaticText::new("name")),
    }
}

// Whether the library explains the formula of the words as the reference program does.
fn explains(rt: &impl Host, words: Vec<NumberWord>, formula: &ReferenceFormula) -> bool {
    match answer_number(rt.alloc(), words, ITEM).expect(rt, "memory") {
        Some(answers) => answers.explain(rt.alloc(), formula).expect(rt, "memory"),
        None => false,
    }
}

// The same of any words; none where they are no formula.
fn is_explained(rt: &impl Host, words: Vec<NumberWord>) -> Option<bool> {
    match number_formula(rt.alloc(), words.as_slice(), ITEM).expect(rt, "memory") {
        Some(formula) => Some(explains(rt, words, &formula)),
        None => None,
    }
}

// The words that the number's digits stand for, the last one first.
fn words_of(rt: &impl Host, number: u64, length: u64) -> Vec<NumberWord> {
    let mut words = Vec::new(rt.alloc());
    let mut rest = number;
    for _ in 0..length {
        words.push(word(rest)).expect(rt, "memory");
        rest /= 7;
    }
    words
}

#[test]
fn all_formulas_of_at_most_six_words(rt: HostRuntime) {
    let mut explained = 0_u64;
    let mut all = 1_u64;
    for length in 1..7_u64 {
        all = all.saturating_mul(7);
        for number in 0..all {
            if let Some(right) = is_explained(&rt, words_of(&rt, number, length)) {
                assert!(rt; right, "formula {number} of {length} words");
                explained = explained.saturating_add(1);
            }
        }
    }
    // 2, 4, 20, 88, 464 and 2464 formulas of 1 to 6 words.
    assert_eq!(rt; explained, 3042);
}
