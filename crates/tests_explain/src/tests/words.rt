use super::{Host, is_shown};
use explain_run::{TextCheck, Word, WordFault, apply_word, read_word};
use predicates::Predicate;
use predicates::reflection::PredicateReflection;
use std::alloc::Global;
use tests_support::keeps_text;

// Whether the token is this word.
fn reads(rt: &impl Host, token: &str, word: Option<Word>) -> bool {
    read_word(rt.alloc(), token).expect(rt, "memory") == word
}

// Whether the token is the word of this text.
fn reads_equals(rt: &impl Host, token: &str, text: &str) -> bool {
    let equals = Word::Equals(String::from_str(rt.alloc(), text).expect(rt, "memory"));
    reads(rt, token, Some(equals))
}

// Whether the token is the word of this pattern.
fn reads_matches(rt: &impl Host, token: &str, pattern: &str) -> bool {
    let matches = Word::Matches(String::from_str(rt.alloc(), pattern).expect(rt, "memory"));
    reads(rt, token, Some(matches))
}

#[test]
fn which_tokens_are_words(rt: HostRuntime) {
    assert!(rt; reads_equals(&rt, "eq=a=b", "a=b"));
    assert!(rt; reads_equals(&rt, "eq=", ""));
    assert!(rt; reads_matches(&rt, "match=T[a-z]*", "T[a-z]*"));
    assert!(rt; reads(&rt, "normalize", Some(Word::Normalize)));
    assert!(rt; reads(&rt, "xor", Some(Word::Xor)));
    for token in ["eq", "empty=", "xors", "", "=", "Empty", "starts", "or "] {
        assert!(rt; reads(&rt, token, None), "at {token:?}");
    }
}

#[test]
fn words_are_read_and_applied(rt: HostRuntime) {
    let alloc = rt.alloc();
    assert!(rt; read_word(alloc, "trim").expect(&rt, "memory") == Some(Word::Trim));
    assert!(rt; read_word(alloc, "trimmed").expect(&rt, "memory").is_none());
    let mut stack = Vec::new(alloc);
    apply_word(alloc, &mut stack, Word::Empty).expect(&rt, "memory");
    apply_word(alloc, &mut stack, Word::Trim).expect(&rt, "memory");
    assert!(rt; stack.len() == 1);
}

// Takes the tokens in order, and answers the first fault.
fn apply_tokens(
    alloc: Global,
    stack: &mut Vec<TextCheck>,
    tokens: &[&str],
) -> Result<(), WordFault> {
    for token in tokens {
        if let Some(word) = read_word(alloc, token)? {
            apply_word(alloc, stack, word)?;
        }
    }
    Ok(())
}

// Tokens in order, what they answer on the stack of those before, and how many checks are left.
const STEPS: [(&[&str], Result<(), WordFault>, usize); 10] = [
    (&["and"], Err(WordFault::Operand), 0),
    (&["or"], Err(WordFault::Operand), 0),
    (&["xor"], Err(WordFault::Operand), 0),
    (&["not"], Err(WordFault::Operand), 0),
    (&["trim"], Err(WordFault::Operand), 0),
    (&["normalize"], Err(WordFault::Operand), 0),
    (&["empty"], Ok(()), 1),
    (&["or"], Err(WordFault::Operand), 1),
    (&["match=("], Err(WordFault::Pattern), 1),
    (&["contains=a", "and"], Ok(()), 1),
];

// Whether the first check prints this text.
fn prints(rt: &impl Host, stack: &[TextCheck], expected: &str) -> bool {
    let check = stack.first().expect(rt, "no check");
    let text = check.to_string(rt.alloc()).expect(rt, "memory");
    text.as_str() == expected
}

// How many parameters and children the first check has.
fn counts(rt: &impl Host, stack: &[TextCheck]) -> (usize, usize) {
    let check = stack.first().expect(rt, "no check");
    let parameters = check.parameters(rt.alloc()).expect(rt, "memory").len();
    let children = check.children(rt.alloc()).expect(rt, "memory").len();
    (parameters, children)
}

// Whether the steps answer so, one after the other, on a stack that they leave.
fn steps_answer(alloc: Global, stack: &mut Vec<TextCheck>) -> bool {
    for (tokens, expected, left) in STEPS {
        let answer = apply_tokens(alloc, stack, tokens);
        if answer != expected || stack.len() != left {
            return false;
        }
    }
    true
}

#[test]
fn words_that_lack_operands(rt: HostRuntime) {
    let alloc = rt.alloc();
    let mut stack = Vec::new(alloc);
    let right = steps_answer(alloc, &mut stack);
    let text = "(var.is_empty() && var.contains(a))";
    let is_printed = prints(&rt, &stack, text);
    let found = counts(&rt, &stack);
    assert!(rt; right);
    assert!(rt; is_printed);
    assert_eq!(rt; found, (0, 0));
}

const EACH: [&str; 12] = [
    "eq=Hello",
    "starts=He",
    "ends=lo",
    "contains=ll",
    "match=^H",
    "normalize",
    "and",
    "and",
    "trim",
    "not",
    "or",
    "or",
];

// Whether the first check has this verdict on the text, and a case of it alone.
fn is_found(rt: &impl Host, stack: &[TextCheck], text: &str, verdict: bool) -> bool {
    let alloc = rt.alloc();
    let check = stack.first().expect(rt, "no check");
    let item = String::from_str(alloc, text).expect(rt, "memory");
    let found = check.eval(alloc, &item).expect(rt, "memory");
    let is_explained = check
        .find_case(alloc, verdict, &item)
        .expect(rt, "memory")
        .is_some();
    let is_denied = check
        .find_case(alloc, !verdict, &item)
        .expect(rt, "memory")
        .is_some();
    found == verdict && is_explained && !is_denied
}

// What the check of all these words prints.
const ALL: &str = "(var == \"Hello\" || (var.starts_with(\"He\") || (! (var.ends_with(\"lo\") && \
    (var.contains(ll) && var.is_match(^H))))))";

// The stack of the words.
fn stack_of_each(alloc: Global) -> Result<Vec<TextCheck>, WordFault> {
    let mut stack = Vec::new(alloc);
    apply_tokens(alloc, &mut stack, &EACH)?;
    Ok(stack)
}

// Whether the words leave one check, which prints this.
fn leaves_one(rt: &impl Host) -> bool {
    let stack = stack_of_each(rt.alloc()).ok().expect(rt, "a fault");
    let is_printed = prints(rt, &stack, ALL);
    is_printed && stack.len() == 1
}

// Whether the check that they leave has this verdict on the text.
fn each_finds(rt: &impl Host, text: &str, verdict: bool) -> bool {
    let stack = stack_of_each(rt.alloc()).ok().expect(rt, "a fault");
    is_found(rt, &stack, text, verdict)
}

#[test]
fn each_word(rt: HostRuntime) {
    assert!(rt; leaves_one(&rt));
    for (item, verdict) in [("Hello", true), (" Hello", false), ("lo", true)] {
        assert!(rt; each_finds(&rt, item, verdict), "at {item}");
    }
}

// How many checks are left of `empty` and so many times the tokens.
fn count_left(alloc: Global, tokens: &[&str], times: usize) -> Result<usize, WordFault> {
    let mut stack = Vec::new(alloc);
    apply_tokens(alloc, &mut stack, &["empty"])?;
    for _ in 0..times {
        apply_tokens(alloc, &mut stack, tokens)?;
    }
    Ok(stack.len())
}

const LEVELS: [&[&str]; 3] = [&["not"], &["empty", "xor"], &["trim"]];

// They have no limit by themselves, and drop without recursion.
#[test]
fn checks_of_20000_levels(rt: HostRuntime) {
    for tokens in LEVELS {
        assert_eq!(rt; count_left(rt.alloc(), tokens, 20_000), Ok(1));
    }
}

#[test]
fn flags_change_no_fault_of_words(rt: HostRuntime) {
    assert!(rt; is_shown(&rt, WordFault::Operand, "missing operand"));
    for fault in [WordFault::Operand, WordFault::Pattern, WordFault::NoMemory] {
        assert!(rt; keeps_text(rt.alloc(), &fault).expect(&rt, "memory"));
    }
}
