//! Lists of fewer than sixteen members, and of more: what they hold of texts, numbers and keys.
use super::{passes, run_of, settings_of};
use std::alloc::Global;
use std::process::Abort;
use vet_run::settings::Report;

// How many members a list has.
const COUNTS: [usize; 4] = [15, 16, 17, 18];

// Texts in no order, many of which begin with others. A list has the first ones, so the last four
// are in none.
const WORDS: [&str; 22] = [
    "m", "ab", "", "abc", "a", "b", "\u{e9}", "Z", "abd", "ba", "aa", "ab ", "mm", "\u{e9}m", "z",
    "aaa", "B", "abcd", "abcde", "y", "\u{e8}", "mmm",
];

// Numbers as rules write them.
const NUMBERS: [&str; 18] = [
    "7",
    "-3",
    "0",
    "2.5",
    "1e2",
    "18446744073709551615",
    "-9223372036854775808",
    "9007199254740993",
    "1e-3",
    "-0.5",
    "36893488147419103232",
    "10",
    "-7",
    "4",
    "12345678901234567890",
    "1.25",
    "99",
    "-100",
];

// Values, and the place of the number that they equal, if they equal one.
const VALUES: [(&str, Option<usize>); 16] = [
    ("7.0", Some(0)),
    ("70e-1", Some(0)),
    ("-3", Some(1)),
    ("-0.0", Some(2)),
    ("25e-1", Some(3)),
    ("100", Some(4)),
    ("18446744073709551615", Some(5)),
    ("18446744073709551616", None),
    ("-9223372036854775808.0", Some(6)),
    ("9007199254740993", Some(7)),
    ("9007199254740992", None),
    ("0.001", Some(8)),
    ("36893488147419103232.0", Some(10)),
    ("1.25", Some(15)),
    ("99.0", Some(16)),
    ("-1e2", Some(17)),
];

// Values, and whether a list holds of them that has all these texts and numbers, null and true.
const MIXED: [(&str, bool); 12] = [
    ("null", true),
    ("true", true),
    ("false", false),
    ("7.0", true),
    ("\"7\"", false),
    ("8", false),
    ("\"ab\"", true),
    ("\"abcd\"", true),
    ("\"null\"", false),
    ("\"mmm\"", false),
    ("[7]", false),
    ("{\"ab\": 7}", false),
];

// The texts as JSON writes them.
fn quoted(rt: &impl Abort, alloc: Global, words: &[&str]) -> Vec<String> {
    let mut members = Vec::new(alloc);
    for word in words {
        let member = format!(in alloc; "\"{word}\"").expect(rt, "memory");
        members.push(member).expect(rt, "memory");
    }
    members
}

fn add(rt: &impl Abort, list: &mut String, member: &str) {
    if !list.is_empty() {
        list.push_str(", ").expect(rt, "memory");
    }
    list.push_str(member).expect(rt, "memory")
}

// The rule that the test's value is one of the words.
fn rule_of(rt: &impl Abort, alloc: Global, test: &str, words: &[&str]) -> String {
    let mut list = String::new(alloc);
    for member in quoted(rt, alloc, words) {
        add(rt, &mut list, &member);
    }
    format!(in alloc; "a: {test} in [{list}]").expect(rt, "memory")
}

// The same of numbers, with further members.
fn rule_of_numbers(rt: &impl Abort, alloc: Global, numbers: &[&str], others: &str) -> String {
    let mut list = String::from_str(alloc, others).expect(rt, "memory");
    for member in numbers {
        add(rt, &mut list, member);
    }
    format!(in alloc; "a: / in [{list}]").expect(rt, "memory")
}

fn has(words: &[&str], word: &str) -> bool {
    for member in words {
        if *member == word {
            return true;
        }
    }
    false
}

#[test]
fn texts_of_lists(rt: HostRuntime) {
    let alloc = rt.alloc();
    for count in COUNTS {
        let members = &WORDS[..count];
        let rule = rule_of(&rt, alloc, "/", members);
        for word in WORDS {
            let value = format!(in alloc; "\"{word}\"").expect(&rt, "memory");
            let right = passes(&rt, alloc, &rule, &value, has(members, word));
            assert!(rt; right, "{word} of {count}");
        }
    }
}

#[test]
fn keys_of_lists(rt: HostRuntime) {
    let alloc = rt.alloc();
    for count in COUNTS {
        let members = &WORDS[..count];
        let rule = rule_of(&rt, alloc, "keys /", members);
        for word in WORDS {
            let value = format!(in alloc; "{{\"m\": 1, \"{word}\": 2}}").expect(&rt, "memory");
            let right = passes(&rt, alloc, &rule, &value, has(members, word));
            assert!(rt; right, "{word} of {count}");
        }
    }
}

#[test]
fn numbers_of_lists(rt: HostRuntime) {
    let alloc = rt.alloc();
    for count in COUNTS {
        let rule = rule_of_numbers(&rt, alloc, &NUMBERS[..count], "");
        for (value, place) in VALUES {
            let holds = match place {
                Some(place) => place < count,
                None => false,
            };
            let right = passes(&rt, alloc, &rule, value, holds);
            assert!(rt; right, "{value} of {count}");
        }
    }
}

#[test]
fn mixed_lists(rt: HostRuntime) {
    let alloc = rt.alloc();
    let mut others = String::from_str(alloc, "true, null").expect(&rt, "memory");
    for member in quoted(&rt, alloc, &WORDS[..18]) {
        add(&rt, &mut others, &member);
    }
    let rule = rule_of_numbers(&rt, alloc, &NUMBERS, &others);
    for (value, holds) in MIXED {
        let right = passes(&rt, alloc, &rule, value, holds);
        assert!(rt; right, "{value}");
    }
}

// The first word in the order of bytes, or none where there is no word.
fn least<'a>(words: &[&'a str]) -> &'a str {
    let Some(word) = words.first() else {
        return "";
    };
    let mut first = *word;
    for word in words {
        if word.as_bytes() < first.as_bytes() {
            first = word;
        }
    }
    first
}

// Whether a run over an object with all words as keys tells the first that is not of the list.
fn tells_the_other_key(rt: &impl Abort, alloc: Global, count: usize) -> bool {
    assert!(rt; count <= WORDS.len());
    let mut object = String::new(alloc);
    for member in quoted(rt, alloc, &WORDS) {
        let member = format!(in alloc; "{member}: 0").expect(rt, "memory");
        add(rt, &mut object, &member);
    }
    let record = format!(in alloc; "{{{object}}}").expect(rt, "memory");
    let rule = rule_of(rt, alloc, "keys /", &WORDS[..count]);
    let settings = settings_of(rt, alloc, Report::First, None);
    let other = least(&WORDS[count..]);
    let last = format!(in alloc; "\n    - other key: \"{other}\"\n").expect(rt, "memory");
    match run_of(alloc, &settings, rule.as_bytes(), record.as_bytes()) {
        Ok((output, _, _)) => output.ends_with(last.as_bytes()),
        Err(_) => false,
    }
}

#[test]
fn first_key_that_is_not_of_a_list(rt: HostRuntime) {
    for count in COUNTS {
        assert!(rt; tells_the_other_key(&rt, rt.alloc(), count), "{count}");
    }
}
