//! Rules over folders and what lies in them, read from words at run time.
ghost use Rattle.std.specs.Prelude.{None, Some, codes, map, nat_lt, not, option_map};
ghost use Rattle.predicates_tree.specs.Trees.{AllOf, computed};
ghost use Rattle.tests_checks.specs.declared.tests.folders.Entry.{out-Entry};

mod limits;

use crate::tests::made::Host;
use predicates::custom::{Test, TestPredicate, leaf};
use predicates::reflection::render;
use predicates::{Predicate, Total};
use predicates_tree::{Check, Members};
use std::alloc::{AllocError, Global};
use std::fmt;
use tests_support::is_described;

// A file, or a folder with what lies in it.
#[derive(Drop)]
struct Entry {
    size: u32,
    entries: Option<Vec<Entry>>,
}

impl fmt::Debug for Entry {
    ghost debug_output = { λ _. None };

    fn fmt<W: fmt::Write>(&self, f: &mut fmt::Formatter<W>) -> fmt::Result {
        let size = self.size;
        write!(f, "{size} bytes")
    }
}

// It takes at least so many bytes.
#[derive(Clone, Copy)]
struct Size {
    least: u32,
}

impl fmt::Display for Size {
    ghost output = { λ _. None };

    fn fmt<W: fmt::Write>(&self, f: &mut fmt::Formatter<W>) -> fmt::Result {
        let least = self.least;
        write!(f, "size >= {least}")
    }
}

impl Test<Entry> for Size {
    ghost holds_of = { λ t v. not (nat_lt (out-Entry v).size t.least) };

    fn holds(&self, entry: &Entry) -> bool {
        entry.size >= self.least
    }
}

// What lies in a folder.
#[derive(Clone, Copy)]
struct Entries;

impl fmt::Display for Entries {
    ghost output = { λ _. Some (codes "entries") };

    fn fmt<W: fmt::Write>(&self, f: &mut fmt::Formatter<W>) -> fmt::Result {
        f.write_str("entries")
    }
}

impl Members<Entry> for Entries {
    ghost members_of = { λ _ v. option_map (λ entries. entries.items) (out-Entry v).entries };

    ghost reason_of = { λ _ _. codes "no folder" };

    fn members<'a>(&self, entry: &'a Entry) -> Option<&'a [Entry]> {
        match &entry.entries {
            Some(entries) => Some(entries.as_slice()),
            None => None,
        }
    }

    fn reason(&self, _entry: &Entry) -> &str {
        "no folder"
    }
}

type Rule = Check<TestPredicate<Size>, Entries>;

// The check that the word makes of the one before it.
fn of_entries(alloc: Global, word: &str, last: Rule) -> Result<Option<Rule>, AllocError> {
    match word {
        "not" => Ok(Some(last.not(alloc)?)),
        "each" => Ok(Some(last.of_each(alloc, Entries)?)),
        "any" => Ok(Some(last.of_any(alloc, Entries)?)),
        "two" => Ok(Some(last.of_at_least(alloc, 2, Entries)?)),
        _ => Ok(None),
    }
}

// The check that the word makes of those before it, which it takes.
fn read_word(alloc: Global, made: &mut Vec<Rule>, word: &str) -> Result<Option<Rule>, AllocError> {
    if let Ok(least) = word.parse() {
        return Ok(Some(Check::leaf_beside_members(leaf(Size { least }))));
    }
    let Some(last) = made.pop() else {
        return Ok(None);
    };
    if word != "and" && word != "or" {
        return of_entries(alloc, word, last);
    }
    let Some(first) = made.pop() else {
        return Ok(None);
    };
    Ok(Some(if word == "and" {
        first.and(alloc, last)?
    } else {
        first.or(alloc, last)?
    }))
}

// The rule that the words mean, each behind its parts.
fn read_rule(rt: &impl Host, words: &str) -> Option<Rule> {
    let mut made = Vec::new(rt.alloc());
    for word in words.split(' ') {
        let Some(rule) = read_word(rt.alloc(), &mut made, word).expect(rt, "memory") else {
            return None;
        };
        made.push(rule).expect(rt, "memory");
    }
    let rule = made.pop();
    if made.is_empty() { rule } else { None }
}

// A folder of files with the sizes.
fn folder(rt: &impl Host, size: u32, sizes: &[u32]) -> Entry {
    let mut entries = Vec::new(rt.alloc());
    for size in sizes {
        entries
            .push(Entry {
                size: *size,
                entries: None,
            })
            .expect(rt, "memory");
    }
    Entry {
        size,
        entries: Some(entries),
    }
}

// A folder with a file and two folders, of which the second is empty.
fn root(rt: &impl Host) -> Entry {
    let file = Entry {
        size: 30,
        entries: None,
    };
    let first = folder(rt, 50, &[20, 30]);
    let second = folder(rt, 0, &[]);
    Entry {
        size: 80,
        entries: Some(vec![in rt.alloc(); file, first, second].expect(rt, "memory")),
    }
}

// The lines that say why the rule has its verdict.
fn why<P: Total<Entry>>(rt: &impl Host, rule: &P, entry: &Entry) -> String {
    match rule.explain(rt.alloc(), None, entry).expect(rt, "memory") {
        Some(case) => render(rt.alloc(), &case).expect(rt, "memory"),
        None => String::new(rt.alloc()),
    }
}

// Whether the words are a rule whose case on the root has the lines.
fn is_explained(rt: &impl Host, words: &str, lines: &str) -> bool {
    let Some(rule) = read_rule(rt, words) else {
        return false;
    };
    let root = root(rt);
    why(rt, &rule, &root).as_str() == lines
}

// Each file of each folder.
const TOO_SMALL: &str = "\
each entries((any entries(size >= 25) || size >= 30)) = false
  item: (any entries(size >= 25) || size >= 30) = false
    - index: 2
    left: any entries(size >= 25) = false
      - len: 0
    right: size >= 30 = false
      - var: 0 bytes
";

const TWO: &str = "\
at_least 2 entries(size >= 30) = true
  item: size >= 30 = true
    - var: 30 bytes
    - index: 0
  item: size >= 30 = true
    - var: 50 bytes
    - index: 1
";

const NO_FOLDER: &str = "\
each entries(each entries(size >= 20)) = false
  item: each entries(size >= 20) = false
    - error: no folder
    - index: 0
";

const NONE_LARGE: &str = "\
(! any entries(size >= 60)) = true
  predicate: any entries(size >= 60) = false
    item: size >= 60 = false
      - var: 30 bytes
    item: size >= 60 = false
      - var: 50 bytes
    item: size >= 60 = false
      - var: 0 bytes
";

#[test]
fn rules_over_members_are_explained(rt: HostRuntime) {
    assert!(rt; is_explained(&rt, "25 any 30 or each", TOO_SMALL));
    assert!(rt; is_explained(&rt, "30 two", TWO));
    assert!(rt; is_explained(&rt, "20 each each", NO_FOLDER));
    assert!(rt; is_explained(&rt, "60 any not", NONE_LARGE));
    assert!(rt; !is_explained(&rt, "each", ""));
}

// The text, and a line for each part.
const DESCRIBED: &str = "\
each entries(at_least 2 entries(size >= 1))
item: at_least 2 entries(size >= 1)
  item: size >= 1
";

// Whether the words are a rule that describes itself by the lines.
fn describes(rt: &impl Host, words: &str, lines: &str) -> bool {
    let Some(rule) = read_rule(rt, words) else {
        return false;
    };
    is_described(rt.alloc(), &rule, lines).expect(rt, "memory")
}

#[test]
fn rules_over_members_describe_their_parts(rt: HostRuntime) {
    assert!(rt; describes(&rt, "1 two each", DESCRIBED));
}

// It takes at least 25 bytes.
fn large() -> Rule
    ensures { AllOf (λ _. Unit {0}) (λ _. computed) result }
{
    Check::leaf_beside_members(leaf(Size { least: 25 }))
}

#[test]
fn check_of_leaf_beside_members(rt: HostRuntime) {
    let alloc = rt.alloc();
    let folder = folder(&rt, 50, &[20, 30]);

    let large: Check<TestPredicate<Size>, Entries> = Check::leaf_beside_members(leaf(Size {
        least: 25,
    }));
    assert!(rt; large.eval(alloc, &folder).expect(&rt, "memory"));
}

#[test]
fn check_by_of_each(rt: HostRuntime) {
    let alloc = rt.alloc();
    let folder = folder(&rt, 50, &[20, 30]);

    let all_large = large().of_each(alloc, Entries).expect(&rt, "memory");
    assert!(rt; !all_large.eval(alloc, &folder).expect(&rt, "memory"));
}

#[test]
fn check_by_of_any(rt: HostRuntime) {
    let alloc = rt.alloc();
    let folder = folder(&rt, 50, &[20, 30]);

    let some_large = large().of_any(alloc, Entries).expect(&rt, "memory");
    assert!(rt; some_large.eval(alloc, &folder).expect(&rt, "memory"));
}

#[test]
fn check_by_of_at_least(rt: HostRuntime) {
    let alloc = rt.alloc();
    let folder = folder(&rt, 50, &[20, 30]);

    let two_large = large().of_at_least(alloc, 2, Entries).expect(&rt, "memory");
    assert!(rt; !two_large.eval(alloc, &folder).expect(&rt, "memory"));
}
