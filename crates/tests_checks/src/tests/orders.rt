//! Rules over orders that are read from words at run time.
ghost use Rattle.std.specs.Prelude.{None, if◌then◌else◌, nat_lt, not};

use crate::tests::made::Host;
use predicates::Total;
use predicates::custom::{Test, TestPredicate, leaf};
use predicates::reflection::render;
use predicates_tree::Check;
use std::alloc::{AllocError, Global};
use std::fmt;

// What is ordered.
#[derive(Debug, Clone, Copy)]
struct Order {
    total: u32,
    lines: u32,
}

// It costs at least that, or has at least so many lines.
#[derive(Clone, Copy)]
struct AtLeast {
    counts_lines: bool,
    least: u32,
}

impl fmt::Display for AtLeast {
    ghost output = { λ _. None };

    fn fmt<W: fmt::Write>(&self, f: &mut fmt::Formatter<W>) -> fmt::Result {
        f.write_str(if self.counts_lines { "lines" } else { "total" })?;
        let least = self.least;
        write!(f, " >= {least}")
    }
}

impl Test<Order> for AtLeast {
    ghost holds_of = { λ t v. not (nat_lt (if t.counts_lines then v.lines else v.total) t.least) };

    fn holds(&self, order: &Order) -> bool {
        let value = if self.counts_lines {
            order.lines
        } else {
            order.total
        };
        value >= self.least
    }
}

type Rule = Check<TestPredicate<AtLeast>>;

// How deep a rule may be that was read: each level takes stack where it is asked.
const MAX_DEPTH: usize = 100;

// The test that a word such as `lines:2` names.
fn read_test(word: &str) -> Option<AtLeast> {
    let (field, number) = word.split_once(':')?;
    let least = number.parse().ok()?;
    match field {
        "lines" => Some(AtLeast {
            counts_lines: true,
            least,
        }),
        "total" => Some(AtLeast {
            counts_lines: false,
            least,
        }),
        _ => None,
    }
}

// The check that the word makes of those before it, which it takes.
fn read_word(alloc: Global, made: &mut Vec<Rule>, word: &str) -> Result<Option<Rule>, AllocError> {
    if let Some(test) = read_test(word) {
        return Ok(Some(Check::leaf(leaf(test))));
    }
    let Some(last) = made.pop() else {
        return Ok(None);
    };
    if word == "not" {
        return Ok(Some(last.not(alloc)?));
    }
    let Some(first) = made.pop() else {
        return Ok(None);
    };
    match word {
        "and" => Ok(Some(first.and(alloc, last)?)),
        "or" => Ok(Some(first.or(alloc, last)?)),
        _ => Ok(None),
    }
}

// The rule that the words mean, each behind its parts, if it is not too deep.
fn read_rule(rt: &impl Host, words: &str) -> Option<Rule> {
    let mut made = Vec::new(rt.alloc());
    for word in words.split(' ') {
        let Some(rule) = read_word(rt.alloc(), &mut made, word).expect(rt, "memory") else {
            return None;
        };
        made.push(rule).expect(rt, "memory");
    }
    let rule = made.pop()?;
    if made.is_empty() && !rule.is_deeper_than(MAX_DEPTH) {
        Some(rule)
    } else {
        None
    }
}

// The lines that say why the check has its verdict on the order.
fn why<P: Total<Order>>(rt: &impl Host, check: &P, order: &Order) -> String {
    match check.explain(rt.alloc(), None, order).expect(rt, "memory") {
        Some(case) => render(rt.alloc(), &case).expect(rt, "memory"),
        None => String::new(rt.alloc()),
    }
}

// Whether the words are a rule with that case.
fn is_explained(rt: &impl Host, words: &str, order: &Order, lines: &str) -> bool {
    let Some(rule) = read_rule(rt, words) else {
        return false;
    };
    why(rt, &rule, order).as_str() == lines
}

#[test]
fn a_rule_that_was_read_is_explained(rt: HostRuntime) {
    let lines = "\
((total >= 50 || lines >= 3) && (! lines >= 9)) = false
  left: (total >= 50 || lines >= 3) = false
    left: total >= 50 = false
      - var: Order { total: 20, lines: 2 }
    right: lines >= 3 = false
      - var: Order { total: 20, lines: 2 }
";
    let order = Order {
        total: 20,
        lines: 2,
    };
    let words = "total:50 lines:3 or lines:9 not and";
    assert!(rt; is_explained(&rt, words, &order, lines));
    assert!(rt; !is_explained(&rt, "total:50 and", &order, ""));
}

// The words of a test that is denied so many times.
fn denied(rt: &impl Host, times: usize) -> String {
    let mut words = "total:50".to_owned(rt.alloc()).expect(rt, "memory");
    for _ in 0..times {
        words.push_str(" not").expect(rt, "memory");
    }
    words
}

#[test]
fn a_rule_that_is_too_deep_is_refused(rt: HostRuntime) {
    let deepest = denied(&rt, MAX_DEPTH - 1);
    assert!(rt; read_rule(&rt, deepest.as_str()).is_some());
    let deeper = denied(&rt, MAX_DEPTH);
    assert!(rt; read_rule(&rt, deeper.as_str()).is_none());
}
