//! Lists of predicates: of three, of which the second has the opposite verdict, or all have the
//! same, and of five.
use super::super::around::{Asked, Counts};
use super::super::counting::CountingLeaf;
use crate::tests::made::Host;
use predicates::constant::never;
use predicates::prelude::*;

fn rules<'a>(rt: &impl Host, asked: Asked<'a>, truths: &[bool]) -> Vec<CountingLeaf<'a, u32>> {
    let mut rules = Vec::new(rt.alloc());
    for holds in truths {
        let rule = if *holds { asked.leaf() } else { asked.other() };
        rules.push(rule).expect(rt, "memory");
    }
    rules
}

fn exactly(rt: &impl Host, asked: Asked<'_>) -> Counts {
    let rules = rules(rt, asked, &[true, false, true]);
    let two = predicate::exactly(2, rules).expect(rt, "memory");
    asked.alone(rt, two, 5u32)
}

fn at_least_of_five(rt: &impl Host, asked: Asked<'_>, least: usize) -> Counts {
    let rules = rules(rt, asked, &[true, false, true, false, false]);
    asked.alone(rt, predicate::at_least(least, rules), 5u32)
}

fn all_of_denied(rt: &impl Host, asked: Asked<'_>) -> Counts {
    let denied = || asked.leaf::<u32>().not();
    let rules = vec![in rt.alloc(); denied(), denied(), denied()].expect(rt, "memory");
    asked.alone(rt, predicate::all_of(rules), 5u32)
}

fn of_true(rt: &impl Host, name: &str, asked: Asked<'_>) -> Option<Counts> {
    let rules = rules(rt, asked, &[true, true, true]);
    Some(match name {
        "all_of_true" => asked.alone(rt, predicate::all_of(rules), 5u32),
        "any_of_true" => asked.alone(rt, predicate::any_of(rules), 5u32),
        "two_rules" => asked.alone(rt, predicate::at_least(2, rules).xor(never()), 5u32),
        _ => return None,
    })
}

pub fn counts_of(rt: &impl Host, name: &str, asked: Asked<'_>) -> Option<Counts> {
    let rules = rules(rt, asked, &[true, false, true]);
    Some(match name {
        "all_of" => asked.alone(rt, predicate::all_of(rules), 5u32),
        "any_of" => asked.alone(rt, predicate::any_of(rules), 5u32),
        "at_least" => asked.counts(rt, predicate::at_least(2, rules), 5u32),
        "at_most" => asked.alone(rt, predicate::at_most(1, rules), 5u32),
        "exactly" => exactly(rt, asked),
        "all_of_denied" => all_of_denied(rt, asked),
        "one_of_five" => at_least_of_five(rt, asked, 1),
        "two_of_five" => at_least_of_five(rt, asked, 2),
        "three_of_five" => at_least_of_five(rt, asked, 3),
        "five_of_five" => at_least_of_five(rt, asked, 5),
        "six_of_five" => at_least_of_five(rt, asked, 6),
        _ => return of_true(rt, name, asked),
    })
}
