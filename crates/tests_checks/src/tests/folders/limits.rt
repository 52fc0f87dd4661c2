//! Rules of which at most so many parts hold, and how deep rules are nested.
use super::{Entries, Entry, Rule, Size, folder, large};
use crate::tests::made::Host;
use predicates::custom::leaf;
use predicates::{Predicate, Total};
use predicates_tree::Check;

fn holds<P: Total<Entry>>(rt: &impl Host, rule: &P, entry: &Entry) -> bool {
    rule.eval(rt.alloc(), entry).expect(rt, "memory")
}

// A leaf with the verdict on a file of 50 bytes.
fn with_verdict(verdict: bool) -> Rule {
    let least = if verdict { 50 } else { 51 };
    Check::leaf_beside_members(leaf(Size { least }))
}

// Whether at most so many of the parts hold that have the verdicts.
fn few_parts(rt: &impl Host, most: usize, verdicts: [bool; 3]) -> bool {
    let [first, second, third] = verdicts;
    let parts = vec![in rt.alloc();
        with_verdict(first),
        with_verdict(second),
        with_verdict(third),
    ]
    .expect(rt, "memory");
    let few = Check::at_most(rt.alloc(), most, parts).expect(rt, "memory");
    let file = Entry {
        size: 50,
        entries: None,
    };
    holds(rt, &few, &file)
}

// The same of the members of a folder.
fn few_members(rt: &impl Host, most: usize, verdicts: [bool; 3]) -> bool {
    let size = |verdict: bool| if verdict { 25 } else { 24 };
    let sizes = [size(verdicts[0]), size(verdicts[1]), size(verdicts[2])];
    let folder = folder(rt, 0, &sizes);
    let few = large()
        .of_at_most(rt.alloc(), most, Entries)
        .expect(rt, "memory");
    holds(rt, &few, &folder)
}

#[test]
fn at_most_so_many_of_three(rt: HostRuntime) {
    for most in [0, 1, 2, 3, usize::MAX] {
        for choice in 0..8_usize {
            let is_set = |place: usize| choice >> place & 1 == 1;
            let verdicts = [is_set(0), is_set(1), is_set(2)];
            let is_few = choice.count_ones() as usize <= most;
            assert!(rt; few_parts(&rt, most, verdicts) == is_few);
            assert!(rt; few_members(&rt, most, verdicts) == is_few);
        }
    }
}

#[test]
fn at_most_none_of_no_parts(rt: HostRuntime) {
    let alloc = rt.alloc();
    let file = Entry {
        size: 50,
        entries: None,
    };
    let none: Rule = Check::at_most(alloc, 0, Vec::new(alloc)).expect(&rt, "memory");
    assert!(rt; holds(&rt, &none, &file));
    let of_no_list = large().of_at_most(alloc, 0, Entries).expect(&rt, "memory");
    assert!(rt; holds(&rt, &of_no_list, &file));
}

// A rule of so many levels, one at least.
fn nested(rt: &impl Host, levels: usize) -> Rule {
    let mut rule = large();
    for _ in 1..levels {
        rule = rule.not(rt.alloc()).expect(rt, "memory");
    }
    rule
}

// Whether the rule is just so deep, and no limit is taken for another.
fn has_depth(rule: &Rule, depth: usize) -> bool {
    rule.is_deeper_than(0)
        && rule.is_deeper_than(depth.saturating_sub(1))
        && !rule.is_deeper_than(depth)
        && !rule.is_deeper_than(depth.saturating_add(1))
        && !rule.is_deeper_than(usize::MAX)
}

// The rule of this form over one of so many levels.
fn over_one(rt: &impl Host, form: u32, levels: usize) -> Rule {
    let part = nested(rt, levels);
    let made = match form {
        0 => part.not(rt.alloc()),
        1 => part.name(rt.alloc(), "named"),
        2 => part.of_each(rt.alloc(), Entries),
        3 => part.of_any(rt.alloc(), Entries),
        _ => part.of_at_least(rt.alloc(), 2, Entries),
    };
    made.expect(rt, "memory")
}

#[test]
fn a_rule_over_one_is_one_level_deeper(rt: HostRuntime) {
    let alloc = rt.alloc();
    assert!(rt; has_depth(&large(), 1));
    for form in 0..5u32 {
        assert!(rt; has_depth(&over_one(&rt, form, 1), 2));
        assert!(rt; has_depth(&over_one(&rt, form, 4), 5));
    }
    let few = large().of_at_most(alloc, 2, Entries).expect(&rt, "memory");
    assert!(rt; has_depth(&few, 3));
}

// The rule of this form over two of so many levels.
fn over_two(rt: &impl Host, form: u32, left: usize, right: usize) -> Rule {
    let (left, right) = (nested(rt, left), nested(rt, right));
    let made = match form {
        0 => left.and(rt.alloc(), right),
        1 => left.or(rt.alloc(), right),
        _ => left.xor(rt.alloc(), right),
    };
    made.expect(rt, "memory")
}

#[test]
fn a_rule_over_two_is_one_level_deeper_than_the_deeper(rt: HostRuntime) {
    for form in 0..3u32 {
        assert!(rt; has_depth(&over_two(&rt, form, 1, 1), 2));
        assert!(rt; has_depth(&over_two(&rt, form, 4, 2), 5));
        assert!(rt; has_depth(&over_two(&rt, form, 2, 4), 5));
    }
}

// The row of this form over the parts.
fn row(form: u32, parts: Vec<Rule>) -> Rule {
    match form {
        0 => Check::all(parts),
        1 => Check::any(parts),
        2 => Check::at_least(2, parts),
        _ => Check::odd(parts),
    }
}

// Rules of so many levels.
fn three(rt: &impl Host, levels: [usize; 3]) -> Vec<Rule> {
    let [first, second, third] = levels;
    let first = nested(rt, first);
    let second = nested(rt, second);
    vec![in rt.alloc(); first, second, nested(rt, third)].expect(rt, "memory")
}

#[test]
fn a_row_is_one_level_deeper_than_its_deepest_part(rt: HostRuntime) {
    let alloc = rt.alloc();
    for form in 0..4u32 {
        assert!(rt; has_depth(&row(form, Vec::new(alloc)), 1));
        for (levels, depth) in [
            ([1, 1, 1], 2),
            ([4, 1, 2], 5),
            ([2, 4, 1], 5),
            ([1, 2, 4], 5),
        ] {
            assert!(rt; has_depth(&row(form, three(&rt, levels)), depth));
        }
    }
    let parts = three(&rt, [1, 4, 2]);
    let few = Check::at_most(alloc, 1, parts).expect(&rt, "memory");
    assert!(rt; has_depth(&few, 6));
}

// It goes no deeper than the limit, where the whole would be more than the stack takes.
#[test]
fn a_limit_is_asked_of_rules_of_any_depth(rt: HostRuntime) {
    let alloc = rt.alloc();
    for levels in [5_000, 100_000] {
        let deep = nested(&rt, levels);
        assert!(rt; deep.is_deeper_than(100));
        let row = Check::any(vec![in alloc; large(), deep].expect(&rt, "memory"));
        assert!(rt; row.is_deeper_than(100));
    }
    assert!(rt; has_depth(&nested(&rt, 100), 100));
}

#[test]
fn check_by_of_at_most(rt: HostRuntime) {
    let alloc = rt.alloc();
    let folder = folder(&rt, 50, &[20, 30]);

    let one_large = large().of_at_most(alloc, 1, Entries).expect(&rt, "memory");
    assert!(rt; one_large.eval(alloc, &folder).expect(&rt, "memory"));
}
