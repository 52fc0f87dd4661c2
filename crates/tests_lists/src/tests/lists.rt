//! Predicates of the members of a list, of a list of rules, of absent parts and of lengths.
ghost use Rattle.std.specs.Prelude.{◌≡◌, option_copied, slice_get};

use crate::tests::made::{Host, describes, explains, in_box, owned, vec_of};
use predicates::ord::OrdPredicate;
use predicates::prelude::*;
use tests_support::{NumberWord, answer_list, list_formula, read_number_words};

// The list of the numbers below `count`.
fn numbers_below(rt: &impl Host, count: u32) -> Vec<u32> {
    let mut numbers = Vec::with_capacity(rt.alloc(), 1_000).expect(rt, "memory");
    for number in 0..count {
        numbers.push(number).expect(rt, "memory");
    }
    numbers
}

// How many children the case that holds of each number has.
fn children_of_a_thousand(rt: &impl Host) -> usize {
    let numbers = numbers_below(rt, 1_000);
    let all = predicate::lt(1_000u32).of_each();
    let case = all.find_case(rt.alloc(), true, &numbers);
    match &case.expect(rt, "memory") {
        Some(case) => case.root().children().count(),
        None => 0,
    }
}

// Whether the predicate holds of the numbers below the count.
fn holds_below<P: Predicate<Vec<u32>> + Drop>(rt: &impl Host, count: u32, predicate: P) -> bool
    requires { P.lawful predicate }
{
    let numbers = numbers_below(rt, count);
    predicate.eval(rt.alloc(), &numbers).expect(rt, "memory")
}

#[test]
fn a_thousand_members(rt: HostRuntime) {
    let lines = "\
each(var < 999) = false
  item: var < 999 = false
    - var: 999
    - index: 999
";
    assert!(rt; children_of_a_thousand(&rt) == 1_000);
    let each = predicate::lt(999u32).of_each();
    assert!(rt; explains(&rt, each, numbers_below(&rt, 1_000), lines));
    assert!(rt; holds_below(&rt, 1_000, predicate::ge(999u32).of_any()));
}

#[test]
fn a_million_members(rt: HostRuntime) {
    let lines = "\
each(var < 999999) = false
  item: var < 999999 = false
    - var: 999999
    - index: 999999
";
    assert!(rt; holds_below(&rt, 1_000_000, predicate::lt(1_000_000u32).of_each()));
    let each = predicate::lt(999_999u32).of_each();
    assert!(rt; explains(&rt, each, numbers_below(&rt, 1_000_000), lines));
}

// A list of two lists.
fn lists_of(rt: &impl Host, [first, second]: [&[u32]; 2]) -> Vec<Vec<u32>> {
    vec![in rt.alloc(); vec_of(rt, first), vec_of(rt, second)].expect(rt, "memory")
}

#[test]
fn members_of_members(rt: HostRuntime) {
    let lines = "\
each(each(var >= 1)) = false
  item: each(var >= 1) = false
    - index: 1
    item: var >= 1 = false
      - var: 0
      - index: 1
";
    let each = predicate::ge(1u32).of_each().of_each();
    assert!(rt; explains(&rt, each, lists_of(&rt, [&[1, 2], &[3, 0]]), lines));
}

#[test]
fn members_under_xor(rt: HostRuntime) {
    let lines = "\
(each(var >= 18) ^ any(var >= 65)) = false
  left: each(var >= 18) = true
    item: var >= 18 = true
      - var: 20
    item: var >= 18 = true
      - var: 70
  right: any(var >= 65) = true
    item: var >= 65 = true
      - var: 70
      - index: 1
";
    let (each, any) = (
        predicate::ge(18u32).of_each(),
        predicate::ge(65u32).of_any(),
    );
    assert!(rt; explains(&rt, each.xor(any), vec_of(&rt, &[20, 70]), lines));
}

#[test]
fn members_under_other_predicates(rt: HostRuntime) {
    let lines = "\
each(any(var >= 18)) = false
  item: any(var >= 18) = false
    - index: 1
    item: var >= 18 = false
      - var: 2
    item: var >= 18 = false
      - var: 3
";
    let each = predicate::ge(18u32).of_any().of_each();
    assert!(rt; explains(&rt, each, lists_of(&rt, [&[1, 20], &[2, 3]]), lines));
    let lines = "\
(each(var >= 18) && (! old)) = false
  right: (! old) = false
    predicate: old = true
      old: any(var >= 65) = true
        item: var >= 65 = true
          - var: 70
          - index: 1
";
    let each = predicate::ge(18u32).of_each();
    let old = predicate::ge(65u32).of_any().name("old");
    assert!(rt; explains(&rt, each.and(old.not()), vec_of(&rt, &[20, 70]), lines));
    let each = predicate::ge(18u32).of_each();
    assert!(rt; describes(&rt, each, "each(var >= 18)\nitem: var >= 18\n"));
}

// Rules of these least numbers.
fn rules_of(rt: &impl Host, least: &[u32]) -> Vec<OrdPredicate<u32>> {
    let mut rules = Vec::new(rt.alloc());
    for least in least {
        rules.push(predicate::ge(*least)).expect(rt, "memory");
    }
    rules
}

// The least numbers of rules, a number, and the lines by which `all_of` and `any_of` explain it.
const RULES: [(&[u32], u32, &str, &str); 3] = [
    (
        &[1, 5, 9],
        4,
        "\
all_of(var >= 1, var >= 5, var >= 9) = false
  rule: var >= 5 = false
    - var: 4
    - index: 1
",
        "\
any_of(var >= 1, var >= 5, var >= 9) = true
  rule: var >= 1 = true
    - var: 4
    - index: 0
",
    ),
    (
        &[2],
        1,
        "\
all_of(var >= 2) = false
  rule: var >= 2 = false
    - var: 1
",
        "\
any_of(var >= 2) = false
  rule: var >= 2 = false
    - var: 1
",
    ),
    (
        &[],
        1,
        "all_of() = true\n  - len: 0\n",
        "any_of() = false\n  - len: 0\n",
    ),
];

#[test]
fn rules(rt: HostRuntime) {
    for (least, number, all, any) in &RULES {
        let all_of = predicate::all_of(rules_of(&rt, least));
        assert!(rt; explains(&rt, all_of, *number, all), "{all}");
        let any_of = predicate::any_of(rules_of(&rt, least));
        assert!(rt; explains(&rt, any_of, *number, any), "{any}");
    }
}

// Boxes of predicates of two types.
fn boxed_rules(rt: &impl Host) -> Vec<BoxPredicate> {
    let some = in_box(rt, predicate::str::is_empty().not());
    let some = BoxPredicate::new(rt.alloc(), some).expect(rt, "memory");
    let constant = in_box(rt, predicate::always());
    let constant = BoxPredicate::new(rt.alloc(), constant).expect(rt, "memory");
    vec![in rt.alloc(); some, constant].expect(rt, "memory")
}

#[test]
fn rules_in_boxes(rt: HostRuntime) {
    let lines = "\
all_of((! var.is_empty()), true) = true
  rule: (! var.is_empty()) = true
    predicate: var.is_empty() = false
      - var: a
  rule: true = true
";
    let rules = predicate::all_of(boxed_rules(&rt)).trim();
    assert!(rt; explains(&rt, rules, owned(&rt, " a "), lines));
    let lines = "\
any_of((! var.is_empty()), true)
rule: (! var.is_empty())
  predicate: var.is_empty()
rule: true
  value=true
";
    assert!(rt; describes(&rt, predicate::any_of(boxed_rules(&rt)), lines));
}

fn first_of(list: &Vec<u32>) -> Option<&u32>
    ensures { option_copied result ≡ slice_get list.now.items 0 }
{
    list.as_slice().first()
}

#[test]
fn a_part_that_an_item_may_lack(rt: HostRuntime) {
    for (members, lines) in [
        (
            [20u32, 1].as_slice(),
            "first = true\n  first: var >= 18 = true\n    - var: 20\n",
        ),
        (
            [1, 20].as_slice(),
            "first = false\n  first: var >= 18 = false\n    - var: 1\n",
        ),
        (
            [].as_slice(),
            "first = false\n  first: var >= 18 = false\n    - error: no value\n",
        ),
    ] {
        let first = predicate::ge(18u32).of_some_ref("first", first_of);
        assert!(rt;
            explains(&rt, first, vec_of(&rt, members), lines),
            "{lines}"
        );
    }
}

#[test]
fn outcomes(rt: HostRuntime) {
    for (outcome, ok, err) in [
        (
            Ok(20u32),
            "var >= 18 = true\n  - var: 20\n",
            "var == -1 = false\n  - error: is Ok\n",
        ),
        (
            Err(-1i32),
            "var >= 18 = false\n  - error: is Err\n",
            "var == -1 = true\n  - var: -1\n",
        ),
    ] {
        assert!(rt;
            explains(&rt, predicate::ge(18u32).of_ok(), outcome, ok),
            "{ok}"
        );
        assert!(rt;
            explains(&rt, predicate::eq(-1i32).of_err(), outcome, err),
            "{err}"
        );
    }
}

// A text and a list of one length, and the lines that explain it.
const LENGTHS: [(&str, &[u32], &str); 2] = [
    (
        "ä",
        &[1, 2],
        "len = true\n  len: var <= 3 = true\n    - var: 2\n",
    ),
    (
        "abcd",
        &[1, 2, 3, 4],
        "len = false\n  len: var <= 3 = false\n    - var: 4\n",
    ),
];

#[test]
fn lengths(rt: HostRuntime) {
    assert!(rt; describes(&rt, predicate::le(3usize).of_len(), "len\nlen: var <= 3\n"));
    for (text, list, lines) in &LENGTHS {
        let (short, item) = (predicate::le(3usize).of_len(), owned(&rt, text));
        assert!(rt; explains(&rt, short, item, lines), "{text}");
        let (short, item) = (predicate::le(3usize).of_len(), vec_of(&rt, list));
        assert!(rt; explains(&rt, short, item, lines), "{text}");
    }
}

// Members on which the leaves of a predicate below differ.
const KINDS: [i64; 4] = [1, 2, 9, 6];

// The lengths of lists, and how many lists of each length there are.
const LISTS: [(usize, usize); 5] = [(0, 1), (1, 4), (2, 16), (3, 64), (4, 256)];

// A predicate of three leaves about each member of a list, and about one.
const EACH: &str = "ge=2 lt=5 and eq=9 or each";

const ANY: &str = "ge=2 lt=5 and eq=9 or any";

// Whether what is read of the words is explained by the first of all minimal reasons.
fn is_read_explained(rt: &impl Host, read: Vec<NumberWord>, list: &Vec<i64>) -> bool {
    let formula = list_formula(rt.alloc(), read.as_slice(), list.as_slice());
    let answers = answer_list(rt.alloc(), read, list);
    match (formula.expect(rt, "memory"), answers.expect(rt, "memory")) {
        (Some(formula), Some(answers)) => {
            answers.explain(rt.alloc(), &formula).expect(rt, "memory")
        }
        _ => false,
    }
}

// Whether what the words say of the list is explained so.
fn is_explained(rt: &impl Host, words: &str, list: &Vec<i64>) -> bool {
    match read_number_words(rt.alloc(), words).expect(rt, "memory") {
        Some(read) => is_read_explained(rt, read, list),
        None => false,
    }
}

// The list with this number among those of the length.
fn list_of(rt: &impl Host, number: usize, length: usize) -> Vec<i64> {
    let mut list = Vec::new(rt.alloc());
    let mut rest = number;
    for _ in 0..length {
        list.push(KINDS.get(rest % 4).copied().unwrap_or(0))
            .expect(rt, "memory");
        rest /= 4;
    }
    list
}

// How many of the lists of the length are explained by first reasons.
fn explained_lists(rt: &impl Host, words: &str, length: usize, lists: usize) -> usize {
    let mut explained = 0_usize;
    for number in 0..lists {
        let list = list_of(rt, number, length);
        explained = explained.saturating_add(usize::from(is_explained(rt, words, &list)));
    }
    explained
}

#[test]
fn first_reasons_of_each_member_of_at_most_four(rt: HostRuntime) {
    for (length, lists) in LISTS {
        assert_eq!(rt; explained_lists(&rt, EACH, length, lists), lists);
    }
}

#[test]
fn first_reasons_of_any_member_of_at_most_four(rt: HostRuntime) {
    for (length, lists) in LISTS {
        assert_eq!(rt; explained_lists(&rt, ANY, length, lists), lists);
    }
}
