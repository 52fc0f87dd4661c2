//! Checks beside the reference program, how often their leaves are asked, and what they print.
ghost use Rattle.std.specs.Prelude.{Some, [], ◌∷◌, codes, decimal};

use crate::tests::made::{Host, in_box};
use predicates::custom::{Test, TestPredicate, leaf};
use predicates::reflection::{Case, render};
use predicates::{PredicateChange, Total};
use predicates_tree::{Check, Members};
use std::alloc::AllocError;
use std::cell::Cell;
use std::fmt;
use std::rc::Rc;
use tests_support::{
    ReferenceFormula, counted, explains, first_change, first_reason, is_described,
};

// Prints its number, has the verdict, and counts how often it is asked.
#[derive(Drop)]
struct Numbered {
    number: usize,
    verdict: bool,
    asked: Rc<Cell<usize>>,
}

impl fmt::Display for Numbered {
    ghost output = { λ t. Some (decimal t.number) };

    fn fmt<W: fmt::Write>(&self, f: &mut fmt::Formatter<W>) -> fmt::Result {
        let number = self.number;
        write!(f, "{number}")
    }
}

impl Test<u32> for Numbered {
    ghost holds_of = { λ t v. t.verdict };

    fn holds(&self, _item: &u32) -> bool {
        self.asked.set(self.asked.get().saturating_add(1));
        self.verdict
    }
}

// The one member of each item.
#[derive(Clone, Copy)]
struct Only;

impl fmt::Display for Only {
    ghost output = { λ _. Some (codes "only") };

    fn fmt<W: fmt::Write>(&self, f: &mut fmt::Formatter<W>) -> fmt::Result {
        f.write_str("only")
    }
}

impl Members<u32> for Only {
    ghost members_of = { λ _ _. Some (7 ∷ []) };

    ghost reason_of = { λ _ _. codes "" };

    fn members<'a>(&self, _item: &'a u32) -> Option<&'a [u32]> {
        Some(&[7])
    }

    fn reason(&self, _item: &u32) -> &str {
        ""
    }
}

type Numbers = Check<TestPredicate<Numbered>, Only>;

// A check, and its formula for the reference program.
#[derive(Drop)]
struct Both {
    check: Numbers,
    formula: ReferenceFormula,
}

// What makes leaves, each with the next number.
#[derive(Drop)]
struct Leaves {
    asked: Vec<Rc<Cell<usize>>>,
}

impl Leaves {
    fn new(rt: &impl Host) -> Leaves {
        Leaves {
            asked: Vec::new(rt.alloc()),
        }
    }

    fn next(&mut self, rt: &impl Host, verdict: bool) -> Numbers {
        let number = self.asked.len();
        let asked = Rc::new(rt.alloc(), Cell::new(0)).expect(rt, "memory");
        self.asked
            .push(asked.clone().expect(rt, "memory"))
            .expect(rt, "memory");
        Check::leaf_beside_members(leaf(Numbered {
            number,
            verdict,
            asked,
        }))
    }

    fn both(&mut self, rt: &impl Host, verdict: bool) -> Both {
        Both {
            check: self.next(rt, verdict),
            formula: ReferenceFormula::Leaf(verdict),
        }
    }

    // The greatest count, where each is set to 0 again.
    fn greatest(&self) -> usize {
        let mut greatest = 0;
        for asked in self.asked.as_slice() {
            greatest = greatest.max(asked.get());
            asked.set(0);
        }
        greatest
    }
}

// The last digit of the code to the base of so many kinds, which is taken from it.
fn kind_of(code: &mut u32) -> u32 {
    let kind = *code % 12;
    *code /= 12;
    kind
}

fn joined(
    rt: &impl Host,
    kind: u32,
    left: ReferenceFormula,
    right: ReferenceFormula,
) -> ReferenceFormula {
    let (left, right) = (in_box(rt, left), in_box(rt, right));
    match kind {
        0 => ReferenceFormula::And(left, right),
        1 => ReferenceFormula::Or(left, right),
        _ => ReferenceFormula::Xor(left, right),
    }
}

fn of_one(rt: &impl Host, is_named: bool, part: Both) -> Both {
    let formula = in_box(rt, part.formula);
    if is_named {
        return Both {
            check: part.check.name(rt.alloc(), "named").expect(rt, "memory"),
            formula: ReferenceFormula::Named(formula),
        };
    }
    Both {
        check: part.check.not(rt.alloc()).expect(rt, "memory"),
        formula: ReferenceFormula::Not(formula),
    }
}

fn of_two(rt: &impl Host, kind: u32, left: Both, right: Both) -> Both {
    let formula = joined(rt, kind, left.formula, right.formula);
    let check = match kind {
        0 => left.check.and(rt.alloc(), right.check).expect(rt, "memory"),
        1 => left.check.or(rt.alloc(), right.check).expect(rt, "memory"),
        _ => left.check.xor(rt.alloc(), right.check).expect(rt, "memory"),
    };
    Both { check, formula }
}

fn row(rt: &impl Host, is_any: bool, first: Both, second: Both) -> Both {
    let kind = if is_any { 1 } else { 0 };
    let rest = joined(rt, kind, second.formula, ReferenceFormula::NoMore(!is_any));
    let members = joined(rt, kind, first.formula, rest);
    let parts = vec![in rt.alloc(); first.check, second.check].expect(rt, "memory");
    Both {
        check: if is_any {
            Check::any(parts)
        } else {
            Check::all(parts)
        },
        formula: ReferenceFormula::Members(in_box(rt, members)),
    }
}

// At least two of the parts and a leaf with the verdict.
fn two_of_three(rt: &impl Host, first: Both, second: Both, third: Both) -> Both {
    let parts = vec![in rt.alloc(); first.check, second.check, third.check].expect(rt, "memory");
    let formulas = vec![in rt.alloc(); first.formula, second.formula, third.formula].expect(
        rt, "memory",
    );
    Both {
        check: Check::at_least(2, parts),
        formula: counted(rt.alloc(), 2, formulas).expect(rt, "memory"),
    }
}

// An odd number of the parts.
fn odd_of_three(rt: &impl Host, first: Both, second: Both, third: Both) -> Both {
    let none = ReferenceFormula::NoMore(false);
    let last = joined(rt, 2, third.formula, none);
    let others = joined(rt, 2, second.formula, last);
    let members = joined(rt, 2, first.formula, others);
    let parts = vec![in rt.alloc(); first.check, second.check, third.check].expect(rt, "memory");
    Both {
        check: Check::odd(parts),
        formula: ReferenceFormula::Members(in_box(rt, members)),
    }
}

// Of the one member: of each, of one, of at least one.
fn of_members(rt: &impl Host, kind: u32, part: Both) -> Both {
    let alloc = rt.alloc();
    if kind == 2 {
        let members = vec![in alloc; part.formula].expect(rt, "memory");
        return Both {
            check: part.check.of_at_least(alloc, 1, Only).expect(rt, "memory"),
            formula: counted(alloc, 1, members).expect(rt, "memory"),
        };
    }
    let members = joined(rt, kind, part.formula, ReferenceFormula::NoMore(kind != 1));
    let check = match kind {
        1 => part.check.of_any(alloc, Only),
        _ => part.check.of_each(alloc, Only),
    };
    Both {
        check: check.expect(rt, "memory"),
        formula: ReferenceFormula::Members(in_box(rt, members)),
    }
}

// The check that the code means, of at most so many levels above the leaves.
fn build(rt: &impl Host, leaves: &mut Leaves, code: &mut u32, depth: u32) -> Both {
    if depth == 0 {
        let verdict = *code % 2 == 1;
        *code /= 2;
        return leaves.both(rt, verdict);
    }
    let kind = kind_of(code);
    if kind >= 10 {
        return leaves.both(rt, kind == 10);
    }
    let first = build(rt, leaves, code, depth - 1);
    if kind >= 8 {
        return of_one(rt, kind == 8, first);
    }
    let second = build(rt, leaves, code, depth - 1);
    if kind >= 5 {
        let third = leaves.both(rt, kind == 5);
        return if kind == 7 {
            odd_of_three(rt, first, second, third)
        } else {
            two_of_three(rt, first, second, third)
        };
    }
    if kind >= 3 {
        return row(rt, kind == 3, first, second);
    }
    of_two(rt, kind, first, second)
}

// The numbers of the leaves that the lines of a case show, in order.
fn shown(rt: &impl Host, lines: &str) -> Vec<usize> {
    let mut shown = Vec::new(rt.alloc());
    for line in lines.lines() {
        let Some((head, _)) = line.split_once(" = ") else {
            continue;
        };
        let text = match head.rsplit_once(' ') {
            Some((_, text)) => text,
            None => head,
        };
        if let Ok(number) = text.parse() {
            shown.push(number).expect(rt, "memory");
        }
    }
    shown
}

// The lines of a case, and none where there is no case.
fn lines_of(rt: &impl Host, case: Result<Option<Case>, AllocError>) -> String {
    match case.expect(rt, "memory") {
        Some(case) => render(rt.alloc(), &case).expect(rt, "memory"),
        None => String::new(rt.alloc()),
    }
}

// What is told of a verdict that is wanted, of whichever it is, and of the other one.
#[derive(Drop)]
struct Told {
    wanted: String,
    whichever: String,
    other: String,
}

fn reasons<P: Total<u32>>(rt: &impl Host, check: &P, verdict: bool) -> Told {
    Told {
        wanted: lines_of(rt, check.find_case(rt.alloc(), verdict, &0)),
        whichever: lines_of(rt, check.explain(rt.alloc(), None, &0)),
        other: lines_of(rt, check.find_case(rt.alloc(), !verdict, &0)),
    }
}

fn changes<P: Total<u32> + PredicateChange<u32>>(rt: &impl Host, check: &P, verdict: bool) -> Told {
    Told {
        wanted: lines_of(rt, check.find_change(rt.alloc(), Some(verdict), &0)),
        whichever: lines_of(rt, check.find_change(rt.alloc(), None, &0)),
        other: lines_of(rt, check.find_change(rt.alloc(), Some(!verdict), &0)),
    }
}

// Whether just these leaves are told, and nothing of the other verdict.
fn are_told(rt: &impl Host, told: Told, leaves: Option<Vec<usize>>) -> bool {
    let shown = shown(rt, told.wanted.as_str());
    match leaves {
        Some(leaves) => {
            shown.as_slice() == leaves.as_slice()
                && told.whichever.as_str() == told.wanted.as_str()
                && told.other.is_empty()
        }
        None => false,
    }
}

fn holds<P: Total<u32>>(rt: &impl Host, check: &P) -> bool {
    check.eval(rt.alloc(), &0).expect(rt, "memory")
}

// Whether the check answers as the reference program does.
fn agrees(rt: &impl Host, both: &Both) -> bool {
    let verdict = both.formula.truth();
    let reasons = reasons(rt, &both.check, verdict);
    let changes = changes(rt, &both.check, verdict);
    let reason = first_reason(rt.alloc(), &both.formula).expect(rt, "memory");
    let change = first_change(rt.alloc(), &both.formula).expect(rt, "memory");
    holds(rt, &both.check) == verdict
        && are_told(rt, reasons, reason)
        && are_told(rt, changes, change)
}

// All checks of up to two levels over leaves of each truth.
#[test]
fn checks_are_explained_as_the_reference_program_does(rt: HostRuntime) {
    let alloc = rt.alloc();
    let mut tried = 0u32;
    for first in 0..27648u32 {
        let mut code = first;
        let mut leaves = Leaves::new(&rt);
        let both = build(&rt, &mut leaves, &mut code, 2);
        if code == 0 {
            assert!(rt; agrees(&rt, &both));
            tried = tried.saturating_add(1);
        }
    }
    assert!(rt; tried > 3000);
}

// A check of one level, which the code means: as a check of members, with a leaf in a row, or
// again as a check of members.
fn above_members(rt: &impl Host, leaves: &mut Leaves, code: &mut u32, kind: u32) -> Both {
    let inner = build(rt, leaves, code, 1);
    let members = of_members(rt, kind % 3, inner);
    match kind / 3 {
        0 => members,
        1 => {
            let last = leaves.both(rt, kind == 4);
            row(rt, kind == 5, members, last)
        }
        _ => of_members(rt, kind % 2, members),
    }
}

// Whether it answers as the reference program does, or the code means none.
fn members_agree(rt: &impl Host, code: u32, kind: u32) -> bool {
    let mut code = code;
    let mut leaves = Leaves::new(rt);
    let both = above_members(rt, &mut leaves, &mut code, kind);
    code != 0 || agrees(rt, &both)
}

#[test]
fn checks_of_members_are_explained_as_the_reference_program_does(rt: HostRuntime) {
    for code in 0..96u32 {
        for kind in 0..9u32 {
            assert!(rt; members_agree(&rt, code, kind));
        }
    }
}

// A row of both, or of them and a leaf that holds.
fn row_of(rt: &impl Host, leaves: &mut Leaves, kind: u32, own: Numbers, check: Numbers) -> Numbers {
    let mut parts = vec![in rt.alloc(); own, check].expect(rt, "memory");
    if kind == 4 || kind == 8 {
        parts.push(leaves.next(rt, true)).expect(rt, "memory");
    }
    match kind {
        4 => Check::at_least(2, parts),
        8 => Check::odd(parts),
        9 => Check::any(parts),
        _ => Check::all(parts),
    }
}

// A chain of so many combinators, each in turn, with a leaf beside the rest at most levels.
fn chain(rt: &impl Host, leaves: &mut Leaves, depth: u32, verdict: bool) -> Numbers {
    let alloc = rt.alloc();
    let mut check = leaves.next(rt, verdict);
    for level in 0..depth {
        let own = leaves.next(rt, level % 2 == 0);
        let made = match level % 11 {
            0 | 6 => own.and(alloc, check),
            1 | 5 | 7 => own.or(alloc, check),
            2 => own.xor(alloc, check),
            3 => check.not(alloc),
            kind => Ok(row_of(rt, leaves, kind, own, check)),
        };
        let made = made.expect(rt, "memory");
        let above = match level % 11 {
            3 => made.name(alloc, "named"),
            5 => made.of_each(alloc, Only),
            6 => made.of_any(alloc, Only),
            7 => made.of_at_least(alloc, 1, Only),
            _ => Ok(made),
        };
        check = above.expect(rt, "memory");
    }
    check
}

// Whether there is a case.
fn is_some(rt: &impl Host, case: Result<Option<Case>, AllocError>) -> bool {
    case.expect(rt, "memory").is_some()
}

// How often one leaf is asked at most: by `eval`, by `find_case` of the verdict and of the other,
// by `explain`, and by `find_change` of the verdict and of whichever it is.
fn most_asked<P: Total<u32> + PredicateChange<u32>>(
    rt: &impl Host,
    check: &P,
    leaves: &Leaves,
) -> [usize; 6] {
    let alloc = rt.alloc();
    let verdict = check.eval(alloc, &0).expect(rt, "memory");
    let by_eval = leaves.greatest();
    let has_case = is_some(rt, check.find_case(alloc, verdict, &0));
    let by_case = leaves.greatest();
    let has_other = is_some(rt, check.find_case(alloc, !verdict, &0));
    let by_other = leaves.greatest();
    let is_explained = is_some(rt, check.explain(alloc, None, &0));
    let by_explain = leaves.greatest();
    let has_change = is_some(rt, check.find_change(alloc, Some(verdict), &0));
    let by_change = leaves.greatest();
    let is_changed = is_some(rt, check.find_change(alloc, None, &0));
    if !has_case || has_other || !is_explained || !has_change || !is_changed {
        return [0; 6];
    }
    [
        by_eval,
        by_case,
        by_other,
        by_explain,
        by_change,
        leaves.greatest(),
    ]
}

#[test]
fn each_leaf_is_asked_at_most_twice_at_depth_100(rt: HostRuntime) {
    let alloc = rt.alloc();
    for verdict in [true, false] {
        let mut leaves = Leaves::new(&rt);
        let check = chain(&rt, &mut leaves, 100, verdict);
        assert!(rt; most_asked(&rt, &check, &leaves) == [1, 2, 1, 1, 1, 1]);
    }
}

#[test]
fn a_check_of_one_leaf_asks_it_once(rt: HostRuntime) {
    let alloc = rt.alloc();
    let mut leaves = Leaves::new(&rt);
    let check = leaves.next(&rt, true);
    assert!(rt; most_asked(&rt, &check, &leaves) == [1; 6]);
}

// A check is made and dropped without a stack frame a level.
#[test]
fn a_check_of_20_000_levels_is_dropped(rt: HostRuntime) {
    let alloc = rt.alloc();
    let mut leaves = Leaves::new(&rt);
    drop(chain(&rt, &mut leaves, 20_000, true));
    assert!(rt; leaves.greatest() == 0);
}

// The text, and a line for each part.
const DESCRIBED: &str = "\
all_of((! 0), named, (2 ^ any_of(3)), any_of())
rule: (! 0)
  predicate: 0
rule: named
  named: 1
rule: (2 ^ any_of(3))
  left: 2
  right: any_of(3)
    rule: 3
rule: any_of()
";

// The case of a row whose last part has no parts.
const EXPLAINED: &str = "\
all_of((! 0), named, (2 ^ any_of(3)), any_of()) = false
  rule: any_of() = false
    - len: 0
    - index: 3
";

// A row of checks, where the first parts hold.
fn some_row(rt: &impl Host) -> Numbers {
    let mut leaves = Leaves::new(rt);
    let opposite = leaves.next(rt, false).not(rt.alloc()).expect(rt, "memory");
    let named = leaves
        .next(rt, true)
        .name(rt.alloc(), "named")
        .expect(rt, "memory");
    let left = leaves.next(rt, false);
    let one = Check::any(vec![in rt.alloc(); leaves.next(rt, true)].expect(rt, "memory"));
    let exclusive = left.xor(rt.alloc(), one).expect(rt, "memory");
    let none = Check::any(Vec::new(rt.alloc()));
    Check::all(vec![in rt.alloc(); opposite, named, exclusive, none].expect(rt, "memory"))
}

fn explains_total<P: Total<u32>>(rt: &impl Host, check: &P, lines: &str) -> bool {
    explains(rt.alloc(), check, &0, lines).expect(rt, "memory")
}

#[test]
fn rows_print_describe_and_explain_their_parts(rt: HostRuntime) {
    let alloc = rt.alloc();
    let row = some_row(&rt);
    assert!(rt; is_described(alloc, &row, DESCRIBED).expect(&rt, "memory"));
    assert!(rt; explains_total(&rt, &row, EXPLAINED));
}

// The text, and a line for each part.
const COUNTED: &str = "\
at_least(2, 0, 1, (! 2))
rule: 0
rule: 1
rule: (! 2)
  predicate: 2
";

// The first parts that hold, as many as are needed.
const ENOUGH: &str = "\
at_least(2, 0, 1, (! 2)) = true
  rule: 0 = true
    - var: 0
    - index: 0
  rule: (! 2) = true
    - index: 2
    predicate: 2 = false
      - var: 0
";

// What is told where the number alone settles it.
const SETTLED: &str = "\
at_least(2, 0) = false
  - len: 1
";

#[test]
fn thresholds_print_describe_and_explain_their_parts(rt: HostRuntime) {
    let alloc = rt.alloc();
    let mut leaves = Leaves::new(&rt);
    let first = leaves.next(&rt, true);
    let second = leaves.next(&rt, false);
    let third = leaves.next(&rt, false).not(alloc).expect(&rt, "memory");
    let check = Check::at_least(
        2,
        vec![in alloc; first, second, third].expect(&rt, "memory"),
    );
    assert!(rt; is_described(alloc, &check, COUNTED).expect(&rt, "memory"));
    assert!(rt; explains_total(&rt, &check, ENOUGH));
}

// Its parts are not asked.
#[test]
fn a_threshold_that_its_number_settles_is_a_leaf(rt: HostRuntime) {
    let alloc = rt.alloc();
    let mut leaves = Leaves::new(&rt);
    let few = Check::at_least(
        2,
        vec![in alloc; leaves.next(&rt, true)].expect(&rt, "memory"),
    );
    assert!(rt; explains_total(&rt, &few, SETTLED));
    assert!(rt; changes(&rt, &few, false).wanted.as_str() == SETTLED);
    let none = Check::at_least(
        0,
        vec![in alloc; leaves.next(&rt, false)].expect(&rt, "memory"),
    );
    assert!(rt; holds(&rt, &none));
    assert!(rt; leaves.greatest() == 0);
}

// The text, and a line for each part.
const ODD: &str = "\
odd_of(0, (! 1), 2)
rule: 0
rule: (! 1)
  predicate: 1
rule: 2
";

// Every part is needed.
const EVEN: &str = "\
odd_of(0, (! 1), 2) = false
  rule: 0 = true
    - var: 0
  rule: (! 1) = true
    predicate: 1 = false
      - var: 0
  rule: 2 = false
    - var: 0
";

// The first part alone turns it.
const TURNED: &str = "\
odd_of(0, (! 1), 2) = false
  rule: 0 = true
    - var: 0
";

const NO_PART: &str = "\
odd_of() = false
  - len: 0
";

#[test]
fn rows_of_an_odd_number_print_describe_and_explain_their_parts(rt: HostRuntime) {
    let alloc = rt.alloc();
    let mut leaves = Leaves::new(&rt);
    let first = leaves.next(&rt, true);
    let second = leaves.next(&rt, false).not(alloc).expect(&rt, "memory");
    let third = leaves.next(&rt, false);
    let check = Check::odd(vec![in alloc; first, second, third].expect(&rt, "memory"));
    assert!(rt; is_described(alloc, &check, ODD).expect(&rt, "memory"));
    assert!(rt; explains_total(&rt, &check, EVEN));
    assert!(rt; changes(&rt, &check, false).whichever.as_str() == TURNED);
    let none: Numbers = Check::odd(Vec::new(alloc));
    assert!(rt; explains_total(&rt, &none, NO_PART));
    assert!(rt; changes(&rt, &none, false).wanted.as_str() == NO_PART);
}
