//! Thresholds beside the reference program: of few rules with each verdict, of thresholds, and of
//! joined rules; and how often they ask.
use crate::tests::made::{Host, in_box};
use predicates::ord::OrdPredicate;
use predicates::prelude::*;
use predicates::threshold::AtLeastPredicate;
use tests_support::{
    FromWords, Level, NumberLeaf, NumberWord, ReferenceFormula, counted, is_explained,
    number_formula,
};

type Rule = Level<Level<NumberLeaf, i64>, i64>;

// The item of every formula here.
const ITEM: i64 = 4;

fn word(holds: bool) -> NumberWord {
    if holds {
        NumberWord::Less(5)
    } else {
        NumberWord::Less(3)
    }
}

// Formulas of one leaf and of two.
const SHAPES: usize = 6;

fn words(rt: &impl Host, shape: usize) -> Vec<NumberWord> {
    match shape {
        0 => vec![in rt.alloc(); word(true)].expect(rt, "memory"),
        1 => vec![in rt.alloc(); word(false)].expect(rt, "memory"),
        2 => vec![in rt.alloc(); word(true), word(false), NumberWord::And].expect(rt, "memory"),
        3 => vec![in rt.alloc(); word(true), word(true), NumberWord::Xor].expect(rt, "memory"),
        4 => vec![in rt.alloc(); word(false), NumberWord::Not].expect(rt, "memory"),
        _ => vec![in rt.alloc(); word(true), word(true), NumberWord::Or].expect(rt, "memory"),
    }
}

fn rules_of(rt: &impl Host, shapes: &[usize]) -> Vec<Rule> {
    let mut rules = Vec::new(rt.alloc());
    for shape in shapes {
        let mut words = words(rt, *shape);
        if let Some(rule) = Rule::from_words(rt.alloc(), &mut words).expect(rt, "memory") {
            rules.push(rule).expect(rt, "memory");
        }
    }
    rules
}

fn formula_of(rt: &impl Host, least: usize, shapes: &[usize]) -> ReferenceFormula {
    let mut members = Vec::new(rt.alloc());
    for shape in shapes {
        let words = words(rt, *shape);
        if let Some(member) = number_formula(rt.alloc(), words.as_slice(), ITEM).expect(
            rt, "memory",
        ) {
            members.push(member).expect(rt, "memory");
        }
    }
    counted(rt.alloc(), least, members).expect(rt, "memory")
}

// Whether the library explains the threshold as the reference program does.
#[tactic(auto, using(predicates_core::proofs::Several::each_holds))]
fn is_right<P: FromWords<NumberWord, i64>>(
    rt: &impl Host,
    threshold: &AtLeastPredicate<P>,
    formula: &ReferenceFormula,
) -> bool {
    is_explained(rt.alloc(), threshold, &ITEM, formula).expect(rt, "memory")
}

// The same of a threshold over thresholds.
#[tactic(auto, using(predicates_core::proofs::Several::each_holds))]
fn is_nested_right<P: FromWords<NumberWord, i64>>(
    rt: &impl Host,
    threshold: &AtLeastPredicate<AtLeastPredicate<P>>,
    formula: &ReferenceFormula,
) -> bool {
    is_explained(rt.alloc(), threshold, &ITEM, formula).expect(rt, "memory")
}

// The number's digits to the base 6, the last one first.
fn shapes_of(rt: &impl Host, number: usize, length: usize) -> Vec<usize> {
    let mut shapes = Vec::new(rt.alloc());
    let mut rest = number;
    for _ in 0..length {
        shapes.push(rest % SHAPES).expect(rt, "memory");
        rest /= SHAPES;
    }
    shapes
}

#[test]
fn thresholds_over_at_most_three_rules(rt: HostRuntime) {
    for (length, all) in [(0, 1), (1, 6), (2, 36), (3, 216)] {
        for number in 0..all {
            let shapes = shapes_of(&rt, number, length);
            for least in 0..5_usize {
                let threshold = predicate::at_least(least, rules_of(&rt, shapes.as_slice()));
                let formula = formula_of(&rt, least, shapes.as_slice());
                let right = is_right(&rt, &threshold, &formula);
                assert!(rt; right, "at least {least} of {length} rules, {number}");
            }
        }
    }
}

// The inner thresholds: how many hold at least, of how many leaves.
fn nested(
    rt: &impl Host,
    least: [usize; 4],
    leaves: [&[usize]; 3],
) -> (AtLeastPredicate<AtLeastPredicate<Rule>>, ReferenceFormula) {
    let mut rules = Vec::new(rt.alloc());
    let mut members = Vec::new(rt.alloc());
    for (inner, shapes) in [
        (least[1], leaves[0]),
        (least[2], leaves[1]),
        (least[3], leaves[2]),
    ] {
        rules
            .push(predicate::at_least(inner, rules_of(rt, shapes)))
            .expect(rt, "memory");
        members
            .push(formula_of(rt, inner, shapes))
            .expect(rt, "memory");
    }
    (
        predicate::at_least(least[0], rules),
        counted(rt.alloc(), least[0], members).expect(rt, "memory"),
    )
}

#[test]
fn thresholds_over_thresholds(rt: HostRuntime) {
    for truths in 0..64_usize {
        let leaf = |place: usize| truths >> place & 1;
        let [a, b, c, d, e, f] = [leaf(0), leaf(1), leaf(2), leaf(3), leaf(4), leaf(5)];
        for numbers in 0..18_usize {
            let least = [numbers % 3 + 1, numbers / 3 % 2 + 1, 1, numbers / 6 + 1];
            let (threshold, formula) = nested(&rt, least, [&[a, b], &[c], &[d, e, f]]);
            let right = is_nested_right(&rt, &threshold, &formula);
            assert!(rt; right, "truths {truths}, least {least:?}");
        }
    }
}

fn leaf(holds: bool) -> OrdPredicate<i64> {
    predicate::lt(if holds { 5i64 } else { 3i64 })
}

fn three(rt: &impl Host, truths: [bool; 3]) -> Vec<OrdPredicate<i64>> {
    let [first, second, third] = truths;
    vec![in rt.alloc(); leaf(first), leaf(second), leaf(third)].expect(rt, "memory")
}

fn of_three(rt: &impl Host, least: usize, truths: [bool; 3]) -> Box<ReferenceFormula> {
    let [first, second, third] = truths;
    let leaves = vec![in rt.alloc();
        ReferenceFormula::Leaf(first),
        ReferenceFormula::Leaf(second),
        ReferenceFormula::Leaf(third),
    ]
    .expect(rt, "memory");
    in_box(rt, counted(rt.alloc(), least, leaves).expect(rt, "memory"))
}

// A threshold of three rules on the left of a leaf, and on its right.
fn under_and(rt: &impl Host, least: usize, truths: [bool; 3], beside: bool) -> bool {
    let both = predicate::at_least(least, three(rt, truths)).and(leaf(beside));
    let other = in_box(rt, ReferenceFormula::Leaf(beside));
    let formula = ReferenceFormula::And(of_three(rt, least, truths), other);
    is_explained(rt.alloc(), &both, &ITEM, &formula).expect(rt, "memory")
}

fn under_or(rt: &impl Host, least: usize, truths: [bool; 3], beside: bool) -> bool {
    let either = leaf(beside).or(predicate::at_least(least, three(rt, truths)));
    let other = in_box(rt, ReferenceFormula::Leaf(beside));
    let formula = ReferenceFormula::Or(other, of_three(rt, least, truths));
    is_explained(rt.alloc(), &either, &ITEM, &formula).expect(rt, "memory")
}

fn under_xor(rt: &impl Host, least: usize, truths: [bool; 3], beside: bool) -> bool {
    let one = predicate::at_least(least, three(rt, truths)).xor(leaf(beside));
    let other = in_box(rt, ReferenceFormula::Leaf(beside));
    let formula = ReferenceFormula::Xor(of_three(rt, least, truths), other);
    is_explained(rt.alloc(), &one, &ITEM, &formula).expect(rt, "memory")
}

// At most so many, which is a threshold that is denied.
fn at_most(rt: &impl Host, most: usize, truths: [bool; 3]) -> bool {
    let few = predicate::at_most(most, three(rt, truths));
    let formula = ReferenceFormula::Not(of_three(rt, most.saturating_add(1), truths));
    is_explained(rt.alloc(), &few, &ITEM, &formula).expect(rt, "memory")
}

fn exactly(rt: &impl Host, number: usize, truths: [bool; 3]) -> bool {
    let just = predicate::exactly(number, three(rt, truths)).expect(rt, "memory");
    let most = ReferenceFormula::Not(of_three(rt, number.saturating_add(1), truths));
    let least = of_three(rt, number, truths);
    let formula = ReferenceFormula::And(least, in_box(rt, most));
    is_explained(rt.alloc(), &just, &ITEM, &formula).expect(rt, "memory")
}

#[test]
fn thresholds_under_combinators(rt: HostRuntime) {
    for choice in 0..16_usize {
        let holds = |place: usize| choice >> place & 1 == 1;
        let (truths, beside) = ([holds(0), holds(1), holds(2)], holds(3));
        for least in 0..5_usize {
            assert!(rt;
                under_and(&rt, least, truths, beside),
                "{least} of {truths:?}"
            );
            assert!(rt;
                under_or(&rt, least, truths, beside),
                "{least} of {truths:?}"
            );
            assert!(rt;
                under_xor(&rt, least, truths, beside),
                "{least} of {truths:?}"
            );
        }
    }
}

#[test]
fn at_most_and_exactly(rt: HostRuntime) {
    for choice in 0..8_usize {
        let holds = |place: usize| choice >> place & 1 == 1;
        let truths = [holds(0), holds(1), holds(2)];
        for number in 0..5_usize {
            assert!(rt; at_most(&rt, number, truths), "{number} of {truths:?}");
            assert!(rt; exactly(&rt, number, truths), "{number} of {truths:?}");
        }
    }
}
