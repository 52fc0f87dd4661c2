//! Predicates of lists of three members, of which the second has the opposite verdict, of long
//! lists, whose members have the same, and of lists in joins and lists.
use super::super::around::{Asked, Counts};
use super::super::counting::CountingLeaf;
use crate::tests::made::Host;
use predicates::boolean::XorPredicate;
use predicates::constant::{always, never};
use predicates::ord::EqPredicate;
use predicates::prelude::*;

type Member<'a> = XorPredicate<CountingLeaf<'a, u32>, EqPredicate<u32>, u32>;

// Of 1 the opposite of the leaf's verdict. The other part counts nothing.
fn member(asked: Asked<'_>) -> Member<'_> {
    asked.leaf().xor(predicate::eq(1u32))
}

// The numbers from 0 on.
fn numbers(rt: &impl Host, asked: Asked<'_>, length: u32) -> Vec<u32> {
    let mut numbers = Vec::new(rt.alloc());
    for number in 0..length {
        numbers.push(number).expect(rt, "memory");
    }
    numbers
}

fn of_long(rt: &impl Host, name: &str, asked: Asked<'_>) -> Option<Counts> {
    let item = numbers(rt, asked, 10_000);
    let leaf = asked.leaf::<u32>();
    Some(match name {
        "long_each" => asked.alone(rt, leaf.of_each(), item),
        "long_each_denied" => asked.alone(rt, leaf.not().of_each(), item),
        "long_any" => asked.alone(rt, leaf.of_any(), item),
        "long_any_denied" => asked.alone(rt, leaf.not().of_any(), item),
        "long_two" => asked.alone(rt, leaf.of_at_least(2), item),
        "two_members" => asked.alone(rt, leaf.of_at_least(2).xor(never()), item),
        "long_two_denied" => asked.alone(rt, leaf.not().of_at_least(2), item),
        _ => return None,
    })
}

fn in_joins(rt: &impl Host, asked: Asked<'_>) -> Counts {
    let each = asked.leaf::<i64>().xor(never()).of_each();
    let item = Vec::from_slice(rt.alloc(), &[1, 2, 3]).expect(rt, "memory");
    asked.alone(rt, each.and(always::<i64>().of_each()).not(), item)
}

// A list of a list is asked by a join that wants whichever verdict.
fn in_lists(rt: &impl Host, asked: Asked<'_>) -> Counts {
    let (two, three) = (numbers(rt, asked, 2), numbers(rt, asked, 3));
    let lists = vec![in rt.alloc(); two, three].expect(rt, "memory");
    let item = vec![in rt.alloc(); lists].expect(rt, "memory");
    let each = asked.leaf::<u32>().of_each().xor(never());
    asked.alone(rt, each.of_each().xor(never()).of_any(), item)
}

fn exactly(rt: &impl Host, asked: Asked<'_>) -> Counts {
    let two = member(asked).of_exactly(2).expect(rt, "memory");
    asked.alone(rt, two, numbers(rt, asked, 3))
}

pub fn counts_of(rt: &impl Host, name: &str, asked: Asked<'_>) -> Option<Counts> {
    let item = numbers(rt, asked, 3);
    Some(match name {
        "each" => asked.counts(rt, member(asked).of_each(), item),
        "any" => asked.alone(rt, member(asked).of_any(), item),
        "of_at_least" => asked.alone(rt, member(asked).of_at_least(2), item),
        "of_at_most" => asked.alone(rt, member(asked).of_at_most(1), item),
        "of_exactly" => exactly(rt, asked),
        "of_len" => counts_in!(rt, asked, |length: usize| length.of_len(), item),
        "lists_in_joins" => in_joins(rt, asked),
        "lists_in_lists" => in_lists(rt, asked),
        _ => return of_long(rt, name, asked),
    })
}
