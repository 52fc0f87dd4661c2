//! A leaf, a stored function, and combinators over leaves.
ghost use Rattle.std.specs.Prelude.{◌≡◌, true};

use super::super::around::{Asked, Counts};
use crate::tests::made::Host;
use predicates::constant::{always, never};
use predicates::prelude::*;
use std::cell::Cell;
use std::fmt;
use tests_uses::{Either, RightFirst};

// An item that counts how often it is read.
#[derive(Drop)]
struct Judged<'a> {
    reads: &'a Cell<usize>,
}

impl fmt::Debug for Judged<'_> {
    fn fmt<W: fmt::Write>(&self, f: &mut fmt::Formatter<W>) -> fmt::Result {
        f.write_str("judged")
    }
}

fn verdict_of(item: &Judged<'_>) -> bool
    ensures { result ≡ true }
{
    item.reads.set(item.reads.get().saturating_add(1));
    true
}

// Each call of the function counts as a leaf that is asked.
fn function(rt: &impl Host, asked: Asked<'_>) -> Counts {
    let item = Judged { reads: asked.cell };
    asked.counts(rt, predicate::function(verdict_of), item)
}

pub fn counts_of(rt: &impl Host, name: &str, asked: Asked<'_>) -> Option<Counts> {
    let (leaf, other) = (asked.leaf::<u32>(), asked.other::<u32>());
    Some(match name {
        "leaf" => asked.counts(rt, leaf, 5u32),
        "function" => function(rt, asked),
        "not" => asked.counts(rt, leaf.not(), 5u32),
        "name" => asked.alone(rt, leaf.name("inner"), 5u32),
        "and" => asked.alone(rt, leaf.and(other), 5u32),
        "or" => asked.alone(rt, leaf.or(other), 5u32),
        "xor" => asked.alone(rt, leaf.xor(other), 5u32),
        "either" => asked.alone(rt, Either::new(leaf, other), 5u32),
        "after_true_and" => asked.alone(rt, always().and(leaf), 5u32),
        "after_false_and" => asked.alone(rt, never().and(leaf), 5u32),
        "after_true_or" => asked.alone(rt, always().or(leaf), 5u32),
        "after_false_or" => asked.alone(rt, never().or(leaf), 5u32),
        "after_true_either" => asked.alone(rt, Either::new(always(), leaf), 5u32),
        "after_false_either" => asked.alone(rt, Either::new(never(), leaf), 5u32),
        "right_first" => asked.alone(rt, RightFirst::new(always(), leaf), 5u32),
        _ => return None,
    })
}

// Joins in joins, on the left.
fn deep_left(rt: &impl Host, asked: Asked<'_>) -> Counts {
    let either = asked.leaf().and(asked.other()).or(asked.leaf());
    asked.counts(rt, either.xor(asked.other()).and(asked.leaf()), 5u32)
}

// The same on the right.
fn deep_right(rt: &impl Host, asked: Asked<'_>) -> Counts {
    let either = asked.leaf().or(asked.other().and(asked.leaf()));
    asked.alone(rt, asked.leaf().and(asked.other().xor(either)), 5u32)
}

// The same, denied and named.
fn joins_in_joins(rt: &impl Host, asked: Asked<'_>) -> Counts {
    let either = asked.leaf().xor(asked.other()).not().or(asked.other());
    asked.alone(rt, either.name("named").and(asked.leaf()).not(), 5u32)
}

fn four_by_and(rt: &impl Host, asked: Asked<'_>) -> Counts {
    let three = asked.leaf().and(asked.leaf()).and(asked.leaf());
    asked.alone(rt, three.and(asked.leaf()), 5u32)
}

fn four_by_or(rt: &impl Host, asked: Asked<'_>) -> Counts {
    let three = asked.leaf().or(asked.leaf()).or(asked.leaf());
    asked.alone(rt, three.or(asked.leaf()), 5u32)
}

fn three_by_xor(rt: &impl Host, asked: Asked<'_>) -> Counts {
    asked.alone(rt, asked.leaf().xor(asked.leaf()).xor(asked.leaf()), 5u32)
}

fn negations(rt: &impl Host, asked: Asked<'_>) -> Counts {
    asked.alone(rt, asked.leaf().not().not().name("twice").not().not(), 5u32)
}

// A caller's own combinators in each other, under the library's.
fn own(rt: &impl Host, asked: Asked<'_>) -> Counts {
    let inner = Either::new(Either::new(asked.other(), never()), never());
    asked.alone(rt, Either::new(inner, always()).xor(always()), 5u32)
}

pub fn deep_counts_of(rt: &impl Host, name: &str, asked: Asked<'_>) -> Option<Counts> {
    Some(match name {
        "deep_left" => deep_left(rt, asked),
        "deep_right" => deep_right(rt, asked),
        "joins_in_joins" => joins_in_joins(rt, asked),
        "four_by_and" => four_by_and(rt, asked),
        "four_by_or" => four_by_or(rt, asked),
        "three_by_xor" => three_by_xor(rt, asked),
        "negations" => negations(rt, asked),
        "own" => own(rt, asked),
        _ => return None,
    })
}
