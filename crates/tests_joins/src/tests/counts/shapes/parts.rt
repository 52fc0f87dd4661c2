//! Parts of an item.
ghost use Rattle.std.specs.Prelude.{◌≡◌, option_copied};

use super::super::around::{Asked, Counts};
use crate::tests::made::Host;
use predicates::part::Field;
use predicates::prelude::*;
use std::cell::Cell;
use std::fmt;

// Numbers, of which one may be absent, and how often the other was read.
#[derive(Drop)]
struct Numbered {
    number: u32,
    other: Option<u32>,
    reads: Cell<usize>,
}

impl fmt::Debug for Numbered {
    fn fmt<W: fmt::Write>(&self, f: &mut fmt::Formatter<W>) -> fmt::Result {
        f.write_str("numbered")
    }
}

fn five(other: Option<u32>) -> Numbered {
    Numbered {
        number: 5,
        other,
        reads: Cell::new(0),
    }
}

fn number_of(item: &Numbered) -> &u32
    ensures { result.now ≡ item.now.number }
{
    item.reads.set(item.reads.get().saturating_add(1));
    &item.number
}

fn number_by_value(item: &Numbered) -> u32
    ensures { result ≡ item.now.number }
{
    *number_of(item)
}

fn other_of(item: &Numbered) -> &Option<u32>
    ensures { result.now ≡ item.now.other }
{
    &item.other
}

fn maybe_other(item: &Numbered) -> Option<&u32>
    ensures { option_copied result ≡ item.now.other }
{
    item.other.as_ref()
}

#[derive(Drop)]
struct TheNumber;

impl Field<Numbered, u32> for TheNumber {
    ghost part_of = { λ field item. item.number };

    fn get<'a>(&self, item: &'a Numbered) -> &'a u32 {
        number_of(item)
    }
}

// How often the calls ask the predicate for its part.
fn reads<P: PredicateChange<Numbered> + Drop>(rt: &impl Host, asked: Asked<'_>, of: P) -> Counts
    requires { P.lawful of }
{
    let item = five(None);
    let cell = &item.reads;
    Asked { cell, ..asked }.of(rt, of, &item)
}

fn of_some_of_ref(rt: &impl Host, asked: Asked<'_>) -> Counts {
    let other = asked.leaf::<u32>().of_some().of_ref("other", other_of);
    asked.alone(rt, other, five(Some(7)))
}

// The parts of a `Numbered`.
fn of_struct(rt: &impl Host, name: &str, asked: Asked<'_>) -> Option<Counts> {
    let (some, none) = (five(Some(7)), five(None));
    Some(match name {
        "of" => counts_in!(rt, asked, |n: u32| n.of("n", number_by_value), some),
        "of_ref" => counts_in!(rt, asked, |n: u32| n.of_ref("n", number_of), some),
        "of_field" => counts_in!(rt, asked, |n: u32| n.of_field("n", TheNumber), some),
        "of_some_ref" => counts_in!(rt, asked, |n: u32| n.of_some_ref("o", maybe_other), some),
        "no_ref" => counts_in!(rt, asked, |n: u32| n.of_some_ref("o", maybe_other), none),
        "of_some_of_ref" => of_some_of_ref(rt, asked),
        "reads_of" => reads(rt, asked, predicate::ge(1u32).of("n", number_by_value)),
        "reads_of_ref" => reads(rt, asked, predicate::ge(1u32).of_ref("n", number_of)),
        "reads_of_field" => reads(rt, asked, predicate::ge(1u32).of_field("n", TheNumber)),
        _ => return None,
    })
}

pub fn counts_of(rt: &impl Host, name: &str, asked: Asked<'_>) -> Option<Counts> {
    let (some, none): (Option<u32>, Option<u32>) = (Some(5), None);
    let (ok, err): (Result<u32, u8>, Result<u8, u32>) = (Ok(5), Err(5));
    Some(match name {
        "of_some" => counts_in!(rt, asked, |n: u32| n.of_some(), some),
        "absent" => counts_in!(rt, asked, |n: u32| n.of_some(), none),
        "of_ok" => counts_in!(rt, asked, |n: u32| n.of_ok(), ok),
        "of_err" => counts_in!(rt, asked, |n: u32| n.of_err(), err),
        _ => return of_struct(rt, name, asked),
    })
}
