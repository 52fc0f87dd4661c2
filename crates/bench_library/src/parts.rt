//! A part of a struct, and a function of the whole struct.
use crate::asked::ask;
use predicates::function::function;
use predicates::ord::ge;
use predicates::part::PredicatePartExt;
use std::alloc::{AllocError, Global};

#[derive(Drop)]
struct Person {
    age: i64,
}

fn people_of(alloc: Global, ages: &[i64]) -> Result<Vec<Person>, AllocError> {
    let mut people = Vec::new(alloc);
    for &age in ages {
        people.push(Person { age })?;
    }
    Ok(people)
}

/// Asks whether the function holds of a person of each age.
#[unsafe(no_mangle)]
pub extern "C" fn bench_function(
    alloc: Global,
    ages: &[i64],
    question: u8,
    rounds: usize,
) -> usize {
    let adult = function(|person: &Person| person.age >= 18);
    match people_of(alloc, ages) {
        Ok(people) => ask(alloc, &adult, &people, question, rounds),
        Err(_) => 0,
    }
}

/// Asks whether a person of each age is an adult by that part.
#[unsafe(no_mangle)]
pub extern "C" fn bench_part(alloc: Global, ages: &[i64], question: u8, rounds: usize) -> usize {
    let adult = ge(18).of("age", |person: &Person| person.age);
    match people_of(alloc, ages) {
        Ok(people) => ask(alloc, &adult, &people, question, rounds),
        Err(_) => 0,
    }
}
