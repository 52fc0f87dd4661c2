//! Refuses each request of a call in turn.
use crate::allocator;
use crate::call::{Call, Memory, Rendered};
use crate::wrong::{Wrong, require};
use std::alloc::{AllocError, Global};

// More requests than any of the calls makes.
pub(crate) const MOST: u16 = 4_000;

// What came of a run with one refusal or more.
#[derive(Clone, Copy)]
struct Outcome {
    refused: bool,
    answered: bool,
}

// Whether the call answers what it should, with ample memory.
fn is_right<C: Call>(alloc: Global, call: &C, expected: &str) -> Result<bool, AllocError>
    requires { C.ready call.now }
{
    let operand = call.operand(alloc)?;
    let answer = call.call(alloc, operand)?;
    reads_as(alloc, &answer, expected)
}

// Whether the answer reads so.
fn reads_as<A: Rendered>(alloc: Global, answer: &A, expected: &str) -> Result<bool, AllocError> {
    let text = answer.rendered(alloc)?;
    Ok(text.as_str() == expected)
}

// Makes the call once, with a request refused alone or with all after it.
fn run<R: AllocGlobal, C: Call>(
    rt: &R,
    name: &str,
    call: &C,
    expected: &str,
    nth: u16,
    alone: bool,
) -> Result<Outcome, Wrong>
    requires { C.ready call.now }
{
    let alloc = rt.alloc();
    allocator::take_level(alloc);
    let operand = call.operand(alloc)?;
    allocator::refuse(alloc, nth, alone);
    let answer = call.call(alloc, operand);
    let refused = allocator::was_refused(alloc);
    let found = match answer {
        Ok(answer) => Some(reads_as(alloc, &answer, expected)?),
        Err(AllocError) => None,
    };
    let answered = found.is_some();
    require(alloc, name, found != Some(false), "another answer", nth)?;
    require(
        alloc,
        name,
        allocator::is_level(alloc),
        "blocks are left",
        nth,
    )?;
    require(
        alloc,
        name,
        answered || refused,
        "no memory, though none was refused",
        nth,
    )?;
    Ok(Outcome { refused, answered })
}

// How many requests the call makes, how many were refused, and how often it went on without.
#[derive(Clone, Copy)]
struct Counts {
    requests: u64,
    refusals: u64,
    went_on: u64,
}

// Makes the call with each of its requests refused in turn, alone or with all after it.
fn refuse_each<R: AllocGlobal, C: Call>(
    rt: &R,
    name: &str,
    call: &C,
    expected: &str,
    alone: bool,
    mut counts: Counts,
) -> Result<Counts, Wrong>
    requires { C.ready call.now }
{
    for nth in 1..MOST {
        let made = run(rt, name, call, expected, nth, alone)?;
        if !made.refused {
            break;
        }
        let right = is_right(rt.alloc(), call, expected)?;
        require(
            rt.alloc(),
            name,
            right,
            "another answer with ample memory",
            nth,
        )?;
        counts.requests = counts.requests.max(u64::from(nth));
        counts.refusals = counts.refusals.saturating_add(1);
        counts.went_on = counts.went_on.saturating_add(u64::from(made.answered));
    }
    Ok(counts)
}

/// Makes the call again and again: its first request is refused, then its second, and so on until
/// none is; once alone, and once with all after it.
///
/// Each run answers that memory ran out or what it should, leaves no block, and is right when it is
/// made once more. Over an allocator that refuses nothing the call is made once.
pub fn sweep<R: AllocGlobal + Print, C: Call>(
    rt: &R,
    name: &str,
    call: &C,
    expected: &str,
    memory: Memory,
) -> Result<(), Wrong>
    requires { C.ready call.now }
{
    let right = is_right(rt.alloc(), call, expected)?;
    require(rt.alloc(), name, right, "another answer", 0)?;
    if !allocator::listens(rt.alloc()) {
        return Ok(());
    }
    let none = Counts {
        requests: 0,
        refusals: 0,
        went_on: 0,
    };
    let counts = refuse_each(rt, name, call, expected, true, none)?;
    let counts = refuse_each(rt, name, call, expected, false, counts)?;
    report(rt, name, counts, memory)
}

// Prints the counts, which are as the call promises.
fn report<R: AllocGlobal + Print>(
    rt: &R,
    name: &str,
    counts: Counts,
    memory: Memory,
) -> Result<(), Wrong> {
    let Counts {
        requests,
        refusals,
        went_on,
    } = counts;
    println!(rt;
        "{name}: {requests} requests, {refusals} refusals, {went_on} times it went on, \
         0 blocks left"
    )?;
    let errors = refusals.saturating_sub(went_on);
    let is_met = errors > 0 || memory == Memory::Perhaps || memory == Memory::Never;
    let few = requests.saturating_add(1) < u64::from(MOST);
    let alloc = rt.alloc();
    require(
        alloc,
        name,
        memory != Memory::Never || requests == 0,
        "it requests memory",
        0,
    )?;
    require(alloc, name, is_met, "no refusal was met", 0)?;
    require(
        alloc,
        name,
        memory == Memory::GoesOn || went_on == 0,
        "it went on",
        0,
    )?;
    require(alloc, name, few, "too many requests", 0)
}
