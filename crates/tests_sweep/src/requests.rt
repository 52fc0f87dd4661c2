//! How often a call asks something that takes memory each time, by the requests that it makes.
use crate::allocator;
use crate::call::Call;
use crate::refusals::MOST;
use crate::wrong::{Wrong, require};
use std::alloc::{AllocError, Global};

// Whether the call makes a request of this number, which is refused.
fn is_made<C: Call>(alloc: Global, call: &C, nth: u16) -> Result<bool, AllocError>
    requires { C.ready call.now }
{
    let operand = call.operand(alloc)?;
    allocator::refuse(alloc, nth, true);
    let _answer = call.call(alloc, operand);
    Ok(allocator::was_refused(alloc))
}

// How many requests it makes.
fn requests_of<C: Call>(alloc: Global, call: &C) -> Result<u16, AllocError>
    requires { C.ready call.now }
{
    let mut made = 0;
    for nth in 1..MOST {
        if !is_made(alloc, call, nth)? {
            break;
        }
        made = nth;
    }
    Ok(made)
}

/// Makes the call, in which what is counted takes one request each time that it is asked, and the
/// plain one, in which it takes none: the first makes so many requests more. Over an allocator that
/// refuses nothing neither is made.
pub fn count_asked<R: AllocGlobal + Print, C: Call>(
    rt: &R,
    name: &str,
    call: &C,
    plain: &C,
    times: u16,
) -> Result<(), Wrong>
    requires call { C.ready call.now }
    requires plain { C.ready plain.now }
{
    let alloc = rt.alloc();
    if !allocator::listens(alloc) {
        return Ok(());
    }
    let others = requests_of(alloc, plain)?;
    let asked = requests_of(alloc, call)?.saturating_sub(others);
    println!(rt; "{name}: asked {asked} times")?;
    require(alloc, name, asked == times, "not asked so often", asked)
}
