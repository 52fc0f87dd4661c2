ghost use Rattle.std.specs.Prelude.{◌≡◌, ◌≤◌, ◌&&◌, nat_le};

use crate::tests::made::{Host, describes, explains};
use predicates::prelude::*;

fn is_digit(byte: &u8) -> bool
    ensures { result ≡ (nat_le 48 byte.now && nat_le byte.now 57) }
{
    b'0' <= *byte && *byte <= b'9'
}

// Whether a closure over a bound, under a comparison, is explained with the lines.
fn explains_closure(rt: &impl Host, item: i32, lines: &str) -> bool {
    let bound = 5;
    let big = predicate::function(move |x: &i32| *x >= bound).fn_name("big");
    let middle = big.and(predicate::le(10i32));
    explains(rt, middle, item, lines)
}

#[test]
fn a_closure(rt: HostRuntime) {
    let bound = 5;
    assert!(rt;
        describes(
            &rt,
            predicate::function(move |x: &i32| *x >= bound),
            "fn(var)\n"
        )
    );
    let big = predicate::function(move |x: &i32| *x >= bound).fn_name("big");
    assert!(rt; describes(&rt, big, "big(var)\n"));
    let lines = "(big(var) && var <= 10) = false\n  left: big(var) = false\n";
    assert!(rt; explains_closure(&rt, 3, lines));
    let lines = "\
(big(var) && var <= 10) = true
  left: big(var) = true
  right: var <= 10 = true
    - var: 7
";
    assert!(rt; explains_closure(&rt, 7, lines));
}

// Whether a byte is a digit, by a function with a name.
fn is_named_digit(rt: &impl Host, byte: u8) -> bool {
    let digit = predicate::function(is_digit).fn_name("is_digit");
    digit.eval(rt.alloc(), &byte).expect(rt, "memory")
}

#[test]
fn a_named_function(rt: HostRuntime) {
    assert!(rt; is_named_digit(&rt, b'7'));
    assert!(rt; !is_named_digit(&rt, b'x'));
    let digit = predicate::function(is_digit).fn_name("is_digit");
    assert!(rt; describes(&rt, digit, "is_digit(var)\n"));
}

#[test]
fn a_closure_that_captures_references(rt: HostRuntime) {
    let lines = "(! fn(var)) = false\n  predicate: fn(var) = true\n";
    let (low, high) = (3, 9);
    let outside = predicate::function(|x: &i32| *x >= low && *x <= high).not();
    assert!(rt; explains(&rt, outside, 7, lines));
}
