//! Bounds of floats, on floats and on the numbers of JSON texts.
use super::helpers::{Row, explains_json, is_leaf};
use crate::tests::made::Host;
use predicates::prelude::*;
use predicates_json::PredicateJsonExt;
use predicates_json::float::{self, FloatPredicate};
use tests_support::explains;

// A float, and how it is printed.
type Printed = (f64, &'static str);

// What `lt`, `le`, `ge` and `gt` answer.
type Verdicts = (bool, bool, bool, bool);

const BELOW: Verdicts = (true, true, false, false);

const AT: Verdicts = (false, true, true, false);

const ABOVE: Verdicts = (false, false, true, true);

const NOWHERE: Verdicts = (false, false, false, false);

const HIGH: Printed = (9.5, "9.5");

const ZERO: Printed = (0.0, "0.0");

const MINUS_ZERO: Printed = (-0.0, "-0.0");

const LEAST: Printed = (5e-324, "5e-324");

const MINUS_LEAST: Printed = (-5e-324, "-5e-324");

const LARGEST: Printed = (1.7976931348623157e308, "1.7976931348623157e308");

const INFINITE: Printed = (f64::INFINITY, "inf");

const MINUS_INFINITE: Printed = (f64::NEG_INFINITY, "-inf");

const NAN: Printed = (f64::NAN, "NaN");

// A bound, an item, and where the item stands.
type Sides = (Printed, Printed, Verdicts);

const SIDES: [Sides; 26] = [
    (HIGH, (9.4999, "9.4999"), BELOW),
    (HIGH, HIGH, AT),
    (HIGH, (10.0, "10.0"), ABOVE),
    (HIGH, MINUS_INFINITE, BELOW),
    (HIGH, INFINITE, ABOVE),
    (HIGH, NAN, NOWHERE),
    (ZERO, MINUS_LEAST, BELOW),
    (ZERO, MINUS_ZERO, AT),
    (ZERO, ZERO, AT),
    (ZERO, LEAST, ABOVE),
    (ZERO, NAN, NOWHERE),
    (MINUS_ZERO, MINUS_LEAST, BELOW),
    (MINUS_ZERO, MINUS_ZERO, AT),
    (MINUS_ZERO, ZERO, AT),
    (MINUS_ZERO, LEAST, ABOVE),
    (INFINITE, LARGEST, BELOW),
    (INFINITE, MINUS_INFINITE, BELOW),
    (INFINITE, INFINITE, AT),
    (INFINITE, NAN, NOWHERE),
    (MINUS_INFINITE, MINUS_INFINITE, AT),
    (MINUS_INFINITE, ZERO, ABOVE),
    (NAN, ZERO, NOWHERE),
    (NAN, HIGH, NOWHERE),
    (NAN, INFINITE, NOWHERE),
    (NAN, MINUS_INFINITE, NOWHERE),
    (NAN, NAN, NOWHERE),
];

// Whether the bound has the verdict, and its case is one leaf that shows the item.
fn is_told(
    rt: &impl Host,
    predicate: &FloatPredicate,
    symbol: &str,
    sides: Sides,
    verdict: bool,
) -> bool
    requires { ⟦<FloatPredicate as Predicate<f64>>⟧.lawful predicate.now }
{
    let ((_, bound), (item, shown), _) = sides;
    let mut lines = String::new(rt.alloc());
    writeln!(lines, "var {symbol} {bound} = {verdict}").expect(rt, "memory");
    writeln!(lines, "  - var: {shown}").expect(rt, "memory");
    explains(rt.alloc(), predicate, &item, lines.as_str()).expect(rt, "memory")
}

#[test]
fn bounds(rt: HostRuntime) {
    for sides in SIDES {
        let ((bound, _), _, (below, at_most, at_least, above)) = sides;
        assert!(rt; is_told(&rt, &float::lt(bound), "<", sides, below));
        assert!(rt; is_told(&rt, &float::le(bound), "<=", sides, at_most));
        assert!(rt; is_told(&rt, &float::ge(bound), ">=", sides, at_least));
        assert!(rt; is_told(&rt, &float::gt(bound), ">", sides, above));
    }
}

const PRICES: [Row; 9] = [
    ("9.4999", false, "var: 9.4999"),
    ("9.5", true, "var: 9.5"),
    ("95e-1", true, "var: 9.5"),
    ("9", false, "var: 9.0"),
    ("10", true, "var: 10.0"),
    ("-1", false, "var: -1.0"),
    ("-0", false, "var: -0.0"),
    ("18446744073709551615", true, "var: 1.8446744073709552e19"),
    ("\"9.5\"", false, "error: is a string"),
];

#[test]
fn prices(rt: HostRuntime) {
    let dear = float::ge(9.5).of_number();
    for row in &PRICES {
        assert!(rt; is_leaf(&rt, &dear, "var >= 9.5", *row));
    }
}

// 2^53 + 1 is no float: of the two that are as near, the even one is taken, which is 2^53.
const NEAREST: [Row; 3] = [
    ("9007199254740992", false, "var: 9007199254740992.0"),
    ("9007199254740993", false, "var: 9007199254740992.0"),
    ("9007199254740994", true, "var: 9007199254740994.0"),
];

#[test]
fn integers_are_read_as_the_nearest_float(rt: HostRuntime) {
    let above = float::gt(9007199254740992.0).of_number();
    for row in &NEAREST {
        assert!(rt; is_leaf(&rt, &above, "var > 9007199254740992.0", *row));
    }
}

#[test]
fn denied_price(rt: HostRuntime) {
    let dear = float::ge(9.5).of_number().of_pointer("/price");
    let record = "{\"price\": 9.4999}";
    let lines = "/price = false\n  value: var >= 9.5 = false\n    - var: 9.4999\n";
    assert!(rt; explains_json(&rt, &dear, record, lines));
}
