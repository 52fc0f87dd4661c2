//! Numbers in the order of their values: whole numbers exactly, any other as the nearest `f64`.
use super::writes_block;
use std::alloc::Global;
use std::cmp::Ordering;
use std::process::Abort;
use vet_run::settings::Report;

// Numbers of JSON, and how many values of the table are below.
const FAR_BELOW_ZERO: [(&str, u32); 15] = [
    ("-1.0e300", 0),
    ("-9.223372036854778e18", 1),
    ("-9.223372036854776e18", 2),
    ("-9223372036854775808", 2),
    ("-9223372036854775807", 3),
    ("-9223372036854775296", 4),
    ("-9223372036854775295", 5),
    ("-9.223372036854775e18", 6),
    ("-9007199254740994.0", 7),
    ("-9007199254740994", 7),
    ("-9007199254740993", 8),
    ("-9007199254740992.0", 9),
    ("-9007199254740992", 9),
    ("-9007199254740991", 10),
    ("-18", 11),
];

const AROUND_ZERO: [(&str, u32); 19] = [
    ("-2", 12),
    ("-1", 13),
    ("-0.5", 14),
    ("-5.0e-324", 15),
    ("0.0", 16),
    ("-0.0", 16),
    ("0", 16),
    ("5.0e-324", 17),
    ("0.1", 18),
    ("0.5", 19),
    ("0.9999999999999999", 20),
    ("1.0", 21),
    ("1", 21),
    ("1.5", 22),
    ("2", 23),
    ("17.999999999999996", 24),
    ("18.0", 25),
    ("18", 25),
    ("18.000000000000004", 26),
];

const FAR_ABOVE_ZERO: [(&str, u32); 11] = [
    ("4503599627370495.5", 27),
    ("9007199254740991.0", 28),
    ("9007199254740991", 28),
    ("9007199254740992.0", 29),
    ("9007199254740992", 29),
    ("9007199254740993", 30),
    ("9007199254740994.0", 31),
    ("9007199254740994", 31),
    ("9007199254740995", 32),
    ("9.223372036854775e18", 33),
    ("9223372036854775807", 34),
];

const ABOVE_I64: [(&str, u32); 14] = [
    ("9.223372036854776e18", 35),
    ("9223372036854775808", 35),
    ("9223372036854775809", 36),
    ("9.223372036854778e18", 37),
    ("1.844674407370955e19", 38),
    ("18446744073709549568", 38),
    ("18446744073709550591", 39),
    ("18446744073709550592", 40),
    ("18446744073709550593", 41),
    ("18446744073709551615", 42),
    ("1.8446744073709552e19", 43),
    ("1.8446744073709556e19", 44),
    ("1.0e300", 45),
    ("1.7976931348623157e308", 46),
];

// The comparison that holds where the ranks stand so, and the two that do not.
fn comparisons(order: Ordering) -> (&'static str, &'static str, &'static str) {
    match order {
        Ordering::Less => ("<", "==", ">"),
        Ordering::Equal => ("==", "<", ">"),
        Ordering::Greater => (">", "<", "=="),
    }
}

// Whether that one holds, and the others do not, of a number in a record and one in the rule.
fn stand_so(rt: &impl Abort, alloc: Global, number: (&str, u32), other: (&str, u32)) -> bool {
    let (left, right) = (number.0, other.0);
    let (holds, first, second) = comparisons(number.1.cmp(&other.1));
    let rule = format!(in alloc;
        "a: /x {holds} {right} and not /x {first} {right} and not /x {second} {right}"
    ).expect(rt, "memory");
    let record = format!(in alloc; "{{\"x\": {left}}}").expect(rt, "memory");
    writes_block(rt, alloc, Report::First, &rule, record.as_bytes(), b"")
}

fn pairs_stand_so(rt: &impl Abort, alloc: Global, numbers: &[(&str, u32)], others: &[(&str, u32)]) {
    for number in numbers {
        for other in others {
            assert!(rt;
                stand_so(rt, alloc, *number, *other),
                "{} {}",
                number.0,
                other.0
            );
        }
    }
}

// The numbers beside all numbers.
fn all_stand_so(rt: &impl Abort, alloc: Global, numbers: &[(&str, u32)]) {
    pairs_stand_so(rt, alloc, numbers, &FAR_BELOW_ZERO);
    pairs_stand_so(rt, alloc, numbers, &AROUND_ZERO);
    pairs_stand_so(rt, alloc, numbers, &FAR_ABOVE_ZERO);
    pairs_stand_so(rt, alloc, numbers, &ABOVE_I64)
}

#[test]
fn numbers_are_in_the_order_of_their_values(rt: HostRuntime) {
    let alloc = rt.alloc();
    all_stand_so(&rt, alloc, &FAR_BELOW_ZERO);
    all_stand_so(&rt, alloc, &AROUND_ZERO);
    all_stand_so(&rt, alloc, &FAR_ABOVE_ZERO);
    all_stand_so(&rt, alloc, &ABOVE_I64)
}
