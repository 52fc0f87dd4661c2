ghost use Rattle.std.specs.Prelude.{◌≡◌};

use crate::guests::{Age, Guest, name_of};
use crate::tests::made::{Host, describes, explains, owned};
use predicates::Total;
use predicates::part::Field;
use predicates::prelude::*;

fn seat_of(guest: &Guest) -> &Option<u32>
    ensures { result.now ≡ guest.now.seat }
{
    &guest.seat
}

#[derive(Drop)]
struct Name;

impl Field<Guest, String> for Name {
    ghost part_of = { λ field guest. guest.name };

    fn get<'a>(&self, guest: &'a Guest) -> &'a String {
        &guest.name
    }
}

#[derive(Drop)]
struct Seat;

impl Field<Guest, Option<u32>> for Seat {
    ghost part_of = { λ field guest. guest.seat };

    fn get<'a>(&self, guest: &'a Guest) -> &'a Option<u32> {
        &guest.seat
    }
}

// A name, an age and a seat.
type Row = (&'static str, u32, Option<u32>);

fn guest_of(rt: &impl Host, row: Row) -> Guest {
    let (name, age, seat) = row;
    Guest {
        name: owned(rt, name),
        age,
        seat,
    }
}

// As `explains`, of a policy that has a formula on each guest.
fn explains_total<P: Total<Guest> + Drop>(
    rt: &impl Host,
    policy: P,
    guest: Row,
    lines: &str,
) -> bool {
    explains(rt, policy, guest_of(rt, guest), lines)
}

// Whether a policy over all three fields explains its verdict by the lines.
fn fields_explain(rt: &impl Host, guest: Row, lines: &str) -> bool {
    let start = owned(rt, "A");
    let adult = predicate::ge(18u32).of_field("age", Age);
    let known = predicate::str::starts_with(start).of_field("name", Name);
    let seated = predicate::le(40u32).of_some().of_field("seat", Seat);
    explains_total(rt, adult.and(known).and(seated), guest, lines)
}

// Whether a policy over all three fields, by functions, does so.
fn functions_explain(rt: &impl Host, guest: Row, lines: &str) -> bool {
    let start = owned(rt, "A");
    let adult = predicate::ge(18u32).of("age", |guest: &Guest| guest.age);
    let known = predicate::str::starts_with(start).of_ref("name", name_of);
    let seated = predicate::le(40u32).of_some().of_ref("seat", seat_of);
    explains(rt, adult.and(known).and(seated), guest_of(rt, guest), lines)
}

const GUESTS: [(Row, &str); 4] = [
    (
        ("Ada", 36, Some(7)),
        "\
((age && name) && seat) = true
  left: (age && name) = true
    left: age = true
      age: var >= 18 = true
        - var: 36
    right: name = true
      name: var.starts_with(\"A\") = true
        - var: Ada
  right: seat = true
    seat: var <= 40 = true
      - var: 7
",
    ),
    (
        ("Ada", 17, Some(7)),
        "\
((age && name) && seat) = false
  left: (age && name) = false
    left: age = false
      age: var >= 18 = false
        - var: 17
",
    ),
    (
        ("Bob", 36, Some(7)),
        "\
((age && name) && seat) = false
  left: (age && name) = false
    right: name = false
      name: var.starts_with(\"A\") = false
        - var: Bob
",
    ),
    (
        ("Ada", 36, None),
        "\
((age && name) && seat) = false
  right: seat = false
    seat: var <= 40 = false
      - error: no value
",
    ),
];

#[test]
fn policy_over_three_fields(rt: HostRuntime) {
    for (guest, lines) in &GUESTS {
        assert!(rt; fields_explain(&rt, *guest, lines), "{lines}");
        assert!(rt; functions_explain(&rt, *guest, lines), "{lines}");
    }
}

// Whether a predicate of one field explains its verdict on the age by the lines.
fn explains_age(rt: &impl Host, age: u32, lines: &str) -> bool {
    let adult = predicate::ge(18u32).of("age", |guest: &Guest| guest.age);
    explains(rt, adult, guest_of(rt, ("", age, None)), lines)
}

#[test]
fn one_field(rt: HostRuntime) {
    let adult = predicate::ge(18u32).of("age", |guest: &Guest| guest.age);
    assert!(rt; describes(&rt, adult, "age\nage: var >= 18\n"));
    let lines = "age = false\n  age: var >= 18 = false\n    - var: 17\n";
    assert!(rt; explains_age(&rt, 17, lines));
    let lines = "age = true\n  age: var >= 18 = true\n    - var: 18\n";
    assert!(rt; explains_age(&rt, 18, lines));
}

#[test]
fn value_or_none(rt: HostRuntime) {
    let some = predicate::ge(18u32).of_some();
    assert!(rt; some == some.clone().expect(&rt, "memory"));
    assert!(rt; describes(&rt, some, "var >= 18\npredicate: var >= 18\n"));
    let lines = "var >= 18 = false\n  - var: 17\n";
    assert!(rt; explains(&rt, some, Some(17), lines));
    let lines = "var >= 18 = true\n  - var: 18\n";
    assert!(rt; explains(&rt, some, Some(18), lines));
    let lines = "var >= 18 = false\n  - error: no value\n";
    assert!(rt; explains(&rt, some, None, lines));
}
