//! Predicates of a field, and of a part of a part.
ghost use Rattle.std.specs.Prelude.{◌≡◌};

use predicates::ord::ge;
use predicates::part::{Field, PredicatePartExt};
use tests_sweep::{over, sweep_calls};

#[derive(Drop)]
struct Guest {
    age: u32,
    seat: Option<u32>,
}

fn seat_of(guest: &Guest) -> &Option<u32>
    ensures { result.now ≡ guest.now.seat }
{
    &guest.seat
}

#[derive(Drop)]
struct Age;

impl Field<Guest, u32> for Age {
    ghost part_of = { λ field guest. guest.age };

    fn get<'a>(&self, guest: &'a Guest) -> &'a u32 {
        &guest.age
    }
}

// The page of policies has the field as it stands here.
#[test]
fn fields(rt: HostRuntime) {
    let (age, seat) = (17, None);
    let lines = "age = false\n  age: var >= 18 = false\n    - var: 17\n";
    let row = over("of_field", false, lines, "age: var >= 18\n");
    let adult = ge(18u32).of_field("age", Age);
    sweep_calls(&rt, &adult, &Guest { age, seat }, row).expect(&rt, "memory")
}

#[test]
fn value_or_none_in_a_field(rt: HostRuntime) {
    let seated = ge(18u32).of_some().of_ref("seat", seat_of);
    let children = "seat: var >= 18\n  predicate: var >= 18\n";
    let (age, seat) = (17, Some(18));
    let lines = "seat = true\n  seat: var >= 18 = true\n    - var: 18\n";
    let row = over("of_some in of_ref, on a value", true, lines, children);
    sweep_calls(&rt, &seated, &Guest { age, seat }, row).expect(&rt, "memory");
    let (age, seat) = (17, None);
    let lines = "seat = false\n  seat: var >= 18 = false\n    - error: no value\n";
    let row = over("of_some in of_ref, on none", false, lines, children);
    sweep_calls(&rt, &seated, &Guest { age, seat }, row).expect(&rt, "memory")
}
