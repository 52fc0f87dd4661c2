//! Rules over fields of different types, in one list.
use crate::tests::made::{Host, owned};
use predicates::check::Unmet;
use std::alloc::Global;
use tests_uses::{Booking, allow_booking};

// A booking of so many guests named Ada.
fn booking(rt: &impl Host, guests: u8, seat: Option<u32>, price: u64) -> Booking {
    let mut names = Vec::new(rt.alloc());
    for _ in 0..guests {
        let name = owned(rt, "Ada");
        names.push(name).expect(rt, "memory");
    }
    Booking {
        guests: names,
        seat,
        price,
    }
}

// What the rules say of a booking that breaks one or more: the first of these.
const REASONS: [(u8, Option<u32>, u64, &str); 3] = [
    (
        0,
        None,
        40,
        "\
all_of(guests >= 1, a seat, price <= 100) = false
  rule: guests >= 1 = false
    - var: Booking { guests: [], seat: None, price: 40 }
    - index: 0
",
    ),
    (
        1,
        None,
        40,
        "\
all_of(guests >= 1, a seat, price <= 100) = false
  rule: a seat = false
    - var: Booking { guests: [\"Ada\"], seat: None, price: 40 }
    - index: 1
",
    ),
    (
        1,
        Some(12),
        101,
        "\
all_of(guests >= 1, a seat, price <= 100) = false
  rule: price <= 100 = false
    - var: Booking { guests: [\"Ada\"], seat: Some(12), price: 101 }
    - index: 2
",
    ),
];

// Whether the rules do not allow the booking, by these lines.
fn is_rejected(alloc: Global, booking: &Booking, lines: &str) -> bool {
    match allow_booking(alloc, booking) {
        Err(Unmet::Fails(found)) => found.as_str() == lines,
        _ => false,
    }
}

#[test]
fn the_rules_allow_one_booking_and_reject_three(rt: HostRuntime) {
    let alloc = rt.alloc();
    let allowed = booking(&rt, 2, Some(12), 100);
    assert!(rt; allow_booking(alloc, &allowed).is_ok());
    for (guests, seat, price, lines) in REASONS {
        let rejected = booking(&rt, guests, seat, price);
        assert!(rt; is_rejected(alloc, &rejected, lines), "{lines}");
    }
}
