//! Rules about fields of different types, as predicates of one type.
ghost use Rattle.std.specs.Prelude.{None};
ghost use Rattle.tests_uses.specs.Bookings.{keeps};

use predicates::custom::{Test, TestPredicate, leaf};
use predicates::prelude::*;
use std::alloc::{AllocError, Global};
use std::fmt;

/// What is booked.
#[derive(Debug, Drop)]
pub struct Booking {
    pub guests: Vec<String>,
    pub seat: Option<u32>,
    pub price: u64,
}

/// A rule about a booking.
#[derive(Debug, Clone, Copy, PartialEq, Eq, Drop)]
pub enum BookingRule {
    /// It is for at least so many guests.
    Guests(usize),
    /// It has a seat.
    Seated,
    /// It costs at most so much.
    UpTo(u64),
}

impl fmt::Display for BookingRule {
    ghost output = { λ _. None };

    fn fmt<W: fmt::Write>(&self, f: &mut fmt::Formatter<W>) -> fmt::Result {
        match self {
            BookingRule::Guests(least) => write!(f, "guests >= {least}"),
            BookingRule::Seated => f.write_str("a seat"),
            BookingRule::UpTo(most) => write!(f, "price <= {most}"),
        }
    }
}

impl Test<Booking> for BookingRule {
    ghost holds_of = { keeps };

    fn holds(&self, booking: &Booking) -> bool {
        match self {
            BookingRule::Guests(least) => booking.guests.len() >= *least,
            BookingRule::Seated => booking.seat.is_some(),
            BookingRule::UpTo(most) => booking.price <= *most,
        }
    }
}

// What each booking has to keep.
fn rules(alloc: Global) -> Result<Vec<TestPredicate<BookingRule>>, AllocError> {
    let rules = vec![in alloc;
        leaf(BookingRule::Guests(1)),
        leaf(BookingRule::Seated),
        leaf(BookingRule::UpTo(100)),
    ]?;
    Ok(rules)
}

/// Whether a booking keeps every rule; the error has the lines that say which one it breaks.
pub fn allow_booking(alloc: Global, booking: &Booking) -> Result<(), Unmet> {
    require(alloc, &predicate::all_of(rules(alloc)?), booking)
}
