//! The order of JSON's numbers by their values.
ghost use Rattle.std.specs.Prelude.{◌≡◌, Some, false, pos, refl};
ghost use Rattle.std.specs.Cmp.{eq_by_cmp_equiv, partial_equiv_from_equiv};
ghost use Rattle.std.specs.Cmp.{partial_order_from_total};
ghost use Rattle.std.specs.Float.{fin};
ghost use Rattle.std.specs.Ordering.{int_cmp, is_eq, nan_last_cmp};
ghost use Rattle.serde_json.specs.View.{number_view};
ghost use Rattle.vet_checks.specs.Numbers.{exact_cmp, exact_cmp_total, num_of_exact};
ghost use Rattle.vet_checks.specs.Numbers.{number_cmp, whole};

use serde_json::Number;
use std::cmp::{OrderedFloat, Ordering};
use std::num::{nearest_u64_to_f64, saturating_f64_to_u64};

// 2^53: an `f64` holds each natural number up to here, and no fraction above it.
const ALL_HELD: u64 = 9007199254740992;

const TWO_TO_64: f64 = 18446744073709551616.0;

/// A number as JSON holds it: whole where it fits 64 bits, and else the nearest `f64`. Its order is
/// that of the values, and nothing is rounded: `-0.0` equals 0, and `18.0` equals 18. A NaN, which
/// JSON has not, stands last.
#[derive(Clone, Copy, Drop)]
pub(crate) enum Exact {
    /// A whole number from 0 up.
    Natural(u64),
    /// A whole number that has a sign.
    Negative(i64),
    /// Any other.
    Float(f64),
}

impl Exact {
    /// The number that the JSON number holds.
    pub(crate) fn of_number(number: &Number) -> Exact
        ensures { num_of_exact result ≡ number_view number.now }
    {
        if let Some(n) = number.as_u64() {
            return Exact::Natural(n);
        }
        match number.as_i64() {
            Some(n) => Exact::Negative(n),
            None => Exact::Float(number.as_f64().unwrap_or(0.0)),
        }
    }
}

/// How a JSON number stands to another number.
pub(crate) fn number_order(number: &Number, other: Exact) -> Ordering
    ensures { result ≡ number_cmp (number_view number.now) (num_of_exact other) }
{
    Exact::of_number(number).cmp(&other)
}

// Where it is above 2^53, a float near it has no fraction, so their whole parts decide.
fn natural_order(n: u64, x: f64) -> Ordering
    ensures { result ≡ nan_last_cmp (fin false n (pos 0)) x }
{
    if n <= ALL_HELD {
        OrderedFloat(nearest_u64_to_f64(n)).cmp(&OrderedFloat(x))
    } else if x < TWO_TO_64 {
        n.cmp(&saturating_f64_to_u64(x))
    } else {
        Ordering::Less
    }
}

fn whole_order(n: i64, x: f64) -> Ordering
    ensures { result ≡ nan_last_cmp (whole n) x }
{
    let size = n.unsigned_abs();
    if n >= 0 {
        natural_order(size, x)
    } else if x.is_nan() {
        Ordering::Less
    } else {
        natural_order(size, -x).reverse()
    }
}

fn mixed_order(m: u64, n: i64) -> Ordering
    ensures { result ≡ int_cmp (pos m) n }
{
    (m as i128).cmp(&(n as i128))
}

impl PartialEq for Exact {
    ghost eq = { λ a b. is_eq (exact_cmp a b) };

    ghost laws = { partial_equiv_from_equiv (eq_by_cmp_equiv exact_cmp_total) };

    fn eq(&self, other: &Exact) -> bool {
        self.cmp(other).is_eq()
    }
}

impl Eq for Exact {
    ghost laws = { eq_by_cmp_equiv exact_cmp_total };
}

impl PartialOrd for Exact {
    ghost partial_cmp = { λ a b. Some (exact_cmp a b) };

    ghost laws = { partial_order_from_total exact_cmp_total };

    fn partial_cmp(&self, other: &Exact) -> Option<Ordering> {
        Some(self.cmp(other))
    }
}

impl Ord for Exact {
    ghost cmp = { exact_cmp };

    ghost total = { exact_cmp_total };

    ghost matches_partial_cmp = { λ a b. refl };

    ghost matches_eq = { λ a b. refl };

    fn cmp(&self, other: &Exact) -> Ordering {
        match (*self, *other) {
            (Exact::Natural(m), Exact::Natural(n)) => m.cmp(&n),
            (Exact::Natural(m), Exact::Negative(n)) => mixed_order(m, n),
            (Exact::Natural(m), Exact::Float(y)) => natural_order(m, y),
            (Exact::Negative(m), Exact::Natural(n)) => mixed_order(n, m).reverse(),
            (Exact::Negative(m), Exact::Negative(n)) => m.cmp(&n),
            (Exact::Negative(m), Exact::Float(y)) => whole_order(m, y),
            (Exact::Float(x), Exact::Natural(n)) => natural_order(n, x).reverse(),
            (Exact::Float(x), Exact::Negative(n)) => whole_order(n, x).reverse(),
            (Exact::Float(x), Exact::Float(y)) => OrderedFloat(x).cmp(&OrderedFloat(y)),
        }
    }
}
