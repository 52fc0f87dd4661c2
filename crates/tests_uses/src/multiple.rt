//! A leaf made of a test that has a number of its own.
ghost use Rattle.std.specs.Prelude.{Some, codes, decimal, ◌++◌, ◌==◌, ◌&&◌, ◌%◌, not};

use predicates::custom::Test;
use std::fmt;

/// The test of the multiples of a number other than 0; `leaf(MultipleOf { divisor: 3 })` is a
/// predicate. With the divisor 0 it holds of none.
#[derive(Debug, Clone, Copy, PartialEq, Eq, Drop)]
pub struct MultipleOf {
    pub divisor: u32,
}

impl fmt::Display for MultipleOf {
    ghost output = { λ t. Some (codes "var % " ++ (decimal t.divisor ++ codes " == 0")) };

    fn fmt<W: fmt::Write>(&self, f: &mut fmt::Formatter<W>) -> fmt::Result {
        let divisor = self.divisor;
        write!(f, "var % {divisor} == 0")
    }
}

impl Test<u32> for MultipleOf {
    ghost holds_of = { λ t v. not (t.divisor == 0) && (v % t.divisor == 0) };

    fn holds(&self, item: &u32) -> bool {
        self.divisor != 0 && *item % self.divisor == 0
    }
}
