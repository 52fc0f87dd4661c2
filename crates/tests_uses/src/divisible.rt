//! A leaf that shows the number its test computes, and lists the one it was made with.
ghost use Rattle.std.specs.Prelude.{◌≡◌, Some, codes, decimal, ◌++◌, pos, int_rem};
ghost use Rattle.std.specs.Fmt.{signed_decimal};
ghost use Rattle.std.specs.Ordering.{int_eq};
ghost use Rattle.predicates_core.specs.Label.{value_of};

use predicates::custom::{DetailedTest, Test, TestParameters};
use predicates::reflection::{Parameter, Product};
use std::alloc::{AllocError, Global};
use std::fmt;

/// The test of the numbers that another divides; `detailed_leaf(DivisibleBy { divisor: 3 })` is a
/// predicate. Its remainder has the sign of the item, and 0 divides 0 alone.
#[derive(Debug, Clone, Copy, PartialEq, Eq, Drop)]
pub struct DivisibleBy {
    pub divisor: u32,
}

impl DivisibleBy {
    fn remainder(&self, item: i64) -> i64
        ensures { result ≡ int_rem item (pos self.now.divisor) }
    {
        match self.divisor {
            0 => item,
            divisor => item % i64::from(divisor),
        }
    }
}

impl fmt::Display for DivisibleBy {
    ghost output = { λ t. Some (codes "var % " ++ (decimal t.divisor ++ codes " == 0")) };

    fn fmt<W: fmt::Write>(&self, f: &mut fmt::Formatter<W>) -> fmt::Result {
        let divisor = self.divisor;
        write!(f, "var % {divisor} == 0")
    }
}

impl Test<i64> for DivisibleBy {
    ghost holds_of = { λ t v. int_eq (int_rem v (pos t.divisor)) (pos 0) };

    fn holds(&self, item: &i64) -> bool {
        self.remainder(*item) == 0
    }
}

impl TestParameters for DivisibleBy {
    ghost parameters_of = { λ t. value_of (codes "divisor") (Some (decimal t.divisor)) };

    fn parameters(&self, alloc: Global) -> Result<Vec<Parameter>, AllocError> {
        let mut parameters = Vec::new(alloc);
        parameters.push(Parameter::new("divisor", self.divisor.to_string(alloc)?))?;
        Ok(parameters)
    }
}

impl DetailedTest<i64> for DivisibleBy {
    ghost products_of = { λ t v. value_of (codes "remainder")
        (Some (signed_decimal (int_rem v (pos t.divisor)))) };

    fn products(&self, alloc: Global, item: &i64) -> Result<Vec<Product>, AllocError> {
        let remainder = self.remainder(*item).to_string(alloc)?;
        let mut products = Vec::new(alloc);
        products.push(Product::new("remainder", remainder))?;
        Ok(products)
    }
}
