//! A stored function as a leaf that has a name for its type.
ghost use Rattle.std.specs.Prelude.{◌≡◌, [], codes, Some, int_le};
ghost use Rattle.predicates_core.specs.Label.{plain};
ghost use Rattle.predicates_core.specs.Formula.{Leaf};
ghost use Rattle.predicates_core.specs.Leaves.{IsExactly};
ghost use Rattle.predicates_core.specs.Tree.{empty};
ghost use Rattle.predicates_core.specs.LeafLaws.{exactly_text_fits, one_exactly};

use predicates::function::function;
use predicates_core::custom::leaf_change;
use predicates_core::reflection::{Case, Child, Parameter, PredicateReflection};
use predicates_core::{Predicate, PredicateChange};
use std::alloc::{AllocError, Global};
use std::fmt;

/// The library's `function` of "the item is at least the constant".
#[derive(Drop)]
pub struct AtLeast {
    pub constant: i64,
}

impl fmt::Display for AtLeast {
    ghost output = { λ p. Some (codes "fn(var)") };

    fn fmt<W: fmt::Write>(&self, f: &mut fmt::Formatter<W>) -> fmt::Result {
        function(|_: &i64| true).fmt(f)
    }
}

impl PredicateReflection for AtLeast {
    ghost parameters_of = { λ p. [] };

    ghost children_of = { λ p. empty };

    fn parameters(&self, alloc: Global) -> Result<Vec<Parameter>, AllocError> {
        Ok(Vec::new(alloc))
    }

    fn children(&self, alloc: Global) -> Result<Vec<Child>, AllocError> {
        Ok(Vec::new(alloc))
    }
}

impl Predicate<i64> for AtLeast {
    ghost formula = { λ p v. IsExactly (Leaf (plain (Some (codes "fn(var)")))
        (int_le p.constant v)) };

    ghost infallible = { λ p v. Unit {0} };

    ghost text_fits = { λ p v f. exactly_text_fits };

    ghost one_formula = { λ p v f g lawful. one_exactly };

    fn eval(&self, alloc: Global, item: &i64) -> Result<bool, AllocError> {
        let constant = &self.constant;
        function(
            |n: &i64| -> bool
                ensures { result ≡ int_le constant.entry.now n.now }
            { *constant <= *n },
        )
        .eval(alloc, item)
    }

    fn find_case(
        &self,
        alloc: Global,
        expected: bool,
        item: &i64,
    ) -> Result<Option<Case>, AllocError> {
        let constant = &self.constant;
        function(
            |n: &i64| -> bool
                ensures { result ≡ int_le constant.entry.now n.now }
            { *constant <= *n },
        )
        .find_case(alloc, expected, item)
    }
}

impl PredicateChange<i64> for AtLeast {
    fn find_change(
        &self,
        alloc: Global,
        wanted: Option<bool>,
        item: &i64,
    ) -> Result<Option<Case>, AllocError> {
        leaf_change(alloc, self, wanted, item)
    }
}
