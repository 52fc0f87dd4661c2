//! An expression that is denied, without taking it over.
ghost use Rattle.std.specs.Prelude.{Some};
ghost use Rattle.vet_rules.specs.Trees.{Not, tree_of};
ghost use Rattle.vet_rules.specs.Printing.{printed};

use crate::display::expression::fmt_not;
use crate::expression::Expression;
use std::fmt;

/// An expression behind `not`.
#[derive(Drop)]
pub struct Denied<'a>(pub &'a Expression);

/// As a rule writes `Expression::Not` of the expression: `not`, and parentheses around a join or an
/// implication. Takes a stack frame or a few for each level, and no memory.
///
/// ```
/// let text = format!(in alloc; "{}", Denied(&rules[0].expression))?;
/// assert!(rt; text.as_str() == "not (/age >= 18 or /guest exists)");
/// ```
impl fmt::Display for Denied<'_> {
    ghost output = { λ denied. Some (printed (Not (tree_of denied.0.now))) };

    fn fmt<W: fmt::Write>(&self, f: &mut fmt::Formatter<W>) -> fmt::Result {
        fmt_not(self.0, true, f)?;
        Ok(())
    }
}
