//! What a rule says of a record.

use crate::condition::Condition;

/// How deep a rule may nest: by parentheses, `not`, `if`, `each`, `any` and `at least`. What stands
/// between `if` and `then` counts two levels, so that denied and alone it is no deeper. What is
/// joined or listed in a row is not nested, so a row may be longer.
pub const MAX_DEPTH: u32 = 100;

/// What joins expressions, the weakest first.
#[derive(Clone, Copy, Debug, PartialEq, Eq)]
pub enum Connective {
    Or,
    /// An odd number of the parts hold.
    Xor,
    And,
}

/// How many items of a list have to meet an expression.
#[derive(Clone, Copy, Debug, PartialEq, Eq)]
pub enum HowMany {
    Each,
    Any,
    /// At least so many of them, which may be 0 or more than there are.
    AtLeast(u64),
}

/// What a rule says of a record.
///
/// A path is a JSON pointer that begins at the record, or under `Quantified` at the item. It is
/// empty for that itself, which a rule writes as `/`. Behind `^` it begins at the record there too:
/// `^/a`, and `^` alone for the record, which a rule writes as `^/`. Its `~0` and `~1` stand as
/// they were written.
#[derive(Debug, Drop)]
pub enum Expression {
    /// What is said of the value at a path.
    Test(String, Condition),
    Not(Box<Expression>),
    /// Where the first one holds, so does the second: `if A then B`, the weakest operator, which
    /// means `not A or B`.
    Implies(Box<Expression>, Box<Expression>),
    /// How many items of the list at a path meet the expression.
    Quantified(HowMany, String, Box<Expression>),
    /// Two parts or more, in the order of the text. What one connective joins in a row is one
    /// join, so a part is itself joined by the same connective only where parentheses say so.
    Joined(Connective, Vec<Expression>),
    /// At least so many of the parts hold: one part or more, in the order of the text. The number
    /// may be 0 or above that of the parts.
    AtLeast(u64, Vec<Expression>),
}
