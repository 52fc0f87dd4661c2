//! Rules as text, one a line: what each says of a record, read exactly as the grammar says.
//!
//! ```text
//! rule         NAME: expression                  # and a comment
//!              "a name": expression
//! expression   if E then E                       the weakest; in parentheses as a part of another
//!              E or E    E xor E    E and E      the weaker first; a row of one connective is
//!                                                one join
//!              not E    ( E )    each PATH ( E )    any PATH ( E )    test
//!              at least K PATH ( E )    at least K of ( E, .. )    one E or more
//! test         PATH exists    PATH missing    PATH is_empty
//!              PATH == L      and != < <= > >=
//!              PATH == PATH   and the others
//!              PATH length == K    and the others; of a text, an array or an object
//!              PATH is text   and number, whole, bool, array, object, null
//!              PATH in [ L, .. ]
//!              keys PATH in [ T, .. ]            an object with no other keys
//!              PATH starts_with T      and ends_with, contains, matches
//! ```
//!
//! A path is a JSON pointer, and `/` alone the record. Inside `each`, `any` and `at least K PATH`
//! it begins at the item, but behind `^` at the record: `^/currency`, and `^/` alone the record. It
//! ends at a space, a parenthesis, a bracket, a comma, an operator, a `#` and a control character;
//! one that goes on there is written as a text, `"/Order ID"`, though not behind an operator, where
//! that is a text. Names of rules, and paths without quotes, have no no-break space. A literal L is
//! a text or a number as JSON writes it, `true`, `false` or `null`, and T is such a text. A number
//! K is a whole number from 0 to 2^64 - 1. Numbers that overflow a 64-bit float are refused, as are
//! lists and objects. Names of rules may be any of the words above, but no two rules have the same.
//!
//! An `Expression` prints as a rule writes it: a space between two tokens, but none inside
//! parentheses and brackets and none before a comma, and no more parentheses than it needs. The
//! text is read again as that expression (`written_is_read`).
#![tactic(auto)]

pub mod condition;
pub mod denied;
mod display;
mod element;
pub mod error;
pub mod expression;
pub mod fault;
mod findings;
mod fixed;
pub mod hint;
mod layout;
mod lexer;
pub mod literal;
mod parser;
pub mod quoted;
mod reader;
pub mod rule;
mod stop;
mod token;
