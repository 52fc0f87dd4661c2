//! The tokens of a rule.

use crate::fixed::Fixed;
use crate::literal::Literal;

#[derive(Drop)]
pub enum Kind {
    Word(Fixed),
    Path(String),
    Literal(Literal),
    /// The end of a line or a comment, behind all other tokens.
    End,
}

/// A token, and how many bytes of its line there are from it on.
#[derive(Drop)]
pub struct Token {
    pub kind: Kind,
    pub left: usize,
}
