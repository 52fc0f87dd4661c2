//! What stands in a list.

ghost use Rattle.std.specs.Prelude.{◌≡◌, ℕ, List, Option, option_map, string_bytes, IfOk};
ghost use Rattle.vet_rules.specs.Literals.{Literal as Value, literal_of};
ghost use Rattle.vet_rules.specs.Signs.{Sign, sign_of};
ghost use Rattle.vet_rules.specs.Grammar.{value_in, text_in};
ghost use Rattle.vet_rules.specs.Printing.{literal_sign, text_sign, written_sign};

use crate::condition::ValueKind;
use crate::error::Expected;
use crate::fixed::Fixed;
use crate::layout::Written;
use crate::literal::Literal;
use crate::token::Kind;
use std::alloc::AllocError;

/// What a token may be.
pub trait Element: Sized + Drop {
    ghost use Rattle.vet_rules.specs.declared.error.Expected.{Expected};

    // It without where it lies in memory.
    ghost Value: { Type 0 };

    ghost value: { Self → Value };

    ghost seen: { Sign → Option Value };

    ghost sign: { Value → Sign };

    ghost expected: { Expected };

    /// What is expected where no token is such.
    fn expected() -> Expected
        ensures { result ≡ expected };

    /// What the token is.
    fn seen(kind: &Kind) -> Result<Option<Self>, AllocError>
        ensures { IfOk result (λ v. option_map value v ≡ seen (sign_of kind.now)) };

    /// Its token.
    fn token(&self) -> Written<'_>
        ensures { written_sign result ≡ sign (value self.now) };
}

fn copy(literal: &Literal) -> Result<Literal, AllocError>
    ensures { IfOk result (λ v. literal_of v ≡ literal_of literal.now) }
{
    match literal {
        Literal::Natural(n) => Ok(Literal::Natural(*n)),
        Literal::Negative(n) => Ok(Literal::Negative(*n)),
        Literal::Decimal { text, value } => Ok(Literal::Decimal {
            text: text.clone()?,
            value: *value,
        }),
        Literal::Text(text) => Ok(Literal::Text(text.clone()?)),
        Literal::Boolean(b) => Ok(Literal::Boolean(*b)),
        Literal::Null => Ok(Literal::Null),
    }
}

impl Element for Literal {
    ghost use Rattle.vet_rules.specs.declared.error.Expected.TheVariants as expected;

    ghost Value = { Value };

    ghost value = { literal_of };

    ghost seen = { value_in };

    ghost sign = { literal_sign };

    ghost expected = { expected.Literal };

    fn expected() -> Expected {
        Expected::Literal
    }

    fn seen(kind: &Kind) -> Result<Option<Literal>, AllocError> {
        match kind {
            Kind::Literal(literal) => Ok(Some(copy(literal)?)),
            Kind::Word(Fixed::Boolean(b)) => Ok(Some(Literal::Boolean(*b))),
            Kind::Word(Fixed::ValueKind(ValueKind::Null)) => Ok(Some(Literal::Null)),
            _ => Ok(None),
        }
    }

    fn token(&self) -> Written<'_> {
        Written::Value(self)
    }
}

impl Element for String {
    ghost use Rattle.vet_rules.specs.declared.error.Expected.TheVariants as expected;

    ghost Value = { List ℕ };

    ghost value = { λ text. string_bytes text };

    ghost seen = { text_in };

    ghost sign = { text_sign };

    ghost expected = { expected.Text };

    fn expected() -> Expected {
        Expected::Text
    }

    fn seen(kind: &Kind) -> Result<Option<String>, AllocError> {
        match kind {
            Kind::Literal(Literal::Text(text)) => Ok(Some(text.clone()?)),
            _ => Ok(None),
        }
    }

    fn token(&self) -> Written<'_> {
        Written::Text(self)
    }
}
