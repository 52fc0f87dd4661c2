//! How values compare.
ghost use Rattle.std.specs.Prelude.{◌≡◌, Some, option_and_then};
ghost use Rattle.serde_json.specs.Data.{null, number};
ghost use Rattle.serde_json.specs.View.{view};
ghost use Rattle.vet_rules.specs.Lexemes.{data_of};
ghost use Rattle.vet_rules.specs.Literals.{literal_of};
ghost use Rattle.vet_checks.specs.Numbers.{num_of_exact};
ghost use Rattle.vet_checks.specs.Scopes.{place_of, stands};
ghost use Rattle.vet_checks.specs.Questions.{order, holds_in};

use crate::number::{Exact, number_order};
use crate::scope::Scope;
use serde_json::Value;
use std::cmp::Ordering;
use vet_rules::condition::Comparison;
use vet_rules::literal::Literal;

fn order_to_number(value: &Value, other: Exact) -> Option<Ordering>
    ensures { result ≡ order (view value.now) (number (num_of_exact other)) }
{
    Some(number_order(value.as_number()?, other))
}

// How the value stands to null, above which every other is.
fn order_to_null(value: &Value) -> Ordering
    ensures { Some result ≡ order (view value.now) null }
{
    if value.is_null() {
        Ordering::Equal
    } else {
        Ordering::Greater
    }
}

/// How the value stands to the literal, where it is of its kind.
pub(crate) fn order_to_literal(value: &Value, literal: &Literal) -> Option<Ordering>
    ensures { result ≡ order (view value.now) (data_of (literal_of literal.now)) }
{
    match literal {
        Literal::Natural(n) => order_to_number(value, Exact::Natural(*n)),
        Literal::Negative(n) => order_to_number(value, Exact::Negative(*n)),
        Literal::Decimal { value: x, .. } => order_to_number(value, Exact::Float(*x)),
        Literal::Text(text) => Some(value.as_str()?.cmp(text.as_str())),
        Literal::Boolean(truth) => Some(value.as_bool()?.cmp(truth)),
        Literal::Null => Some(order_to_null(value)),
    }
}

/// How the value stands to the other, where both are numbers, texts or truths, or the other is
/// null.
pub(crate) fn order_to_value(value: &Value, other: &Value) -> Option<Ordering>
    ensures { result ≡ order (view value.now) (view other.now) }
{
    match other {
        Value::Number(number) => order_to_number(value, Exact::of_number(number)),
        Value::String(text) => Some(value.as_str()?.cmp(text.as_str())),
        Value::Bool(truth) => Some(value.as_bool()?.cmp(truth)),
        Value::Null => Some(order_to_null(value)),
        Value::Array(_) | Value::Object(_) => None,
    }
}

/// The same of what stands at the path.
pub(crate) fn order_to_place(value: &Value, scope: Scope<'_>, path: &str) -> Option<Ordering>
    ensures { result
        ≡ option_and_then (order (view value.now)) (stands path.now (place_of scope.entry)) }
{
    order_to_value(value, scope.at(path)?)
}

/// Whether the order is as the comparison asks.
pub(crate) fn is_in(comparison: Comparison, order: Ordering) -> bool
    ensures { result ≡ holds_in comparison order }
{
    match comparison {
        Comparison::Equal => order.is_eq(),
        Comparison::Unequal => order.is_ne(),
        Comparison::Below => order.is_lt(),
        Comparison::AtMost => order.is_le(),
        Comparison::Above => order.is_gt(),
        Comparison::AtLeast => order.is_ge(),
    }
}
