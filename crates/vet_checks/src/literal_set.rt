//! The literals of a list, to be looked up.
ghost use Rattle.std.specs.Prelude.{◌≡◌, ◌||◌, IfOk, OnOk, map, string_bytes};
ghost use Rattle.std.specs.BTreeSet.{contains_by};
ghost use Rattle.serde_json.specs.Data.{Data, number, string};
ghost use Rattle.serde_json.specs.View.{view, number_view};
ghost use Rattle.vet_rules.specs.Lexemes.{data_of};
ghost use Rattle.vet_rules.specs.Literals.{literal_of};
ghost use Rattle.vet_checks.specs.Numbers.{number_cmp, num_of_exact};
ghost use Rattle.vet_checks.specs.Questions.{is_among, is_equal, is_in_set, order};

use crate::number::Exact;
use serde_json::{Number, Value};
use std::alloc::{AllocError, Global};
use std::collections::BTreeSet;
use vet_rules::literal::Literal;

/// The literals of a list: a value is looked up among its texts or numbers, which are in order.
#[derive(Drop)]
pub struct LiteralSet {
    pub(crate) texts: BTreeSet<String>,
    pub(crate) numbers: BTreeSet<Exact>,
    pub(crate) has_null: bool,
    pub(crate) has_true: bool,
    pub(crate) has_false: bool,
}

impl LiteralSet {
    /// That of the literals.
    pub(crate) fn new(alloc: Global, literals: Vec<Literal>) -> Result<LiteralSet, AllocError>
        ensures { IfOk result (λ set. (d : Data)
            → is_in_set set d ≡ is_among (map literal_of literals.items) d) }
    {
        let mut set = LiteralSet {
            texts: BTreeSet::new(alloc),
            numbers: BTreeSet::new(alloc),
            has_null: false,
            has_true: false,
            has_false: false,
        };
        for literal in literals {
            set.add(literal)?;
        }
        Ok(set)
    }

    fn add(&mut self, literal: Literal) -> Result<(), AllocError>
        ensures { OnOk result ((d : Data) → is_in_set self.new d
            ≡ (is_in_set self.old d || is_equal (order d (data_of (literal_of literal))))) }
    {
        match literal {
            Literal::Natural(n) => self.add_number(Exact::Natural(n)),
            Literal::Negative(n) => self.add_number(Exact::Negative(n)),
            Literal::Decimal { value, .. } => self.add_number(Exact::Float(value)),
            Literal::Text(text) => self.add_text(text),
            Literal::Boolean(true) => {
                self.has_true = true;
                Ok(())
            }
            Literal::Boolean(false) => {
                self.has_false = true;
                Ok(())
            }
            Literal::Null => {
                self.has_null = true;
                Ok(())
            }
        }
    }

    fn add_number(&mut self, member: Exact) -> Result<(), AllocError>
        ensures { OnOk result ((d : Data) → is_in_set self.new d
            ≡ (is_in_set self.old d || is_equal (order d (number (num_of_exact member))))) }
    {
        self.numbers.insert(member)?;
        Ok(())
    }

    fn add_text(&mut self, text: String) -> Result<(), AllocError>
        ensures { OnOk result ((d : Data) → is_in_set self.new d
            ≡ (is_in_set self.old d || is_equal (order d (string (string_bytes text))))) }
    {
        self.texts.insert(text)?;
        Ok(())
    }

    /// Whether the value equals one of the literals.
    pub(crate) fn has(&self, value: &Value) -> bool
        ensures { result ≡ is_in_set self.now (view value.now) }
    {
        match value {
            Value::Number(number) => self.has_number(number),
            Value::String(text) => self.texts.contains(text.as_str()),
            Value::Bool(true) => self.has_true,
            Value::Bool(false) => self.has_false,
            Value::Null => self.has_null,
            Value::Array(_) | Value::Object(_) => false,
        }
    }

    fn has_number(&self, number: &Number) -> bool
        ensures { result ≡ contains_by (λ member.
            number_cmp (number_view number.now) (num_of_exact member)) self.now.numbers }
    {
        self.numbers.contains(&Exact::of_number(number))
    }
}
