//! A check of texts, made of words.
ghost use mathlib.Core.Bool.{beq};
ghost use Rattle.std.specs.Prelude.{◌≡◌, ◌≤◌, ℕ, List, Bool, [], IfOk, string_bytes};
ghost use Rattle.std.specs.Fmt.{DisplaysOnOk};
ghost use Rattle.predicates_core.specs.Combined.{infix_text};
ghost use Rattle.predicates_core.specs.Formula.{HasTruth};
ghost use Rattle.predicates_core.specs.Tree.{empty};
ghost use Rattle.predicates_text.specs.ViewFormulas.{trimmed_bytes, even_bytes};
ghost use Rattle.explain_words.specs.Checks.{check_text, check_formula, HasFormula};
ghost use Rattle.explain_words.specs.Checks.{IsInfallibleCheck, operator_of};
ghost use Rattle.explain_words.specs.CheckLaws.{check_text_fits, one_check, has_check_formula};
ghost use Rattle.explain_words.specs.Weight.{weight, IsLeafCheck};

mod answer;
mod rotate;

use answer::Question;
use predicates_core::custom::Operator;
use predicates_core::reflection::{Case, Child, Parameter, PredicateReflection};
use predicates_core::{Predicate, PredicateChange, ReadsContent, Total};
use predicates_item::ord::EqPredicate;
use predicates_text::{
    ContainsPredicate, EndsWithPredicate, IsEmptyPredicate, RegexPredicate, StartsWithPredicate,
    lines_even_view, trimmed_view,
};
use rotate::rotate_left;
use std::alloc::{AllocError, Global};
use std::fmt;

/// A check of texts, with a variant for each word of `Word`. It has no parameters and no children.
///
/// Its `eval` takes no memory except under `Matches`, `Trim` and `Normalize`.
pub enum TextCheck {
    /// The text has no characters.
    Empty(IsEmptyPredicate),
    /// The text is the constant.
    Equals(EqPredicate<String>),
    /// The text begins with the pattern.
    Starts(StartsWithPredicate),
    /// The text ends with the pattern.
    Ends(EndsWithPredicate),
    /// The pattern has a place in the text.
    Contains(ContainsPredicate),
    /// The regular expression has a match in the text.
    Matches(RegexPredicate),
    /// The check holds of the text without the white space at its ends.
    Trim(Box<TextCheck>),
    /// The check holds of the text with even line endings.
    Normalize(Box<TextCheck>),
    /// The check does not hold.
    Not(Box<TextCheck>),
    /// Both checks hold; the right one is asked only where the left one holds.
    And(Box<TextCheck>, Box<TextCheck>),
    /// One or both checks hold; the right one is asked only where the left one does not hold.
    Or(Box<TextCheck>, Box<TextCheck>),
    /// Exactly one check holds; both are asked.
    Xor(Box<TextCheck>, Box<TextCheck>),
}

impl TextCheck {
    // The operator of a check that joins two.
    fn operator(&self) -> Operator
        ensures { result ≡ operator_of self.now }
    {
        match self {
            TextCheck::Or(_, _) => Operator::Or,
            TextCheck::Xor(_, _) => Operator::Xor,
            _ => Operator::And,
        }
    }

    // The check below each `not` that stands before it, and whether it has the same verdict.
    fn without_nots(&self) -> (&TextCheck, bool)
        ensures truth { (bytes : List ℕ) (b : Bool) → HasTruth (HasFormula result.0.now bytes) b
            → HasTruth (HasFormula self.now bytes) (beq b result.1) }
        ensures infallible { IsInfallibleCheck self.now → IsInfallibleCheck result.0.now }
        ensures smaller { weight result.0.now ≤ weight self.now }
    {
        let mut check = self;
        let mut is_same = true;
        while let TextCheck::Not(inner) = check {
            is_same = !is_same;
            check = inner;
        }
        (check, is_same)
    }

    // Its verdict on the text without the white space at its ends. Like the next one it is not
    // inlined, so that `eval` of other checks has a small frame.
    #[inline(never)]
    #[cycle(eval)]
    fn trimmed_holds(&self, alloc: Global, item: &String) -> Result<bool, AllocError>
        ensures { IfOk result (HasTruth
            (HasFormula self.now (trimmed_bytes (string_bytes item.now)))) }
    {
        let mut copy = String::new(alloc);
        let holds = self.eval(alloc, trimmed_view(alloc, item, &mut copy)?)?;
        Ok(holds)
    }

    // Its verdict on the text with even line endings.
    #[inline(never)]
    #[cycle(eval)]
    fn normalized_holds(&self, alloc: Global, item: &String) -> Result<bool, AllocError>
        ensures { IfOk result (HasTruth
            (HasFormula self.now (even_bytes (string_bytes item.now)))) }
    {
        let mut copy = String::new(alloc);
        let holds = self.eval(alloc, lines_even_view(alloc, item, &mut copy)?)?;
        Ok(holds)
    }

    // Drops a check without parts.
    fn drop_leaf(self)
        requires { IsLeafCheck self }
    {
        match self {
            TextCheck::Empty(_)
            | TextCheck::Equals(_)
            | TextCheck::Starts(_)
            | TextCheck::Ends(_)
            | TextCheck::Contains(_)
            | TextCheck::Matches(_) => {}
            _ => unreachable!(),
        }
    }

    // Two checks in parentheses, with the operator between them.
    #[cycle(text)]
    fn fmt_joined<W: fmt::Write>(
        left: &TextCheck,
        operator: &str,
        right: &TextCheck,
        f: &mut fmt::Formatter<W>,
    ) -> fmt::Result
        ensures { DisplaysOnOk W.write_str_gives f.old result
            (infix_text operator.now (check_text left.now) (check_text right.now)) f.new }
    {
        write!(f, "(")?;
        fmt::Display::fmt(left, f)?;
        write!(f, "{operator}")?;
        fmt::Display::fmt(right, f)?;
        write!(f, ")")
    }
}

// A loop, so that a deep check does not run out of stack: it rotates left parts to the right until
// there are none. It takes no memory.
impl Drop for TextCheck {
    fn drop(mut self) {
        loop {
            match self {
                TextCheck::Trim(inner) | TextCheck::Normalize(inner) | TextCheck::Not(inner) => {
                    self = Box::into_inner(inner);
                }
                TextCheck::And(mut left, mut right)
                | TextCheck::Or(mut left, mut right)
                | TextCheck::Xor(mut left, mut right) => {
                    if rotate_left(&mut left, &mut right) {
                        self = TextCheck::And(right, left); // whichever it was, it is dropped
                    } else {
                        Box::into_inner(left).drop_leaf();
                        self = Box::into_inner(right);
                    }
                }
                TextCheck::Empty(_)
                | TextCheck::Equals(_)
                | TextCheck::Starts(_)
                | TextCheck::Ends(_)
                | TextCheck::Contains(_)
                | TextCheck::Matches(_) => return,
            }
        }
    }
}

impl fmt::Display for TextCheck {
    ghost output = { λ c. check_text c };

    #[cycle(text)]
    fn fmt<W: fmt::Write>(&self, f: &mut fmt::Formatter<W>) -> fmt::Result {
        match self {
            TextCheck::Empty(leaf) => leaf.fmt(f),
            TextCheck::Equals(leaf) => leaf.fmt(f),
            TextCheck::Starts(leaf) => leaf.fmt(f),
            TextCheck::Ends(leaf) => leaf.fmt(f),
            TextCheck::Contains(leaf) => leaf.fmt(f),
            TextCheck::Matches(leaf) => leaf.fmt(f),
            TextCheck::Trim(inner) | TextCheck::Normalize(inner) => (**inner).fmt(f),
            TextCheck::Not(inner) => {
                write!(f, "(! ")?;
                (**inner).fmt(f)?;
                write!(f, ")")
            }
            TextCheck::And(left, right)
            | TextCheck::Or(left, right)
            | TextCheck::Xor(left, right) => {
                TextCheck::fmt_joined(left, self.operator().sign(), right, f)
            }
        }
    }
}

impl PredicateReflection for TextCheck {
    ghost parameters_of = { λ _. [] };

    ghost children_of = { λ _. empty };

    fn parameters(&self, alloc: Global) -> Result<Vec<Parameter>, AllocError> {
        Ok(Vec::new(alloc))
    }

    fn children(&self, alloc: Global) -> Result<Vec<Child>, AllocError> {
        Ok(Vec::new(alloc))
    }
}

impl Predicate<String> for TextCheck {
    ghost formula = { λ c v. HasFormula c (string_bytes v) };

    ghost infallible = { λ c _. IsInfallibleCheck c };

    ghost text_fits = { λ c v f. check_text_fits c (string_bytes v) f };

    ghost one_formula = { λ c v f g lawful. one_check c (string_bytes v) f g };

    // A loop over the part whose answer is that of the whole, or its opposite.
    #[cycle(eval)]
    #[tactic(auto, using(predicates_core::proofs::CombinedLemmas::combined))]
    fn eval(&self, alloc: Global, item: &String) -> Result<bool, AllocError> {
        let mut check = self;
        let mut wanted = true;
        loop {
            match check {
                TextCheck::Empty(leaf) => return Ok(leaf.eval(alloc, item)? == wanted),
                TextCheck::Equals(leaf) => return Ok(leaf.eval(alloc, item)? == wanted),
                TextCheck::Starts(leaf) => return Ok(leaf.eval(alloc, item)? == wanted),
                TextCheck::Ends(leaf) => return Ok(leaf.eval(alloc, item)? == wanted),
                TextCheck::Contains(leaf) => return Ok(leaf.eval(alloc, item)? == wanted),
                TextCheck::Matches(leaf) => return Ok(leaf.eval(alloc, item)? == wanted),
                TextCheck::Trim(inner) => return Ok(inner.trimmed_holds(alloc, item)? == wanted),
                TextCheck::Normalize(inner) => {
                    return Ok(inner.normalized_holds(alloc, item)? == wanted);
                }
                TextCheck::Not(inner) => {
                    let (part, is_same) = inner.without_nots();
                    wanted = is_same != wanted;
                    check = part;
                }
                TextCheck::And(left, right)
                | TextCheck::Or(left, right)
                | TextCheck::Xor(left, right) => {
                    let left_holds = left.eval(alloc, item)?;
                    let operator = check.operator();
                    if !operator.asks(left_holds) {
                        return Ok(left_holds == wanted);
                    }
                    wanted = operator.apply(left_holds, false) != wanted;
                    check = right;
                }
            }
        }
    }

    #[cycle(find)]
    fn find_case(
        &self,
        alloc: Global,
        expected: bool,
        item: &String,
    ) -> Result<Option<Case>, AllocError> {
        match self {
            TextCheck::Trim(inner) => {
                let mut copy = String::new(alloc);
                inner.find_case(alloc, expected, trimmed_view(alloc, item, &mut copy)?)
            }
            TextCheck::Normalize(inner) => {
                let mut copy = String::new(alloc);
                inner.find_case(alloc, expected, lines_even_view(alloc, item, &mut copy)?)
            }
            TextCheck::Not(_) | TextCheck::And(_, _) | TextCheck::Or(_, _) | TextCheck::Xor(_, _) =>
                {
                    if self.eval(alloc, item)? != expected {
                        return Ok(None);
                    }
                    self.explain(alloc, Some(expected), item)
                }
            _ => self.explain(alloc, Some(expected), item),
        }
    }

    fn explain(
        &self,
        alloc: Global,
        wanted: Option<bool>,
        item: &String,
    ) -> Result<Option<Case>, AllocError> {
        let mut found = None;
        let question = Question {
            turns: false,
            wanted,
            item,
        };
        self.answer_into(alloc, question, &mut found)?;
        Ok(found)
    }
}

impl PredicateChange<String> for TextCheck {
    fn find_change(
        &self,
        alloc: Global,
        wanted: Option<bool>,
        item: &String,
    ) -> Result<Option<Case>, AllocError> {
        let mut found = None;
        let question = Question {
            turns: true,
            wanted,
            item,
        };
        self.answer_into(alloc, question, &mut found)?;
        Ok(found)
    }
}

impl Total<String> for TextCheck {
    ghost formula_of = { λ c v. check_formula c (string_bytes v) };

    ghost always_lawful = { λ c. tt };

    ghost has_formula = { λ c v. has_check_formula c (string_bytes v) };
}

impl ReadsContent<String> for TextCheck {
    ghost content_formula = { λ c bytes. check_formula c bytes };

    ghost always_lawful = { λ c. tt };

    ghost has_formula = { λ c v. has_check_formula c (string_bytes v) };
}
