//! The case of a check over others, and of what would turn its verdict, as the predicates of the
//! library make them of their parts.
//!
//! A case is written to a place that is handed down, since an answer that holds one is large, and
//! each level would copy it.
ghost use Rattle.std.specs.Prelude.{◌≡◌, None, IfOk, OnOk, string_bytes};
ghost use Rattle.predicates_core.specs.Combined.{IsNot, IsPair};
ghost use Rattle.predicates_core.specs.Shows.{IsFound, IsFoundBy, found_parts};
ghost use Rattle.predicates_core.specs.Tally.{kind_of};
ghost use Rattle.explain_words.specs.Checks.{check_text, operator_of, FindsRight, HasFormula};
ghost use Rattle.explain_words.specs.Checks.{IsNodeOf};
ghost use Rattle.explain_words.specs.Weight.{IsLeafCheck};

use crate::check::TextCheck;
use predicates_core::Predicate;
use predicates_core::custom::{Operator, is_other, kept_if, opposite_of, shown_verdict};
use predicates_core::node::{binary_node_of, printed, unary_node};
use predicates_core::reflection::Case;
use predicates_text::{lines_even_view, trimmed_view};
use std::alloc::{AllocError, Global};

// What is asked: whether the case is of what would turn the verdict, and not of what explains it,
// which verdict it has to have, if only one is wanted, and about which item.
#[derive(Clone, Copy)]
pub(crate) struct Question<'a> {
    pub(crate) turns: bool,
    pub(crate) wanted: Option<bool>,
    pub(crate) item: &'a String,
}

// The parts of a check that joins two.
#[derive(Clone, Copy)]
pub(crate) struct Parts<'a> {
    pub(crate) left: &'a TextCheck,
    pub(crate) right: &'a TextCheck,
}

// What was found of each of them.
#[derive(Drop)]
pub(crate) struct PartCases {
    pub(crate) left: Option<Case>,
    pub(crate) right: Option<Case>,
}

impl TextCheck {
    // The `explain` of the check, or its `find_change`. The place for the case holds none before.
    #[cycle(answer)]
    pub(crate) fn answer_into(
        &self,
        alloc: Global,
        question: Question<'_>,
        found: &mut Option<Case>,
    ) -> Result<(), AllocError>
        requires { found.old ≡ None }
        ensures { OnOk result
            (IsFoundBy (kind_of question.entry.turns)
            (HasFormula self.now (string_bytes question.entry.item.now))
            question.entry.wanted found.new) }
    {
        match self {
            TextCheck::Trim(inner) => {
                let mut copy = String::new(alloc);
                let item = trimmed_view(alloc, question.item, &mut copy)?;
                inner.answer_into(alloc, Question { item, ..question }, found)
            }
            TextCheck::Normalize(inner) => {
                let mut copy = String::new(alloc);
                let item = lines_even_view(alloc, question.item, &mut copy)?;
                inner.answer_into(alloc, Question { item, ..question }, found)
            }
            TextCheck::Not(inner) => self.answer_not(alloc, inner, question, found),
            TextCheck::And(left, right)
            | TextCheck::Or(left, right)
            | TextCheck::Xor(left, right) => {
                self.answer_join(alloc, Parts { left, right }, question, found)
            }
            _ => self.answer_leaf(alloc, question, found),
        }
    }

    // The same of a check without parts: what would turn it is its one leaf.
    fn answer_leaf(
        &self,
        alloc: Global,
        question: Question<'_>,
        found: &mut Option<Case>,
    ) -> Result<(), AllocError>
        requires { IsLeafCheck self.now }
        ensures { OnOk result
            (IsFoundBy (kind_of question.entry.turns)
            (HasFormula self.now (string_bytes question.entry.item.now))
            question.entry.wanted found.new) }
    {
        self.explain_leaf(alloc, question, found)
    }

    // The `explain` of a check without parts.
    #[inline(never)]
    fn explain_leaf(
        &self,
        alloc: Global,
        question: Question<'_>,
        found: &mut Option<Case>,
    ) -> Result<(), AllocError>
        requires { IsLeafCheck self.now }
        ensures { OnOk result
            (IsFound (HasFormula self.now (string_bytes question.entry.item.now))
            question.entry.wanted found.new) }
    {
        let answer = match self {
            TextCheck::Empty(leaf) => leaf.explain(alloc, question.wanted, question.item),
            TextCheck::Equals(leaf) => leaf.explain(alloc, question.wanted, question.item),
            TextCheck::Starts(leaf) => leaf.explain(alloc, question.wanted, question.item),
            TextCheck::Ends(leaf) => leaf.explain(alloc, question.wanted, question.item),
            TextCheck::Contains(leaf) => leaf.explain(alloc, question.wanted, question.item),
            TextCheck::Matches(leaf) => leaf.explain(alloc, question.wanted, question.item),
            _ => unreachable!(),
        };
        *found = answer?;
        Ok(())
    }

    // As `not_explained` and `not_change`.
    #[inline(never)]
    #[cycle(answer)]
    fn answer_not(
        &self,
        alloc: Global,
        inner: &TextCheck,
        question: Question<'_>,
        found: &mut Option<Case>,
    ) -> Result<(), AllocError>
        requires { found.old ≡ None }
        ensures { OnOk result (IsFoundBy (kind_of question.entry.turns) (IsNot (check_text self.now)
            (HasFormula inner.now (string_bytes question.entry.item.now)))
            question.entry.wanted found.new) }
    {
        let mut part = None;
        let wanted = opposite_of(question.wanted);
        inner.answer_into(alloc, Question { wanted, ..question }, &mut part)?;
        let Some(part) = part else {
            return Ok(());
        };
        let text = printed(alloc, self)?;
        let outcome = !part.root().result();
        *found = Some(unary_node(alloc, text, outcome, "predicate", part)?);
        Ok(())
    }

    // The verdict of a right part, whose case is written where it may belong to the whole's.
    #[cycle(answer)]
    fn answer_right(
        &self,
        alloc: Global,
        operator: Operator,
        left_holds: bool,
        question: Question<'_>,
        found: &mut Option<Case>,
    ) -> Result<bool, AllocError>
        requires { found.old ≡ None }
        ensures { IfOk result (λ holds. FindsRight (kind_of question.entry.turns) operator
            (HasFormula self.now (string_bytes question.entry.item.now)) question.entry.wanted
            left_holds holds found.new) }
    {
        match (question.turns, operator) {
            (false, _) => {
                let wanted = operator.right_wanted(question.wanted, left_holds);
                if !operator.asks(left_holds) {
                    return Ok(shown_verdict(wanted, found));
                }
                self.answer_into(alloc, Question { wanted, ..question }, found)?;
                Ok(shown_verdict(wanted, found))
            }
            (true, Operator::And) => {
                let wanted = Some(false);
                self.answer_into(alloc, Question { wanted, ..question }, found)?;
                Ok(found.is_none())
            }
            (true, Operator::Or) => {
                let wanted = Some(true);
                self.answer_into(alloc, Question { wanted, ..question }, found)?;
                Ok(found.is_some())
            }
            (true, Operator::Xor) => self.eval(alloc, question.item),
        }
    }

    // As `join_explained` and `join_change`.
    #[inline(never)]
    #[cycle(answer)]
    fn answer_join(
        &self,
        alloc: Global,
        parts: Parts<'_>,
        question: Question<'_>,
        found: &mut Option<Case>,
    ) -> Result<(), AllocError>
        requires { found.old ≡ None }
        ensures { OnOk result (IsFoundBy (kind_of question.entry.turns)
            (IsPair (operator_of self.now) (check_text self.now)
            (HasFormula parts.entry.left.now (string_bytes question.entry.item.now))
            (HasFormula parts.entry.right.now (string_bytes question.entry.item.now)))
            question.entry.wanted found.new) }
    {
        let operator = self.operator();
        let wanted = operator.left_wanted(question.wanted);
        let mut left = None;
        parts
            .left
            .answer_into(alloc, Question { wanted, ..question }, &mut left)?;
        let left_holds = shown_verdict(wanted, &left);
        let mut right = None;
        let right_holds = parts
            .right
            .answer_right(alloc, operator, left_holds, question, &mut right)?;
        let holds = operator.apply(left_holds, right_holds);
        if is_other(question.wanted, holds) {
            return Ok(());
        }
        let kept = kept_if(operator.keeps(left_holds, right_holds), left);
        self.write_node(alloc, holds, PartCases { left: kept, right }, found)?;
        Ok(())
    }

    // Writes the node over the cases of the parts. It is not inlined, so that a level without a
    // case has a small frame.
    #[inline(never)]
    fn write_node(
        &self,
        alloc: Global,
        holds: bool,
        cases: PartCases,
        found: &mut Option<Case>,
    ) -> Result<(), AllocError>
        ensures { OnOk result
            (IsNodeOf self.now holds (found_parts cases.left cases.right) found.new) }
    {
        let text = printed(alloc, self)?;
        *found = Some(binary_node_of(alloc, text, holds, cases.left, cases.right)?);
        Ok(())
    }
}
