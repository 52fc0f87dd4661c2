//! The check of a rule's expression.
ghost use Rattle.std.specs.Prelude.{◌≡◌, IfOk, IfErr, map, string_bytes};
ghost use Rattle.predicates_tree.specs.Trees.{trees_of, Row, Not, nothing, also};
ghost use Rattle.vet_rules.specs.declared.expression.Connective.TheVariants.{Or};
ghost use Rattle.vet_rules.specs.Conditions.{condition_of, Relate};
ghost use Rattle.vet_rules.specs.Trees.{tree_of as read_tree, trees_of as read_trees};
ghost use Rattle.vet_checks.specs.Refusals.{IsFailure, IsPatternOf, IsPatternIn};
ghost use Rattle.vet_checks.specs.Refusals.{IsPatternAmong};
ghost use Rattle.vet_checks.specs.Checks.{tree_of_check};
ghost use Rattle.vet_checks.specs.Nodes.{words_of_node};
ghost use Rattle.vet_checks.specs.CheckTrees.{check_tree, joined_by, wanted_by};
ghost use Rattle.vet_checks.specs.Compiled.{IsTreeOf, AreTreesOf, IsAsked};

use crate::check::{Check, Tree};
use crate::check_error::CheckError;
use crate::elements::Elements;
use crate::keys::allowed_keys;
use crate::literal_set::LiteralSet;
use crate::path_test::PathTest;
use crate::pattern::Pattern;
use crate::question::Question;
use crate::written::Written;
use predicates_core::custom::HowMany as Needed;
use predicates_tree::Quota;
use std::alloc::{AllocError, Global};
use vet_rules::condition::{Condition, Relation};
use vet_rules::denied::Denied;
use vet_rules::expression::{Connective, Expression, HowMany};

// What a relation to a text asks, with its pattern read.
fn related(alloc: Global, relation: Relation, text: String) -> Result<Question, CheckError>
    ensures asked { IfOk result (λ question.
        IsAsked (Relate relation (string_bytes text)) question) }
    ensures refused { IfErr result (IsFailure (λ pattern.
        IsPatternOf pattern (Relate relation (string_bytes text)))) }
{
    match relation {
        Relation::StartsWith => Ok(Question::StartsWith(text)),
        Relation::EndsWith => Ok(Question::EndsWith(text)),
        Relation::Contains => Ok(Question::Contains(text)),
        Relation::Matches => {
            let pattern = Pattern::read(alloc, text)?;
            Ok(Question::Matches(pattern))
        }
    }
}

// What a condition asks.
fn question_of(alloc: Global, condition: Condition) -> Result<Question, CheckError>
    ensures asked { IfOk result (λ question. IsAsked (condition_of condition) question) }
    ensures refused { IfErr result (IsFailure (λ pattern.
        IsPatternOf pattern (condition_of condition))) }
{
    match condition {
        Condition::Is(state) => Ok(Question::Is(state)),
        Condition::Compare(comparison, literal) => Ok(Question::Compare(comparison, literal)),
        Condition::CompareWith(comparison, path) => Ok(Question::CompareWith(comparison, path)),
        Condition::Length(comparison, number) => Ok(Question::Length(comparison, number)),
        Condition::IsOf(kind) => Ok(Question::IsOf(kind)),
        Condition::Relate(relation, text) => {
            let question = related(alloc, relation, text)?;
            Ok(question)
        }
        Condition::In(literals) => {
            let literals = LiteralSet::new(alloc, literals)?;
            Ok(Question::In(literals))
        }
        Condition::KeysIn(texts) => {
            let allowed = allowed_keys(alloc, texts)?;
            Ok(Question::KeysIn(allowed))
        }
    }
}

// The check that the one does not hold, or that the other does.
fn implication(
    alloc: Global,
    written: Written,
    denial: Written,
    premise: Tree,
    conclusion: Tree,
) -> Result<Tree, AllocError>
    ensures { IfOk result (λ tree. check_tree tree ≡ Row (words_of_node written) (joined_by Or)
        (also (Not (words_of_node denial) (check_tree premise))
        (also (check_tree conclusion) nothing))) }
{
    let denied = Tree::Not(denial, Box::new(alloc, premise)?);
    let mut parts = Vec::with_capacity(alloc, 2)?;
    parts.push(denied)?;
    parts.push(conclusion)?;
    Ok(Tree::Row(written, joined_by(Connective::Or), parts))
}

// How many of the parts have to hold that a connective joins.
fn joined_by(connective: Connective) -> Quota
    ensures { result ≡ joined_by connective }
{
    match connective {
        Connective::Or => Quota::Threshold(Needed::AtLeastOne),
        Connective::Xor => Quota::Odd,
        Connective::And => Quota::Threshold(Needed::Every),
    }
}

// How many elements have to meet it.
fn wanted_by(quantifier: HowMany) -> Quota
    ensures { result ≡ wanted_by quantifier }
{
    match quantifier {
        HowMany::Each => Quota::Threshold(Needed::Every),
        HowMany::Any => Quota::Threshold(Needed::AtLeastOne),
        HowMany::AtLeast(least) => Quota::Threshold(Needed::AtLeast(least as usize)),
    }
}

// The tree of a rule's expression.
#[cycle(compile)]
fn tree_of(alloc: Global, expression: Expression) -> Result<Tree, CheckError>
    ensures compiled { IfOk result (λ tree. IsTreeOf (read_tree expression) (check_tree tree)) }
    ensures refused { IfErr result (IsFailure (λ pattern.
        IsPatternIn pattern (read_tree expression))) }
{
    let text = format!(in alloc; "{expression}")?;
    let written = Written { text };
    match expression {
        Expression::Test(path, condition) => {
            let question = question_of(alloc, condition)?;
            let Written { text } = written;
            Ok(Tree::Leaf(PathTest {
                text,
                path,
                question,
            }))
        }
        Expression::Not(inner) => {
            let inner = tree_of(alloc, Box::into_inner(inner))?;
            Ok(Tree::Not(written, Box::new(alloc, inner)?))
        }
        Expression::Implies(premise, conclusion) => {
            let premise = Box::into_inner(premise);
            let text = format!(in alloc; "{}", Denied(&premise))?;
            let premise = tree_of(alloc, premise)?;
            let conclusion = tree_of(alloc, Box::into_inner(conclusion))?;
            let tree = implication(alloc, written, Written { text }, premise, conclusion)?;
            Ok(tree)
        }
        Expression::Quantified(quantifier, path, inner) => {
            let inner = tree_of(alloc, Box::into_inner(inner))?;
            let inner = Box::new(alloc, inner)?;
            Ok(Tree::Members(written, wanted_by(quantifier), Elements { path }, inner))
        }
        Expression::Joined(connective, parts) => {
            let parts = trees_of(alloc, parts)?;
            Ok(Tree::Row(written, joined_by(connective), parts))
        }
        Expression::AtLeast(least, parts) => {
            let parts = trees_of(alloc, parts)?;
            Ok(Tree::Row(written, wanted_by(HowMany::AtLeast(least)), parts))
        }
    }
}

#[cycle(compile)]
fn trees_of(alloc: Global, expressions: Vec<Expression>) -> Result<Vec<Tree>, CheckError>
    ensures compiled { IfOk result (λ trees. AreTreesOf
        (read_trees (map read_tree expressions.items))
        (trees_of (map check_tree trees.items))) }
    ensures refused { IfErr result (IsFailure (λ pattern.
        IsPatternAmong pattern (read_trees (map read_tree expressions.items)))) }
{
    let mut trees = Vec::with_capacity(alloc, expressions.len())?;
    for expression in expressions {
        trees.push(tree_of(alloc, expression)?)?;
    }
    Ok(trees)
}

/// The check of a rule's expression. It prints the expression, and each part of it prints its own,
/// with no more parentheses than it needs. `if A then B` is checked as `not A or B`, under its own
/// text. It takes memory for the check and these texts, and is
/// refused where memory is, or a pattern: the error tells the first one, and why.
///
/// ```
/// let mut rules = read_rules(alloc, b"adult: /age >= 18")?;
/// let Rule { name, expression } = rules.pop().ok_or("no rule")?;
/// let check = check_of(alloc, expression)?;
/// assert!(rt; check.text() == "/age >= 18");
/// ```
pub fn check_of(alloc: Global, expression: Expression) -> Result<Check, CheckError>
    ensures compiled { IfOk result (λ check.
        IsTreeOf (read_tree expression) (tree_of_check check)) }
    // It is refused where memory is, or a pattern that stands in it.
    ensures refused { IfErr result (IsFailure (λ pattern.
        IsPatternIn pattern (read_tree expression))) }
{
    let tree = tree_of(alloc, expression)?;
    Ok(Check { tree })
}
