//! Predicates that are made of a list of predicates of one type.
//!
//! ```
//! let mut rules = Vec::new(alloc);
//! rules.push(predicate::ge(5))?;
//! rules.push(predicate::le(10))?;
//! let between = all_of(rules);
//! ```
//!
//! Rules of several types stand in a `BoxPredicate` or in an enum of the caller's.
ghost use Rattle.std.specs.Prelude.{◌≡◌, [], codes, map};
ghost use Rattle.std.specs.Fmt.{DisplaysOnOk};
ghost use Rattle.std.specs.List.{AllByRecursion};
ghost use Rattle.predicates_core.specs.Parts.{part_of_each};
ghost use Rattle.predicates_core.specs.Several.{further_texts, listed_text};
ghost use Rattle.predicates_core.specs.Thresholds.{IsOfThreshold, counted_text, threshold_formula};
ghost use Rattle.predicates_core.proofs.Several.{each_holds, each_weaker};
ghost use Rattle.predicates_core.proofs.ThresholdCases.{threshold_text_fits, one_by_threshold};
ghost use Rattle.predicates_core.proofs.ThresholdCases.{has_threshold};
ghost use Rattle.predicates_boolean.specs.Rules.{least_of_rules, quantifier_of, rules_of, rules_text};

use crate::limit::Threshold;
use predicates_core::custom::{
    AtLeastOne, Counting, Every, HowMany, Quantifier, each_child, parts_case, parts_change,
    parts_explained, parts_hold,
};
use predicates_core::reflection::{Case, Child, Parameter, PredicateReflection};
use predicates_core::{Content, Predicate, PredicateChange, ReadsContent, Total};
use std::alloc::{AllocError, Global};
use std::fmt;
use std::marker::PhantomData;

/// Holds where each of its rules does, where one does, or where at least so many do. Made by
/// `all_of`, `any_of` and `at_least`.
#[derive(PartialEq, Eq, Drop)]
pub struct RulesPredicate<Q, P> {
    rules: Vec<P>,
    quantifier: Q,
}

/// Holds where each of its rules does. Made by `all_of`.
pub type AllOfPredicate<P> = RulesPredicate<Every, P>;

/// Holds where one of its rules does. Made by `any_of`.
pub type AnyOfPredicate<P> = RulesPredicate<AtLeastOne, P>;

/// Holds where each of the rules does; `eval` stops at the first that does not. It prints
/// `all_of(..)`, and without rules it holds. Making it takes no memory.
///
/// ```
/// let all = predicate::all_of(vec![in alloc; predicate::ge(5), predicate::ge(10)]?);
/// assert!(rt; all.eval(alloc, &11)?);
/// assert!(rt; !all.eval(alloc, &7)?);
/// ```
pub fn all_of<P>(rules: Vec<P>) -> AllOfPredicate<P>
    ensures { rules_of result ≡ rules.items }
{
    RulesPredicate::new(Every, rules)
}

/// Holds where one of the rules does; `eval` stops at the first that does. It prints `any_of(..)`,
/// and without rules it does not hold. Making it takes no memory.
///
/// ```
/// let any = predicate::any_of(vec![in alloc; predicate::eq(5), predicate::eq(10)]?);
/// assert!(rt; any.eval(alloc, &10)?);
/// assert!(rt; !any.eval(alloc, &7)?);
/// ```
pub fn any_of<P>(rules: Vec<P>) -> AnyOfPredicate<P>
    ensures { rules_of result ≡ rules.items }
{
    RulesPredicate::new(AtLeastOne, rules)
}

impl<Q: Quantifier, P> RulesPredicate<Q, P> {
    // Of which so many of the rules have to hold.
    pub(super) fn new(quantifier: Q, rules: Vec<P>) -> RulesPredicate<Q, P>
        ensures quantifier { quantifier_of result ≡ quantifier }
        ensures rules { rules_of result ≡ rules.items }
    {
        RulesPredicate { rules, quantifier }
    }

    // How many of its rules have to hold.
    fn least(&self) -> usize
        ensures { result ≡ least_of_rules Q.how_many self.now }
    {
        self.quantifier.how_many().least_of(self.rules.len())
    }

    // What its cases are made of.
    fn counting(&self) -> Counting<'_, RulesPredicate<Q, P>>
        ensures whole { result.whole.now ≡ self.now }
        ensures name { result.name.now ≡ codes "rule" }
        ensures least { result.least ≡ least_of_rules Q.how_many self.now }
    {
        Counting {
            whole: self,
            name: "rule",
            least: self.least(),
        }
    }
}

// Writes each of the rules behind a comma.
fn write_further<P: fmt::Display, W: fmt::Write>(
    f: &mut fmt::Formatter<W>,
    rules: &[P],
) -> fmt::Result
    ensures { DisplaysOnOk W.write_str_gives f.old result
        (further_texts (map P.output rules.now)) f.new }
{
    for rule in rules {
        write!(f, ", {rule}")?;
    }
    Ok(())
}

// Writes the rules behind the word.
fn write_listed<P: fmt::Display, W: fmt::Write>(
    f: &mut fmt::Formatter<W>,
    word: &'static str,
    rules: &[P],
) -> fmt::Result
    ensures { DisplaysOnOk W.write_str_gives f.old result
        (listed_text word.entry.now (map P.output rules.now)) f.new }
{
    let Some((first, rest)) = rules.split_first() else {
        return write!(f, "{word}()");
    };
    write!(f, "{word}({first}")?;
    write_further(f, rest)?;
    f.write_str(")")
}

// Writes the number and the rules behind the word.
fn write_counted<P: fmt::Display, W: fmt::Write>(
    f: &mut fmt::Formatter<W>,
    word: &'static str,
    number: usize,
    rules: &[P],
) -> fmt::Result
    ensures { DisplaysOnOk W.write_str_gives f.old result
        (counted_text word.entry.now number (map P.output rules.now)) f.new }
{
    write!(f, "{word}({number}")?;
    write_further(f, rules)?;
    f.write_str(")")
}

impl<Q: Quantifier, P: fmt::Display> fmt::Display for RulesPredicate<Q, P> {
    ghost output = { λ p. rules_text (Q.how_many p.quantifier) (map P.output (rules_of p)) };

    fn fmt<W: fmt::Write>(&self, f: &mut fmt::Formatter<W>) -> fmt::Result {
        let rules = self.rules.as_slice();
        match self.quantifier.how_many() {
            HowMany::Every => write_listed(f, "all_of", rules),
            HowMany::AtLeastOne => write_listed(f, "any_of", rules),
            HowMany::AtLeast(least) => write_counted(f, "at_least", least, rules),
        }
    }
}

impl<Q: Quantifier, P: fmt::Display> Threshold for RulesPredicate<Q, P> {
    ghost most_text = { λ p most. counted_text
        (codes "at_most") most (map P.output (rules_of p)) };

    fn fmt_at_most<W: fmt::Write>(&self, most: usize, f: &mut fmt::Formatter<W>) -> fmt::Result {
        write_counted(f, "at_most", most, self.rules.as_slice())
    }
}

// Of a threshold it tells the number.
impl<Q: Quantifier, P: fmt::Debug> fmt::Debug for RulesPredicate<Q, P> {
    fn fmt<W: fmt::Write>(&self, f: &mut fmt::Formatter<W>) -> fmt::Result {
        match self.quantifier.how_many() {
            HowMany::AtLeast(least) => f
                .debug_struct("AtLeastPredicate")
                .field("least", &least)
                .field("rules", &self.rules)
                .finish(),
            _ => f
                .debug_struct("RulesPredicate")
                .field("rules", &self.rules)
                .field("quantifier", &PhantomData::<Q>)
                .finish(),
        }
    }
}

impl<Q: Quantifier, P: PredicateReflection> PredicateReflection for RulesPredicate<Q, P> {
    ghost parameters_of = { λ p. [] };

    ghost children_of = { λ p. part_of_each
        (codes "rule") P.output P.parameters_of P.children_of (rules_of p) };

    fn parameters(&self, alloc: Global) -> Result<Vec<Parameter>, AllocError> {
        Ok(Vec::new(alloc))
    }

    fn children(&self, alloc: Global) -> Result<Vec<Child>, AllocError> {
        each_child(alloc, "rule", self.rules.as_slice())
    }
}

impl<Q: Quantifier, P: Predicate<Item>, Item> Predicate<Item> for RulesPredicate<Q, P> {
    ghost lawful = { λ p. AllByRecursion P.lawful (rules_of p) };

    ghost formula = { λ p v. IsOfThreshold (least_of_rules Q.how_many p)
        (rules_text (Q.how_many p.quantifier) (map P.output (rules_of p)))
        (codes "rule") (λ q. P.formula q v) (rules_of p) };

    ghost infallible = { λ p v. AllByRecursion (λ q. P.infallible q v) (rules_of p) };

    ghost text_fits = { λ p v f. threshold_text_fits
        (least_of_rules Q.how_many p) (rules_of p) };

    ghost one_formula = { λ p v f g lawful. one_by_threshold
        (least_of_rules Q.how_many p) (rules_of p)
        (each_weaker P.lawful _ (rules_of p) (λ q of_q x y. P.one_formula q v x y of_q) lawful) };

    fn eval(&self, alloc: Global, item: &Item) -> Result<bool, AllocError> {
        parts_hold(alloc, self.least(), self.rules.as_slice(), item)
    }

    fn find_case(
        &self,
        alloc: Global,
        expected: bool,
        item: &Item,
    ) -> Result<Option<Case>, AllocError> {
        let list = self.counting();
        parts_case(alloc, list, self.rules.as_slice(), expected, item)
    }

    fn explain(
        &self,
        alloc: Global,
        wanted: Option<bool>,
        item: &Item,
    ) -> Result<Option<Case>, AllocError> {
        let list = self.counting();
        parts_explained(alloc, list, self.rules.as_slice(), wanted, item)
    }
}

impl<Q: Quantifier, P: PredicateChange<Item>, Item> PredicateChange<Item> for RulesPredicate<Q, P> {
    fn find_change(
        &self,
        alloc: Global,
        wanted: Option<bool>,
        item: &Item,
    ) -> Result<Option<Case>, AllocError> {
        let list = self.counting();
        parts_change(alloc, list, self.rules.as_slice(), wanted, item)
    }
}

impl<Q: Quantifier, P: Total<Item>, Item> Total<Item> for RulesPredicate<Q, P> {
    ghost formula_of = { λ p v. threshold_formula (least_of_rules Q.how_many p)
        (rules_text (Q.how_many p.quantifier) (map P.output (rules_of p))) (codes "rule")
        (λ q. P.formula_of q v) (rules_of p) };

    ghost always_lawful = { λ p. each_holds (rules_of p) P.always_lawful };

    ghost has_formula = { λ p v. has_threshold
        (least_of_rules Q.how_many p) (λ q. P.formula_of q v) (rules_of p)
        (λ q. P.has_formula q v) };
}

impl<Q: Quantifier, P: ReadsContent<Item>, Item: Content> ReadsContent<Item>
    for RulesPredicate<Q, P> {
    ghost content_formula = { λ p bytes. threshold_formula (least_of_rules Q.how_many p)
        (rules_text (Q.how_many p.quantifier) (map P.output (rules_of p))) (codes "rule")
        (λ q. P.content_formula q bytes) (rules_of p) };

    ghost always_lawful = { λ p. each_holds (rules_of p) P.always_lawful };

    ghost has_formula = { λ p v. has_threshold
        (least_of_rules Q.how_many p) (λ q. P.content_formula q (Item.content v))
        (rules_of p) (λ q. P.has_formula q v) };
}
