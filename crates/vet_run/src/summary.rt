//! What runs count, and what several count together.
ghost use Rattle.std.specs.Prelude.{◌≡◌, ◌≢◌, ◌+◌, ◌++◌, ◌&&◌, ℕ, List, Option, Some, None, Err};
ghost use Rattle.std.specs.Prelude.{IfErr, IfOk, IfSome, length, map, replicate, string_bytes};
ghost use Rattle.std.specs.Prelude.{true, false};
ghost use Rattle.std.specs.List.{list_all};
ghost use Rattle.vet_checks.specs.RuleChecks.{name_of};
ghost use Rattle.vet_checks.specs.declared.rule_check.RuleCheck.{RuleCheck};
ghost use Rattle.vet_run.specs.Counting.{AreCounted, all_counted};
ghost use Rattle.vet_run.specs.Summaries.{rows_of, IsSummary, Named};
ghost use Rattle.vet_run.specs.Sums.{both, both_rules, counted_over, fits, fits_one, named_of};
ghost use Rattle.vet_run.specs.Sums.{rule_names, sum_json, sum_of, sum_told, Sum};
ghost use Rattle.std.specs.Str.{IsUtf8};
ghost use Rattle.vet_run.specs.declared.read_summary.ReadSummaryError.TheVariants.{NoMemory};
ghost use Rattle.vet_run.specs.declared.summary.NoSum.TheVariants as no_sum;

use crate::counts::Counts;
use crate::read_summary::{ReadSummaryError, read_summary};
use crate::summary_json::summary_json;
use crate::summary_lines::{count_at, summary_lines};
use crate::tally::Tally;
use std::alloc::{AllocError, Global};
use std::error::Error;
use std::fmt;
use vet_checks::RuleCheck;

/// A rule's name, and how many records break it.
#[derive(Debug, Drop)]
pub struct RuleCount {
    pub rule: String,
    pub broken: u64,
}

/// What runs count. It is written as one object of JSON and read again, so that what runs over the
/// pieces of an input count can be added up.
#[derive(Debug, Drop)]
pub struct Summary {
    pub counts: Counts,
    /// The rules, in their order.
    pub rules: Vec<RuleCount>,
}

/// Why two summaries have no sum.
#[derive(Clone, Copy, Debug, PartialEq, Eq)]
pub enum NoSum {
    /// They are not of the same rules in the same order.
    OtherRules,
    /// 64 bits do not hold a count.
    TooMany,
}

impl fmt::Display for NoSum {
    ghost use Rattle.std.specs.Prelude.{Some};
    ghost use Rattle.vet_run.specs.Sums.{no_sum_text};

    ghost output = { λ fault. Some (no_sum_text fault) };

    fn fmt<W: fmt::Write>(&self, f: &mut fmt::Formatter<W>) -> fmt::Result {
        match self {
            NoSum::OtherRules => f.write_str("not by the same rules"),
            NoSum::TooMany => f.write_str("more than 64 bits count"),
        }
    }
}

impl Error for NoSum {}

// Whether the rules have the same name.
fn is_same(left: &RuleCount, right: &RuleCount) -> bool
    ensures same { result ≡ true → string_bytes left.now.rule ≡ string_bytes right.now.rule }
    ensures other { result ≡ false → string_bytes left.now.rule ≢ string_bytes right.now.rule }
{
    left.rule == right.rule
}

// Whether the rules have the same names, in the same order.
#[tactic(auto, using(crate::proofs::Sums::named))]
fn have_same_names(left: &[RuleCount], right: &[RuleCount]) -> bool
    ensures same { result ≡ true → rule_names left.now ≡ rule_names right.now }
    ensures other { result ≡ false → rule_names left.now ≢ rule_names right.now }
{
    if left.len() != right.len() {
        return false;
    }
    for index in 0..left.len() {
        if !is_same(&left[index], &right[index]) {
            return false;
        }
    }
    true
}

// The sum of counts, or none where 64 bits do not hold it.
fn both_counts(left: Counts, right: Counts) -> Option<Counts>
    ensures records { IfSome result (λ sum. sum.records ≡ left.records + right.records) }
    ensures failed { IfSome result (λ sum. sum.failed ≡ left.failed + right.failed) }
    ensures unreadable { IfSome result
        (λ sum. sum.unreadable ≡ left.unreadable + right.unreadable) }
    ensures none { result ≡ None → (fits_one (left.records + right.records)
        && (fits_one (left.failed + right.failed)
        && fits_one (left.unreadable + right.unreadable))) ≡ false }
{
    Some(Counts {
        records: left.records.checked_add(right.records)?,
        failed: left.failed.checked_add(right.failed)?,
        unreadable: left.unreadable.checked_add(right.unreadable)?,
    })
}

// Adds to each rule's count that of the other at its place, and says whether 64 bits hold all.
fn add_counts(rules: &mut Vec<RuleCount>, others: &[RuleCount]) -> bool
    ensures sum { result ≡ true → map named_of rules.new.items
        ≡ both_rules (map named_of rules.old.items) (map named_of others.now) }
    ensures too_many { result ≡ false → list_all (λ (r : Named). fits_one r.1)
        (both_rules (map named_of rules.old.items) (map named_of others.now)) ≡ false }
{
    for index in 0..rules.len() {
        let Some(other) = others.get(index) else {
            return true;
        };
        let Some(sum) = rules[index].broken.checked_add(other.broken) else {
            return false;
        };
        rules[index].broken = sum;
    }
    true
}

impl Summary {
    /// What a tally counted by these rules; of one that does not count for each rule, 0 for each.
    /// It takes memory for the rules' names.
    ///
    /// ```
    /// let summary = Summary::of(alloc, &rules, &tally)?;
    /// assert!(rt; summary.rules.len() == 2 && summary.counts.records == 0);
    /// ```
    pub fn of(alloc: Global, rules: &[RuleCheck], tally: &Tally) -> Result<Summary, AllocError>
        ensures counts { IfOk result (λ summary. summary.counts ≡ tally.now.counts) }
        ensures rules { IfOk result (λ summary. map named_of summary.rules.items
            ≡ rows_of 0 (map name_of rules.now) tally.now.broken.items) }
        ensures over { IfOk result (λ summary. (lines : List (Option (List ℕ)))
            → AreCounted rules.now lines Counts.NONE tally.now.counts
            → tally.now.broken.items
            ≡ all_counted rules.now lines (replicate (length rules.now) 0)
            → sum_of summary ≡ counted_over rules.now lines) }
    {
        let mut counted = Vec::new(alloc);
        for rule in rules {
            let broken = count_at(&tally.broken, counted.len());
            counted.push(RuleCount {
                rule: String::from_str(alloc, &rule.name)?,
                broken,
            })?;
        }
        Ok(Summary {
            counts: tally.counts,
            rules: counted,
        })
    }

    /// The sum of two by the same rules: of runs over two pieces of an input it is what a run over
    /// the whole counts.
    ///
    /// ```
    /// let sum = Summary::of(alloc, &rules, &tally)?.plus(&summary);
    /// assert!(rt; sum.is_ok_and(|sum| sum.counts.records == 0));
    /// ```
    #[tactic(auto, using(crate::proofs::Sums::added))]
    pub fn plus(self, other: &Summary) -> Result<Summary, NoSum>
        ensures sum { IfOk result (λ sum. sum_of sum ≡ both (sum_of self) (sum_of other.now)) }
        ensures same { IfOk result (λ sum.
            rule_names self.rules.items ≡ rule_names other.now.rules.items) }
        ensures whole { IfOk result (λ sum. (rules : List RuleCheck)
            (front back : List (Option (List ℕ)))
            → sum_of self ≡ counted_over rules front
            → sum_of other.now ≡ counted_over rules back
            → sum_of sum ≡ counted_over rules (front ++ back)) }
        ensures other_rules { result ≡ Err no_sum.OtherRules
            → rule_names self.rules.items ≢ rule_names other.now.rules.items }
        ensures too_many { result ≡ Err no_sum.TooMany
            → fits (both (sum_of self) (sum_of other.now)) ≡ false }
    {
        let Summary { counts, mut rules } = self;
        if !have_same_names(&rules, &other.rules) {
            return Err(NoSum::OtherRules);
        }
        let Some(counts) = both_counts(counts, other.counts) else {
            return Err(NoSum::TooMany);
        };
        if !add_counts(&mut rules, &other.rules) {
            return Err(NoSum::TooMany);
        }
        Ok(Summary { counts, rules })
    }

    /// A line for each rule: how many records break it, a bar and its name, in columns. Rules that
    /// more records break stand before others, and those that as many break in their order. A bar
    /// has a `#` for each record, or where a rule is broken by more than 40, for as many as it takes
    /// for none to be longer; then a last line says for how many. It takes memory for the lines and
    /// a row for each rule.
    ///
    /// ```
    /// let lines = summary.lines(alloc)?;
    /// assert!(rt; lines.as_str() == "0    a\n0    b\n");
    /// ```
    pub fn lines(&self, alloc: Global) -> Result<String, AllocError>
        ensures { IfOk result (λ text.
            IsSummary (map named_of self.now.rules.items) (string_bytes text)) }
    {
        summary_lines(alloc, &self.rules)
    }

    /// One object of JSON, without spaces and line feeds, as
    /// `{"records":4,"failed":1,"unreadable":0,"rules":[{"rule":"adult","broken":1}]}`. It takes
    /// memory for the text.
    ///
    /// ```
    /// let text = summary.to_json(alloc)?;
    /// let read = Summary::read(alloc, text.as_bytes())?;
    /// assert!(rt; read.rules.len() == 2);
    /// ```
    pub fn to_json(&self, alloc: Global) -> Result<String, AllocError>
        ensures { IfOk result (λ text. string_bytes text ≡ sum_json (sum_of self.now)) }
    {
        summary_json(alloc, self)
    }

    /// What `to_json` wrote, read again; members with other names are passed over. It takes memory
    /// as reading JSON does.
    ///
    /// ```
    /// let text = br#"{"records":4,"failed":1,"unreadable":0,"rules":[]}"#;
    /// let read = Summary::read(alloc, text)?;
    /// assert!(rt; read.counts.failed == 1);
    /// ```
    #[tactic(auto, using(crate::proofs::SumTexts::told_where_it_fits))]
    pub fn read(alloc: Global, text: &[u8]) -> Result<Summary, ReadSummaryError>
        ensures read { IfOk result (λ summary. sum_told text.now ≡ Some (sum_of summary)) }
        ensures refused { IfErr result (λ e. e ≢ NoMemory → sum_told text.now ≡ None) }
        // What `to_json` writes of a sum tells the sum.
        ensures written { (sum : Sum) → fits sum ≡ true → IsUtf8 text.now
            → text.now ≡ sum_json sum → sum_told text.now ≡ Some sum }
    {
        read_summary(alloc, text)
    }
}
