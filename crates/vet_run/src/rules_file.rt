//! The rules of a file, each with its check.
ghost use Rattle.std.specs.Prelude.{◌≡◌, ◌↔◌, ℕ, List, [], ◌∷◌, ◌++◌, IfOk, IfErr, IsTrue, Any, map};
ghost use Rattle.std.specs.List.{AllZip};
ghost use Rattle.std.specs.Fmt.{DisplaysOnOk};
ghost use Rattle.vet_rules.specs.Grammar.{max_depth};
ghost use Rattle.vet_rules.specs.Rules.{AreRulesOf, lines_of, rule_of};
ghost use Rattle.vet_rules.specs.Trees.{Tree};
ghost use Rattle.vet_checks.specs.Refusals.{IsFailure, IsPatternIn};
ghost use Rattle.vet_run.specs.RuleFaults.{rule_fault_text, texts_of_lines, text_behind};
ghost use Rattle.vet_run.specs.RulesFile.{IsCheckOf, IsToldOfRule, IsToldOn, IsTaken, IsToldAt};
ghost use Rattle.vet_run.specs.RulesFile.{AreTold, IsRefusalOf, IsRejected};

use crate::rule_fault::RuleFault;
use std::alloc::{AllocError, AllocFailed, Global};
use std::error::Error;
use std::fmt;
use vet_checks::{CheckError, RuleCheck, check_of};
use vet_rules::error::RulesError;
use vet_rules::fault::Fault;
use vet_rules::rule::{Rule, read_faults, read_rules, without_mark};

/// Why the rules of a file were not read.
#[derive(Debug, Drop)]
pub enum ReadChecksError {
    NoMemory,
    /// The fault of each line that has one, in the order of the lines, 20 at most, and `More` where
    /// there are more.
    Unreadable(Vec<RuleFault>),
}

// A fault, behind a line feed where it is not the first.
fn fmt_fault<W: fmt::Write>(
    fault: &RuleFault,
    index: usize,
    f: &mut fmt::Formatter<W>,
) -> fmt::Result
    ensures { DisplaysOnOk W.write_str_gives f.old result
        (text_behind index (rule_fault_text fault.now)) f.new }
{
    if index == 0 {
        return write!(f, "{fault}");
    }
    write!(f, "\n{fault}")
}

fn fmt_faults<W: fmt::Write>(faults: &[RuleFault], f: &mut fmt::Formatter<W>) -> fmt::Result
    ensures { DisplaysOnOk W.write_str_gives f.old result
        (texts_of_lines (map rule_fault_text faults.now)) f.new }
{
    for (index, fault) in faults.iter().enumerate() {
        fmt_fault(fault, index, f)?;
    }
    Ok(())
}

/// One line for each fault, with line feeds between them.
impl fmt::Display for ReadChecksError {
    ghost use Rattle.vet_run.specs.RulesFile.{read_error_text};

    ghost output = { read_error_text };

    fn fmt<W: fmt::Write>(&self, f: &mut fmt::Formatter<W>) -> fmt::Result {
        match self {
            ReadChecksError::NoMemory => f.write_str("no memory"),
            ReadChecksError::Unreadable(faults) => fmt_faults(faults, f),
        }
    }
}

impl Error for ReadChecksError {}

impl From<AllocError> for ReadChecksError {
    fn from(_e: AllocError) -> ReadChecksError {
        ReadChecksError::NoMemory
    }
}

impl<T: Drop> From<AllocFailed<T>> for ReadChecksError {
    fn from(_e: AllocFailed<T>) -> ReadChecksError {
        ReadChecksError::NoMemory
    }
}

// How many faults of a file are told at most.
const MOST_FAULTS: usize = 20;

// The fault of the rule's pattern, if it has one.
fn pattern_fault(alloc: Global, number: usize, rule: Rule) -> Result<Option<RuleFault>, AllocError>
    ensures { IfOk result (IsToldOfRule number (rule_of rule)) }
{
    let Rule { name, expression } = rule;
    match check_of(alloc, expression) {
        Ok(_check) => Ok(None),
        Err(CheckError::NoMemory) => Err(AllocError),
        Err(CheckError::Pattern(fault)) => Ok(Some(RuleFault::Pattern {
            line: number,
            rule: name,
            fault,
        })),
    }
}

// The same of the rule on the line, if one stands there.
fn fault_on(alloc: Global, number: usize, line: &[u8]) -> Result<Option<RuleFault>, AllocError>
    ensures { IfOk result (IsToldOn number line.now) }
{
    match read_rules(alloc, line) {
        Ok(mut rules) => match rules.pop() {
            Some(rule) => pattern_fault(alloc, number, rule),
            None => Ok(None),
        },
        Err(RulesError::NoMemory) => Err(AllocError),
        Err(RulesError::Unreadable(_fault)) => Ok(None),
    }
}

// Whether the last fault is of the line with this number.
fn ends_at(faults: &[Fault], number: usize) -> bool
    ensures { IsTrue result ↔ ((before : List Fault) × (fault : Fault)
        × (faults.now ≡ before ++ fault ∷ []) × (fault.line ≡ number)) }
{
    match faults.last() {
        Some(fault) => fault.line == number,
        None => false,
    }
}

// Takes the last fault where it is of the line with this number.
fn take_of(faults: &mut Vec<Fault>, number: usize) -> Option<Fault>
    ensures { IsTaken number faults.old.items faults.new.items result }
{
    if ends_at(faults, number) {
        faults.pop()
    } else {
        None
    }
}

// The fault of the line: the last of the others where it is of this line, or that of its pattern.
fn fault_at(
    alloc: Global,
    others: &mut Vec<Fault>,
    number: usize,
    line: &[u8],
) -> Result<Option<RuleFault>, AllocError>
    ensures { IfOk result (IsToldAt number line.now others.old.items others.new.items) }
{
    match take_of(others, number) {
        Some(fault) => Ok(Some(RuleFault::Unreadable(fault))),
        None => fault_on(alloc, number, line),
    }
}

// The lines of the text, without its byte order mark.
fn lines_of<'a>(alloc: Global, text: &'a [u8]) -> Result<Vec<&'a [u8]>, AllocError>
    ensures { IfOk result (λ lines. map (λ line. line.now) lines.items ≡ lines_of text.now) }
{
    without_mark(text)
        .split(|byte| *byte == b'\n')
        .collect(alloc)
}

// The fault of each line that has one.
fn faults_of(alloc: Global, text: &[u8]) -> Result<Vec<RuleFault>, AllocError>
    ensures { IfOk result (λ faults. AreTold (lines_of text.now) faults.items) }
{
    let mut others = read_faults(alloc, text)?;
    others.reverse();
    let lines = lines_of(alloc, text)?;
    let mut faults = Vec::new(alloc);
    for (index, line) in lines.iter().enumerate() {
        if let Some(fault) = fault_at(alloc, &mut others, index + 1, line)? {
            if faults.len() == MOST_FAULTS {
                faults.push(RuleFault::More)?;
                return Ok(faults);
            }
            faults.push(fault)?;
        }
    }
    Ok(faults)
}

// Why the text is not read. Where no line has a fault, memory was refused to a pattern.
fn refusal(alloc: Global, text: &[u8]) -> ReadChecksError
    ensures { IsRefusalOf text.now result }
{
    match faults_of(alloc, text) {
        Ok(faults) if !faults.is_empty() => ReadChecksError::Unreadable(faults),
        _ => ReadChecksError::NoMemory,
    }
}

fn rule_check(alloc: Global, rule: Rule) -> Result<RuleCheck, CheckError>
    ensures made { IfOk result (IsCheckOf (rule_of rule)) }
    ensures refused { IfErr result (IsFailure (λ pattern. IsPatternIn pattern (rule_of rule).1)) }
{
    let Rule { name, expression } = rule;
    let check = check_of(alloc, expression)?;
    Ok(RuleCheck { name, check })
}

fn rules_of(alloc: Global, text: &[u8]) -> Result<Vec<Rule>, ReadChecksError>
    ensures found { IfOk result (λ rules. AreRulesOf max_depth text.now (map rule_of rules.items)) }
    ensures only { IfOk result (λ rules. (rs : List (List ℕ × Tree))
        → AreRulesOf max_depth text.now rs → map rule_of rules.items ≡ rs) }
    ensures rejected { IfErr result (IsRejected text.now) }
{
    match read_rules(alloc, text) {
        Ok(rules) => Ok(rules),
        Err(RulesError::NoMemory) => Err(ReadChecksError::NoMemory),
        Err(RulesError::Unreadable(_first)) => Err(refusal(alloc, text)),
    }
}

fn checks_of(alloc: Global, rules: Vec<Rule>) -> Result<Vec<RuleCheck>, CheckError>
    ensures made { IfOk result (λ checks.
        AllZip IsCheckOf (map rule_of rules.items) checks.items) }
    ensures refused { IfErr result (IsFailure (λ pattern.
        Any (λ rule. IsPatternIn pattern rule.1) (map rule_of rules.items))) }
{
    let mut checks = Vec::new(alloc);
    for rule in rules {
        checks.push(rule_check(alloc, rule)?)?;
    }
    Ok(checks)
}

/// Reads the rules of a file, as `read_rules`, and makes the check of each. It fails where the text
/// says no rules, and where a pattern is no regular expression; then each line is read once more
/// for its fault.
///
/// ```
/// let rules = read_checks(alloc, b"adult: /age>=18 and(/name exists)")?;
/// assert!(rt; rules.len() == 1 && rules[0].name.as_str() == "adult");
/// assert!(rt; rules[0].check.text() == "/age >= 18 and /name exists");
/// ```
pub fn read_checks(alloc: Global, text: &[u8]) -> Result<Vec<RuleCheck>, ReadChecksError>
    // What is read is what the text says.
    ensures found { IfOk result (λ checks. (rules : List (List ℕ × Tree))
        × AreRulesOf max_depth text.now rules × AllZip IsCheckOf rules checks.items) }
    // It is rejected where the text says no rules, or `regex` refuses a pattern of one. Then the
    // faults are those of its lines, in their order: all, or the first 20 and `More`.
    ensures rejected { IfErr result (IsRejected text.now) }
{
    let rules = rules_of(alloc, text)?;
    match checks_of(alloc, rules) {
        Ok(checks) => Ok(checks),
        Err(CheckError::NoMemory) => Err(ReadChecksError::NoMemory),
        Err(CheckError::Pattern(_first)) => Err(refusal(alloc, text)),
    }
}
