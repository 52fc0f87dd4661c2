//! The rules of a file.

ghost use Rattle.std.specs.Prelude.{◌≡◌, ℕ, ◌≤◌, List, IfOk, IfErr, map};
ghost use Rattle.vet_rules.specs.declared.error.RulesError.TheVariants.{NoMemory};
ghost use Rattle.vet_rules.specs.Trees.{Tree, Not, Implies};
ghost use Rattle.vet_rules.specs.Grammar.{Whole, max_depth};
ghost use Rattle.vet_rules.specs.Printing.{IsProper, IsPlain, nesting_at, printed};
ghost use Rattle.vet_rules.specs.Rules.{AreRules, AreApart, AreRulesOf, AreRead, Says};
ghost use Rattle.vet_rules.specs.Rules.{lines_of, without_mark, rule_of};
ghost use Rattle.vet_rules.specs.Faults.{HasFaults, IsFaultOf, IsSyntaxError};
ghost use Rattle.vet_rules.specs.Findings.{rules_in, IsOutcome};

use crate::error::RulesError;
use crate::expression::Expression;
use crate::fault::Fault;
use crate::findings::{Findings, read_lines, unnumbered};
use std::alloc::{AllocError, AllocFailed, Global};

/// A rule: what it is called, and what it says of a record.
#[derive(Debug, Drop)]
pub struct Rule {
    pub name: String,
    pub expression: Expression,
}

impl From<AllocError> for RulesError {
    ghost from_gives = { λ _ e. e ≡ NoMemory };

    fn from(_e: AllocError) -> RulesError {
        RulesError::NoMemory
    }
}

impl<T: Drop> From<AllocFailed<T>> for RulesError {
    ghost from_gives = { λ _ e. e ≡ NoMemory };

    fn from(_e: AllocFailed<T>) -> RulesError {
        RulesError::NoMemory
    }
}

/// What a text says, behind the byte order mark that an editor may have put before it.
///
/// ```
/// assert!(rt; without_mark(b"\xef\xbb\xbfa: / exists") == b"a: / exists".as_slice());
/// ```
pub fn without_mark(text: &[u8]) -> &[u8]
    ensures { result.now ≡ without_mark text.now }
{
    if text.starts_with(b"\xef\xbb\xbf") {
        &text[3..]
    } else {
        text
    }
}

fn parted<'a>(alloc: Global, text: &'a [u8]) -> Result<Vec<&'a [u8]>, AllocError>
    ensures { IfOk result (λ v. map (λ x. x.now) v.items ≡ lines_of text.now) }
{
    without_mark(text).split(|b| *b == b'\n').collect(alloc)
}

// The rules, or the first of the faults.
fn rules_or_fault(alloc: Global, mut findings: Findings) -> Result<Vec<Rule>, RulesError>
    ensures { IsOutcome (rules_in findings) findings.faults.items result }
{
    if findings.faults.is_empty() {
        return Ok(unnumbered(alloc, findings.rules)?);
    }
    Err(RulesError::Unreadable(findings.faults.remove(0)))
}

fn rules_of(alloc: Global, lines: &[&[u8]]) -> Result<Vec<Rule>, RulesError>
    ensures found { IfOk result (λ v. AreRules max_depth (map (λ x. x.now) lines.now)
        (map rule_of v.items) × AreApart (map rule_of v.items)) }
    ensures only { (rs : List (List ℕ × Tree)) → AreRules max_depth (map (λ x. x.now) lines.now) rs
        → AreApart rs → AreRead result rs }
    ensures never { IfErr result (λ e. IsSyntaxError e → (n : ℕ) (rs : List (List ℕ × Tree))
        → AreRules n (map (λ x. x.now) lines.now) rs → AreApart rs → ⊥) }
    ensures fault { IfErr result (IsFaultOf (map (λ x. x.now) lines.now)) }
{
    let findings = read_lines(alloc, lines, 1)?;
    rules_or_fault(alloc, findings)
}

/// Reads the rules of a file, one on a line: `NAME: EXPRESSION`.
///
/// `#` begins a comment, blank lines are skipped, tabs and carriage returns count as spaces. A byte
/// order mark before the text is skipped, and no column counts it. A name has letters, digits, `_`,
/// `-`, `.` and any characters beyond ASCII, or is a text in quotes as JSON writes it, which is not
/// empty and has no control character and no no-break space. It stands on one line alone: the
/// second one is refused as `Repeated`. What nests deeper than 100 is refused as `TooDeep`. Takes
/// memory for the lines, the tokens of a line and the rules.
///
/// ```
/// let rules = read_rules(alloc, b"adult: /age >= 18 and not /name is_empty")?;
/// assert!(rt; rules.len() == 1 && rules[0].name.as_str() == "adult");
/// ```
///
/// The error has the first fault: its place, what was expected there, what stands there and, for a
/// likely slip, what was meant.
pub fn read_rules(alloc: Global, text: &[u8]) -> Result<Vec<Rule>, RulesError>
    // What is read is what the text says.
    ensures found { IfOk result (λ v. AreRulesOf max_depth text.now (map rule_of v.items)) }
    // What the text says is read, unless memory runs out.
    ensures only { (rs : List (List ℕ × Tree)) → AreRulesOf max_depth text.now rs
        → AreRead result rs }
    // Where it is refused for another reason than its depth, it says no rules, however deep.
    ensures never { IfErr result (λ e. IsSyntaxError e → (n : ℕ) (rs : List (List ℕ × Tree))
        → AreRulesOf n text.now rs → ⊥) }
    // The line and the column of the first fault, what was expected there and what stands there.
    ensures fault { IfErr result (IsFaultOf (lines_of text.now)) }
{
    let lines = parted(alloc, text)?;
    rules_of(alloc, &lines)
}

// How many faults of a text are given at most.
const MOST_FAULTS: usize = 21;

fn faults_of(alloc: Global, lines: &[&[u8]]) -> Result<Vec<Fault>, AllocError>
    ensures { IfOk result (λ fs. HasFaults (map (λ x. x.now) lines.now) fs.items) }
{
    let findings = read_lines(alloc, lines, MOST_FAULTS)?;
    Ok(findings.faults)
}

/// The fault of each line that has one, in the order of the lines; none where `read_rules` reads
/// the text. Of more than 21 they are the first 21, so that who tells 20 knows of more. Takes
/// memory as `read_rules`.
///
/// ```
/// let faults = read_faults(alloc, b"a: /b = 1\nb: /c exists\nc: d == 1")?;
/// assert!(rt; faults.len() == 2 && faults[0].line == 1 && faults[1].line == 3);
/// ```
pub fn read_faults(alloc: Global, text: &[u8]) -> Result<Vec<Fault>, AllocError>
    ensures { IfOk result (λ fs. HasFaults (lines_of text.now) fs.items) }
{
    let lines = parted(alloc, text)?;
    faults_of(alloc, &lines)
}

/// A text says one list of rules at most, however deep they may nest.
pub fn one_meaning()
    ensures { (n m : ℕ) (text : List ℕ) (rs ss : List (List ℕ × Tree))
        → AreRulesOf n text rs → AreRulesOf m text ss → rs ≡ ss }
{}

/// An expression is printed with no more parentheses than it needs, and its text says it again:
/// with `only` of `read_rules`, a rule of that text is read as that expression. `printed` is what
/// `Display` writes of an `Expression`.
pub fn written_is_read()
    // Each join has two parts or more, each threshold one or more, and paths, literals and numbers
    // are such as a rule can write.
    ensures made { (n : ℕ) (e : Tree) → IsProper e → IsPlain e → nesting_at Whole e ≤ n
        → Says n (printed e) e }
    // What a text says, however many parentheses that text has.
    ensures said { (n : ℕ) (text : List ℕ) (e : Tree) → Says n text e → Says n (printed e) e }
    // What denies the premise of an implication nests no deeper than the implication.
    ensures denied { (a b : Tree) → nesting_at Whole (Not a) ≤ nesting_at Whole (Implies a b) }
{}
