//! What is wrong with a line of a file of rules.
ghost use Rattle.vet_run.specs.RuleFaults.{rule_fault_text};

use std::fmt;
use vet_checks::PatternFault;
use vet_rules::fault::Fault;
use vet_rules::quoted::Quoted;

/// What is wrong with a line of a file of rules.
#[derive(Debug, Drop)]
pub enum RuleFault {
    /// The line says no rule.
    Unreadable(Fault),
    /// The rule on this line, from 1, has a pattern that is no regular expression, or too large.
    Pattern {
        line: usize,
        rule: String,
        fault: PatternFault,
    },
    /// Lines behind those of the other faults have faults too.
    More,
}

/// One line: `line 1, column 7: ..`, or
/// `line 1, rule a: no regular expression: unclosed group at character 1: (`.
impl fmt::Display for RuleFault {
    ghost output = { rule_fault_text };

    fn fmt<W: fmt::Write>(&self, f: &mut fmt::Formatter<W>) -> fmt::Result {
        match self {
            RuleFault::Unreadable(fault) => write!(f, "{fault}"),
            RuleFault::Pattern { line, rule, fault } => write!(
                f,
                "line {line}, rule {}: no regular expression: {fault}: {}",
                Quoted(rule.as_bytes()),
                Quoted(fault.pattern.as_bytes())
            ),
            RuleFault::More => f.write_str("more lines have faults"),
        }
    }
}
