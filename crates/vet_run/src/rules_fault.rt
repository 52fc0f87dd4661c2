//! What is told of a file of rules that is not read.
ghost use Rattle.std.specs.Prelude.{map};
ghost use Rattle.std.specs.Fmt.{DisplaysOnOk};
ghost use Rattle.vet_run.specs.RuleFaults.{rule_fault_text, joined_texts, told_line};
ghost use Rattle.vet_run.specs.RulesFile.{rules_fault_text};

use crate::rule_fault::RuleFault;
use crate::rules_file::ReadChecksError;
use std::fmt;

/// Why the rules of the file at the path are not read, as it is told: a line for each fault, as
/// `vet: rules: line 2, column 9: expected a literal, found the end of the line`, with its line
/// feed.
#[derive(Drop)]
pub struct RulesFault<'a> {
    pub path: &'a str,
    pub error: &'a ReadChecksError,
}

// A line for each fault.
fn fmt_faults<W: fmt::Write>(
    path: &str,
    faults: &[RuleFault],
    f: &mut fmt::Formatter<W>,
) -> fmt::Result
    ensures { DisplaysOnOk W.write_str_gives f.old result
        (joined_texts (map (λ fault. told_line path.now (rule_fault_text fault)) faults.now))
        f.new }
{
    for fault in faults {
        writeln!(f, "vet: {path}: {fault}")?;
    }
    Ok(())
}

impl fmt::Display for RulesFault<'_> {
    ghost output = { λ fault. rules_fault_text fault.path.now fault.error.now };

    fn fmt<W: fmt::Write>(&self, f: &mut fmt::Formatter<W>) -> fmt::Result {
        match self.error {
            ReadChecksError::Unreadable(faults) => fmt_faults(self.path, faults, f),
            other => writeln!(f, "vet: {}: {other}", self.path),
        }
    }
}
