//! The file of rules.
use vet_checks::RuleCheck;

/// The path of a file, and the rules that stand there.
#[derive(Clone, Copy)]
pub(crate) struct RuleFile<'r> {
    pub(crate) path: &'r str,
    pub(crate) rules: &'r [RuleCheck],
}
