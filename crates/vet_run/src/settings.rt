//! What a run writes.
ghost use Rattle.std.specs.Prelude.{◌≡◌};
ghost use Rattle.vet_run.specs.Settings.{block_style, shows_all, tells};

use predicates_style::Style;

/// What a run writes of each record.
#[derive(Clone, Copy, Debug, PartialEq, Eq)]
pub enum Report {
    /// A block with the case of the first rule that a record breaks.
    First,
    /// A block with the case of each rule that it breaks.
    All,
    /// A block with what would have to change in each rule that it breaks.
    Change,
    /// An object of JSON, with the cases of the rules that it breaks: the first, or all. With
    /// `failed`, none of a record that keeps every rule.
    Json { all: bool, failed: bool },
    /// A line that GitHub shows beside the file: a command of its workflows, with the case of the
    /// first rule that a record breaks, or one for each such rule.
    GitHub { all: bool },
    /// Nothing: the tally has what the document of JUnit is made of.
    JUnit,
    /// The line itself, where the record keeps every rule (`true`), or breaks one (`false`), with a
    /// line feed behind it where it has none.
    Lines(bool),
}

impl Report {
    /// Whether anything is written of a record that keeps every rule, or breaks one.
    pub(crate) fn tells(self, held: bool) -> bool
        ensures { result ≡ tells self held }
    {
        match self {
            Report::First | Report::All | Report::Change => !held,
            Report::Json { failed, .. } => !(failed && held),
            Report::GitHub { .. } => !held,
            Report::JUnit => false,
            Report::Lines(wanted) => held == wanted,
        }
    }

    /// Whether every rule that a record breaks is shown.
    pub(crate) fn shows_all(self) -> bool
        ensures { result ≡ shows_all self }
    {
        match self {
            Report::All | Report::Change => true,
            Report::Json { all, .. } | Report::GitHub { all } => all,
            Report::First | Report::JUnit | Report::Lines(_) => false,
        }
    }
}

/// How a run reports.
#[derive(Drop)]
pub struct Settings {
    pub report: Report,
    /// The path of the value that labels a record, beside where it stands.
    pub id: Option<String>,
    /// How blocks, and the lines that GitHub shows, write a case.
    pub style: Style,
}

impl Settings {
    /// Settings by which a case shows at most 1,000 parts of a node and 1,000 characters of a
    /// value, and has its control characters escaped, so that none reaches a terminal.
    ///
    /// ```
    /// let settings = Settings::new(Report::First, None);
    /// assert!(rt; settings.style.children == Some(1000) && !settings.style.colours);
    /// ```
    pub fn new(report: Report, id: Option<String>) -> Settings
        ensures report { result.report ≡ report }
        ensures id { result.id ≡ id }
        ensures style { result.style ≡ block_style }
    {
        Settings {
            report,
            id,
            style: Style {
                children: Some(1000),
                characters: Some(1000),
                escapes: true,
                ..Style::new()
            },
        }
    }
}
