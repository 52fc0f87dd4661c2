//! The flags that choose a report.
ghost use Rattle.std.specs.Prelude.{◌≡◌, codes};
ghost use Rattle.clap.specs.Matches.{found_of};
ghost use Rattle.vet_program.specs.Words.{IsFlag, clashes, format_of, plain_report};
ghost use Rattle.vet_program.specs.Words.{report_by};

use crate::format::Format;
use clap::ArgMatches;
use vet_run::settings::Report;

/// Which flags are set, and the form that another program reads, where one is asked for.
#[derive(Clone, Copy)]
pub(crate) struct Flags {
    pub(crate) failed: bool,
    pub(crate) passed: bool,
    pub(crate) json: bool,
    pub(crate) change: bool,
    pub(crate) all: bool,
    pub(crate) format: Option<Format>,
}

impl Flags {
    /// The flags that the words have.
    pub(crate) fn of(matches: &ArgMatches<'_>) -> Flags
        ensures failed { IsFlag (found_of matches.now) (codes "failed") result.failed }
        ensures passed { IsFlag (found_of matches.now) (codes "passed") result.passed }
        ensures json { IsFlag (found_of matches.now) (codes "json") result.json }
        ensures change { IsFlag (found_of matches.now) (codes "change") result.change }
        ensures all { IsFlag (found_of matches.now) (codes "all") result.all }
        ensures format { result.format ≡ format_of (found_of matches.now) }
    {
        Flags {
            failed: matches.get_flag("failed"),
            passed: matches.get_flag("passed"),
            json: matches.get_flag("json"),
            change: matches.get_flag("change"),
            all: matches.get_flag("all"),
            format: Format::named(matches.get_str("format")),
        }
    }

    /// Whether some of them can't stand together.
    pub(crate) fn clash(self) -> bool
        ensures { result ≡ clashes self }
    {
        let Flags {
            failed,
            passed,
            json,
            change,
            all,
            format,
        } = self;
        (failed && (passed || change || (all && !json)))
            || (passed && (change || json || all))
            || (change && (json || all))
            || (format.is_some() && (failed || passed || json || change))
    }

    // What they want a run to report where no other program is named.
    fn plain_report(self) -> Report
        ensures { result ≡ plain_report self }
    {
        if self.json {
            Report::Json {
                all: self.all,
                failed: self.failed,
            }
        } else if self.failed {
            Report::Lines(false)
        } else if self.passed {
            Report::Lines(true)
        } else if self.change {
            Report::Change
        } else if self.all {
            Report::All
        } else {
            Report::First
        }
    }

    /// What they want a run to report.
    pub(crate) fn report(self) -> Report
        ensures { result ≡ report_by self }
    {
        match self.format {
            Some(Format::GitHub) => Report::GitHub { all: self.all },
            Some(Format::JUnit) => Report::JUnit,
            None => self.plain_report(),
        }
    }
}
