//! How a call of the program ends.
ghost use Rattle.std.specs.Prelude.{◌≡◌};
ghost use Rattle.vet_program.specs.Ends.{status_of_end};

use vet_run::Counts;

/// How a call of the program ends.
#[derive(Clone, Copy, Debug, PartialEq, Eq)]
pub(crate) enum End {
    /// The help or the version was printed.
    Helped,
    /// The words are wrong or the rules can't be read, and no input was opened.
    Refused,
    /// A fault ended the run.
    Stopped,
    /// The inputs were taken to their ends, but for those that could not be read, or as far as
    /// anything reads the output.
    Ran { counts: Counts, all_read: bool },
}

impl End {
    /// The status of the process: 0 for the help, the version and where every record that was taken
    /// keeps every rule, 1 where one breaks a rule, and else 2.
    pub(crate) fn status(self) -> u8
        ensures { result ≡ status_of_end self }
    {
        match self {
            End::Helped => 0,
            End::Refused | End::Stopped => 2,
            End::Ran {
                counts,
                all_read: true,
            } => counts.status(),
            End::Ran { .. } => 2,
        }
    }
}
