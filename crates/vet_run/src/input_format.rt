//! How records stand in an input.
ghost use Rattle.std.specs.Prelude.{◌≡◌};
ghost use Rattle.vet_run.specs.GitHub.{line_of};

/// How records stand in an input.
#[derive(Clone, Copy, Debug, PartialEq, Eq)]
pub enum InputFormat {
    /// One on a line.
    JsonLines,
    /// One behind another, each on as many lines as it takes, or as the members of an array.
    Json,
}

impl InputFormat {
    /// The line on which the record of this number stands, where it is known.
    pub(crate) fn line_of(self, number: u64) -> Option<u64>
        ensures { result ≡ line_of self number }
    {
        match self {
            InputFormat::JsonLines => Some(number),
            InputFormat::Json => None,
        }
    }
}
