//! What other programs read.
ghost use Rattle.std.specs.Prelude.{◌≡◌, option_map};
ghost use Rattle.vet_program.specs.Words.{format_named};

/// A form of the output that another program reads.
#[derive(Clone, Copy)]
pub(crate) enum Format {
    /// Lines for a workflow of GitHub.
    GitHub,
    /// A document for readers of JUnit.
    JUnit,
}

/// What the forms are called on the command line.
pub(crate) const FORMATS: &[&str] = &["github", "junit"];

impl Format {
    /// The form of this name.
    pub(crate) fn named(name: Option<&str>) -> Option<Format>
        ensures { result ≡ format_named (option_map (λ s. s.now) name.entry) }
    {
        match name {
            Some("github") => Some(Format::GitHub),
            Some("junit") => Some(Format::JUnit),
            _ => None,
        }
    }
}
