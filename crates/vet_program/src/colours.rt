//! When blocks are coloured.
ghost use Rattle.std.specs.Prelude.{◌≡◌, option_map};
ghost use Rattle.vet_program.specs.Colours.{colours_named, is_coloured};

/// When blocks are coloured.
#[derive(Clone, Copy)]
pub(crate) enum Colours {
    /// On a terminal that shows colours, where the environment has nothing against them.
    Auto,
    Always,
    Never,
}

/// What they are called on the command line.
pub(crate) const COLOURS: &[&str] = &["auto", "always", "never"];

impl Colours {
    /// Those of this name; `Auto` where none is given.
    pub(crate) fn named(name: Option<&str>) -> Colours
        ensures { result ≡ colours_named (option_map (λ s. s.now) name.entry) }
    {
        match name {
            Some("always") => Colours::Always,
            Some("never") => Colours::Never,
            _ => Colours::Auto,
        }
    }

    /// Whether blocks are coloured, where a process can show colours, or can't.
    pub(crate) fn are_shown(self, shows_colours: bool) -> bool
        ensures { result ≡ is_coloured self shows_colours }
    {
        match self {
            Colours::Auto => shows_colours,
            Colours::Always => true,
            Colours::Never => false,
        }
    }
}
