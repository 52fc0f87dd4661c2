//! How the counts of the rules are shown.
ghost use Rattle.std.specs.Prelude.{◌≡◌, option_map};
ghost use Rattle.vet_program.specs.Words.{summary_named};

/// A form in which the counts of the rules are shown.
#[derive(Clone, Copy)]
pub(crate) enum SummaryForm {
    /// A line for each rule, and the totals.
    Lines,
    /// One object of JSON.
    Json,
}

/// What the forms are called on the command line. The first is that of the bare flag.
pub(crate) const SUMMARY_FORMS: &[&str] = &["lines", "json"];

impl SummaryForm {
    /// The form of this name.
    pub(crate) fn named(name: Option<&str>) -> Option<SummaryForm>
        ensures { result ≡ summary_named (option_map (λ s. s.now) name.entry) }
    {
        match name {
            Some("lines") => Some(SummaryForm::Lines),
            Some("json") => Some(SummaryForm::Json),
            _ => None,
        }
    }
}
