//! What a run is to do.
ghost use Rattle.std.specs.Prelude.{◌≡◌, None};
ghost use Rattle.vet_run.specs.declared.input_format.InputFormat.TheVariants.{JsonLines};

use crate::input_format::InputFormat;
use crate::settings::Settings;
use streams::MAX_LINE;
use vet_checks::RuleCheck;

/// The rules that a run checks, how it reports, and what its input is called.
#[derive(Drop)]
pub struct Job<'r> {
    pub rules: &'r [RuleCheck],
    pub settings: &'r Settings,
    /// The name of the input. With it a record stands at `NAME:7`, and without at `record 7`.
    pub source: Option<&'r str>,
    /// How many bytes a line may have, with its line feed. Of a longer one a message says so.
    pub max_line: u32,
    /// How records stand in the input.
    pub format: InputFormat,
}

impl<'r> Job<'r> {
    /// A run over an input without a name, with lines of `MAX_LINE` bytes at most.
    ///
    /// ```
    /// let job = Job::new(&rules, &settings);
    /// ```
    pub fn new(rules: &'r [RuleCheck], settings: &'r Settings) -> Job<'r>
        ensures rules { result.rules.now ≡ rules.now }
        ensures settings { result.settings.now ≡ settings.now }
        ensures source { result.source ≡ None }
        ensures limit { result.max_line ≡ MAX_LINE }
        ensures format { result.format ≡ JsonLines }
    {
        Job {
            rules,
            settings,
            source: None,
            max_line: MAX_LINE,
            format: InputFormat::JsonLines,
        }
    }
}
