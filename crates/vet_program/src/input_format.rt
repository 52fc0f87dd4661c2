//! How records stand in the inputs, by a name.
ghost use Rattle.std.specs.Prelude.{◌≡◌, option_map};
ghost use Rattle.vet_program.specs.Words.{input_named};

use vet_run::InputFormat;

/// What the formats are called on the command line.
pub(crate) const INPUT_FORMATS: &[&str] = &["jsonl", "json"];

/// The format of this name: one record on a line where none is given.
pub(crate) fn input_named(name: Option<&str>) -> InputFormat
    ensures { result ≡ input_named (option_map (λ s. s.now) name.entry) }
{
    match name {
        Some("json") => InputFormat::Json,
        _ => InputFormat::JsonLines,
    }
}
