//! Where a record stands, and what labels it.
ghost use Rattle.std.specs.Prelude.{◌≡◌, IfOk, option_map, string_bytes};
ghost use Rattle.serde_json.specs.View.{view};
ghost use Rattle.vet_run.specs.Places.{IsLabel, IsName, place_text};
ghost use Rattle.vet_run.specs.Records.{HeadsRecord};
ghost use Rattle.vet_run.specs.Settings.{id_of};

use crate::job::Job;
use crate::settings::Settings;
use predicates_json::value_at;
use serde_json::Value;
use std::alloc::{AllocError, Global};

/// Where the line of this number stands.
pub(crate) fn place(alloc: Global, source: Option<&str>, number: u64) -> Result<String, AllocError>
    ensures { IfOk result (λ text.
        string_bytes text ≡ place_text (option_map (λ s. s.now) source.entry) number) }
{
    match source {
        Some(name) => format!(in alloc; "{name}:{number}"),
        None => format!(in alloc; "record {number}"),
    }
}

// The label of the record, as JSON.
fn label(alloc: Global, path: &str, value: &Value) -> Result<String, AllocError>
    ensures { IfOk result (λ text. IsLabel path.now (view value.now) (string_bytes text)) }
{
    match value_at(value, path) {
        Some(found) => found.to_string(alloc),
        None => String::from_str(alloc, "null"),
    }
}

/// What heads the block of the record.
pub(crate) fn head(
    alloc: Global,
    job: &Job<'_>,
    number: u64,
    value: &Value,
) -> Result<String, AllocError>
    ensures { IfOk result (λ text.
        HeadsRecord job.now number (view value.now) (string_bytes text)) }
{
    let place = place(alloc, job.source, number)?;
    let Some(path) = &job.settings.id else {
        return Ok(place);
    };
    let label = label(alloc, path, value)?;
    format!(in alloc; "{place} ({label})")
}

/// What the object of the record is labelled by.
pub(crate) fn name(
    alloc: Global,
    settings: &Settings,
    number: u64,
    value: &Value,
) -> Result<String, AllocError>
    ensures { IfOk result (λ text.
        IsName (id_of settings.now) number (view value.now) (string_bytes text)) }
{
    match &settings.id {
        Some(path) => label(alloc, path, value),
        None => format!(in alloc; "{number}"),
    }
}
