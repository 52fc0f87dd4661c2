//! The text of a record's object.
ghost use Rattle.std.specs.Prelude.{◌≡◌, ◌++◌, IfOk, OnOk, string_bytes, is_some, option_map, map};
ghost use Rattle.std.specs.Prelude.{false, length, ◌==◌};
ghost use Rattle.serde_json.specs.Read.{read};
ghost use Rattle.serde_json.specs.Written.{comma_if};
ghost use Rattle.predicates_core.specs.Leaves.{word};
ghost use Rattle.vet_run.specs.Objects.{quoted, listed, value_text, product_text};
ghost use Rattle.vet_run.specs.Objects.{predicate_text, verdict_text, node_text, name_text};
ghost use Rattle.vet_run.specs.Objects.{forest_text};
ghost use Rattle.vet_run.specs.Objects.{case_text, cases_text, file_text, object_text};
ghost use Rattle.vet_run.specs.Objects.{shown_text};

use crate::record::Shown;
use predicates_core::reflection::{Case, CaseChild, CaseView, Product};
use serde_json::Value;
use std::alloc::{AllocError, Global};

/// What the object of a record is made of.
#[derive(Clone, Copy)]
pub(crate) struct Object<'a> {
    /// The name of the input, where it has one.
    pub(crate) source: Option<&'a str>,
    /// What the record is labelled by.
    pub(crate) name: &'a str,
    /// Whether all cases are shown, or the first.
    pub(crate) all: bool,
    pub(crate) cases: &'a [Shown],
}

fn word_of(truth: bool) -> &'static str
    ensures { result.now ≡ word truth }
{
    if truth { "true" } else { "false" }
}

/// Writes a comma, where something stands before.
pub(crate) fn push_comma(text: &mut String, later: bool) -> Result<(), AllocError>
    ensures { OnOk result (string_bytes text.new ≡ string_bytes text.old ++ comma_if later) }
{
    if later { text.push_str(",") } else { Ok(()) }
}

/// Writes a text as JSON has it.
pub(crate) fn push_quoted(
    alloc: Global,
    text: &mut String,
    unquoted: &str,
) -> Result<(), AllocError>
    ensures { OnOk result (string_bytes text.new ≡ string_bytes text.old ++ quoted unquoted.now) }
{
    let quoted = Value::try_from_str(alloc, unquoted)?.to_string(alloc)?;
    text.push_str(&quoted)
}

// Whether JSON reads the text.
fn is_json(alloc: Global, text: &str) -> Result<bool, AllocError>
    ensures { IfOk result (λ reads. reads ≡ is_some (read text.now)) }
{
    match Value::from_str(alloc, text) {
        Ok(_) => Ok(true),
        Err(error) if error.is_memory() => Err(AllocError),
        Err(_) => Ok(false),
    }
}

// Writes a value as it stands where it is JSON, else as a text.
fn push_value(alloc: Global, text: &mut String, value: &str) -> Result<(), AllocError>
    ensures { OnOk result (string_bytes text.new ≡ string_bytes text.old ++ value_text value.now) }
{
    if is_json(alloc, value)? {
        text.push_str(value)
    } else {
        push_quoted(alloc, text, value)
    }
}

fn push_product(alloc: Global, text: &mut String, product: &Product) -> Result<(), AllocError>
    ensures { OnOk result
        (string_bytes text.new ≡ string_bytes text.old ++ product_text product.now) }
{
    text.push_str("{\"name\":")?;
    push_quoted(alloc, text, product.name())?;
    text.push_str(",\"value\":")?;
    push_value(alloc, text, product.value())?;
    text.push_str("}")
}

fn push_products(alloc: Global, text: &mut String, products: &[Product]) -> Result<(), AllocError>
    ensures { OnOk result (string_bytes text.new
        ≡ string_bytes text.old ++ listed false (map product_text products.now)) }
{
    let mut later = false;
    for product in products {
        push_comma(text, later)?;
        push_product(alloc, text, product)?;
        later = true;
    }
    Ok(())
}

fn push_predicate(
    alloc: Global,
    text: &mut String,
    predicate: Option<&str>,
) -> Result<(), AllocError>
    ensures { OnOk result (string_bytes text.new
        ≡ string_bytes text.old ++ predicate_text (option_map (λ s. s.now) predicate.entry)) }
{
    match predicate {
        Some(predicate) => push_quoted(alloc, text, predicate),
        None => text.push_str("null"),
    }
}

// Writes the text and the result of a node.
fn push_verdict(alloc: Global, text: &mut String, case: &CaseView<'_>) -> Result<(), AllocError>
    ensures { OnOk result
        (string_bytes text.new ≡ string_bytes text.old ++ verdict_text case.now.root) }
{
    text.push_str("{\"text\":")?;
    push_predicate(alloc, text, case.predicate())?;
    text.push_str(",\"result\":")?;
    text.push_str(word_of(case.result()))
}

// Writes a node up to the bracket that opens its children.
fn push_node(alloc: Global, text: &mut String, case: &CaseView<'_>) -> Result<(), AllocError>
    ensures { OnOk result
        (string_bytes text.new ≡ string_bytes text.old ++ node_text case.now.root) }
{
    push_verdict(alloc, text, case)?;
    text.push_str(",\"products\":[")?;
    push_products(alloc, text, case.products())?;
    text.push_str("],\"children\":[")
}

// Writes a child's name, up to its case.
fn push_name(alloc: Global, text: &mut String, later: bool, name: &str) -> Result<(), AllocError>
    ensures { OnOk result (string_bytes text.new
        ≡ string_bytes text.old ++ (comma_if later ++ name_text name.now)) }
{
    push_comma(text, later)?;
    text.push_str("{\"name\":")?;
    push_quoted(alloc, text, name)?;
    text.push_str(",\"case\":")
}

// Writes the children of a case, each under its name.
fn push_children(alloc: Global, text: &mut String, case: &CaseView<'_>) -> Result<(), AllocError>
    ensures { OnOk result (string_bytes text.new
        ≡ string_bytes text.old ++ forest_text false case.now.children) }
{
    let mut later = false;
    for CaseChild { name, case } in case.children() {
        push_name(alloc, text, later, name)?;
        push_node(alloc, text, &case)?;
        push_children(alloc, text, &case)?;
        text.push_str("]}}")?;
        later = true;
    }
    Ok(())
}

// Writes a case behind the text.
fn push_case(alloc: Global, text: &mut String, case: &Case) -> Result<(), AllocError>
    ensures { OnOk result (string_bytes text.new ≡ string_bytes text.old ++ case_text case.now) }
{
    let root = case.root();
    push_node(alloc, text, &root)?;
    push_children(alloc, text, &root)?;
    text.push_str("]}")
}

// Writes what is shown of a rule behind the text: `null` where memory was refused for its case.
fn push_shown(alloc: Global, text: &mut String, shown: &Shown) -> Result<(), AllocError>
    ensures { OnOk result (string_bytes text.new ≡ string_bytes text.old ++ shown_text shown.now) }
{
    if shown.refused {
        text.push_str("null")
    } else {
        push_case(alloc, text, &shown.case)
    }
}

fn push_all(alloc: Global, text: &mut String, cases: &[Shown]) -> Result<(), AllocError>
    ensures { OnOk result (string_bytes text.new
        ≡ string_bytes text.old ++ listed false (map shown_text cases.now)) }
{
    let mut later = false;
    for shown in cases {
        push_comma(text, later)?;
        push_shown(alloc, text, shown)?;
        later = true;
    }
    Ok(())
}

// Writes the member with all cases, or with the first where there is one.
fn push_cases(
    alloc: Global,
    text: &mut String,
    all: bool,
    cases: &[Shown],
) -> Result<(), AllocError>
    ensures { OnOk result
        (string_bytes text.new ≡ string_bytes text.old ++ cases_text all cases.now) }
{
    if all {
        text.push_str(",\"cases\":[")?;
        push_all(alloc, text, cases)?;
        return text.push_str("]");
    }
    match cases {
        [first, ..] => {
            text.push_str(",\"case\":")?;
            push_shown(alloc, text, first)
        }
        [] => Ok(()),
    }
}

// Writes the member with the input's name, where it has one.
fn push_file(alloc: Global, text: &mut String, source: Option<&str>) -> Result<(), AllocError>
    ensures { OnOk result (string_bytes text.new
        ≡ string_bytes text.old ++ file_text (option_map (λ s. s.now) source.entry)) }
{
    let Some(name) = source else {
        return Ok(());
    };
    text.push_str("\"file\":")?;
    push_quoted(alloc, text, name)?;
    text.push_str(",")
}

/// Writes the object of a record, on a line, in place of what the text held.
pub(crate) fn write_object(
    alloc: Global,
    text: &mut String,
    object: &Object<'_>,
) -> Result<(), AllocError>
    ensures { OnOk result (string_bytes text.new
        ≡ object_text (option_map (λ s. s.now) object.now.source) object.now.name.now
        (length object.now.cases.now == 0) object.now.all object.now.cases.now) }
{
    let Object {
        source,
        name,
        all,
        cases,
    } = *object;
    text.clear();
    text.push_str("{")?;
    push_file(alloc, text, source)?;
    text.push_str("\"record\":")?;
    text.push_str(name)?;
    text.push_str(",\"holds\":")?;
    text.push_str(word_of(cases.is_empty()))?;
    push_cases(alloc, text, all, cases)?;
    text.push_str("}\n")
}
