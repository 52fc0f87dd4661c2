//! The lines of a case in a style.
ghost use Rattle.std.specs.Prelude.{◌≡◌, ◌+◌, ◌++◌, ◌<◌, ◌^◌, OnOk, IfOk, codes, length};
ghost use Rattle.std.specs.Prelude.{string_bytes};
ghost use Rattle.std.specs.Str.{chars};
ghost use Rattle.predicates_reflection.specs.Tree.{node_count};
ghost use Rattle.predicates_reflection.specs.Lines.{indented, lines};
ghost use Rattle.predicates_style.specs.Style.{plain};
ghost use Rattle.predicates_style.specs.StyledLines.{result_text, styled_verdict, styled_product};
ghost use Rattle.predicates_style.specs.StyledLines.{before_value, styled_name, is_shown};
ghost use Rattle.predicates_style.specs.StyledLines.{left_out, styled_tree, styled_lines};

use crate::character::write_text;
use crate::style::Style;
use predicates_reflection::reflection::{Case, CaseChild, CaseView, Product};
use std::alloc::{AllocError, Global};

// The result's word, green or red where colours are wanted.
fn result_text(colours: bool, outcome: bool) -> &'static str
    ensures { result.now ≡ result_text colours outcome }
{
    match (colours, outcome) {
        (false, true) => "true",
        (false, false) => "false",
        (true, true) => "\u{1b}[32mtrue\u{1b}[0m",
        (true, false) => "\u{1b}[31mfalse\u{1b}[0m",
    }
}

// Writes a node's text and its result, to the end of the line.
fn write_verdict(out: &mut String, style: &Style, case: &CaseView<'_>) -> Result<(), AllocError>
    ensures { OnOk result (string_bytes out.new
        ≡ string_bytes out.old ++ styled_verdict style.now case.now.root) }
{
    write_text(
        out,
        style.escapes,
        case.predicate().unwrap_or("predicate"),
        None,
    )?;
    out.push_str(" = ")?;
    out.push_str(result_text(style.colours, case.result()))?;
    out.push_str("\n")
}

// Writes two spaces for each depth.
fn write_indent(out: &mut String, depth: usize) -> Result<(), AllocError>
    ensures { OnOk result (string_bytes out.new ≡ string_bytes out.old ++ indented depth) }
{
    for _ in 0..depth {
        out.push_str("  ")?;
    }
    Ok(())
}

fn character_count(text: &str) -> usize
    ensures { result ≡ length (chars text.now) }
{
    text.chars().count()
}

// Writes what stands between a product's name and its value: how many characters of the value are
// shown, where that is fewer than it has.
fn write_before_value(out: &mut String, most: Option<usize>, value: &str) -> Result<(), AllocError>
    ensures { OnOk result
        (string_bytes out.new ≡ string_bytes out.old ++ before_value most value.now) }
{
    let Some(most) = most else {
        return out.push_str(": ");
    };
    let all = character_count(value);
    if most < all {
        return write!(out, " (first {most} of {all} characters): ");
    }
    out.push_str(": ")
}

// Writes the line of a product of a node at the depth, two spaces deeper.
fn write_product(
    out: &mut String,
    style: &Style,
    depth: usize,
    product: &Product,
) -> Result<(), AllocError>
    ensures { OnOk result (string_bytes out.new ≡ string_bytes out.old
        ++ styled_product style.now (indented depth ++ codes "  ") product.now) }
{
    write_indent(out, depth)?;
    out.push_str("  - ")?;
    write_text(out, style.escapes, product.name(), None)?;
    let value = product.value();
    write_before_value(out, style.characters, value)?;
    write_text(out, style.escapes, value, style.characters)?;
    out.push_str("\n")
}

// Writes the name of a child at the depth.
fn write_name(out: &mut String, style: &Style, depth: usize, name: &str) -> Result<(), AllocError>
    ensures { OnOk result (string_bytes out.new
        ≡ string_bytes out.old ++ styled_name style.now depth name.now) }
{
    write_indent(out, depth)?;
    write_text(out, style.escapes, name, None)?;
    out.push_str(": ")
}

// Whether the child with this number is shown, counted from 0.
fn is_shown(most: Option<usize>, number: usize) -> bool
    ensures { result ≡ is_shown most number }
{
    match most {
        Some(most) => number < most,
        None => true,
    }
}

// Writes how many children of a node at the depth are left out, where there are some.
fn write_left_out(
    out: &mut String,
    most: Option<usize>,
    depth: usize,
    number: usize,
) -> Result<(), AllocError>
    ensures { OnOk result (string_bytes out.new
        ≡ string_bytes out.old ++ left_out most (indented depth ++ codes "  ") number) }
{
    let Some(most) = most else {
        return Ok(());
    };
    if number <= most {
        return Ok(());
    }
    let rest = number - most;
    write_indent(out, depth)?;
    write!(out, "  .. {rest} more\n")
}

// Writes a case whose line stands at the depth, from its text on.
fn write_case(
    out: &mut String,
    style: &Style,
    depth: usize,
    case: &CaseView<'_>,
) -> Result<(), AllocError>
    requires { depth + node_count case.now.children < 2 ^ 64 }
    ensures { OnOk result (string_bytes out.new
        ≡ string_bytes out.old ++ styled_tree style.now depth case.now) }
{
    write_verdict(out, style, case)?;
    for product in case.products() {
        write_product(out, style, depth, product)?;
    }
    let mut number = 0usize;
    for CaseChild { name, case } in case.children() {
        let shown = is_shown(style.children, number);
        number += 1;
        if shown {
            write_name(out, style, depth + 1, name)?;
            write_case(out, style, depth + 1, &case)?;
        }
    }
    write_left_out(out, style.children, depth, number)
}

/// Writes the lines of a case in a style after what the text holds. It takes memory where the text
/// has no room for them, and fails where that runs out; some of the lines may then have been
/// written.
///
/// ```
/// let mut lines = "request 17: ".to_owned(alloc)?;
/// render_styled_onto(&mut lines, &Style::new(), &case)?;
/// ```
pub fn render_styled_onto(out: &mut String, style: &Style, case: &Case) -> Result<(), AllocError>
    ensures lines { OnOk result (string_bytes out.new
        ≡ string_bytes out.old ++ styled_lines style.now case.now) }
    ensures plain { style.now ≡ plain
        → OnOk result (string_bytes out.new ≡ string_bytes out.old ++ lines case.now) }
{
    write_case(out, style, 0, &case.root())
}

/// The lines of a case in a style: those of `render`, where the style says no more.
///
/// Below the children of a node that are shown stands how many are not, as `.. 90 more`. Behind the
/// name of a product whose value is cut stands how many of its characters are shown, as
/// `- var (first 80 of 2000 characters): ..`: a value can't print such a note itself. Characters
/// are counted before they are escaped. A node's own text is never cut.
///
/// It takes memory for the lines, and fails where that runs out.
///
/// ```
/// let style = Style {
///     escapes: true,
///     ..Style::new()
/// };
/// let case = Case::new(alloc, Some("var == \"a\nb\"".to_owned(alloc)?), false);
/// let lines = render_styled(alloc, &style, &case)?;
/// assert!(rt; lines.as_str() == "var == \"a\\nb\" = false\n");
/// ```
pub fn render_styled(alloc: Global, style: &Style, case: &Case) -> Result<String, AllocError>
    ensures lines { IfOk result (λ text. string_bytes text ≡ styled_lines style.now case.now) }
    ensures plain { style.now ≡ plain
        → IfOk result (λ text. string_bytes text ≡ lines case.now) }
{
    let mut out = String::new(alloc);
    render_styled_onto(&mut out, style, case)?;
    Ok(out)
}
