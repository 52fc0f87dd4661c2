//! The text of a case.
ghost use Rattle.std.specs.Prelude.{◌≡◌, ◌+◌, ◌++◌, ◌<◌, ◌^◌, OnOk, IfOk, codes, string_bytes};
ghost use Rattle.predicates_reflection.specs.Tree.{node_count};
ghost use Rattle.predicates_reflection.specs.Lines.{indented, verdict, product_line, tree_lines};
ghost use Rattle.predicates_reflection.specs.Lines.{lines};

use crate::reflection::{Case, CaseChild, CaseView, Product};
use std::alloc::{AllocError, Global};

// Writes a node's text and its result, to the end of the line.
fn write_verdict(out: &mut String, case: &CaseView<'_>) -> Result<(), AllocError>
    ensures { OnOk result
        (string_bytes out.new ≡ string_bytes out.old ++ verdict case.now.root) }
{
    out.push_str(case.predicate().unwrap_or("predicate"))?;
    out.push_str(if case.result() {
        " = true\n"
    } else {
        " = false\n"
    })
}

// Writes two spaces for each depth.
fn write_indent(out: &mut String, depth: usize) -> Result<(), AllocError>
    ensures { OnOk result (string_bytes out.new ≡ string_bytes out.old ++ indented depth) }
{
    for _ in 0..depth {
        out.push_str("  ")?;
    }
    Ok(())
}

// Writes the line of a product of a node at the depth, two spaces deeper.
fn write_product(out: &mut String, depth: usize, product: &Product) -> Result<(), AllocError>
    ensures { OnOk result
        (string_bytes out.new ≡ string_bytes out.old ++ product_line (indented depth ++ codes "  ")
        product.now) }
{
    write_indent(out, depth)?;
    out.push_str("  - ")?;
    out.push_str(product.name())?;
    out.push_str(": ")?;
    out.push_str(product.value())?;
    out.push_str("\n")
}

// Writes a case whose line stands at the depth, from its text on.
fn write_case(out: &mut String, depth: usize, case: &CaseView<'_>) -> Result<(), AllocError>
    requires { depth + node_count case.now.children < 2 ^ 64 }
    ensures { OnOk result
        (string_bytes out.new ≡ string_bytes out.old ++ tree_lines depth case.now) }
{
    write_verdict(out, case)?;
    for product in case.products() {
        write_product(out, depth, product)?;
    }
    for CaseChild { name, case } in case.children() {
        write_indent(out, depth + 1)?;
        out.push_str(name)?;
        out.push_str(": ")?;
        write_case(out, depth + 1, &case)?;
    }
    Ok(())
}

/// Writes the lines of a case after what the text holds. It takes memory where the text has no room
/// for them, and fails where that runs out; some of the lines may then have been written.
///
/// ```
/// let mut lines = "request 17: ".to_owned(alloc)?;
/// render_onto(&mut lines, &leaf_node(alloc, "true".to_owned(alloc)?, true))?;
/// assert!(rt; lines.as_str() == "request 17: true = true\n");
/// ```
pub fn render_onto(out: &mut String, case: &Case) -> Result<(), AllocError>
    ensures { OnOk result (string_bytes out.new ≡ string_bytes out.old ++ lines case.now) }
{
    write_case(out, 0, &case.root())
}

// About as many bytes as the lines of the node itself take.
fn room(case: &CaseView<'_>) -> usize {
    let mut room = 32usize;
    if let Some(text) = case.predicate() {
        room = room.saturating_add(text.len());
    }
    for product in case.products() {
        room = room
            .saturating_add(product.value().len())
            .saturating_add(16);
    }
    room
}

/// The lines of a case: one a node, indented by two spaces for each depth, with the node's
/// products and then its children below it. Each ends by a line feed. It takes memory for them, and
/// fails where that runs out.
///
/// ```
/// let case = leaf_node(alloc, "var.is_empty()".to_owned(alloc)?, false);
/// let lines = render(alloc, &case)?;
/// assert!(rt; lines.as_str() == "var.is_empty() = false\n");
/// ```
pub fn render(alloc: Global, case: &Case) -> Result<String, AllocError>
    ensures { IfOk result (λ text. string_bytes text ≡ lines case.now) }
{
    let mut out = String::with_capacity(alloc, room(&case.root()))?;
    render_onto(&mut out, case)?;
    Ok(out)
}
