//! The lines of a case where they are printed, as `render` gives them. They take no memory.
ghost use Rattle.std.specs.Prelude.{◌+◌, ◌++◌, ◌<◌, ◌^◌, codes, flat_map};
ghost use Rattle.std.specs.Fmt.{WritesOnOk};
ghost use Rattle.predicates_core.specs.Tree.{node_count};
ghost use Rattle.predicates_core.specs.Lines.{indented, verdict, product_line, tree_lines};

use predicates_core::reflection::{CaseChild, CaseView, Product};
use std::fmt;

// Writes a node's text and its result, to the end of the line.
fn write_verdict<W: fmt::Write>(case: &CaseView<'_>, f: &mut fmt::Formatter<W>) -> fmt::Result
    ensures { WritesOnOk W.write_str_gives f.old result (verdict case.now.root) f.new }
{
    f.write_str(case.predicate().unwrap_or("predicate"))?;
    f.write_str(if case.result() {
        " = true\n"
    } else {
        " = false\n"
    })
}

// Writes two spaces for each depth.
fn write_indent<W: fmt::Write>(depth: usize, f: &mut fmt::Formatter<W>) -> fmt::Result
    ensures { WritesOnOk W.write_str_gives f.old result (indented depth) f.new }
{
    for _ in 0..depth {
        f.write_str("  ")?;
    }
    Ok(())
}

// Writes the line of a product of a node at the depth, two spaces deeper.
fn write_product<W: fmt::Write>(
    product: &Product,
    depth: usize,
    f: &mut fmt::Formatter<W>,
) -> fmt::Result
    ensures { WritesOnOk W.write_str_gives f.old result
        (product_line (indented depth ++ codes "  ") product.now) f.new }
{
    write_indent(depth, f)?;
    f.write_str("  - ")?;
    f.write_str(product.name())?;
    f.write_str(": ")?;
    f.write_str(product.value())?;
    f.write_str("\n")
}

// Writes the lines of a node's products, in order.
fn write_products<W: fmt::Write>(
    products: &[Product],
    depth: usize,
    f: &mut fmt::Formatter<W>,
) -> fmt::Result
    ensures { WritesOnOk W.write_str_gives f.old result
        (flat_map (product_line (indented depth ++ codes "  ")) products.now) f.new }
{
    for product in products {
        write_product(product, depth, f)?;
    }
    Ok(())
}

// Writes a case whose line stands at the depth, from its text on.
pub(crate) fn write_case<W: fmt::Write>(
    case: &CaseView<'_>,
    depth: usize,
    f: &mut fmt::Formatter<W>,
) -> fmt::Result
    requires { depth + node_count case.now.children < 2 ^ 64 }
    ensures { WritesOnOk W.write_str_gives f.old result (tree_lines depth case.now) f.new }
{
    write_verdict(case, f)?;
    write_products(case.products(), depth, f)?;
    for CaseChild { name, case } in case.children() {
        write_indent(depth + 1, f)?;
        f.write_str(name)?;
        f.write_str(": ")?;
        write_case(&case, depth + 1, f)?;
    }
    Ok(())
}
