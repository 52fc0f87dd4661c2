//! Short calls over any predicate, whose answers a test compares as a whole.
use predicates_core::Predicate;
use predicates_core::reflection::{Child, Parameter, PredicateReflection, render_onto};
use std::alloc::{AllocError, Global};
use std::fmt;

/// An owned text.
pub fn text(alloc: Global, text: &str) -> Result<String, AllocError> {
    String::from_str(alloc, text)
}

/// The piece as often as that, and then the end.
pub fn repeated(alloc: Global, piece: &str, times: u32, end: &str) -> Result<String, AllocError> {
    let mut text = String::new(alloc);
    for _ in 0..times {
        text.push_str(piece)?;
    }
    text.push_str(end)?;
    Ok(text)
}

/// The characters of a text.
pub fn characters(alloc: Global, text: &str) -> Result<Vec<char>, AllocError> {
    let mut characters = Vec::new(alloc);
    for character in text.chars() {
        characters.push(character)?;
    }
    Ok(characters)
}

/// Writes the lines of the verdict's case; a line that says so where that case is missing or has
/// another result, or where the opposite verdict has a case.
pub fn render_verdict<P: Predicate<Item>, Item>(
    alloc: Global,
    out: &mut String,
    predicate: &P,
    item: &Item,
) -> Result<(), AllocError>
    requires { P.lawful predicate.now }
{
    let verdict = predicate.eval(alloc, item)?;
    if predicate.find_case(alloc, !verdict, item)?.is_some() {
        out.push_str("a case for the opposite\n")?;
    }
    match predicate.find_case(alloc, verdict, item)? {
        Some(case) if case.root().result() == verdict => render_onto(out, &case),
        _ => out.push_str("no case for the verdict\n"),
    }
}

/// Whether the only case, which is the verdict's, has these lines.
pub fn explains<P: Predicate<Item>, Item>(
    alloc: Global,
    predicate: &P,
    item: &Item,
    lines: &str,
) -> Result<bool, AllocError>
    requires { P.lawful predicate.now }
{
    let mut out = String::new(alloc);
    render_verdict(alloc, &mut out, predicate, item)?;
    Ok(out.as_str() == lines)
}

// No description is nested as deep.
const ROOM: u32 = 100;

// Adds parameters and children behind the indent, and what a child holds two spaces deeper.
fn add_description(
    alloc: Global,
    out: &mut String,
    room: u32,
    indent: &str,
    parameters: &[Parameter],
    children: &[Child],
) -> Result<(), AllocError> {
    if room == 0 {
        return out.push_str("too deep\n");
    }
    for parameter in parameters {
        let (name, value) = (parameter.name(), parameter.value());
        writeln!(out, "{indent}{name}={value}")?;
    }
    let deeper = format!(in alloc; "{indent}  ")?;
    let deeper = deeper.as_str();
    for child in children {
        let (name, printed) = (child.name(), child.text());
        writeln!(out, "{indent}{name}: {printed}")?;
        add_description(
            alloc,
            out,
            room - 1,
            deeper,
            child.parameters(),
            child.children(),
        )?;
    }
    Ok(())
}

/// A line for each parameter and for each child, down to the leaves.
pub fn description(
    alloc: Global,
    parameters: &[Parameter],
    children: &[Child],
) -> Result<String, AllocError> {
    let mut out = String::new(alloc);
    add_description(alloc, &mut out, ROOM, "", parameters, children)?;
    Ok(out)
}

/// Writes the printed text, and below it a line for each parameter and each child, down to the
/// leaves.
pub fn describe<P: PredicateReflection>(
    alloc: Global,
    out: &mut String,
    predicate: &P,
) -> Result<(), AllocError> {
    writeln!(out, "{predicate}")?;
    let parameters = predicate.parameters(alloc)?;
    let children = predicate.children(alloc)?;
    add_description(
        alloc,
        out,
        ROOM,
        "",
        parameters.as_slice(),
        children.as_slice(),
    )
}

/// Whether its printed text, its parameters and its children are these lines.
pub fn is_described<P: PredicateReflection>(
    alloc: Global,
    predicate: &P,
    lines: &str,
) -> Result<bool, AllocError> {
    let mut out = String::new(alloc);
    describe(alloc, &mut out, predicate)?;
    Ok(out.as_str() == lines)
}

/// Whether two values differ, each is equal to itself, and both are shown, also in the other form.
pub fn differ<T: fmt::Debug + Eq>(alloc: Global, left: &T, right: &T) -> Result<bool, AllocError> {
    let plain = format!(in alloc; "{left:?}{right:?}")?;
    let other = format!(in alloc; "{left:#?}{right:#?}")?;
    let are_shown = !plain.is_empty() && !other.is_empty();
    Ok(left == left && right == right && left != right && are_shown)
}

/// Whether the copy and the clone equal the value, which differs from the other.
pub fn are_copied<T: fmt::Debug + Copy + Eq>(
    alloc: Global,
    value: T,
    other: T,
) -> Result<bool, AllocError> {
    let copy = value;
    Ok(copy == value && value.clone()? == copy && differ(alloc, &copy, &other)?)
}
