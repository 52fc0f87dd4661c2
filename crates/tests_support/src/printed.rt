//! What is printed under flags, in a width and cut short.
use predicates::boolean::PredicateBooleanExt;
use predicates::constant::{always, never};
use predicates::name::PredicateNameExt;
use predicates_core::Predicate;
use predicates_core::static_text::StaticText;
use std::alloc::{AllocError, Global};
use std::fmt;

fn is_text(shown: Result<String, AllocError>, expected: &str) -> Result<bool, AllocError> {
    Ok(shown?.as_str() == expected)
}

// Whether the text is printed, also under each flag, in a width and cut short.
fn prints<T: fmt::Display>(alloc: Global, value: &T, expected: &str) -> Result<bool, AllocError> {
    let plain = is_text(value.to_string(alloc), expected)?;
    let other = is_text(format!(in alloc; "{value:#}"), expected)?;
    let wide = is_text(format!(in alloc; "{value:40}"), expected)?;
    let left = is_text(format!(in alloc; "{value:<40}"), expected)?;
    let cut = is_text(format!(in alloc; "{value:.3}"), expected)?;
    let all = is_text(format!(in alloc; "{value:*^+#0400.1}"), expected)?;
    Ok(plain && other && wide && left && cut && all)
}

/// Whether each flag, a width and a precision leave the printed text as it is.
pub fn keeps_text<T: fmt::Display>(alloc: Global, value: &T) -> Result<bool, AllocError> {
    let text = value.to_string(alloc)?;
    prints(alloc, value, text.as_str())
}

/// Writes a line with the printed text, and another one where a flag, a width or a precision
/// changes it.
pub fn print_under_flags<T: fmt::Display>(
    alloc: Global,
    out: &mut String,
    value: &T,
) -> Result<(), AllocError> {
    out.push_str(value.to_string(alloc)?.as_str())?;
    out.push('\n')?;
    if !keeps_text(alloc, value)? {
        out.push_str("another text under flags\n")?;
    }
    Ok(())
}

// Whether a combinator prints the predicate's text, and a further one the name that is given.
fn prints_inside<P: Predicate<Item> + Drop, Item>(
    alloc: Global,
    predicate: P,
) -> Result<(bool, bool), AllocError> {
    let text = predicate.to_string(alloc)?;
    let line = format!(in alloc; "({text} && false)")?;
    let both = predicate.and(never());
    let is_joined = prints(alloc, &both, line.as_str())?;
    let named = both.name(StaticText::new("n")).or(always()).not();
    Ok((is_joined, prints(alloc, &named, "(! (n || true))")?))
}

/// The same of a predicate alone, in a combinator, and where that has a name in a further one.
pub fn print_in_combinators<P: Predicate<Item> + Drop, Item>(
    alloc: Global,
    out: &mut String,
    predicate: P,
) -> Result<(), AllocError> {
    print_under_flags(alloc, out, &predicate)?;
    let (is_joined, is_named) = prints_inside(alloc, predicate)?;
    if !is_joined {
        out.push_str("another text in a combinator\n")?;
    }
    if !is_named {
        out.push_str("another text under a name\n")?;
    }
    Ok(())
}
