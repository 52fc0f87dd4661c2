//! The cases of leaves that show what was found, or say what is wrong.
ghost use Rattle.std.specs.Prelude.{◌≡◌, ℕ, List, [], IfOk, IfSome, None, Some, false};
ghost use Rattle.std.specs.Prelude.{option_map, option_and_then, string_bytes};
ghost use Rattle.std.specs.BTreeSet.{contains_text};
ghost use Rattle.predicates_core.specs.Formula.{Leaf};
ghost use Rattle.predicates_core.specs.Label.{plain};
ghost use Rattle.predicates_core.specs.Leaves.{IsExactly};
ghost use Rattle.predicates_core.specs.Shows.{IsCaseOf, IsNode};
ghost use Rattle.serde_json.specs.Data.{string};
ghost use Rattle.serde_json.specs.Find.{as_object};
ghost use Rattle.serde_json.specs.View.{view};
ghost use Rattle.serde_json.specs.Written.{compact_text};
ghost use Rattle.vet_rules.specs.Printing.{path_text};
ghost use Rattle.predicates_tree.specs.Viewed.{no_list};
ghost use Rattle.vet_checks.specs.CheckTrees.{found_text, nothing_leaf, found_leaf};
ghost use Rattle.vet_checks.specs.CheckTrees.{absence_of_data, ShowsBeside, other_product};
ghost use Rattle.vet_checks.specs.CheckTrees.{length_product, key_product};
ghost use Rattle.vet_checks.specs.Keys.{other_key};
ghost use Rattle.vet_checks.specs.Questions.{apart_text, length_of, nothing_text};
ghost use Rattle.vet_checks.specs.Scopes.{place_of, stands};

use crate::contents::length;
use crate::keys::other_key;
use crate::scope::Scope;
use predicates_core::custom::absent_case;
use predicates_core::node::{leaf_node, printed, showing, showing_text};
use predicates_core::reflection::Case;
use serde_json::Value;
use std::alloc::{AllocError, Global};
use std::collections::BTreeSet;
use std::fmt;

/// The path as a rule writes it.
pub(crate) fn path_shown(path: &str) -> &str
    ensures { result.now ≡ path_text path.now }
{
    match path.as_bytes() {
        [] => "/",
        [b'^'] => "^/",
        _ => path,
    }
}

// The value as JSON.
fn found(alloc: Global, value: &Value) -> Result<String, AllocError>
    ensures { IfOk result (λ text. IfSome (found_text (view value.now)) (λ bytes. string_bytes text
        ≡ bytes)) }
{
    value.to_string(alloc)
}

fn copied(alloc: Global, text: &str) -> Result<String, AllocError>
    ensures { IfOk result (λ copy. string_bytes copy ≡ text.now) }
{
    String::from_str(alloc, text)
}

// A node alone, without products.
fn bare_node(alloc: Global, text: &str, holds: bool) -> Result<Case, AllocError>
    ensures { IfOk result (IsNode (Some text.now) holds []) }
{
    Ok(leaf_node(alloc, copied(alloc, text)?, holds))
}

/// A leaf that shows nothing.
pub(crate) fn bare_leaf(alloc: Global, text: &str, holds: bool) -> Result<Case, AllocError>
    ensures { IfOk result (IsCaseOf (IsExactly (Leaf (plain (Some text.now)) holds)) holds) }
{
    let node = bare_node(alloc, text, holds)?;
    Ok(node)
}

// What is said where nothing stands at the path.
fn nowhere(alloc: Global, path: &str) -> Result<String, AllocError>
    ensures { IfOk result (λ text. string_bytes text ≡ nothing_text path.now) }
{
    let shown = path_shown(path);
    format!(in alloc; "nothing at {shown}")
}

/// A false leaf that says that nothing stands at the path.
pub(crate) fn nothing_at(alloc: Global, text: &str, path: &str) -> Result<Case, AllocError>
    ensures { IfOk result (IsCaseOf (IsExactly (nothing_leaf text.now path.now)) false) }
{
    let node = bare_node(alloc, text, false)?;
    let error = nowhere(alloc, path)?;
    Ok(showing(node, "error", error)?)
}

/// A leaf that shows the value that it asks about.
pub(crate) fn found_at(
    alloc: Global,
    text: &str,
    value: &Value,
    holds: bool,
) -> Result<Case, AllocError>
    ensures { IfOk result
        (IsCaseOf (IsExactly (found_leaf text.now (view value.now) None holds)) holds) }
{
    let node = bare_node(alloc, text, holds)?;
    let found = found(alloc, value)?;
    Ok(showing(node, "found", found)?)
}

/// The case of a check of the members of what stands at the path, where nothing does.
pub(crate) fn nowhere_case<W: fmt::Display>(
    alloc: Global,
    whole: &W,
    path: &str,
) -> Result<Case, AllocError>
    ensures { IfOk result (IsCaseOf (IsExactly
        (no_list (W.output whole.now) (absence_of_data path.now None))) false) }
{
    let error = nowhere(alloc, path)?;
    absent_case(alloc, whole, &error)
}

/// The same where a value does that has no members.
pub(crate) fn misfit_case<W: fmt::Display>(
    alloc: Global,
    whole: &W,
    value: &Value,
) -> Result<Case, AllocError>
    ensures { (path : List ℕ) → IfOk result (IsCaseOf (IsExactly (no_list (W.output whole.now)
        (absence_of_data path (Some (view value.now))))) false) }
{
    let node = leaf_node(alloc, printed(alloc, whole)?, false);
    let found = found(alloc, value)?;
    let shown = showing(node, "found", found)?;
    Ok(showing_text(alloc, shown, "error", "not an array or an object")?)
}

/// The case with the value that stands at another path, if one does.
pub(crate) fn showing_other(
    alloc: Global,
    case: Case,
    scope: Scope<'_>,
    path: &str,
) -> Result<Case, AllocError>
    ensures { IfOk result (λ shown. ShowsBeside
        (option_map other_product (stands path.now (place_of scope.entry))) case shown) }
{
    let Some(value) = scope.at(path) else {
        return Ok(case);
    };
    let found = found(alloc, value)?;
    Ok(showing(case, "other", found)?)
}

/// The case with the number of what is in the value, if it may hold something.
pub(crate) fn showing_length(alloc: Global, case: Case, value: &Value) -> Result<Case, AllocError>
    ensures { IfOk result (λ shown. ShowsBeside
        (option_map length_product (length_of (view value.now))) case shown) }
{
    let Some(length) = length(value) else {
        return Ok(case);
    };
    let shown = format!(in alloc; "{length}")?;
    Ok(showing(case, "len", shown)?)
}

// The text as JSON.
fn quoted(alloc: Global, text: &str) -> Result<String, AllocError>
    ensures { IfOk result (λ bytes. string_bytes bytes ≡ compact_text (string text.now)) }
{
    let value = Value::String(copied(alloc, text)?);
    value.to_string(alloc)
}

/// The case with the first key of the object that is not allowed, if there is one.
pub(crate) fn showing_key(
    alloc: Global,
    case: Case,
    value: &Value,
    allowed: &BTreeSet<String>,
) -> Result<Case, AllocError>
    ensures { IfOk result (λ shown. ShowsBeside (option_map key_product
        (option_and_then (other_key (contains_text allowed.now)) (as_object (view value.now))))
        case shown) }
{
    let Some(key) = other_key(value, allowed) else {
        return Ok(case);
    };
    let shown = quoted(alloc, key)?;
    Ok(showing(case, "other key", shown)?)
}

/// What is said where a value does not compare with what stands at the path.
pub(crate) fn apart(alloc: Global, scope: Scope<'_>, path: &str) -> Result<String, AllocError>
    ensures { IfOk result (λ text.
        string_bytes text ≡ apart_text path.now (stands path.now (place_of scope.entry))) }
{
    match scope.at(path) {
        Some(_) => {
            let shown = path_shown(path);
            format!(in alloc; "not comparable with {shown}")
        }
        None => nowhere(alloc, path),
    }
}
