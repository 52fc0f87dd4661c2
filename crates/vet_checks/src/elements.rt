//! The members of what stands at a path.
ghost use Rattle.std.specs.Prelude.{◌≡◌, Some, IfOk, map, option_map};
ghost use Rattle.serde_json.specs.View.{view, items_view, members_view};
ghost use Rattle.vet_checks.specs.Lists.{places_at, places_of, values_of};
ghost use Rattle.vet_checks.specs.Nodes.{path_of_view};
ghost use Rattle.vet_checks.specs.CheckTrees.{absence_at};
ghost use Rattle.vet_checks.specs.Scopes.{place_of};
ghost use Rattle.vet_checks.specs.ViewLaws.{elements_given};

use crate::leaf::{misfit_case, nowhere_case};
use crate::scope::Scope;
use predicates_core::reflection::Case;
use predicates_tree::{Listed, View};
use serde_json::{Map, Value};
use std::alloc::{AllocError, Global};
use std::fmt;

/// The items of the array at a path, or the values of the object, in the order of its keys, as
/// items of the record. A path that begins with `^` leads from the record on, and not from the
/// item.
#[derive(Drop)]
pub struct Elements {
    pub(crate) path: String,
}

impl fmt::Display for Elements {
    ghost output = { λ e. Some (path_of_view e) };

    fn fmt<W: fmt::Write>(&self, f: &mut fmt::Formatter<W>) -> fmt::Result {
        f.write_str(&self.path)
    }
}

impl<'v> View<Scope<'v>> for Elements {
    type Kept = Vec<Scope<'v>>;

    ghost gives = { λ e s o. option_map (map place_of) o
        ≡ places_at (path_of_view e) (place_of s) };

    ghost given = { λ e s. elements_given e s };

    ghost lends = { λ _ _. ⊥ };

    ghost absence_of = { λ e s. absence_at (path_of_view e) (place_of s) };

    fn list<'i>(
        &self,
        alloc: Global,
        item: &'i Scope<'v>,
    ) -> Result<Option<Listed<'i, Scope<'v>, Vec<Scope<'v>>>>, AllocError> {
        match item.at(&self.path) {
            Some(Value::Array(items)) => {
                let scopes = scopes_of_items(alloc, item.whole, items)?;
                Ok(Some(Listed::Kept(scopes)))
            }
            Some(Value::Object(members)) => {
                let scopes = scopes_of_values(alloc, item.whole, members)?;
                Ok(Some(Listed::Kept(scopes)))
            }
            _ => Ok(None),
        }
    }

    fn absent_case<W: fmt::Display>(
        &self,
        alloc: Global,
        whole: &W,
        item: &Scope<'v>,
    ) -> Result<Case, AllocError> {
        match item.at(&self.path) {
            Some(value) => {
                let case = misfit_case(alloc, whole, value)?;
                Ok(case)
            }
            None => {
                let case = nowhere_case(alloc, whole, &self.path)?;
                Ok(case)
            }
        }
    }
}

// The items of an array, in their record.
fn scopes_of_items<'v>(
    alloc: Global,
    whole: &'v Value,
    items: &'v [Value],
) -> Result<Vec<Scope<'v>>, AllocError>
    ensures { IfOk result (λ scopes. map place_of scopes.items
        ≡ places_of (view whole.now) (items_view items.now)) }
{
    let mut scopes = Vec::with_capacity(alloc, items.len())?;
    for item in items {
        scopes.push(Scope { whole, item })?;
    }
    Ok(scopes)
}

// The values of an object, in their record.
fn scopes_of_values<'v>(
    alloc: Global,
    whole: &'v Value,
    members: &'v Map<String, Value>,
) -> Result<Vec<Scope<'v>>, AllocError>
    ensures { IfOk result (λ scopes. map place_of scopes.items
        ≡ places_of (view whole.now) (values_of (members_view members.now.entries))) }
{
    let mut scopes = Vec::with_capacity(alloc, members.len())?;
    for item in members.values() {
        scopes.push(Scope { whole, item })?;
    }
    Ok(scopes)
}
