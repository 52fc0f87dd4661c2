//! What a check is asked of.
ghost use Rattle.std.specs.Prelude.{◌≡◌, option_map};
ghost use Rattle.serde_json.specs.View.{view};
ghost use Rattle.vet_checks.specs.Scopes.{stands, place_of};

use predicates_json::value_at;
use serde_json::Value;

/// An item of a record. A record that is asked itself is both.
#[derive(Clone, Copy)]
pub struct Scope<'v> {
    pub(crate) whole: &'v Value,
    pub(crate) item: &'v Value,
}

impl<'v> Scope<'v> {
    // What stands at the path: one that begins with `^` leads from the record on, and any other
    // from the item.
    pub(crate) fn at(self, path: &str) -> Option<&'v Value>
        ensures { option_map (λ v. view v.now) result ≡ stands path.now (place_of self.entry) }
    {
        match path.strip_prefix('^') {
            Some(pointer) => value_at(self.whole, pointer),
            None => value_at(self.item, path),
        }
    }
}
