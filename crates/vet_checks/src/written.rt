//! The texts of a rule's parts.
ghost use Rattle.std.specs.Prelude.{string_bytes};
ghost use Rattle.vet_checks.specs.Nodes.{written};

use predicates_tree::Wording;

/// The text of a part as the rule writes it. Where it is over several, each of these is a `part`.
#[derive(Drop)]
pub struct Written {
    pub(crate) text: String,
}

impl Wording for Written {
    ghost words = { λ w. written (string_bytes w.text) };

    fn text(&self) -> Option<&str> {
        Some(&self.text)
    }

    fn part(&self) -> &'static str {
        "part"
    }
}
