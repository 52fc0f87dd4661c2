//! The words of a check's nodes.
ghost use Rattle.std.specs.Prelude.{◌≡◌, option_map};
ghost use Rattle.predicates_tree.specs.Trees.{Words, computed};

/// What a node of a check keeps of its words: the text that it prints, and what its parts are
/// called where they are several.
pub trait Wording {
    // The words of the node.
    ghost words: { Self → Words };

    /// The text that the node prints, and None where it prints what the library's own combinators
    /// do, made of its parts' texts.
    fn text(&self) -> Option<&str>
        ensures { option_map (λ text. text.now) result ≡ (words self.now).text };

    /// The name under which a part of several stands in a case and in a description.
    fn part(&self) -> &'static str
        ensures { result.now ≡ (words self.now).part };
}

/// The words of a check of the library: each text is made of the parts' texts, and each part of
/// several is a `rule`.
#[derive(Debug, Clone, Copy, PartialEq, Eq, Drop)]
pub struct Computed;

impl Wording for Computed {
    ghost words = { λ _. computed };

    fn text(&self) -> Option<&str> {
        None
    }

    fn part(&self) -> &'static str {
        "rule"
    }
}
