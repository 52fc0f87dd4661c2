//! Views of members that lie in an item.
ghost use Rattle.std.specs.Prelude.{◌≡◌, ℕ, List, Option, Some, None, codes, option_copied};

use std::fmt;

/// Gives the members that an item has in one place, which are items of the same type and lie in it
/// as a slice. Its text is printed before the check of a member.
pub trait Members<Item>: fmt::Display {
    // The members, if the item has a list in that place.
    ghost members_of: { Self → Item → Option (List Item) };

    // Why there is no list.
    ghost reason_of: { Self → Item → List ℕ };

    /// The members, in order, and None where the item has no list in that place. The same item has
    /// the same members each time.
    fn members<'a>(&self, item: &'a Item) -> Option<&'a [Item]>
        ensures { option_copied result ≡ members_of self.now item.now };

    /// What a case says, as the product `error`, of an item that has no list in that place.
    fn reason(&self, item: &Item) -> &str
        ensures { result.now ≡ reason_of self.now item.now };
}

/// The view of a check that asks no members: no item has any.
#[derive(Debug, Clone, Copy, PartialEq, Eq, Drop)]
pub struct NoMembers;

impl fmt::Display for NoMembers {
    ghost output = { λ _. Some (codes "") };

    fn fmt<W: fmt::Write>(&self, f: &mut fmt::Formatter<W>) -> fmt::Result {
        f.write_str("")
    }
}

impl<Item> Members<Item> for NoMembers {
    ghost members_of = { λ _ _. None };

    ghost reason_of = { λ _ _. codes "" };

    fn members<'a>(&self, _item: &'a Item) -> Option<&'a [Item]> {
        None
    }

    fn reason(&self, _item: &Item) -> &str {
        ""
    }
}
