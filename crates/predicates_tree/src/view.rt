//! Views of the members of an item, which lie in it or are listed for a call.
ghost use Rattle.std.specs.Prelude.{◌≡◌, refl, ℕ, List, [], Option, None, Some, codes, option_map};
ghost use Rattle.std.specs.Prelude.{false, IfOk, IsOk};
ghost use Rattle.predicates_core.specs.Label.{Product, value_of};
ghost use Rattle.predicates_core.specs.Leaves.{IsExactly};
ghost use Rattle.predicates_core.specs.Shows.{IsCaseOf, IsFound};
ghost use Rattle.predicates_tree.specs.Viewed.{no_list, members_in};

use crate::members::Members;
use predicates_core::custom::{absent_case, is_other};
use predicates_core::reflection::Case;
use std::alloc::{AllocError, Global};
use std::fmt;

/// A list of items that is kept while a call goes on.
pub trait Items<Item> {
    // The items.
    ghost items_of: { Self → List Item };

    /// The items, in order.
    fn as_slice(&self) -> &[Item]
        ensures { result.now ≡ items_of self.now };
}

impl<Item> Items<Item> for Vec<Item> {
    ghost items_of = { λ items. items.items };

    fn as_slice(&self) -> &[Item] {
        self
    }
}

/// No list: what a view keeps whose members lie in the item.
#[derive(Debug, Clone, Copy, PartialEq, Eq, Drop)]
pub struct NoItems;

impl<Item> Items<Item> for NoItems {
    ghost items_of = { λ _. [] };

    fn as_slice(&self) -> &[Item] {
        &[]
    }
}

/// The members of an item: where they lie in it, or in a list that was made of them.
#[derive(Drop)]
pub enum Listed<'i, Item, Kept> {
    Slice(&'i [Item]),
    Kept(Kept),
}

impl<'i, Item, Kept: Items<Item>> Listed<'i, Item, Kept> {
    /// The members, in order.
    pub fn as_slice(&self) -> &[Item]
        ensures { result.now ≡ members_in Kept.items_of self.now }
    {
        match self {
            Listed::Slice(members) => members,
            Listed::Kept(kept) => kept.as_slice(),
        }
    }
}

/// Gives the members that an item has in one place, which are items of the same type. Its text is
/// printed before the check of a member.
///
/// A view whose members lie in the item as a slice implements `Members`, which is shorter.
pub trait View<Item>: fmt::Display {
    /// A list of members, where they lie in no slice.
    type Kept: Items<Item> + Drop;

    // It is what the view gives of the item: a list of the members, or nothing where there is none.
    ghost gives: { Self → Item → Option (List Item) → Type 0 };

    // To be proved: it gives something.
    ghost given: { (view : Self) (v : Item) → (o : Option (List Item)) × gives view v o };

    // To list them takes no memory.
    ghost lends: { Self → Item → Type 0 };

    // What a case shows where there is no list.
    ghost absence_of: { Self → Item → List Product };

    /// The members, in order, and None where the item has no list in that place. The same item has
    /// the same members each time, wherever they are listed. The one error is that memory ran out.
    fn list<'i>(
        &self,
        alloc: Global,
        item: &'i Item,
    ) -> Result<Option<Listed<'i, Item, Self::Kept>>, AllocError>
        ensures listed { IfOk result (λ found.
            gives self.now item.now (option_map (members_in Self.Kept.Items.items_of) found)) }
        ensures lends { lends self.now item.now → IsOk result };

    /// The case of the whole check on an item that has no list in that place: a false leaf that
    /// says why.
    fn absent_case<W: fmt::Display>(
        &self,
        alloc: Global,
        whole: &W,
        item: &Item,
    ) -> Result<Case, AllocError>
        requires { gives self.now item.now None }
        ensures { IfOk result (IsCaseOf
            (IsExactly (no_list (W.output whole.now) (absence_of self.now item.now))) false) };
}

impl<V: Members<Item>, Item> View<Item> for V {
    type Kept = NoItems;

    ghost gives = { λ view item o. V.members_of view item ≡ o };

    ghost given = { λ view item. (V.members_of view item, refl) };

    ghost lends = { λ _ _. Unit {0} };

    ghost absence_of = { λ view item.
        value_of (codes "error") (Some (V.reason_of view item)) };

    fn list<'i>(
        &self,
        _alloc: Global,
        item: &'i Item,
    ) -> Result<Option<Listed<'i, Item, NoItems>>, AllocError> {
        match self.members(item) {
            Some(members) => Ok(Some(Listed::Slice(members))),
            None => Ok(None),
        }
    }

    fn absent_case<W: fmt::Display>(
        &self,
        alloc: Global,
        whole: &W,
        item: &Item,
    ) -> Result<Case, AllocError> {
        absent_case(alloc, whole, self.reason(item))
    }
}

// What is found of an item that has no list, where the whole is printed.
pub(crate) fn absent_found<W: fmt::Display, V: View<Item>, Item>(
    alloc: Global,
    whole: &W,
    view: &V,
    wanted: Option<bool>,
    item: &Item,
) -> Result<Option<Case>, AllocError>
    requires { V.gives view.now item.now None }
    ensures { IfOk result (IsFound
        (IsExactly (no_list (W.output whole.now) (V.absence_of view.now item.now))) wanted) }
{
    if is_other(wanted, false) {
        return Ok(None);
    }
    Ok(Some(view.absent_case(alloc, whole, item)?))
}
