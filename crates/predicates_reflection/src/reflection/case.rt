//! The tree that explains an answer.
//!
//! ```
//! for CaseChild { name, case } in whole.root().children() {
//!     println!(rt; "{name}: {}", case.result())?;
//! }
//! ```
ghost use Rattle.std.specs.Prelude.{◌≡◌, ◌<◌, ◌^◌, length, take, IfOk, option_copied, string_bytes};
ghost use Rattle.std.specs.Prelude.{option_map};
ghost use Rattle.predicates_reflection.specs.Tree.{named_trees, node_count};
ghost use Rattle.predicates_reflection.specs.Describe.{leaf, with_product, with_child};
ghost use Rattle.predicates_reflection.specs.Describe.{with_first_children};
ghost use Rattle.predicates_reflection.specs.CaseFields.{trees, IsPreorder};

use crate::reflection::Product;
use crate::static_text::StaticText;
use std::alloc::{AllocError, Global};
use std::marker::Model;

// What stands at one node.
#[derive(Drop)]
struct Node {
    text: Option<String>,
    result: bool,
    products: Vec<Product>,
}

// A node below the root: the name that it stands under, and how many nodes its subtree has,
// itself included.
#[derive(Drop)]
struct Entry {
    name: StaticText,
    node: Node,
    size: usize,
}

/// The reason of an answer, as a tree.
///
/// It owns its texts, so it outlives the predicate and the item. The nodes below the root stand in
/// one list, each followed by the nodes of its subtree.
#[derive(Drop)]
pub struct Case {
    root: Node,
    below: Vec<Entry>,
}

impl Model for Case {
    ghost use Rattle.predicates_reflection.specs.Tree.{Tree};
    ghost use Rattle.predicates_reflection.specs.Describe.{CaseNode, coded_case_tree};

    ghost Value = { Tree CaseNode };

    ghost coded = { coded_case_tree };

    ghost use Rattle.predicates_reflection.specs.CaseFields.{node_of, trees, IsPreorder};

    ghost view = { λ c. record { root = node_of c.root; children = trees c.below.items } };

    ghost invariant = { λ c. IsPreorder c.below.items };
}

impl Case {
    /// A node without products and children. It takes no memory; the lists of the case take from
    /// the allocator once they grow.
    ///
    /// ```
    /// let part = Case::new(alloc, None, true);
    /// let whole = Case::new(alloc, None, true).add_child("part", part)?;
    /// assert!(rt; whole.root().children().count() == 1);
    /// ```
    pub fn new(alloc: Global, predicate: Option<String>, outcome: bool) -> Case
        ensures { result ≡ leaf (option_map string_bytes predicate) outcome }
    {
        Case {
            root: Node {
                text: predicate,
                result: outcome,
                products: Vec::new(alloc),
            },
            below: Vec::new(alloc),
        }
    }

    /// Adds a product to the root, behind those that are there. Where memory runs out, the case and
    /// the product are dropped.
    ///
    /// ```
    /// let case = Case::new(alloc, None, false)
    ///     .add_product(Product::new("var", "3".to_owned(alloc)?))?;
    /// assert!(rt; case.root().products()[0].value() == "3");
    /// ```
    #[inline(always)] // a call would copy the case
    pub fn add_product(mut self, product: Product) -> Result<Case, AllocError>
        ensures { IfOk result (λ c. c ≡ with_product self product) }
    {
        self.root.products.push(product)?;
        Ok(self)
    }

    /// Adds a child to the root under the name, behind those that are there. Where memory runs out,
    /// the case and the child are dropped.
    ///
    /// ```
    /// let part = Case::new(alloc, None, false);
    /// let whole = Case::new(alloc, None, true).add_child("inner", part)?;
    /// assert!(rt; whole.root().children().all(|child| !child.case.result()));
    /// ```
    pub fn add_child(self, name: &'static str, child: Case) -> Result<Case, AllocError>
        ensures { IfOk result (λ c. c ≡ with_child self name.entry.now child) }
    {
        let Case { root, mut below } = self;
        let Case {
            root: node,
            below: mut subtree,
        } = child;
        let size = subtree.len() + 1;
        let entry = Entry {
            name: StaticText::new(name),
            node,
            size,
        };
        // Without a list of its own it keeps the child's, whose nodes move up by one place.
        if below.is_empty() {
            subtree.insert(0, entry)?;
            return Ok(Case {
                root,
                below: subtree,
            });
        }
        below.reserve(size)?;
        below.push(entry)?;
        below.append(&mut subtree)?;
        Ok(Case { root, below })
    }

    /// Drops the children of the root behind the first, so many of which stay. It takes no memory.
    ///
    /// ```
    /// let part = Case::new(alloc, None, true);
    /// let whole = Case::new(alloc, None, true).add_child("inner", part)?;
    /// assert!(rt; whole.with_first_children(0).root().children().count() == 0);
    /// ```
    pub fn with_first_children(self, number: usize) -> Case
        ensures { result ≡ with_first_children number self }
    {
        let Case { root, mut below } = self;
        let end = end_of_first(below.as_slice(), number);
        below.truncate(end);
        Case { root, below }
    }

    /// A view of the root. Views copy nothing and take no memory.
    ///
    /// ```
    /// let case = Case::new(alloc, None, true);
    /// assert!(rt; case.root().result() && case.root().products().is_empty());
    /// ```
    pub fn root(&self) -> CaseView<'_>
        ensures value { result ≡ self.now }
        ensures countable { node_count self.now.children < 2 ^ 64 }
    {
        CaseView {
            node: &self.root,
            below: self.below.as_slice(),
        }
    }
}

// Where the first trees end, so many at most.
fn end_of_first(entries: &[Entry], number: usize) -> usize
    requires { IsPreorder entries.now }
    ensures preorder { IsPreorder (take result entries.now) }
    ensures trees { named_trees (trees (take result entries.now))
        ≡ take number (named_trees (trees entries.now)) }
{
    let mut end = 0usize;
    let mut count = 0usize;
    while count < number && end < entries.len() {
        end += entries[end].size;
        count += 1;
    }
    end
}

/// A view of a case, or of a part of one: of a node and what stands below it.
#[derive(Drop)]
pub struct CaseView<'a> {
    node: &'a Node,
    below: &'a [Entry],
}

impl<'a> Model for CaseView<'a> {
    ghost use Rattle.predicates_reflection.specs.Tree.{Tree};
    ghost use Rattle.predicates_reflection.specs.Describe.{CaseNode, coded_case_tree};

    ghost Value = { Tree CaseNode };

    ghost coded = { coded_case_tree };

    ghost use Rattle.predicates_reflection.specs.CaseFields.{node_of, trees, IsPreorder};

    ghost view = { λ v. record { root = node_of v.node.now; children = trees v.below.now } };

    ghost invariant = { λ v. IsPreorder v.below.now };
}

impl<'a> CaseView<'a> {
    /// The printed text of the predicate that the node explains, if it has one.
    ///
    /// ```
    /// let case = Case::new(alloc, Some("var >= 5".to_owned(alloc)?), true);
    /// assert!(rt; case.root().predicate() == Some("var >= 5"));
    /// ```
    pub fn predicate(&self) -> Option<&'a str>
        ensures { option_copied result ≡ self.now.root.text }
    {
        match &self.node.text {
            Some(text) => Some(text.as_str()),
            None => None,
        }
    }

    /// What that predicate answers on its item.
    ///
    /// ```
    /// assert!(rt; !Case::new(alloc, None, false).root().result());
    /// ```
    pub fn result(&self) -> bool
        ensures { result ≡ self.now.root.result }
    {
        self.node.result
    }

    /// The values that the node shows, in order.
    ///
    /// ```
    /// for product in case.root().products() {
    ///     println!(rt; "{} is {}", product.name(), product.value())?;
    /// }
    /// ```
    pub fn products(&self) -> &'a [Product]
        ensures { result.now ≡ self.now.root.products }
    {
        self.node.products.as_slice()
    }

    /// The children of the node, each under its name, in order.
    ///
    /// ```
    /// let part = Case::new(alloc, None, true);
    /// let whole = Case::new(alloc, None, true).add_child("left", part)?;
    /// for child in whole.root().children() {
    ///     assert!(rt; child.name == "left" && child.case.result());
    /// }
    /// ```
    pub fn children(&self) -> CaseChildren<'a>
        ensures children { result ≡ named_trees self.now.children }
        ensures countable { length result < 2 ^ 64 }
    {
        CaseChildren { rest: self.below }
    }
}

/// A child of a node: a name, and the case that stands under it.
#[derive(Drop)]
pub struct CaseChild<'a> {
    /// The name that the child stands under, such as `left`.
    pub name: &'static str,
    /// What stands under it.
    pub case: CaseView<'a>,
}

/// The children of a node that are still to come. It ends, and takes no memory.
#[derive(Drop)]
pub struct CaseChildren<'a> {
    rest: &'a [Entry],
}

impl<'a> Model for CaseChildren<'a> {
    ghost use Rattle.std.specs.Prelude.{List};
    ghost use Rattle.predicates_reflection.specs.Tree.{named_trees};
    ghost use Rattle.predicates_reflection.specs.Describe.{NamedCase, coded_named_cases};

    ghost Value = { List NamedCase };

    ghost coded = { coded_named_cases };

    ghost use Rattle.predicates_reflection.specs.CaseFields.{trees, IsPreorder};

    ghost view = { λ c. named_trees (trees c.rest.now) };

    ghost invariant = { λ c. IsPreorder c.rest.now };
}

impl<'a> Iterator for CaseChildren<'a> {
    type Item = CaseChild<'a>;

    ghost use Rattle.std.specs.Iterator.{YieldsFirstBy, item_count};
    ghost use Rattle.predicates_reflection.specs.CaseViews.{named_case};

    ghost next_gives = { YieldsFirstBy named_case (λ s. s) };

    ghost remaining = { item_count (λ s. s) };

    fn next(&mut self) -> Option<CaseChild<'a>> {
        let (first, rest) = self.rest.split_first()?;
        let (below, rest) = rest.split_at(first.size - 1);
        self.rest = rest;
        Some(CaseChild {
            name: first.name.as_str(),
            case: CaseView {
                node: &first.node,
                below,
            },
        })
    }
}
