//! Boolean checks of one item.
//!
//! ```
//! let holds = predicate.eval(alloc, &item)?;
//! let reason = predicate.find_case(alloc, false, &item)?; // none where it holds
//! ```
ghost use Rattle.std.specs.Prelude.{◌≡◌, ℕ, List, string_bytes, not, IfOk, IsOk};
ghost use Rattle.predicates_core.specs.Label.{FitsEntry};
ghost use Rattle.predicates_core.specs.Formula.{Formula, HasTruth, IsLeaf, truth, text_of};
ghost use Rattle.predicates_core.specs.Shows.{IsAnswer, IsFound};
ghost use Rattle.predicates_core.specs.Leaves.{IsBareAnswer};

use crate::node;
use crate::reflection::{Case, PredicateReflection};
use std::alloc::{AllocError, Global};

/// A boolean check of one item, which explains its verdict.
///
/// An implementation states its formula on an item, and proves that both calls keep to it.
pub trait Predicate<Item>: PredicateReflection {
    // It may be asked about every item, and has one answer for each: what both calls may rely on.
    ghost lawful: { Self → Type 0 } = { λ _. Unit {0} };

    // The formulas that the predicate has on an item: what it means there.
    ghost formula: { Self → Item → Formula → Type 0 };

    // On the item `eval` takes no memory, so it answers.
    ghost infallible: { Self → Item → Type 0 };

    /// Whether the predicate holds of the item.
    ///
    /// The one error is that memory ran out, never where the predicate is infallible. There is then
    /// no verdict, and the predicate is as before.
    ///
    /// ```
    /// assert!(rt; predicate::ge(5).eval(alloc, &7)?);
    /// assert!(rt; !predicate::ge(5).eval(alloc, &3)?);
    /// ```
    fn eval(&self, alloc: Global, item: &Item) -> Result<bool, AllocError>
        requires { lawful self.now }
        ensures truth { IfOk result (HasTruth (formula self.now item.now)) }
        ensures infallible { infallible self.now item.now → IsOk result };

    /// A case that explains the verdict where it is the expected one, and none where it is not.
    ///
    /// It takes memory for the case, and what `eval` takes. The one error is that memory ran
    /// out: there is then no answer, and the predicate is as before.
    ///
    /// ```
    /// let case = predicate::ge(5).find_case(alloc, false, &3)?.ok_or("no case")?;
    /// assert!(rt; render(alloc, &case)?.as_str() == "var >= 5 = false\n  - var: 3\n");
    /// ```
    fn find_case(
        &self,
        alloc: Global,
        expected: bool,
        item: &Item,
    ) -> Result<Option<Case>, AllocError>
        requires { lawful self.now }
        ensures { IfOk result (IsAnswer (formula self.now item.now) expected) };

    /// As `find_case`, for a part of a predicate that was evaluated before: a case that explains
    /// the verdict where it is the wanted one, or whichever it is where none is wanted.
    ///
    /// A predicate over parts that is evaluated once, and then asks this of its parts, has each of
    /// its leaves evaluated at most twice. So a predicate over parts overrides it by calls of
    /// `custom`. For a leaf it is enough to override it where its verdict takes long: an operator
    /// that needs the case of whichever verdict asks twice otherwise.
    ///
    /// ```
    /// let case = predicate::ge(5).explain(alloc, None, &3)?.ok_or("no case")?;
    /// assert!(rt; !case.root().result());
    /// ```
    fn explain(
        &self,
        alloc: Global,
        wanted: Option<bool>,
        item: &Item,
    ) -> Result<Option<Case>, AllocError>
        requires { lawful self.now }
        ensures { IfOk result (IsFound (formula self.now item.now) wanted) }
    {
        match wanted {
            Some(expected) => self.find_case(alloc, expected, item),
            None => match self.find_case(alloc, true, item)? {
                Some(case) => Ok(Some(case)),
                None => {
                    let found = self.find_case(alloc, false, item)?;
                    Ok(found)
                }
            },
        }
    }

    // To be proved: what it prints is the text of the root of each of its formulas.
    ghost text_fits: { (p : Self) (v : Item) (f : Formula) → formula p v f
        → FitsEntry (text_of f) (Self.output p) };

    // To be proved: a lawful predicate has at most one formula on an item.
    ghost one_formula: { (p : Self) (v : Item) (f g : Formula) → lawful p → formula p v f
        → formula p v g → f ≡ g };
}

/// A predicate that may be asked about every item, whatever it holds, and has a formula on each.
///
/// It has no methods. A contract over such a predicate is never empty and has no condition.
pub trait Total<Item>: Predicate<Item> {
    // The formula that the predicate has on an item.
    ghost formula_of: { Self → Item → Formula };

    // To be proved: it is lawful, whatever it holds.
    ghost always_lawful: { (p : Self) → Self.lawful p };

    // To be proved: that formula is one of those that it states.
    ghost has_formula: { (p : Self) (v : Item) → Self.formula p v (formula_of p v) };
}

/// An item that has a content, whatever room or place it has in memory.
pub trait Content {
    // The content, as bytes.
    ghost content: { Self → List ℕ };
}

impl Content for String {
    ghost content = { λ v. string_bytes v };
}

/// A predicate that may be asked about every item, and whose formula is a function of the item's
/// content.
///
/// It has no methods. A predicate of texts has to implement it to be boxed.
pub trait ReadsContent<Item: Content>: Predicate<Item> {
    // The formula that the predicate has on an item with a content.
    ghost content_formula: { Self → List ℕ → Formula };

    // To be proved: it is lawful, whatever it holds.
    ghost always_lawful: { (p : Self) → Self.lawful p };

    // To be proved: that formula is one of those that it states.
    ghost has_formula: { (p : Self) (v : Item)
        → Self.formula p v (content_formula p (Item.content v)) };
}

/// The case of a predicate whose formula on the item is a single leaf: a node with the printed
/// text, without products, where the verdict is `expected`, and none where it is not.
///
/// It takes memory for the text, and what `eval` takes; it fails only where memory runs out.
///
/// ```
/// let none = default_find_case(alloc, &predicate::ge(5), false, &7)?;
/// assert!(rt; none.is_none());
/// let case = default_find_case(alloc, &predicate::ge(5), true, &7)?.ok_or("no case")?;
/// assert!(rt; render(alloc, &case)?.as_str() == "var >= 5 = true\n");
/// ```
pub fn default_find_case<P: Predicate<Item>, Item>(
    alloc: Global,
    predicate: &P,
    expected: bool,
    item: &Item,
) -> Result<Option<Case>, AllocError>
    requires lawful { P.lawful predicate.now }
    requires leaf { (f : Formula) → P.formula predicate.now item.now f → IsLeaf f }
    ensures answer { IfOk result
        (IsBareAnswer (P.formula predicate.now item.now) (P.output predicate.now) expected) }
    ensures infallible { P.infallible predicate.now item.now → (f : Formula)
        → P.formula predicate.now item.now f → truth f ≡ not expected → IsOk result }
{
    if predicate.eval(alloc, item)? != expected {
        return Ok(None);
    }
    Ok(Some(node::leaf_node(alloc, node::printed(alloc, predicate)?, expected)))
}
