//! Which leaves explain a formula's truth, found by trying every set of leaves under every
//! choice of truths.
use crate::from_words::Combinator;
use std::alloc::{AllocError, Global};

/// A formula whose leaves are numbered from 0, from left to right.
#[derive(Drop)]
pub enum ReferenceFormula {
    Leaf(bool),
    And(Box<ReferenceFormula>, Box<ReferenceFormula>),
    Or(Box<ReferenceFormula>, Box<ReferenceFormula>),
    Xor(Box<ReferenceFormula>, Box<ReferenceFormula>),
    Not(Box<ReferenceFormula>),
    Named(Box<ReferenceFormula>),
    /// A list: its first member joined with the rest, and so on to `NoMore`.
    Members(Box<ReferenceFormula>),
    /// At least so many members of a list, which stands as that of `Members` does.
    Counted(usize, Box<ReferenceFormula>),
    /// What stands behind the last member of a list: a truth that decides nothing, and no leaf.
    NoMore(bool),
}

impl ReferenceFormula {
    /// The number of leaves.
    pub fn leaf_count(&self) -> usize {
        match self {
            ReferenceFormula::Leaf(_) => 1,
            ReferenceFormula::NoMore(_) => 0,
            ReferenceFormula::And(left, right)
            | ReferenceFormula::Or(left, right)
            | ReferenceFormula::Xor(left, right) => {
                left.leaf_count().saturating_add(right.leaf_count())
            }
            ReferenceFormula::Not(part)
            | ReferenceFormula::Named(part)
            | ReferenceFormula::Members(part)
            | ReferenceFormula::Counted(_, part) => part.leaf_count(),
        }
    }

    /// The truth by the leaves' own truths.
    #[cycle(truth)]
    pub fn truth(&self) -> bool {
        match self {
            ReferenceFormula::Leaf(own) | ReferenceFormula::NoMore(own) => *own,
            ReferenceFormula::And(left, right) => left.truth() && right.truth(),
            ReferenceFormula::Or(left, right) => left.truth() || right.truth(),
            ReferenceFormula::Xor(left, right) => left.truth() != right.truth(),
            ReferenceFormula::Not(part) => !part.truth(),
            ReferenceFormula::Named(part) | ReferenceFormula::Members(part) => part.truth(),
            ReferenceFormula::Counted(least, members) => *least <= members.true_members(),
        }
    }

    // How many members of the list are true.
    #[cycle(truth)]
    fn true_members(&self) -> usize {
        match self {
            ReferenceFormula::And(member, rest) => {
                let first = usize::from(member.truth());
                first.saturating_add(rest.true_members())
            }
            _ => 0,
        }
    }

    // The leaves' own truths, the first in the lowest bit, and above them the bits `above`.
    fn own_truths(&self, above: u32) -> u32 {
        match self {
            ReferenceFormula::Leaf(own) => above << 1 | u32::from(*own),
            ReferenceFormula::NoMore(_) => above,
            ReferenceFormula::And(left, right)
            | ReferenceFormula::Or(left, right)
            | ReferenceFormula::Xor(left, right) => { left.own_truths(right.own_truths(above)) }
            ReferenceFormula::Not(part)
            | ReferenceFormula::Named(part)
            | ReferenceFormula::Members(part)
            | ReferenceFormula::Counted(_, part) => part.own_truths(above),
        }
    }

    // The truth where the leaves have those of the lowest bits, and the bits above them.
    #[cycle(value)]
    fn value(&self, truths: u32) -> (bool, u32) {
        match self {
            ReferenceFormula::Leaf(_) => (truths & 1 == 1, truths >> 1),
            ReferenceFormula::NoMore(own) => (*own, truths),
            ReferenceFormula::And(left, right) => {
                let (left, rest) = left.value(truths);
                let (right, rest) = right.value(rest);
                (left && right, rest)
            }
            ReferenceFormula::Or(left, right) => {
                let (left, rest) = left.value(truths);
                let (right, rest) = right.value(rest);
                (left || right, rest)
            }
            ReferenceFormula::Xor(left, right) => {
                let (left, rest) = left.value(truths);
                let (right, rest) = right.value(rest);
                (left != right, rest)
            }
            ReferenceFormula::Not(part) => {
                let (part, rest) = part.value(truths);
                (!part, rest)
            }
            ReferenceFormula::Named(part) | ReferenceFormula::Members(part) => part.value(truths),
            ReferenceFormula::Counted(least, members) => {
                let (held, rest) = members.held(truths);
                (*least <= held, rest)
            }
        }
    }

    // How many members of the list are true then, and the bits above their leaves.
    #[cycle(value)]
    fn held(&self, truths: u32) -> (usize, u32) {
        match self {
            ReferenceFormula::And(member, rest) => {
                let (first, behind) = member.value(truths);
                let (others, above) = rest.held(behind);
                (others.saturating_add(usize::from(first)), above)
            }
            _ => (0, truths),
        }
    }
}

/// The formula of "at least so many of the members", which is one leaf where their number alone
/// settles it.
pub fn counted(
    alloc: Global,
    least: usize,
    members: Vec<ReferenceFormula>,
) -> Result<ReferenceFormula, AllocError> {
    let number = members.len();
    if least == 0 || number < least {
        return Ok(ReferenceFormula::Leaf(least <= number));
    }
    let mut list = ReferenceFormula::NoMore(true);
    for member in members.into_iter().rev() {
        list = ReferenceFormula::And(Box::new(alloc, member)?, Box::new(alloc, list)?);
    }
    Ok(ReferenceFormula::Counted(least, Box::new(alloc, list)?))
}

/// The formula of a leaf of this truth under a name.
pub fn named_leaf(alloc: Global, truth: bool) -> Result<ReferenceFormula, AllocError> {
    Ok(ReferenceFormula::Named(Box::new(alloc, ReferenceFormula::Leaf(truth))?))
}

/// The formula of a combinator over one part or two; none where it takes not as many.
pub fn combined(
    alloc: Global,
    combinator: Combinator,
    first: ReferenceFormula,
    second: Option<ReferenceFormula>,
) -> Result<Option<ReferenceFormula>, AllocError> {
    match second {
        Some(second) => over_two(alloc, combinator, first, second),
        None => over_one(alloc, combinator, first),
    }
}

fn over_one(
    alloc: Global,
    combinator: Combinator,
    part: ReferenceFormula,
) -> Result<Option<ReferenceFormula>, AllocError> {
    let part = Box::new(alloc, part)?;
    Ok(match combinator {
        Combinator::Not => Some(ReferenceFormula::Not(part)),
        Combinator::Named(_) => Some(ReferenceFormula::Named(part)),
        _ => None,
    })
}

fn over_two(
    alloc: Global,
    combinator: Combinator,
    left: ReferenceFormula,
    right: ReferenceFormula,
) -> Result<Option<ReferenceFormula>, AllocError> {
    let left = Box::new(alloc, left)?;
    let right = Box::new(alloc, right)?;
    Ok(match combinator {
        Combinator::And => Some(ReferenceFormula::And(left, right)),
        Combinator::Or => Some(ReferenceFormula::Or(left, right)),
        Combinator::Xor => Some(ReferenceFormula::Xor(left, right)),
        _ => None,
    })
}

// The leaf k stands at the bit k.
const LEAVES: [u32; 12] = [1, 2, 4, 8, 16, 32, 64, 128, 256, 512, 1024, 2048];

// The truth of a formula under each choice of truths of its leaves, and the choice that they have.
#[derive(Drop)]
struct Truths {
    of_choices: Vec<bool>,
    choices: u32,
    own: u32,
}

impl Truths {
    fn new(alloc: Global, formula: &ReferenceFormula, choices: u32) -> Result<Truths, AllocError> {
        let mut of_choices = Vec::new(alloc);
        for choice in 0..choices {
            of_choices.push(formula.value(choice).0)?;
        }
        Ok(Truths {
            of_choices,
            choices,
            own: formula.own_truths(0),
        })
    }

    fn under(&self, choice: u32) -> Option<&bool> {
        self.of_choices.get(choice as usize)
    }

    // Whether the truth is the same under all choices of truths that leave the set's leaves as they
    // are.
    fn has_reason(&self, set: u32) -> bool {
        let truth = self.under(self.own);
        let free = self.choices.wrapping_sub(1) & !set;
        let mut turned = free;
        for _ in 0..self.choices {
            if self.under(self.own ^ turned) != truth {
                return false;
            }
            if turned == 0 {
                return true;
            }
            turned = turned.wrapping_sub(1) & free;
        }
        true
    }

    // Whether the set is a reason, and none without any one of its leaves.
    fn has_minimal_reason(&self, set: u32) -> bool {
        if !self.has_reason(set) {
            return false;
        }
        for leaf in LEAVES {
            if set & leaf != 0 && self.has_reason(set ^ leaf) {
                return false;
            }
        }
        true
    }

    // Whether the truth turns where exactly the set's leaves turn.
    fn has_change(&self, set: u32) -> bool {
        self.under(self.own ^ set) != self.under(self.own)
    }

    // Whether the set is a change, and none of its parts is.
    fn has_minimal_change(&self, set: u32) -> bool {
        if !self.has_change(set) {
            return false;
        }
        let mut part = set;
        for _ in 0..self.choices {
            part = part.wrapping_sub(1) & set;
            if self.has_change(part) {
                return false;
            }
            if part == 0 {
                return true;
            }
        }
        true
    }
}

// The numbers of a set's leaves, in order.
fn numbers(alloc: Global, set: u32) -> Result<Vec<usize>, AllocError> {
    let mut numbers = Vec::new(alloc);
    for (number, leaf) in LEAVES.into_iter().enumerate() {
        if set & leaf != 0 {
            numbers.push(number)?;
        }
    }
    Ok(numbers)
}

// The one that comes before the other.
fn earlier(best: Option<Vec<usize>>, found: Vec<usize>) -> Vec<usize> {
    match best {
        Some(best) if best.as_slice() <= found.as_slice() => best,
        _ => found,
    }
}

/// The first of all minimal reasons, as the order of lists has it; none for a formula of more than
/// twelve leaves.
pub fn first_reason(
    alloc: Global,
    formula: &ReferenceFormula,
) -> Result<Option<Vec<usize>>, AllocError> {
    let count = formula.leaf_count();
    if count > LEAVES.len() {
        return Ok(None);
    }
    let truths = Truths::new(alloc, formula, 1_u32 << count)?;
    let mut first: Option<Vec<usize>> = None;
    for set in 0..truths.choices {
        if truths.has_minimal_reason(set) {
            let found = numbers(alloc, set)?;
            first = Some(earlier(first, found));
        }
    }
    Ok(first)
}

/// The first of all minimal changes, as the order of lists has it; none for a formula of more than
/// twelve leaves.
pub fn first_change(
    alloc: Global,
    formula: &ReferenceFormula,
) -> Result<Option<Vec<usize>>, AllocError> {
    let count = formula.leaf_count();
    if count > LEAVES.len() {
        return Ok(None);
    }
    let truths = Truths::new(alloc, formula, 1_u32 << count)?;
    let mut first: Option<Vec<usize>> = None;
    for set in 0..truths.choices {
        if truths.has_minimal_change(set) {
            let found = numbers(alloc, set)?;
            first = Some(earlier(first, found));
        }
    }
    Ok(first)
}
