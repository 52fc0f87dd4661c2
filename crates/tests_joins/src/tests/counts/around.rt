//! How often a part is asked below what stands around it.
use super::counting::{CountingLeaf, leaf_that_counts};
use crate::tests::made::Host;
use predicates::boolean::AndPredicate;
use predicates::prelude::*;
use std::cell::Cell;
use std::fmt;

/// What stands around a part: nothing, a combinator of one, or one of two with a leaf behind the
/// part, or before it.
#[derive(Clone, Copy)]
pub enum Around {
    Alone,
    Not,
    Name,
    And,
    Or,
    Xor,
    AfterXor,
}

/// A call that asks a predicate, with the verdict that it expects or wants.
#[derive(Clone, Copy)]
enum Call {
    Eval,
    FindCase(bool),
    Explain(Option<bool>),
    FindChange(Option<bool>),
}

/// How often the leaves are evaluated by `eval`, by `find_case` of true and of false, by `explain`
/// and by `find_change` of either, of true and of false each, and by `require`.
pub type Counts = [usize; 10];

const CALLS: [Call; 9] = [
    Call::Eval,
    Call::FindCase(true),
    Call::FindCase(false),
    Call::Explain(None),
    Call::Explain(Some(true)),
    Call::Explain(Some(false)),
    Call::FindChange(None),
    Call::FindChange(Some(true)),
    Call::FindChange(Some(false)),
];

fn ask<P: PredicateChange<Item>, Item>(rt: &impl Host, predicate: &P, item: &Item, call: Call)
    requires { P.lawful predicate.now }
{
    match call {
        Call::Eval => {
            predicate.eval(rt.alloc(), item).expect(rt, "memory");
        }
        Call::FindCase(expected) => {
            predicate
                .find_case(rt.alloc(), expected, item)
                .expect(rt, "memory");
        }
        Call::Explain(wanted) => {
            predicate
                .explain(rt.alloc(), wanted, item)
                .expect(rt, "memory");
        }
        Call::FindChange(wanted) => {
            predicate
                .find_change(rt.alloc(), wanted, item)
                .expect(rt, "memory");
        }
    }
}

/// What is asked: a part, which may be two leaves under `and`, and what stands around it, with the
/// verdict of the leaf beside it.
#[derive(Clone, Copy)]
pub struct Asked<'a> {
    pub cell: &'a Cell<usize>,
    pub is_pair: bool,
    pub around: Around,
    pub beside: bool,
}

/// A leaf that holds, and one that does not.
pub type Both<'a, Item> = AndPredicate<CountingLeaf<'a, Item>, CountingLeaf<'a, Item>, Item>;

impl<'a> Asked<'a> {
    /// A leaf that holds.
    pub fn leaf<Item>(self) -> CountingLeaf<'a, Item> {
        leaf_that_counts(self.cell, true)
    }

    /// A leaf that does not.
    pub fn other<Item>(self) -> CountingLeaf<'a, Item> {
        leaf_that_counts(self.cell, false)
    }

    /// Both, under `and`.
    pub fn both<Item: fmt::Debug>(self) -> Both<'a, Item> {
        self.leaf().and(self.other())
    }

    /// How often the leaves are evaluated.
    pub fn counts<P: PredicateChange<Item> + Drop, Item: fmt::Debug + Drop>(
        self,
        rt: &impl Host,
        part: P,
        item: Item,
    ) -> Counts
        requires { P.lawful part }
    {
        let beside = leaf_that_counts::<Item>(self.cell, self.beside);
        match self.around {
            Around::Alone => self.of(rt, part, &item),
            Around::Not => self.of(rt, part.not(), &item),
            Around::Name => self.of(rt, part.name("named"), &item),
            Around::And => self.of(rt, part.and(beside), &item),
            Around::Or => self.of(rt, part.or(beside), &item),
            Around::Xor => self.of(rt, part.xor(beside), &item),
            Around::AfterXor => self.of(rt, beside.xor(part), &item),
        }
    }

    /// The same of a part with nothing around it, whose type then stands in no other.
    pub fn alone<P: PredicateChange<Item> + Drop, Item: Drop>(
        self,
        rt: &impl Host,
        part: P,
        item: Item,
    ) -> Counts
        requires { P.lawful part }
    {
        assert!(rt; matches!(self.around, Around::Alone));
        self.of(rt, part, &item)
    }

    pub fn of<P: PredicateChange<Item> + Drop, Item>(
        self,
        rt: &impl Host,
        predicate: P,
        item: &Item,
    ) -> Counts
        requires { P.lawful predicate }
    {
        let mut counts = [0; 10];
        for (place, call) in CALLS.into_iter().enumerate() {
            self.cell.set(0);
            ask(rt, &predicate, item, call);
            counts[place] = self.cell.get();
        }
        self.cell.set(0);
        let _unmet = require(rt.alloc(), &predicate, item);
        counts[9] = self.cell.get();
        counts
    }
}
