//! A leaf that counts how often it is asked, in a cell that it borrows.
ghost use Rattle.std.specs.Prelude.{Some, codes};

use predicates::custom::{Test, TestPredicate, leaf};
use std::cell::Cell;
use std::fmt;
use std::marker::PhantomData;

/// The test that has this verdict of each item, and counts how often it is asked.
#[derive(Clone, Copy, Drop)]
pub struct CountingTest<'a, Item> {
    holds: bool,
    asked: &'a Cell<usize>,
    item: PhantomData<Item>,
}

pub type CountingLeaf<'a, Item> = TestPredicate<CountingTest<'a, Item>>;

/// The leaf of this verdict, which counts in the cell.
pub fn leaf_that_counts<Item>(asked: &Cell<usize>, holds: bool) -> CountingLeaf<'_, Item> {
    leaf(CountingTest {
        holds,
        asked,
        item: PhantomData,
    })
}

impl<Item> fmt::Display for CountingTest<'_, Item> {
    ghost output = { λ t. Some (codes "counted") };

    fn fmt<W: fmt::Write>(&self, f: &mut fmt::Formatter<W>) -> fmt::Result {
        f.write_str("counted")
    }
}

impl<Item> Test<Item> for CountingTest<'_, Item> {
    ghost holds_of = { λ t v. t.holds };

    fn holds(&self, _item: &Item) -> bool {
        self.asked.set(self.asked.get().saturating_add(1));
        self.holds
    }
}
