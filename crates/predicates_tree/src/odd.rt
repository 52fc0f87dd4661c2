//! What has been found so far of several of which an odd number has to hold.
ghost use Rattle.std.specs.Prelude.{◌≡◌, ◌≤◌, ◌<◌, [], false, map, IfOk};
ghost use Rattle.predicates_core.specs.Shows.{IsNode};
ghost use Rattle.predicates_tree.specs.OddTallies.{OddAnswers, OddTakes, odd_asks};

use crate::quota::counted;
use predicates_core::custom::{
    Counting, Sought, Told, is_absent, is_other, settled_case, shown_verdict,
};
use predicates_core::node::{leaf_node, printed};
use predicates_core::reflection::Case;
use std::alloc::{AllocError, Global};
use std::fmt;

// What has been found of the parts so far: how many hold, and the cases that were asked for.
#[derive(Drop)]
pub(crate) struct OddTally {
    sought: Sought,
    seen: usize,
    held: usize,
    cases: Vec<Case>,
    absent: bool,
}

impl OddTally {
    // Of no part so far.
    pub(crate) fn new(alloc: Global, sought: Sought) -> OddTally
        ensures sought { result.sought ≡ sought }
        ensures seen { result.seen ≡ 0 }
        ensures held { result.held ≡ 0 }
        ensures cases { result.cases.items ≡ [] }
        ensures present { result.absent ≡ false }
    {
        OddTally {
            sought,
            seen: 0,
            held: 0,
            cases: Vec::new(alloc),
            absent: false,
        }
    }

    // Whether there is no answer, since a part has none.
    pub(crate) fn is_done(&self) -> bool
        ensures { result ≡ self.now.absent }
    {
        self.absent
    }

    // Each part is asked for its case, whichever its verdict; and where the whole is to turn, the
    // first for its change, and each other for its verdict alone.
    pub(crate) fn asks(&self) -> Option<Option<bool>>
        ensures { result ≡ odd_asks self.now.sought.turns self.now.seen }
    {
        if self.sought.turns && self.seen > 0 {
            return None;
        }
        Some(None)
    }

    // Takes what the next part told. It takes memory for its case.
    pub(crate) fn take(&mut self, told: Told) -> Result<(), AllocError>
        requires next { self.old.seen < self.old.sought.number }
        requires held { self.old.held ≤ self.old.seen }
        ensures { IfOk result (λ _. OddTakes told.asked told.found self.old self.new) }
    {
        self.seen += 1;
        if is_absent(told.asked, &told.found) {
            self.absent = true;
            return Ok(());
        }
        let holds = shown_verdict(told.asked, &told.found);
        self.held = counted(self.held, holds);
        if let Some(case) = told.found {
            self.cases.push(case)?;
        }
        Ok(())
    }

    // What is found of the whole. It takes memory for its case.
    pub(crate) fn answer<W: fmt::Display>(
        self,
        alloc: Global,
        list: Counting<'_, W>,
    ) -> Result<Option<Case>, AllocError>
        ensures { IfOk result (OddAnswers (W.output list.entry.whole.now) list.entry.name.now self) }
    {
        let OddTally {
            sought,
            held,
            cases,
            absent,
            ..
        } = self;
        if sought.number == 0 {
            return settled_case(alloc, list.whole, 1, 0, sought.wanted);
        }
        let odd = held % 2 == 1;
        if absent || is_other(sought.wanted, odd) {
            return Ok(None);
        }
        let node = node_over(alloc, list, odd, cases)?;
        Ok(Some(node))
    }
}

// The node over the cases.
fn node_over<W: fmt::Display>(
    alloc: Global,
    list: Counting<'_, W>,
    verdict: bool,
    cases: Vec<Case>,
) -> Result<Case, AllocError>
    ensures { IfOk result (IsNode (W.output list.entry.whole.now) verdict
        (map (λ c. (list.entry.name.now, c)) cases.items)) }
{
    let mut node = leaf_node(alloc, printed(alloc, list.whole)?, verdict);
    for case in cases {
        node = node.add_child(list.name, case)?;
    }
    Ok(node)
}
