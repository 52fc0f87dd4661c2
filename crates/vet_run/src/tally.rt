//! What runs count.
ghost use Rattle.std.specs.Prelude.{◌≡◌, IfOk, OnOk, OnErr, replicate, length, map, string_bytes};
ghost use Rattle.std.specs.Prelude.{[]};
ghost use Rattle.vet_run.specs.Counting.{CountsOne, has_room, left_after};

use crate::counts::Counts;
use std::alloc::{AllocError, Global};
use streams::RunFault;
use vet_checks::RuleCheck;

/// What is counted over the lines of an input, or of several that are read one after another.
#[derive(Debug, Drop)]
pub struct Tally {
    pub counts: Counts,
    /// How many records break each rule, in the order of the rules; empty where that is not asked.
    pub broken: Vec<u64>,
    /// The block of the first record that breaks each rule, in the order of the rules, with no text
    /// where none does; empty where that is not asked.
    pub firsts: Vec<String>,
    /// How many blocks, objects or lines may still be written; any number where there is none.
    pub left: Option<u64>,
}

// So many texts with nothing in them.
fn no_blocks(alloc: Global, number: usize) -> Result<Vec<String>, AllocError>
    ensures { IfOk result (λ blocks. map string_bytes blocks.items ≡ replicate number []) }
{
    let mut blocks = Vec::new(alloc);
    for _ in 0..number {
        blocks.push(String::new(alloc))?;
    }
    Ok(blocks)
}

impl Tally {
    /// Of no line, with how many blocks, objects or lines may be written. It does not count for
    /// each rule.
    pub fn new(alloc: Global, most: Option<u64>) -> Tally
        ensures counts { result.counts ≡ Counts.NONE }
        ensures broken { result.broken.items ≡ [] }
        ensures firsts { result.firsts.items ≡ [] }
        ensures left { result.left ≡ most }
    {
        Tally {
            counts: Counts::NONE,
            broken: Vec::new(alloc),
            firsts: Vec::new(alloc),
            left: most,
        }
    }

    /// The same, and it counts for each of the rules, for which it takes memory.
    pub fn of_rules(
        alloc: Global,
        rules: &[RuleCheck],
        most: Option<u64>,
    ) -> Result<Tally, AllocError>
        ensures counts { IfOk result (λ tally. tally.counts ≡ Counts.NONE) }
        ensures broken { IfOk result (λ tally.
            tally.broken.items ≡ replicate (length rules.now) 0) }
        ensures firsts { IfOk result (λ tally. tally.firsts.items ≡ []) }
        ensures left { IfOk result (λ tally. tally.left ≡ most) }
    {
        Ok(Tally {
            counts: Counts::NONE,
            broken: vec![in alloc; 0; rules.len()]?,
            firsts: Vec::new(alloc),
            left: most,
        })
    }

    /// The same, and it keeps the block of the first record that breaks each rule, for which it
    /// takes memory.
    ///
    /// ```
    /// let tally = Tally::with_blocks(alloc, &rules, None)?;
    /// assert!(rt; tally.broken.len() == rules.len() && tally.firsts.len() == rules.len());
    /// ```
    pub fn with_blocks(
        alloc: Global,
        rules: &[RuleCheck],
        most: Option<u64>,
    ) -> Result<Tally, AllocError>
        ensures counts { IfOk result (λ tally. tally.counts ≡ Counts.NONE) }
        ensures broken { IfOk result (λ tally.
            tally.broken.items ≡ replicate (length rules.now) 0) }
        ensures firsts { IfOk result (λ tally.
            map string_bytes tally.firsts.items ≡ replicate (length rules.now) []) }
        ensures left { IfOk result (λ tally. tally.left ≡ most) }
    {
        let firsts = no_blocks(alloc, rules.len())?;
        Ok(Tally {
            counts: Counts::NONE,
            broken: vec![in alloc; 0; rules.len()]?,
            firsts,
            left: most,
        })
    }

    // Whether anything more may be written.
    pub(crate) fn has_room(&self) -> bool
        ensures { result ≡ has_room self.now.left }
    {
        match self.left {
            Some(left) => left > 0,
            None => true,
        }
    }

    // Takes away one of what may still be written, where something is.
    pub(crate) fn take_room(&mut self, is_told: bool)
        ensures counts { self.new.counts ≡ self.old.counts }
        ensures broken { self.new.broken ≡ self.old.broken }
        ensures firsts { self.new.firsts ≡ self.old.firsts }
        ensures left { self.new.left ≡ left_after is_told self.old.left }
    {
        if is_told {
            if let Some(left) = self.left {
                self.left = Some(left.saturating_sub(1));
            }
        }
    }

    // Counts one line more, as `Counts::count`. It fails where 64 bits hold no more.
    pub(crate) fn count(&mut self, held: Option<bool>, blank: bool) -> Result<(), RunFault>
        ensures one { OnOk result (CountsOne held blank self.old.counts self.new.counts) }
        ensures none { OnErr result (self.new.counts ≡ self.old.counts) }
        ensures broken { self.new.broken ≡ self.old.broken }
        ensures firsts { self.new.firsts ≡ self.old.firsts }
        ensures left { self.new.left ≡ self.old.left }
    {
        let Some(counts) = self.counts.count(held, blank) else {
            return Err(RunFault::Input);
        };
        self.counts = counts;
        Ok(())
    }
}
