//! What each of two lists has beyond the other.
ghost use Rattle.std.specs.Prelude.{◌≡◌, ◌+◌, ◌<◌, ◌&&◌, ◌==◌, IfOk, length, drop, string_bytes};
ghost use Rattle.std.specs.Fmt.{debug_list};
ghost use Rattle.std.specs.List.Sorted.{IsSorted};
ghost use Rattle.predicates_core.specs.Label.{Fits};
ghost use Rattle.predicates_item.specs.Multiset.{ascending, difference, order_to, referred};

use std::alloc::{AllocError, Global};
use std::cmp::Ordering;
use std::fmt;

/// The members of either list that the other lacks, in ascending order, each as often as it is
/// lacking.
#[derive(Drop)]
pub(crate) struct Differences<'a, T> {
    pub(crate) missing: Vec<&'a T>,
    pub(crate) extra: Vec<&'a T>,
}

impl<'a, T: Ord> Differences<'a, T> {
    /// What a list lacks of the members, and has beyond them.
    pub(crate) fn between(
        alloc: Global,
        members: &'a [T],
        list: &'a [T],
    ) -> Result<Differences<'a, T>, AllocError>
        requires { IsSorted T.cmp members.now }
        ensures missing { IfOk result (λ d.
            referred d.missing.items ≡ difference T.eq members.now list.now) }
        ensures extra { IfOk result (λ d.
            referred d.extra.items ≡ difference T.eq (ascending T.cmp list.now) members.now) }
    {
        let members = references(alloc, members)?;
        let mut list = references(alloc, list)?;
        list.sort()?;
        let missing = remaining(alloc, members.as_slice(), list.as_slice())?;
        let extra = remaining(alloc, list.as_slice(), members.as_slice())?;
        Ok(Differences { missing, extra })
    }
}

impl<'a, T> Differences<'a, T> {
    /// Whether there are none.
    pub(crate) fn are_none(&self) -> bool
        ensures { result
            ≡ (length self.now.missing.items == 0) && (length self.now.extra.items == 0) }
    {
        self.missing.is_empty() && self.extra.is_empty()
    }
}

// A reference to each member, in order.
fn references<'a, T>(alloc: Global, list: &'a [T]) -> Result<Vec<&'a T>, AllocError>
    ensures { IfOk result (λ r. referred r.items ≡ list.now) }
{
    let references = Vec::from_iter(alloc, list)?;
    Ok(references)
}

// The members that remain once those of the second list are taken away. Both lists ascend.
fn remaining<T: Ord + Copy + Drop>(
    alloc: Global,
    members: &[T],
    taken: &[T],
) -> Result<Vec<T>, AllocError>
    requires members { IsSorted T.cmp members.now }
    requires taken { IsSorted T.cmp taken.now }
    ensures { IfOk result (λ r. r.items ≡ difference T.eq members.now taken.now) }
{
    let mut remaining = Vec::new(alloc);
    let mut place = 0;
    let mut past = 0;
    while place < members.len() {
        match order_at(members, place, taken, past) {
            Ordering::Less => {
                remaining.push(members[place])?;
                place += 1;
            }
            Ordering::Equal => {
                place += 1;
                past += 1;
            }
            Ordering::Greater => past += 1,
        }
    }
    Ok(remaining)
}

// The order of the members at the two places, where the end of the second list is above all.
fn order_at<T: Ord>(members: &[T], place: usize, taken: &[T], past: usize) -> Ordering
    requires { place < length members.now }
    ensures { result ≡ order_to T.cmp (drop place members.now) (drop past taken.now) }
{
    if past < taken.len() {
        members[place].cmp(&taken[past])
    } else {
        Ordering::Less
    }
}

/// The debug form of the list.
pub(crate) fn printed_list<T: fmt::Debug>(alloc: Global, list: &[T]) -> Result<String, AllocError>
    ensures { IfOk result (λ text. Fits (debug_list T.debug_output list.now) (string_bytes text)) }
{
    format!(in alloc; "{list:?}")
}
