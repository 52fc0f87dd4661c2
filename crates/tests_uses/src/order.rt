//! A policy over an order, which has a list of lines, a discount that may be absent, and a map.
ghost use Rattle.std.specs.Prelude.{◌≡◌, option_copied, codes, IfOk, OnOk, true};
ghost use Rattle.std.specs.BTreeMap.{get_by_text};
ghost use Rattle.predicates_core.specs.Formula.{HasTruth};

use predicates::prelude::*;
use std::alloc::{AllocError, Global};
use std::collections::BTreeMap;

/// What is ordered, and how much of it.
#[derive(Drop)]
pub struct Line {
    pub item: String,
    pub quantity: u32,
}

/// An order.
#[derive(Drop)]
pub struct Order {
    pub customer: String,
    pub lines: Vec<Line>,
    pub discount: Option<u32>,
    pub notes: BTreeMap<String, String>,
    pub total: u64,
}

fn customer_of(order: &Order) -> &String
    ensures { result.now ≡ order.now.customer }
{
    &order.customer
}

fn lines_of(order: &Order) -> &Vec<Line>
    ensures { result.now ≡ order.now.lines }
{
    &order.lines
}

fn discount_of(order: &Order) -> &Option<u32>
    ensures { result.now ≡ order.now.discount }
{
    &order.discount
}

fn channel_of(order: &Order) -> Option<&String>
    ensures { option_copied result ≡ get_by_text order.now.notes (codes "channel") }
{
    order.notes.get("channel")
}

/// A policy over orders, whatever predicate it is made of.
#[derive(Drop)]
pub struct Policy<P> {
    pub check: P,
}

impl<P: Predicate<Order>> Policy<P> {
    /// Whether the policy allows the order; the error has the lines that say why not.
    pub fn allow(&self, alloc: Global, order: &Order) -> Result<(), Unmet>
        requires { P.lawful self.now.check }
        ensures { OnOk result (HasTruth (P.formula self.now.check order.now) true) }
    {
        require(alloc, &self.check, order)
    }
}

/// Whether an order may be sent: somebody ordered at least one of each line, at most a third off,
/// through a channel that is known.
pub fn allow_order(alloc: Global, order: &Order) -> Result<(), Unmet> {
    let named = predicate::str::is_empty()
        .not()
        .of_ref("customer", customer_of);
    let some = predicate::ge(1u32).of("quantity", |line: &Line| line.quantity);
    let each = some.of_each().of_ref("lines", lines_of);
    let steep = predicate::gt(33u32)
        .of_some()
        .of_ref("discount", discount_of);
    let web = predicate::str::starts_with("web".to_owned(alloc)?);
    let known = web.of_some_ref("channel", channel_of);
    let policy = Policy {
        check: named.and(each).and(steep.not()).and(known),
    };
    policy.allow(alloc, order)
}
