//! The policy over an order, and what it says of four that it does not allow.
use crate::tests::made::{Host, owned};
use predicates::check::Unmet;
use std::alloc::Global;
use std::collections::BTreeMap;
use tests_uses::{Line, Order, allow_order};

// An order of two lines, of which the second has the quantity.
fn order(
    rt: &impl Host,
    customer: &str,
    quantity: u32,
    discount: Option<u32>,
    channel: Option<&str>,
) -> Order {
    let mut lines = Vec::new(rt.alloc());
    for (item, quantity) in [("pen", 2), ("ink", quantity)] {
        lines
            .push(Line {
                item: owned(rt, item),
                quantity,
            })
            .expect(rt, "memory");
    }
    let mut notes = BTreeMap::new(rt.alloc());
    if let Some(channel) = channel {
        let key = owned(rt, "channel");
        let channel = owned(rt, channel);
        let replaced: Result<_, _> = notes.insert(key, channel);
        replaced.expect(rt, "memory");
    }
    Order {
        customer: owned(rt, customer),
        lines,
        discount,
        notes,
        total: 900,
    }
}

// What the policy says of an order that it does not allow.
const REASONS: [(&str, u32, Option<u32>, Option<&str>, &str); 4] = [
    (
        "Ada",
        1,
        Some(20),
        None,
        "\
(((customer && lines) && (! discount)) && channel) = false
  right: channel = false
    channel: var.starts_with(\"web\") = false
      - error: no value
",
    ),
    (
        "Ada",
        1,
        Some(50),
        Some("web/de"),
        "\
(((customer && lines) && (! discount)) && channel) = false
  left: ((customer && lines) && (! discount)) = false
    right: (! discount) = false
      predicate: discount = true
        discount: var > 33 = true
          - var: 50
",
    ),
    (
        "Ada",
        0,
        None,
        Some("web/de"),
        "\
(((customer && lines) && (! discount)) && channel) = false
  left: ((customer && lines) && (! discount)) = false
    left: (customer && lines) = false
      right: lines = false
        lines: each(quantity) = false
          item: quantity = false
            - index: 1
            quantity: var >= 1 = false
              - var: 0
",
    ),
    (
        "",
        0,
        Some(50),
        None,
        "\
(((customer && lines) && (! discount)) && channel) = false
  left: ((customer && lines) && (! discount)) = false
    left: (customer && lines) = false
      left: customer = false
        customer: (! var.is_empty()) = false
          predicate: var.is_empty() = true
            - var: \n",
    ),
];

// Whether the policy does not allow the order, by these lines.
fn is_rejected(alloc: Global, order: &Order, lines: &str) -> bool {
    match allow_order(alloc, order) {
        Err(Unmet::Fails(found)) => found.as_str() == lines,
        _ => false,
    }
}

#[test]
fn the_policy_allows_one_order_and_rejects_four(rt: HostRuntime) {
    let alloc = rt.alloc();
    let allowed = order(&rt, "Ada", 1, None, Some("web/de"));
    assert!(rt; allow_order(alloc, &allowed).is_ok());
    for (customer, quantity, discount, channel, lines) in REASONS {
        let rejected = order(&rt, customer, quantity, discount, channel);
        assert!(rt; is_rejected(alloc, &rejected, lines), "{lines}");
    }
}
