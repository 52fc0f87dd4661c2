//! Cases as JSON.
use crate::tests::made::{Host, owned};
use predicates::reflection::{Case, Product};
use predicates_json::case_json;
use serde_json::{Error, Value};

// A node without a text, with two products, over a leaf and a node with a child of its own.
fn four_nodes(rt: &impl Host) -> Case {
    let inner = Case::new(rt.alloc(), Some(owned(rt, "r")), true);
    let right = Case::new(rt.alloc(), Some(owned(rt, "(! r)")), false)
        .add_child("predicate", inner)
        .expect(rt, "memory");
    Case::new(rt.alloc(), None, true)
        .add_product(Product::new("a", owned(rt, "\"")))
        .expect(rt, "memory")
        .add_product(Product::new("b", owned(rt, "")))
        .expect(rt, "memory")
        .add_child("left", Case::new(rt.alloc(), Some(owned(rt, "l")), true))
        .expect(rt, "memory")
        .add_child("right", right)
        .expect(rt, "memory")
}

const FOUR_NODES: &str = "{\"children\":[\
{\"case\":{\"children\":[],\"products\":[],\"result\":true,\"text\":\"l\"},\"name\":\"left\"},\
{\"case\":{\"children\":[{\"case\":{\"children\":[],\"products\":[],\"result\":true,\
\"text\":\"r\"},\"name\":\"predicate\"}],\"products\":[],\"result\":false,\"text\":\"(! r)\"},\
\"name\":\"right\"}],\
\"products\":[{\"name\":\"a\",\"value\":\"\\\"\"},{\"name\":\"b\",\"value\":\"\"}],\
\"result\":true,\"text\":null}";

// Whether the text is this one, and reads back as the value that it was written from.
fn reads_back(rt: &impl Host, case: &Case, expected: &str) -> bool {
    let value = case_json(rt.alloc(), &case.root()).expect(rt, "memory");
    let written = value.to_string(rt.alloc()).expect(rt, "memory");
    let read = Value::from_str(rt.alloc(), written.as_str()).expect(rt, "memory");
    written.as_str() == expected && read == value
}

#[test]
fn writes_json(rt: HostRuntime) {
    let case = four_nodes(&rt);
    assert!(rt; reads_back(&rt, &case, FOUR_NODES));
}
