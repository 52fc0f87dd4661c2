//! Predicates of JSON values, and cases as JSON.
use predicates::ord::ge;
use predicates_core::reflection::{Case, Product};
use predicates_json::{PredicateJsonExt, case_json};
use serde_json::Value;
use std::alloc::{AllocError, Global};
use tests_support::text;
use tests_sweep::Memory::Taken;
use tests_sweep::{Answer, Call, over, sweep, sweep_calls};

#[test]
fn pointers(rt: HostRuntime) {
    let adult = ge(18i64).of_number().of_pointer("/age");
    let lines = "/age = false\n  value: var >= 18 = false\n    - error: is a string\n";
    let children = "value: var >= 18\n  predicate: var >= 18\n";
    let record = Value::from_str(rt.alloc(), "{\"age\":\"17\"}").expect(&rt, "memory");
    let row = over("of_pointer to a string", false, lines, children);
    sweep_calls(&rt, &adult, &record, row).expect(&rt, "memory")
}

// A case of a node over a leaf, as JSON.
#[derive(Clone, Copy)]
struct OverALeaf;

impl Call for OverALeaf {
    type Operand = Case;

    type Answer = Answer;

    fn operand(&self, alloc: Global) -> Result<Case, AllocError> {
        let leaf = Case::new(alloc, Some(text(alloc, "l")?), true);
        let leaf = leaf.add_product(Product::new("a", text(alloc, "1")?))?;
        Case::new(alloc, None, false).add_child("left", leaf)
    }

    fn call(&self, alloc: Global, operand: Case) -> Result<Answer, AllocError> {
        let value = case_json(alloc, &operand.root())?;
        Ok(Answer::Text(value.to_string(alloc)?))
    }
}

const NODE: &str = "{\"children\":[{\"case\":{\"children\":[],\
\"products\":[{\"name\":\"a\",\"value\":\"1\"}],\"result\":true,\"text\":\"l\"},\
\"name\":\"left\"}],\"products\":[],\"result\":false,\"text\":null}";

#[test]
fn cases(rt: HostRuntime) {
    sweep(&rt, "case_json", &OverALeaf, NODE, Taken).expect(&rt, "memory")
}
