//! What a predicate answers of a JSON text.
use crate::tests::made::Host;
use predicates_core::Predicate;
use serde_json::{Error, Value};
use tests_support::explains;

/// Whether the only case of the value that the text is has these lines.
pub fn explains_json<P: Predicate<Value>>(
    rt: &impl Host,
    predicate: &P,
    json: &str,
    lines: &str,
) -> bool
    requires { P.lawful predicate.now }
{
    let value = Value::from_str(rt.alloc(), json).expect(rt, "memory");
    explains(rt.alloc(), predicate, &value, lines).expect(rt, "memory")
}

/// A JSON text, the verdict on it, and the product that the case shows, if any.
pub type Row = (&'static str, bool, &'static str);

/// Whether the case is one leaf with this text, and the verdict and product of the row.
pub fn is_leaf<P: Predicate<Value>>(rt: &impl Host, predicate: &P, printed: &str, row: Row) -> bool
    requires { P.lawful predicate.now }
{
    let (json, verdict, product) = row;
    let mut lines = String::new(rt.alloc());
    writeln!(lines, "{printed} = {verdict}").expect(rt, "memory");
    if !product.is_empty() {
        writeln!(lines, "  - {product}").expect(rt, "memory");
    }
    explains_json(rt, predicate, json, lines.as_str())
}
