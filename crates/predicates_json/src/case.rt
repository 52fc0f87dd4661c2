//! Cases as JSON.
ghost use Rattle.std.specs.Prelude.{◌≡◌, IfOk};
ghost use Rattle.serde_json.specs.View.{view, items_view};
ghost use Rattle.predicates_json.specs.CaseData.{product_data, products_data, child_data};
ghost use Rattle.predicates_json.specs.CaseData.{node_data};
ghost use Rattle.predicates_json.specs.CaseData.{case_data};

use predicates_core::reflection::{CaseChild, CaseView, Product};
use serde_json::{Map, Value, json, put};
use std::alloc::{AllocError, Global};

// A name and a value.
fn product_json(alloc: Global, product: &Product) -> Result<Value, AllocError>
    ensures { IfOk result (λ value. view value ≡ product_data product.now) }
{
    let name = product.name();
    let value = product.value();
    json!(in alloc; {"name": name, "value": value})
}

fn products_json(alloc: Global, products: &[Product]) -> Result<Vec<Value>, AllocError>
    ensures { IfOk result (λ values. items_view values.items ≡ products_data products.now) }
{
    let mut values = Vec::new(alloc);
    for product in products {
        values.push(product_json(alloc, product)?)?;
    }
    Ok(values)
}

// A name, and the case that stands under it.
fn child_json(alloc: Global, name: &str, case: Value) -> Result<Value, AllocError>
    ensures { IfOk result (λ value. view value ≡ child_data name.now (view case)) }
{
    let mut members = Map::new(alloc);
    put(&mut members, alloc, "case", case)?;
    put(
        &mut members,
        alloc,
        "name",
        Value::try_from_str(alloc, name)?,
    )?;
    Ok(Value::Object(members))
}

// A node over its children.
fn node_json(alloc: Global, case: &CaseView<'_>, children: Vec<Value>) -> Result<Value, AllocError>
    ensures { IfOk result (λ value.
        view value ≡ node_data case.now.root (items_view children.items)) }
{
    let text = match case.predicate() {
        Some(text) => Value::try_from_str(alloc, text)?,
        None => Value::Null,
    };
    let products = products_json(alloc, case.products())?;
    let mut members = Map::new(alloc);
    put(&mut members, alloc, "children", Value::Array(children))?;
    put(&mut members, alloc, "products", Value::Array(products))?;
    put(&mut members, alloc, "result", Value::Bool(case.result()))?;
    put(&mut members, alloc, "text", text)?;
    Ok(Value::Object(members))
}

/// The case as an object with its `text`, its `result`, its `products`, each a `name` and a
/// `value`, and its `children`, each a `name` and a `case`.
///
/// ```
/// let case = leaf_node(alloc, "never".to_owned(alloc)?, false);
/// let text = case_json(alloc, &case.root())?.to_string(alloc)?;
/// let expected = "{\"children\":[],\"products\":[],\"result\":false,\"text\":\"never\"}";
/// assert!(rt; text.as_str() == expected);
/// ```
pub fn case_json(alloc: Global, case: &CaseView<'_>) -> Result<Value, AllocError>
    ensures { IfOk result (λ value. view value ≡ case_data case.now) }
{
    let mut children = Vec::new(alloc);
    for CaseChild { name, case } in case.children() {
        let inner = case_json(alloc, &case)?;
        children.push(child_json(alloc, name, inner)?)?;
    }
    node_json(alloc, case, children)
}
