//! Reads a JSON array from standard input, and prints for each record every rule that it breaks.
#![tactic(auto)]

use anyhow::{Error, Result};
use predicates::prelude::*;
use predicates::reflection::Case;
use predicates_json::PredicateJsonExt;
use serde_json::Value;
use std::alloc::{AllocError, Global};
use std::io;

// The cases of all rules that the record breaks.
fn broken(alloc: Global, record: &Value) -> Result<Vec<Case>, AllocError> {
    let adult = predicate::ge(18i64).of_number().of_pointer("/age");
    let named = predicate::str::is_empty()
        .not()
        .of_string()
        .of_pointer("/name");
    let tagged = predicate::str::starts_with("t-".to_owned(alloc)?)
        .of_string()
        .of_each()
        .of_array()
        .of_pointer("/tags");
    let mut cases = Vec::new(alloc);
    add_failure(alloc, &mut cases, &adult, record)?;
    add_failure(alloc, &mut cases, &named, record)?;
    add_failure(alloc, &mut cases, &tagged, record)?;
    Ok(cases)
}

fn main(rt: HostRuntime) -> Result<()> {
    let alloc = rt.alloc();
    let text = io::read_to_string(alloc, rt.stdin())?;
    let records = Value::from_str(alloc, &text)?;
    let Some(list) = records.as_array() else {
        return Err(Error::msg("the input is no array"));
    };
    for (place, record) in list.iter().enumerate() {
        for case in &broken(alloc, record)? {
            print!(rt; "record {place}: {}", render(alloc, case)?)?;
        }
    }
    Ok(())
}
