//! Schemas that are built in steps, and their sets.

use crate::refusals::tell_refusal;
use schema_core::{Schema, SchemaError};
use serde_json::Value;
use sha2::{Digest, Sha256};
use std::alloc::{AllocError, Global};
use test_json::Told;
use test_json::members::{bytes, items, pair, text};
use test_sources::tell_plain;

/// The sources of a step, each with its name.
fn sources_of<'c>(alloc: Global, step: &'c Value) -> Result<Vec<(&'c str, &'c str)>, AllocError> {
    let mut sources = Vec::new(alloc);
    for source in items(step, "sources") {
        if let Some((name, text)) = pair(source) {
            sources.push((name.as_str().unwrap_or(""), text.as_str().unwrap_or("")))?;
        }
    }
    Ok(sources)
}

/// Adds the sources or the set of a step.
fn add(alloc: Global, schema: &mut Schema, step: &Value) -> Result<(), SchemaError> {
    if step.get("set").is_some() {
        return schema.add_descriptor_set(bytes(alloc, step, "set")?.as_slice());
    }
    schema.add_sources(sources_of(alloc, step)?.as_slice())
}

/// Takes the steps before the last of a case: whether none is refused.
fn add_all(alloc: Global, schema: &mut Schema, steps: &[Value]) -> bool {
    for step in steps {
        if add(alloc, schema, step).is_err() {
            return false;
        }
    }
    true
}

/// The schema's set, if there is memory for it.
pub fn set_of(schema: &Schema) -> Option<Vec<u8>> {
    schema.to_descriptor_set().ok()
}

/// Whether the schema has this set.
pub fn is_set_of(schema: &Schema, set: &[u8]) -> bool {
    match set_of(schema) {
        Some(now) => now.as_slice() == set,
        None => false,
    }
}

/// Takes the last step of a case, and tells what the schema then is, which had this set before.
fn tell_last(
    alloc: Global,
    schema: &mut Schema,
    step: &Value,
    before: &[u8],
    case: &Value,
    told: &mut Told<'_>,
) {
    match add(alloc, schema, step) {
        Ok(()) => tell_set(alloc, schema, case, told),
        Err(error) => tell_refused(alloc, schema, &error, before, told),
    }
}

/// Tells why a step is refused, and whether the schema still has the set that it had before.
fn tell_refused(
    alloc: Global,
    schema: &Schema,
    error: &SchemaError,
    before: &[u8],
    told: &mut Told<'_>,
) {
    tell_refusal(alloc, told, error);
    let is_left = is_set_of(schema, before);
    told.tell("left", if is_left { "as it was" } else { "changed" });
}

/// Takes the steps of a case, of which the last alone may be refused; and tells what the schema
/// then is.
pub fn tell_steps(
    alloc: Global,
    schema: &mut Schema,
    steps: &[Value],
    case: &Value,
    told: &mut Told<'_>,
) {
    let Some((last, others)) = steps.split_last() else {
        return;
    };
    if add_all(alloc, schema, others) {
        match set_of(schema) {
            Some(before) => tell_last(alloc, schema, last, before.as_slice(), case, told),
            None => told.give_up(),
        }
    }
}

/// Tells a schema's set: its bytes, their digest, and the bytes without places of declarations.
fn tell_linked(alloc: Global, set: &[u8], case: &Value, told: &mut Told<'_>) {
    told.tell("ok", "linked");
    told.tell_bytes("set", set);
    if told.asks("set_sha256") {
        told.tell_bytes("set_sha256", Sha256::digest(set).as_slice());
    }
    if told.asks("plain") {
        tell_plain(alloc, told, set, text(case, "without"));
    }
}

/// Tells the set of a schema that has taken all steps.
fn tell_set(alloc: Global, schema: &Schema, case: &Value, told: &mut Told<'_>) {
    match set_of(schema) {
        Some(set) => tell_linked(alloc, set.as_slice(), case, told),
        None => told.give_up(),
    }
}
