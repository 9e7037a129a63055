//! Messages of a schema's types: bytes and text, in and out.

use crate::refusals::taken;
use schema_core::{Schema, SchemaError};
use serde_json::Value;
use std::alloc::Global;
use test_json::Told;
use test_json::members::text;
use test_messages::tell_printed;

/// Tells bytes, or why there are none.
fn tell_bytes(alloc: Global, told: &mut Told<'_>, came: Result<Vec<u8>, SchemaError>) {
    if let Some(bytes) = taken(alloc, told, came) {
        told.tell_bytes("ok", bytes.as_slice());
    }
}

/// Tells a text, or why there is none.
fn tell_text(alloc: Global, told: &mut Told<'_>, came: Result<String, SchemaError>) {
    if let Some(text) = taken(alloc, told, came) {
        told.tell("ok", text.as_str());
    }
}

/// What a schema encodes, decodes, recodes or prints.
pub fn tell_asked(
    alloc: Global,
    op: &str,
    schema: &Schema,
    case: &Value,
    bytes: &[u8],
    told: &mut Told<'_>,
) {
    let type_name = text(case, "type");
    match op {
        "encode" => tell_bytes(alloc, told, schema.encode(type_name, text(case, "text"))),
        "recode" => tell_bytes(alloc, told, schema.recode(type_name, bytes)),
        "decode" => tell_text(alloc, told, schema.decode(type_name, bytes)),
        "print" => tell_printed(alloc, schema.pool(), case, bytes, told),
        _ => {}
    }
}
