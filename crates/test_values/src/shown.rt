//! Values as texts: what each of their readers answers, behind its name. Of a value that is no list
//! and no map just one does.

use reflect_dynamic::{DynamicMessage, EncodeMessage, FieldRef, MapKey, SetFieldError, Value};
use std::alloc::AllocError;
use std::collections::BTreeMap;
use std::fmt::Display;
use test_json::Text;

/// Writes a truth value.
pub fn write_truth(out: &mut Text, truth: bool) {
    out.push_str(if truth { "true" } else { "false" });
}

/// Writes a name, or a dash where there is none.
pub fn write_name(out: &mut Text, name: Option<&str>) {
    out.push_str(name.unwrap_or("-"));
}

/// Writes what stands between two items of a list, unless the list is empty.
pub fn write_gap(out: &mut Text) {
    if !out.is_empty() {
        out.push_str("; ");
    }
}

/// Writes the bytes of a message.
pub fn write_bytes(out: &mut Text, message: &DynamicMessage<'_>) {
    match message.encode_to_vec() {
        Ok(bytes) => out.push_hex(bytes.as_slice()),
        Err(_) => out.give_up(),
    }
}

/// Writes what a reader answers, if it does, behind a name.
fn write_part<T: Display + Drop>(out: &mut Text, name: &str, part: Option<T>) {
    if let Some(part) = part {
        write!(out, "{name} {part}");
    }
}

/// Writes a key of a map.
pub fn write_key(out: &mut Text, key: &MapKey) {
    write_part(out, "bool", key.as_bool());
    write_part(out, "i32", key.as_i32());
    write_part(out, "i64", key.as_i64());
    write_part(out, "u32", key.as_u32());
    write_part(out, "u64", key.as_u64());
    write_part(out, "string", key.as_str());
}

/// Writes a value that is no list and no map.
fn write_single(out: &mut Text, value: &Value<'_>) {
    write_part(out, "bool", value.as_bool());
    write_part(out, "i32", value.as_i32());
    write_part(out, "i64", value.as_i64());
    write_part(out, "u32", value.as_u32());
    write_part(out, "u64", value.as_u64());
    write_part(out, "enum", value.as_enum_number());
    write_part(out, "string", value.as_str());
    if let Some(bytes) = value.as_bytes() {
        out.push_str("bytes ");
        out.push_hex(bytes);
    }
    if let Some(message) = value.as_message() {
        out.push_str("message ");
        write_bytes(out, message);
    }
}

/// Writes the values of a list, each behind a bar.
fn write_list(out: &mut Text, values: &[Value<'_>]) {
    out.push_str("list");
    for value in values {
        out.push_str(" | ");
        write_single(out, value);
    }
}

/// Writes the entries of a map, each behind a bar.
fn write_map(out: &mut Text, entries: &BTreeMap<MapKey, Value<'_>>) {
    out.push_str("map");
    for (key, value) in entries {
        out.push_str(" | ");
        write_key(out, key);
        out.push_str(": ");
        write_single(out, value);
    }
}

/// Writes a value.
pub fn write_value(out: &mut Text, value: &Value<'_>) {
    write_single(out, value);
    if let Some(values) = value.as_list() {
        write_list(out, values);
    }
    if let Some(entries) = value.as_map() {
        write_map(out, entries);
    }
}

/// Writes what a field holds, or that there is no such field.
pub fn write_held(out: &mut Text, held: Result<Option<FieldRef<'_, '_>>, AllocError>) {
    match held {
        Ok(Some(held)) => write_value(out, held.value()),
        Ok(None) => out.push_str("none"),
        Err(_) => out.give_up(),
    }
}

/// Writes what was taken, or that there was nothing.
pub fn write_taken(out: &mut Text, taken: Option<Value<'_>>) {
    match taken {
        Some(value) => write_value(out, &value),
        None => out.push_str("none"),
    }
}

/// Writes why a field was not set, and the value that was handed back.
pub fn write_outcome(out: &mut Text, outcome: Result<(), SetFieldError<'_>>) {
    match outcome {
        Ok(()) => {}
        Err(SetFieldError::InvalidType { field: _, value }) => {
            out.push_str("refused ");
            write_value(out, &value);
        }
        Err(SetFieldError::NotFound) => out.push_str("not found"),
        Err(SetFieldError::Memory) => out.give_up(),
    }
}
