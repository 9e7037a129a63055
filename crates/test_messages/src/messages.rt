//! Calls of messages as wholes, and of which of their parts others are.

use crate::by_extension::answer_by_extension;
use crate::by_field::answer_by_field;
use crate::by_name::answer_by_name;
use crate::by_number::answer_by_number;
use reflect_dynamic::{
    DecodeMessage, DynamicMessage, EncodeMessage, MessageTests, MessageWalks, TakeContents, Value,
};
use serde_json::Value as Json;
use std::alloc::Global;
use test_json::Text;
use test_json::members::text;
use test_values::{bytes_of, text_of, u32_of, write_bytes, write_gap, write_truth, write_value};

/// Makes a call of the field of a `number`, of a `name`, of the descriptor of a `field`'s number or
/// of an `extension`'s; else of the whole message. What it answers is written.
pub fn answer_message(
    alloc: Global,
    out: &mut Text,
    message: &mut DynamicMessage<'_>,
    call: &Json,
) {
    if let Some(number) = u32_of(call, "number") {
        return answer_by_number(alloc, out, message, number, call);
    }
    if let Some(name) = text_of(call, "name") {
        return answer_by_name(alloc, out, message, name, call);
    }
    if let Some(number) = u32_of(call, "field") {
        return answer_by_field(alloc, out, message, number, call);
    }
    if let Some(number) = u32_of(call, "extension") {
        return answer_by_extension(alloc, out, message, number, call);
    }
    match text(call, "call") {
        "clear" => message.clear(),
        "merge" => merge(alloc, out, message, call),
        "encode" => encode(alloc, out, message, call),
        "take_fields" => take_fields(out, message),
        "take_extensions" => take_extensions(out, message),
        "take_unknown" => take_unknown(out, message),
        name => write_answer(out, message, name, call),
    }
}

/// Merges bytes, or writes why they are refused.
fn merge(alloc: Global, out: &mut Text, message: &mut DynamicMessage<'_>, call: &Json) {
    let bytes = bytes_of(alloc, out, call, "bytes");
    if let Err(error) = message.merge(bytes.as_slice()) {
        write!(out, "{error:?}");
    }
}

/// Writes bytes with those of the message behind them.
fn encode(alloc: Global, out: &mut Text, message: &DynamicMessage<'_>, call: &Json) {
    let mut bytes = bytes_of(alloc, out, call, "behind");
    match message.encode(&mut bytes) {
        Ok(()) => out.push_hex(bytes.as_slice()),
        Err(_) => out.give_up(),
    }
}

/// Writes what the message says of itself.
fn write_answer(out: &mut Text, message: &DynamicMessage<'_>, name: &str, call: &Json) {
    match name {
        "bytes" => write_bytes(out, message),
        "len" => write!(out, "{:?}", message.encoded_len()),
        "type" => out.push_str(message.descriptor().full_name()),
        "is_empty" => write_truth(out, message.is_empty()),
        "is_typed" => write_truth(out, message.is_typed()),
        "is_encodable" => write_truth(out, message.is_encodable()),
        "declares" => write_truth(out, declares(message, call) == Some(true)),
        "fields" => write_fields(out, message),
        "extensions" => write_extensions(out, message),
        "unknown" => write_unknown(out, message),
        _ => out.push_str("no call"),
    }
}

/// Whether the message's type declares a field or an extension of the type that the call names;
/// `None` where that has none.
fn declares(message: &DynamicMessage<'_>, call: &Json) -> Option<bool> {
    let pool = message.descriptor().parent_pool();
    let other = pool.get_message_by_name(text(call, "of"))?;
    if let Some(number) = u32_of(call, "its_field") {
        return Some(message.declares(&other.get_field(number)?));
    }
    let extension = other.get_extension(u32_of(call, "its_extension")?)?;
    Some(message.declares_extension(&extension))
}

/// Writes a number and a value behind it.
fn write_numbered(out: &mut Text, number: u32, value: &Value<'_>) {
    write_gap(out);
    write!(out, "{number} ");
    write_value(out, value);
}

/// Writes the fields that are set.
fn write_fields(out: &mut Text, message: &DynamicMessage<'_>) {
    for (field, value) in message.fields() {
        write_numbered(out, field.number(), value);
    }
}

/// Writes the extensions that are set.
fn write_extensions(out: &mut Text, message: &DynamicMessage<'_>) {
    for (extension, value) in message.extensions() {
        write_gap(out);
        out.push_pair(extension.name(), " ");
        write_value(out, value);
    }
}

/// Writes the numbers of the records that the type does not declare.
fn write_unknown(out: &mut Text, message: &DynamicMessage<'_>) {
    for record in message.unknown_fields() {
        write_gap(out);
        out.push_shown("", record.number());
    }
}

/// Takes the fields, and writes those that were set.
fn take_fields(out: &mut Text, message: &mut DynamicMessage<'_>) {
    for (field, value) in message.take_fields() {
        write_numbered(out, field.number(), &value);
    }
}

/// Takes the extensions, and writes those that were set.
fn take_extensions(out: &mut Text, message: &mut DynamicMessage<'_>) {
    for (extension, value) in message.take_extensions() {
        write_numbered(out, extension.number(), &value);
    }
}

/// Takes the records that the type does not declare, and writes how many there were.
fn take_unknown(out: &mut Text, message: &mut DynamicMessage<'_>) {
    match message.take_unknown_fields() {
        Ok(records) => out.push_shown("", records.len()),
        Err(_) => out.give_up(),
    }
}
