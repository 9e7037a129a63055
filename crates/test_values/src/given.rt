//! Numbers, values, messages and kinds that cases give. What a case lacks is read as empty: then
//! other answers come than it wants. So is what there is no room for, and the text of the answers
//! says so.

use reflect_dynamic::{DecodeMessage, DynamicMessage, MapKey, Value};
use reflect_link::{DescriptorPool, ExtensionDescriptor, FieldDescriptor, Kind, MessageDescriptor};
use serde_json::Value as Json;
use std::alloc::{AllocError, Global};
use std::collections::BTreeMap;
use test_json::Text;
use test_json::members::{bytes, items, pair, text};

/// The signed number of a member, if it fits in 32 bits.
pub fn i32_of(given: &Json, name: &'static str) -> Option<i32> {
    i32::try_from(given.get(name)?.as_i64()?).ok()
}

/// The natural number of a member, if it fits in 32 bits.
pub fn u32_of(given: &Json, name: &'static str) -> Option<u32> {
    u32::try_from(given.get(name)?.as_u64()?).ok()
}

/// The signed number of a member.
pub fn i64_of(given: &Json, name: &'static str) -> Option<i64> {
    given.get(name)?.as_i64()
}

/// The natural number of a member.
pub fn u64_of(given: &Json, name: &'static str) -> Option<u64> {
    given.get(name)?.as_u64()
}

/// The truth value of a member.
pub fn bool_of(given: &Json, name: &'static str) -> Option<bool> {
    given.get(name)?.as_bool()
}

/// The text of a member.
pub fn text_of<'c>(given: &'c Json, name: &'static str) -> Option<&'c str> {
    given.get(name)?.as_str()
}

/// The truth value or the number that an object gives under the name of its sort.
pub fn number_of<'p>(given: &Json) -> Option<Value<'p>> {
    if let Some(truth) = bool_of(given, "bool") {
        return Some(Value::Bool(truth));
    }
    if let Some(n) = i64_of(given, "i64") {
        return Some(Value::I64(n));
    }
    if let Some(n) = u64_of(given, "u64") {
        return Some(Value::U64(n));
    }
    if let Some(n) = u32_of(given, "u32") {
        return Some(Value::U32(n));
    }
    if let Some(n) = i32_of(given, "enum") {
        return Some(Value::EnumNumber(n));
    }
    Some(Value::I32(i32_of(given, "i32")?))
}

/// The bytes of a member.
pub fn bytes_of(alloc: Global, out: &mut Text, given: &Json, name: &'static str) -> Vec<u8> {
    match bytes(alloc, given, name) {
        Ok(bytes) => bytes,
        Err(_) => {
            out.give_up();
            Vec::new(alloc)
        }
    }
}

/// The value that a call made.
pub fn value_made<'p>(out: &mut Text, made: Result<Value<'p>, AllocError>) -> Value<'p> {
    match made {
        Ok(value) => value,
        Err(_) => {
            out.give_up();
            Value::Bool(false)
        }
    }
}

/// The value of a text.
fn text_value<'p>(alloc: Global, out: &mut Text, text: &str) -> Value<'p> {
    match String::from_str(alloc, text) {
        Ok(text) => Value::String(text),
        Err(_) => {
            out.give_up();
            Value::Bool(false)
        }
    }
}

/// The number, the text or the bytes that an object gives under the name of its sort.
pub fn scalar_of<'p>(alloc: Global, out: &mut Text, given: &Json) -> Value<'p> {
    if let Some(number) = number_of(given) {
        return number;
    }
    match text_of(given, "string") {
        Some(text) => text_value(alloc, out, text),
        None => Value::Bytes(bytes_of(alloc, out, given, "bytes")),
    }
}

/// The message of a type that the bytes of a case spell, empty without them.
///
/// Bytes that are refused are as want of memory is.
pub fn message_of<'p>(
    alloc: Global,
    out: &mut Text,
    descriptor: MessageDescriptor<'p>,
    given: &Json,
) -> DynamicMessage<'p> {
    let bytes = bytes_of(alloc, out, given, "bytes");
    match DynamicMessage::decode(alloc, descriptor, bytes.as_slice()) {
        Ok(message) => message,
        Err(_) => {
            out.give_up();
            DynamicMessage::new(alloc, descriptor)
        }
    }
}

/// The message of the type that an object names under `message`, or the single value that it gives.
fn single_of<'p>(
    alloc: Global,
    out: &mut Text,
    pool: &'p DescriptorPool,
    given: &Json,
) -> Value<'p> {
    match pool.get_message_by_name(text(given, "message")) {
        Some(descriptor) => Value::Message(message_of(alloc, out, descriptor, given)),
        None => scalar_of(alloc, out, given),
    }
}

/// The single values of a list.
pub fn list_of<'p>(
    alloc: Global,
    out: &mut Text,
    pool: &'p DescriptorPool,
    given: &Json,
) -> Vec<Value<'p>> {
    let mut values = Vec::new(alloc);
    for item in items(given, "list") {
        if values.push(single_of(alloc, out, pool, item)).is_err() {
            out.give_up();
        }
    }
    values
}

/// Puts a key and a value, which stand side by side in a list, into a map.
pub fn put_entry(
    alloc: Global,
    out: &mut Text,
    entries: &mut BTreeMap<MapKey, Value<'_>>,
    entry: &Json,
) {
    let Some((key, value)) = pair(entry) else {
        return;
    };
    if let Some(key) = scalar_of(alloc, out, key).into_map_key() {
        if entries.insert(key, scalar_of(alloc, out, value)).is_err() {
            out.give_up();
        }
    }
}

/// The entries of a map.
fn map_of<'p>(alloc: Global, out: &mut Text, given: &Json) -> BTreeMap<MapKey, Value<'p>> {
    let mut entries = BTreeMap::new(alloc);
    for entry in items(given, "map") {
        put_entry(alloc, out, &mut entries, entry);
    }
    entries
}

/// The list, the map or the single value that an object gives.
pub fn value_of<'p>(
    alloc: Global,
    out: &mut Text,
    pool: &'p DescriptorPool,
    given: &Json,
) -> Value<'p> {
    if given.get("list").is_some() {
        return Value::List(list_of(alloc, out, pool, given));
    }
    if given.get("map").is_some() {
        return Value::Map(map_of(alloc, out, given));
    }
    single_of(alloc, out, pool, given)
}

/// The field of a type that an object names by its number, under `field`.
pub fn field_of<'p>(
    descriptor: MessageDescriptor<'p>,
    given: &Json,
) -> Option<FieldDescriptor<'p>> {
    descriptor.get_field(u32_of(given, "field")?)
}

/// The extension of a type that an object names by its number, under `extension`.
pub fn extension_of<'p>(
    descriptor: MessageDescriptor<'p>,
    given: &Json,
) -> Option<ExtensionDescriptor<'p>> {
    descriptor.get_extension(u32_of(given, "extension")?)
}

/// The kind of the field of a type that is named under `kind`.
pub fn kind_of<'p>(descriptor: MessageDescriptor<'p>, given: &Json) -> Option<Kind<'p>> {
    let field = descriptor.get_field_by_name(text(given, "kind"))?;
    Some(field.kind())
}
