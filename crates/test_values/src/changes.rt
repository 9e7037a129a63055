//! Values and keys that are changed in place. What there is no room for is said by the text that
//! is written.

use crate::given::{
    bool_of, bytes_of, i32_of, i64_of, put_entry, scalar_of, text_of, u32_of, u64_of,
};
use crate::shown::{write_key, write_value};
use reflect_dynamic::{DecodeMessage, DynamicMessage, MapKey, Value};
use serde_json::Value as Json;
use std::alloc::Global;
use std::collections::BTreeMap;
use test_json::Text;
use test_json::members::items;

/// Puts what is given into the place, if there is one.
fn put<T: Copy>(place: Option<&mut T>, given: T) -> bool {
    match place {
        Some(place) => {
            *place = given;
            true
        }
        None => false,
    }
}

/// Changes a truth value or a number to the one that the call gives; `None` where it gives none.
fn change_number(value: &mut Value<'_>, call: &Json) -> Option<bool> {
    if let Some(truth) = bool_of(call, "bool") {
        return Some(put(value.as_bool_mut(), truth));
    }
    if let Some(n) = i32_of(call, "i32") {
        return Some(put(value.as_i32_mut(), n));
    }
    if let Some(n) = i64_of(call, "i64") {
        return Some(put(value.as_i64_mut(), n));
    }
    if let Some(n) = u32_of(call, "u32") {
        return Some(put(value.as_u32_mut(), n));
    }
    if let Some(n) = u64_of(call, "u64") {
        return Some(put(value.as_u64_mut(), n));
    }
    let number = i32_of(call, "enum")?;
    Some(put(value.as_enum_number_mut(), number))
}

/// Puts a text behind the one of the place, if there is one.
fn push_text(out: &mut Text, place: Option<&mut String>, text: &str) -> bool {
    match place {
        Some(place) => {
            out.check(place.push_str(text));
            true
        }
        None => false,
    }
}

/// Puts the bytes that the call gives behind those of the place, if there is one.
fn push_bytes(alloc: Global, out: &mut Text, place: Option<&mut Vec<u8>>, call: &Json) -> bool {
    match place {
        Some(place) => {
            let bytes = bytes_of(alloc, out, call, "bytes");
            out.check(place.extend_from_slice(bytes.as_slice()));
            true
        }
        None => false,
    }
}

/// Puts the values that the call gives behind those of the place, if there is one.
fn push_values(
    alloc: Global,
    out: &mut Text,
    place: Option<&mut Vec<Value<'_>>>,
    call: &Json,
) -> bool {
    let Some(place) = place else {
        return false;
    };
    for item in items(call, "list") {
        if place.push(scalar_of(alloc, out, item)).is_err() {
            out.give_up();
        }
    }
    true
}

/// Puts the entries that the call gives into the place, if there is one.
fn put_entries(
    alloc: Global,
    out: &mut Text,
    place: Option<&mut BTreeMap<MapKey, Value<'_>>>,
    call: &Json,
) -> bool {
    let Some(place) = place else {
        return false;
    };
    for entry in items(call, "map") {
        put_entry(alloc, out, place, entry);
    }
    true
}

/// Merges the bytes that the call gives into the place, if there is one; false also where they are
/// refused.
fn merge(
    alloc: Global,
    out: &mut Text,
    place: Option<&mut DynamicMessage<'_>>,
    call: &Json,
) -> bool {
    match place {
        Some(place) => {
            let bytes = bytes_of(alloc, out, call, "merge");
            place.merge(bytes.as_slice()).is_ok()
        }
        None => false,
    }
}

/// Changes a value by what the call gives of one sort; false where the value is of another sort.
fn change_value(alloc: Global, out: &mut Text, value: &mut Value<'_>, call: &Json) -> bool {
    if let Some(is_changed) = change_number(value, call) {
        return is_changed;
    }
    if let Some(text) = text_of(call, "string") {
        return push_text(out, value.as_string_mut(), text);
    }
    if call.get("bytes").is_some() {
        return push_bytes(alloc, out, value.as_bytes_mut(), call);
    }
    if call.get("list").is_some() {
        return push_values(alloc, out, value.as_list_mut(), call);
    }
    if call.get("map").is_some() {
        return put_entries(alloc, out, value.as_map_mut(), call);
    }
    merge(alloc, out, value.as_message_mut(), call)
}

/// Writes a value, changes it by what the call gives, and says where it stays because it is of
/// another sort.
pub fn change(alloc: Global, out: &mut Text, value: &mut Value<'_>, call: &Json) {
    write_value(out, value);
    if !change_value(alloc, out, value, call) {
        out.push_str(" stays");
    }
}

/// Changes a key by what the call gives of one sort; false where the key is of another sort.
fn change_key_to(out: &mut Text, key: &mut MapKey, call: &Json) -> bool {
    if let Some(truth) = bool_of(call, "bool") {
        return put(key.as_bool_mut(), truth);
    }
    if let Some(n) = i32_of(call, "i32") {
        return put(key.as_i32_mut(), n);
    }
    if let Some(n) = i64_of(call, "i64") {
        return put(key.as_i64_mut(), n);
    }
    if let Some(n) = u32_of(call, "u32") {
        return put(key.as_u32_mut(), n);
    }
    if let Some(n) = u64_of(call, "u64") {
        return put(key.as_u64_mut(), n);
    }
    match text_of(call, "string") {
        Some(text) => push_text(out, key.as_string_mut(), text),
        None => false,
    }
}

/// Writes a key, changes it by what the call gives, and says where it stays because it is of
/// another sort.
pub fn change_key(out: &mut Text, key: &mut MapKey, call: &Json) {
    write_key(out, key);
    if !change_key_to(out, key, call) {
        out.push_str(" stays");
    }
}
