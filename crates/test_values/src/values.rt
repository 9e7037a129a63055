//! Calls of values, and of what suits a field and is its default.

use crate::answers::{Answers, replay_calls};
use crate::changes::change;
use crate::given::{extension_of, field_of, kind_of, value_made, value_of};
use crate::shown::{write_key, write_truth, write_value};
use reflect_dynamic::{CloneValue, Value, ValueTests};
use reflect_link::MessageDescriptor;
use serde_json::Value as Json;
use std::alloc::Global;
use test_json::Text;
use test_json::members::text;

/// A value beside a type whose fields and extensions are asked of it.
#[derive(Drop)]
struct ValueCase<'p> {
    value: Value<'p>,
    descriptor: MessageDescriptor<'p>,
}

/// The default of the field, the extension or the kind that an object names, or the value that it
/// gives.
fn start_of<'p>(
    alloc: Global,
    out: &mut Text,
    descriptor: MessageDescriptor<'p>,
    given: &Json,
) -> Value<'p> {
    if let Some(field) = field_of(descriptor, given) {
        return value_made(out, Value::default_value_for_field(alloc, &field));
    }
    if let Some(extension) = extension_of(descriptor, given) {
        return value_made(out, Value::default_value_for_extension(alloc, &extension));
    }
    match kind_of(descriptor, given) {
        Some(kind) => Value::default_value(alloc, &kind),
        None => value_of(alloc, out, descriptor.parent_pool(), given),
    }
}

/// Makes the calls of a value, which is the one that the case gives under `value`.
pub fn replay_value(
    alloc: Global,
    descriptor: MessageDescriptor<'_>,
    case: &Json,
    difference: &mut Text,
) {
    let Some(given) = case.get("value") else {
        return difference.push_str("no value ");
    };
    let value = start_of(alloc, difference, descriptor, given);
    replay_calls(
        alloc,
        &mut ValueCase { value, descriptor },
        case,
        difference,
    );
}

impl ValueCase<'_> {
    /// Whether the value suits the field, the extension or the kind that the call names.
    fn suits(&self, call: &Json) -> Option<bool> {
        let (value, descriptor) = (&self.value, self.descriptor);
        if let Some(field) = field_of(descriptor, call) {
            return Some(value.is_valid_for_field(&field));
        }
        if let Some(extension) = extension_of(descriptor, call) {
            return Some(value.is_valid_for_extension(&extension));
        }
        Some(value.is_valid(&kind_of(descriptor, call)?))
    }

    /// Whether the value is the default of the field, the extension or the kind that the call
    /// names.
    fn is_default(&self, call: &Json) -> Option<bool> {
        let (value, descriptor) = (&self.value, self.descriptor);
        if let Some(field) = field_of(descriptor, call) {
            return Some(value.is_default_for_field(&field));
        }
        if let Some(extension) = extension_of(descriptor, call) {
            return Some(value.is_default_for_extension(&extension));
        }
        Some(value.is_default(&kind_of(descriptor, call)?))
    }
}

/// Writes a truth value, or that what it was asked of is not there.
pub fn write_if_asked(out: &mut Text, truth: Option<bool>) {
    match truth {
        Some(truth) => write_truth(out, truth),
        None => out.push_str("none"),
    }
}

/// Writes a value as a key, or that it can be none.
fn write_as_key(out: &mut Text, value: Value<'_>) {
    match value.into_map_key() {
        Some(key) => write_key(out, &key),
        None => out.push_str("none"),
    }
}

impl Answers for ValueCase<'_> {
    fn answer(&mut self, alloc: Global, call: &Json, out: &mut Text) {
        match text(call, "call") {
            "show" => write_value(out, &self.value),
            "change" => change(alloc, out, &mut self.value, call),
            "suits" => write_if_asked(out, self.suits(call)),
            "is_default" => write_if_asked(out, self.is_default(call)),
            "as_key" => {
                let copy = value_made(out, self.value.clone());
                write_as_key(out, copy);
            }
            _ => out.push_str("no call"),
        }
    }
}
