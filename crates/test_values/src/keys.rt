//! Calls of keys of maps.

use crate::answers::{Answers, replay_calls};
use crate::changes::change_key;
use crate::given::{kind_of, value_of};
use crate::shown::{write_key, write_truth, write_value};
use crate::values::write_if_asked;
use reflect_dynamic::{MapKey, Value};
use reflect_link::MessageDescriptor;
use serde_json::Value as Json;
use std::alloc::Global;
use test_json::Text;
use test_json::members::text;

/// A key beside a type whose fields have the kinds that are asked of it.
#[derive(Drop)]
struct KeyCase<'p> {
    key: MapKey,
    descriptor: MessageDescriptor<'p>,
}

/// The default key of the kind that an object names, or the key that it gives.
fn start_of(
    alloc: Global,
    out: &mut Text,
    descriptor: MessageDescriptor<'_>,
    given: &Json,
) -> Option<MapKey> {
    match kind_of(descriptor, given) {
        Some(kind) => Some(MapKey::default_value(alloc, &kind)),
        None => value_of(alloc, out, descriptor.parent_pool(), given).into_map_key(),
    }
}

/// Makes the calls of a key, which is the one that the case gives under `key`.
pub fn replay_key(
    alloc: Global,
    descriptor: MessageDescriptor<'_>,
    case: &Json,
    difference: &mut Text,
) {
    let Some(given) = case.get("key") else {
        return difference.push_str("no key ");
    };
    match start_of(alloc, difference, descriptor, given) {
        Some(key) => replay_calls(alloc, &mut KeyCase { key, descriptor }, case, difference),
        None => difference.push_str("no key "),
    }
}

impl KeyCase<'_> {
    /// Whether the key suits the kind that the call names.
    fn suits(&self, call: &Json) -> Option<bool> {
        Some(self.key.is_valid(&kind_of(self.descriptor, call)?))
    }

    /// Whether the key is the default of the kind that the call names.
    fn is_default(&self, call: &Json) -> Option<bool> {
        Some(self.key.is_default(&kind_of(self.descriptor, call)?))
    }

    /// Writes whether a copy of the key is the same.
    fn write_copy(&self, out: &mut Text) {
        match self.key.clone() {
            Ok(copy) => write_truth(out, copy == self.key),
            Err(_) => out.give_up(),
        }
    }

    /// Writes the key as a value.
    fn write_as_value(&self, out: &mut Text) {
        match self.key.clone() {
            Ok(copy) => write_value(out, &Value::from(copy)),
            Err(_) => out.give_up(),
        }
    }
}

impl Answers for KeyCase<'_> {
    fn answer(&mut self, _alloc: Global, call: &Json, out: &mut Text) {
        match text(call, "call") {
            "show" => write_key(out, &self.key),
            "change" => change_key(out, &mut self.key, call),
            "suits" => write_if_asked(out, self.suits(call)),
            "is_default" => write_if_asked(out, self.is_default(call)),
            "copy" => self.write_copy(out),
            "as_value" => self.write_as_value(out),
            _ => out.push_str("no call"),
        }
    }
}
