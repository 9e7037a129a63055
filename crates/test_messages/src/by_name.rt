//! Calls of fields by their names.

use crate::lent::change_found;
use reflect_dynamic::{DynamicMessage, FieldsByName, FieldsByNameMut};
use serde_json::Value as Json;
use std::alloc::Global;
use test_json::Text;
use test_json::members::text;
use test_values::{value_of, write_held, write_outcome, write_taken, write_truth};

/// Makes a call of the field of a name.
pub fn answer_by_name(
    alloc: Global,
    out: &mut Text,
    message: &mut DynamicMessage<'_>,
    name: &str,
    call: &Json,
) {
    let pool = message.descriptor().parent_pool();
    match text(call, "call") {
        "has" => write_truth(out, message.has_field_by_name(name)),
        "get" => write_held(out, message.get_field_by_name(name)),
        "change" => change_found(alloc, out, message.get_field_by_name_mut(name), call),
        "set" => {
            let value = value_of(alloc, out, pool, call);
            out.check(message.set_field_by_name(name, value));
        }
        "try_set" => {
            let value = value_of(alloc, out, pool, call);
            write_outcome(out, message.try_set_field_by_name(name, value));
        }
        "clear" => message.clear_field_by_name(name),
        "take" => write_taken(out, message.take_field_by_name(name)),
        _ => out.push_str("no call"),
    }
}
