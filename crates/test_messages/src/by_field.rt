//! Calls of fields by their descriptors.

use crate::lent::{change_made, write_made};
use reflect_dynamic::{DynamicMessage, ExtendMessage, TrySetField};
use serde_json::Value as Json;
use std::alloc::Global;
use test_json::Text;
use test_json::members::text;
use test_values::{list_of, value_of, write_outcome, write_taken, write_truth};

/// Makes a call of the field of a number by the field's descriptor.
pub fn answer_by_field(
    alloc: Global,
    out: &mut Text,
    message: &mut DynamicMessage<'_>,
    number: u32,
    call: &Json,
) {
    let pool = message.descriptor().parent_pool();
    let Some(field) = message.descriptor().get_field(number) else {
        return out.push_str("no field");
    };
    match text(call, "call") {
        "has" => write_truth(out, message.has_field(&field)),
        "get" => write_made(out, message.get_field(&field)),
        "change" => change_made(alloc, out, message.get_field_mut(&field), call),
        "set" => {
            let value = value_of(alloc, out, pool, call);
            out.check(message.set_field(&field, value));
        }
        "try_set" => {
            let value = value_of(alloc, out, pool, call);
            write_outcome(out, message.try_set_field(&field, value));
        }
        "extend" => {
            let values = list_of(alloc, out, pool, call);
            out.check(message.extend_field(&field, values));
        }
        "clear" => message.clear_field(&field),
        "take" => write_taken(out, message.take_field(&field)),
        _ => out.push_str("no call"),
    }
}
