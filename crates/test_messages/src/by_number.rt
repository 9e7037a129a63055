//! Calls of fields by their numbers.

use crate::lent::change_found;
use reflect_dynamic::{DynamicMessage, FieldsByNumber, FieldsByNumberMut};
use serde_json::Value as Json;
use std::alloc::Global;
use test_json::Text;
use test_json::members::text;
use test_values::{value_of, write_held, write_outcome, write_taken, write_truth};

/// Makes a call of the field of a number.
pub fn answer_by_number(
    alloc: Global,
    out: &mut Text,
    message: &mut DynamicMessage<'_>,
    number: u32,
    call: &Json,
) {
    let pool = message.descriptor().parent_pool();
    match text(call, "call") {
        "has" => write_truth(out, message.has_field_by_number(number)),
        "get" => write_held(out, message.get_field_by_number(number)),
        "change" => change_found(alloc, out, message.get_field_by_number_mut(number), call),
        "set" => {
            let value = value_of(alloc, out, pool, call);
            out.check(message.set_field_by_number(number, value));
        }
        "try_set" => {
            let value = value_of(alloc, out, pool, call);
            write_outcome(out, message.try_set_field_by_number(number, value));
        }
        "clear" => message.clear_field_by_number(number),
        "take" => write_taken(out, message.take_field_by_number(number)),
        _ => out.push_str("no call"),
    }
}
