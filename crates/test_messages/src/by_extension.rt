//! Calls of extensions by their descriptors.

use crate::lent::{change_made, write_made};
use reflect_dynamic::{DynamicMessage, ExtendMessage};
use serde_json::Value as Json;
use std::alloc::Global;
use test_json::Text;
use test_json::members::text;
use test_values::{list_of, value_of, write_taken, write_truth};

/// Makes a call of the extension of a number by the extension's descriptor.
pub fn answer_by_extension(
    alloc: Global,
    out: &mut Text,
    message: &mut DynamicMessage<'_>,
    number: u32,
    call: &Json,
) {
    let pool = message.descriptor().parent_pool();
    let Some(extension) = message.descriptor().get_extension(number) else {
        return out.push_str("no extension");
    };
    match text(call, "call") {
        "has" => write_truth(out, message.has_extension(&extension)),
        "get" => write_made(out, message.get_extension(&extension)),
        "change" => change_made(alloc, out, message.get_extension_mut(&extension), call),
        "set" => {
            let value = value_of(alloc, out, pool, call);
            out.check(message.set_extension(&extension, value));
        }
        "extend" => {
            let values = list_of(alloc, out, pool, call);
            out.check(message.extend_extension(&extension, values));
        }
        "clear" => message.clear_extension(&extension),
        "take" => write_taken(out, message.take_extension(&extension)),
        _ => out.push_str("no call"),
    }
}
