//! Options of declarations, read by the types that a pool has for them.

use reflect_dynamic::{DynamicMessage, ReadOptions};
use reflect_link::{DescriptorPool, PoolReaders};
use reflect_wire::WireError;
use serde_json::Value as Json;
use std::alloc::Global;
use test_json::Text;
use test_json::members::text;
use test_values::u32_of;
use text_format::TextFormat;

/// What was read: a message, or `None` where the pool has no type of such options.
type Read<'p> = Result<Option<DynamicMessage<'p>>, WireError>;

/// The options of a message type, of its field or extension of a number, or of its first oneof;
/// `None` where there is none.
fn options_in_message<'p>(
    alloc: Global,
    pool: &'p DescriptorPool,
    call: &Json,
) -> Option<Read<'p>> {
    let message = pool.get_message_by_name(text(call, "name"))?;
    match text(call, "of") {
        "message" => Some(message.options(alloc)),
        "field" => Some(message.get_field(u32_of(call, "number")?)?.options(alloc)),
        "extension" => Some(
            message
                .get_extension(u32_of(call, "number")?)?
                .options(alloc),
        ),
        _ => Some(message.oneofs().next()?.options(alloc)),
    }
}

/// The options of an enum or its first value; `None` where there is none.
fn options_in_enum<'p>(alloc: Global, pool: &'p DescriptorPool, call: &Json) -> Option<Read<'p>> {
    let kind = pool.get_enum_by_name(text(call, "name"))?;
    match text(call, "of") {
        "enum" => Some(kind.options(alloc)),
        _ => Some(kind.values().next()?.options(alloc)),
    }
}

/// The options of a service or its first method; `None` where there is none.
fn options_in_service<'p>(
    alloc: Global,
    pool: &'p DescriptorPool,
    call: &Json,
) -> Option<Read<'p>> {
    let service = pool.get_service_by_name(text(call, "name"))?;
    match text(call, "of") {
        "service" => Some(service.options(alloc)),
        _ => Some(service.methods().next()?.options(alloc)),
    }
}

/// The options of the declaration that the call names; `None` where there is none.
fn options_of<'p>(alloc: Global, pool: &'p DescriptorPool, call: &Json) -> Option<Read<'p>> {
    match text(call, "of") {
        "file" => Some(pool.get_file_by_name(text(call, "name"))?.options(alloc)),
        "enum" | "value" => options_in_enum(alloc, pool, call),
        "service" | "method" => options_in_service(alloc, pool, call),
        _ => options_in_message(alloc, pool, call),
    }
}

/// Writes the options of the declaration that the call names as text, or that they have no type.
pub fn write_options(alloc: Global, out: &mut Text, pool: &DescriptorPool, call: &Json) {
    match options_of(alloc, pool, call) {
        Some(Ok(Some(options))) => match options.to_text_format(alloc) {
            Ok(text) => out.push_str(text.as_str()),
            Err(_) => out.give_up(),
        },
        Some(Ok(None)) => out.push_str("no type"),
        Some(Err(error)) => write!(out, "{error:?}"),
        None => out.push_str("no declaration"),
    }
}
