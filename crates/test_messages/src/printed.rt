//! Texts of messages, out and in, and why they are refused.

use reflect_dynamic::{DecodeMessage, DynamicMessage, EncodeMessage};
use reflect_format::ParseError;
use reflect_link::{DescriptorPool, PoolReaders};
use reflect_print::FormatOptions;
use serde_json::Value;
use std::alloc::Global;
use test_json::members::{text, truth};
use test_json::{Text, Told, tell_case};
use text_format::TextFormat;

/// The form of text that a case names.
fn form(case: &Value) -> FormatOptions {
    let Some(form) = case.get("options") else {
        return FormatOptions::new();
    };
    FormatOptions::new()
        .pretty(truth(form, "pretty"))
        .skip_unknown_fields(truth(form, "skip_unknown_fields"))
        .expand_any(truth(form, "expand_any"))
        .skip_default_fields(truth(form, "skip_default_fields"))
        .print_message_fields_in_index_order(truth(form, "print_message_fields_in_index_order"))
}

/// The text of a message in the form that the case names, or that it is refused for want of memory.
pub fn tell_printed(
    alloc: Global,
    pool: &DescriptorPool,
    case: &Value,
    bytes: &[u8],
    told: &mut Told<'_>,
) {
    let Some(descriptor) = pool.get_message_by_name(text(case, "type")) else {
        return;
    };
    let Ok(message) = DynamicMessage::decode(alloc, descriptor, bytes) else {
        return;
    };
    match message.to_text_format_with_options(alloc, &form(case)) {
        Ok(printed) => told.tell("ok", printed.as_str()),
        Err(_) => told.tell("refused", "memory"),
    }
}

/// A text that is refused, and what it leaves in a message that was empty.
pub fn tell_merged(alloc: Global, pool: &DescriptorPool, case: &Value, told: &mut Told<'_>) {
    let Some(descriptor) = pool.get_message_by_name(text(case, "type")) else {
        return;
    };
    let mut message = DynamicMessage::new(alloc, descriptor);
    if let Err(error) = message.merge_text_format(text(case, "text")) {
        tell_text_refusal(alloc, told, &error);
    }
    match message.encode_to_vec() {
        Ok(left) => told.tell_bytes("left", left.as_slice()),
        Err(_) => told.give_up(),
    }
}

/// A text is refused with a fault at a place and in words.
pub fn tell_text_refusal(alloc: Global, told: &mut Told<'_>, error: &ParseError) {
    tell_case(alloc, told, "codes", error.kind());
    if let Some(span) = error.span() {
        let mut shown = Text::new(alloc);
        shown.push_span(span.start, span.end);
        told.tell_text("span", shown);
    }
    let mut shown = Text::new(alloc);
    write!(shown, "{error}");
    told.tell_text("text", shown);
}
