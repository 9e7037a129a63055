//! What is told of a schema's refusals.

use crate::layers::{tell_link_refusal, tell_option_refusal};
use schema_core::SchemaError;
use std::alloc::Global;
use test_json::{Text, Told, tell_case};
use test_messages::tell_text_refusal;
use test_sources::tell_source_refusal;

/// The name of a schema's refusal.
fn schema_code(error: &SchemaError) -> &'static str {
    match error {
        SchemaError::Parse(_) => "Parse",
        SchemaError::Link(_) => "Link",
        SchemaError::Options(_) => "Options",
        SchemaError::Wire(_) => "Wire",
        SchemaError::Text(_) => "Text",
        SchemaError::UnknownType(_) => "UnknownType",
        SchemaError::Memory => "Memory",
        SchemaError::TooLong => "TooLong",
    }
}

/// What a schema gave; none where it refused, which is told.
pub fn taken<T: Drop>(
    alloc: Global,
    told: &mut Told<'_>,
    came: Result<T, SchemaError>,
) -> Option<T> {
    match came {
        Ok(it) => Some(it),
        Err(error) => {
            tell_refusal(alloc, told, &error);
            None
        }
    }
}

/// A schema refuses: the layer, the place, what is said of it, and the layer's reason.
pub fn tell_refusal(alloc: Global, told: &mut Told<'_>, error: &SchemaError) {
    told.tell("code", schema_code(error));
    told.tell("file", error.file().unwrap_or(""));
    if let Some((line, column)) = error.position() {
        let mut shown = Text::new(alloc);
        write!(shown, "{line}:{column}");
        told.tell_text("position", shown);
    }
    let mut shown = Text::new(alloc);
    write!(shown, "{error}");
    told.tell_text("display", shown);
    match error {
        SchemaError::Parse(error) => tell_source_refusal(alloc, told, error),
        SchemaError::Link(error) => tell_link_refusal(alloc, told, error),
        SchemaError::Options(error) => tell_option_refusal(alloc, told, error),
        SchemaError::Text(error) => tell_text_refusal(alloc, told, error),
        SchemaError::Wire(error) => tell_case(alloc, told, "wire", error),
        _ => {}
    }
}
