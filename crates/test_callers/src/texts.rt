//! Messages as text.

use reflect_dynamic::DynamicMessage;
use reflect_link::MessageDescriptor;
use reflect_text::{FormatOptions, ParseError, TextFormat, WriteError};
use schema_core::{Schema, SchemaError};
use std::alloc::Global;

/// The message of a type that a text spells, or the text's first fault with its place.
pub fn read_text<'p>(
    alloc: Global,
    descriptor: MessageDescriptor<'p>,
    text: &str,
) -> Result<DynamicMessage<'p>, ParseError> {
    DynamicMessage::parse_text_format(alloc, descriptor, text)
}

/// A message's text, a line for each field.
pub fn show(alloc: Global, message: &DynamicMessage<'_>) -> Result<String, WriteError> {
    let options = FormatOptions::new().pretty(true);
    message.to_text_format_with_options(alloc, &options)
}

/// What is read of a text, on lines of its own.
fn shown(alloc: Global, schema: &Schema, text: &str) -> Result<String, SchemaError> {
    let Some(descriptor) = schema.pool().get_message_by_name("p.M") else {
        return Ok(String::new(alloc));
    };
    let message = read_text(alloc, descriptor, text)?;
    match show(alloc, &message) {
        Ok(text) => Ok(text),
        Err(WriteError::Format | WriteError::Memory) => Err(SchemaError::Memory),
    }
}

pub fn read_and_shown(alloc: Global, schema: &Schema) -> Result<String, SchemaError> {
    shown(alloc, schema, "foo: 150 nested <bar: 0x42>")
}

/// The bytes of a fault, from the first to behind the last, and what it says.
fn placed(alloc: Global, fault: &ParseError) -> Result<String, SchemaError> {
    match fault.span() {
        Some(span) => Ok(format!(in alloc; "{}..{} {fault}", span.start, span.end)?),
        None => Ok(String::new(alloc)),
    }
}

/// A fault has a place.
pub fn with_a_fault(alloc: Global, schema: &Schema) -> Result<String, SchemaError> {
    match shown(alloc, schema, "foo: 1 fob: 2") {
        Err(SchemaError::Text(fault)) => placed(alloc, &fault),
        other => other,
    }
}
