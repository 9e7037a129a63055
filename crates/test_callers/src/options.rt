//! What options say of a declaration.

use crate::files::link;
use reflect_link::MessageReaders;
use schema_core::{Schema, SchemaError};
use std::alloc::Global;

/// The options of a message type as text, if it has some. The schema has to know the type of
/// options, which `google/protobuf/descriptor.proto` declares.
pub fn options_of(schema: &Schema, type_name: &str) -> Result<Option<String>, SchemaError> {
    let Some(descriptor) = schema.pool().get_message_by_name(type_name) else {
        return Ok(None);
    };
    match &descriptor.descriptor_proto().options {
        Some(options) => {
            let bytes = options.encoded.as_slice();
            Ok(Some(schema.decode("google.protobuf.MessageOptions", bytes)?))
        }
        None => Ok(None),
    }
}

const TYPES: &str = "syntax = 'proto2'; package google.protobuf;
    message MessageOptions {
        optional bool map_entry = 7;
        repeated UninterpretedOption uninterpreted_option = 999;
        extensions 1000 to max;
    }
    message UninterpretedOption {}";

const SOURCE: &str = "syntax = 'proto2'; package p; import 'google/protobuf/descriptor.proto';
    extend google.protobuf.MessageOptions { optional string owner = 50000; }
    message M { option (owner) = 'a team'; }
    message N {}";

/// One message has an option of the source's own, another none.
fn of_the_first(alloc: Global, schema: &Schema) -> Result<String, SchemaError> {
    if options_of(schema, "p.N")?.is_some() {
        return Ok(String::new(alloc));
    }
    match options_of(schema, "p.M")? {
        Some(options) => Ok(options),
        None => Ok(String::new(alloc)),
    }
}

pub fn of_a_message(alloc: Global) -> Result<String, SchemaError> {
    let sources = [
        ("google/protobuf/descriptor.proto", TYPES),
        ("a.proto", SOURCE),
    ];
    let schema = link(alloc, &sources)?;
    of_the_first(alloc, &schema)
}
