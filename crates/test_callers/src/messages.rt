//! A message is read, changed and written, of a type that is named at run time.

use reflect_dynamic::{DecodeMessage, DynamicMessage, EncodeMessage, FieldsByName, Value};
use reflect_link::MessageDescriptor;
use reflect_wire::WireError;
use schema_core::{Schema, SchemaError};
use std::alloc::Global;

/// The bytes of a message in which the number `foo` counts one more. Where the type has no such
/// number the message stays as it is.
pub fn raise_foo(
    alloc: Global,
    descriptor: MessageDescriptor<'_>,
    bytes: &[u8],
) -> Result<Vec<u8>, WireError> {
    let mut message = DynamicMessage::decode(alloc, descriptor, bytes)?;
    let foo = match message.get_field_by_name("foo")? {
        Some(field) => field.value().as_i32(),
        None => None,
    };
    if let Some(foo) = foo {
        message.set_field_by_name("foo", Value::I32(foo.saturating_add(1)))?;
    }
    message.encode_to_vec()
}

/// The bytes with `foo` raised, or none where the schema has no type of the name.
fn raised(alloc: Global, schema: &Schema, bytes: &[u8]) -> Result<Vec<u8>, SchemaError> {
    match schema.pool().get_message_by_name("p.M") {
        Some(descriptor) => Ok(raise_foo(alloc, descriptor, bytes)?),
        None => Ok(Vec::new(alloc)),
    }
}

/// 150 becomes 151, a field that is not set 1, and what the type does not declare stays.
pub fn changed(alloc: Global, schema: &Schema) -> Result<String, SchemaError> {
    let set = raised(alloc, schema, b"\x08\x96\x01")?;
    let unset = raised(alloc, schema, b"\x10\x05")?;
    Ok(format!(in alloc; "{:?} {:?}", set.as_slice(), unset.as_slice())?)
}

/// Bytes that end within a field's number.
pub fn cut_short(alloc: Global, schema: &Schema) -> Result<String, SchemaError> {
    let bytes = raised(alloc, schema, b"\x08")?;
    schema.decode("p.M", bytes.as_slice())
}
