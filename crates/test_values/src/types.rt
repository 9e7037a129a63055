//! Calls of message types.

use crate::answers::Answers;
use crate::given::{extension_of, field_of, kind_of, text_of, u32_of, value_made};
use crate::shown::{write_name, write_truth, write_value};
use reflect_dynamic::{FieldDefault, KindExt, Value};
use reflect_link::{FieldDescriptor, FieldReaders, Kind, MessageDescriptor, PoolReaders};
use serde_json::Value as Json;
use std::alloc::Global;
use test_json::Text;
use test_json::members::text;

/// A message type that is asked.
#[derive(Drop)]
pub struct TypeCase<'p> {
    pub descriptor: MessageDescriptor<'p>,
}

impl Answers for TypeCase<'_> {
    fn answer(&mut self, alloc: Global, call: &Json, out: &mut Text) {
        let descriptor = self.descriptor;
        match text(call, "call") {
            "field" => write_name(out, field_name(descriptor, call)),
            "extension" => write_name(out, extension_name(descriptor, call)),
            "is" => write_truth(out, is_same(descriptor, text(call, "name"))),
            "has_file" => write_truth(out, descriptor.parent_pool().has_file(text(call, "name"))),
            "record" => write_record(out, field_of(descriptor, call)),
            "kind" => write_kind(out, field_of(descriptor, call)),
            "wire_type" => write_wire_type(out, kind_of(descriptor, call)),
            "default" => write_default(alloc, out, descriptor, call),
            _ => out.push_str("no call"),
        }
    }
}

/// The full name of the field that the type has by the call's number or name.
fn field_name<'p>(descriptor: MessageDescriptor<'p>, call: &Json) -> Option<&'p str> {
    match text_of(call, "name") {
        Some(name) => Some(descriptor.get_field_by_name(name)?.full_name()),
        None => Some(descriptor.get_field(u32_of(call, "number")?)?.full_name()),
    }
}

/// The full name of the extension that the type has by the call's full name, name in JSON or
/// number.
fn extension_name<'p>(descriptor: MessageDescriptor<'p>, call: &Json) -> Option<&'p str> {
    if let Some(name) = text_of(call, "full_name") {
        return Some(descriptor.get_extension_by_full_name(name)?.full_name());
    }
    match text_of(call, "json_name") {
        Some(name) => Some(descriptor.get_extension_by_json_name(name)?.full_name()),
        None => Some(
            descriptor
                .get_extension(u32_of(call, "number")?)?
                .full_name(),
        ),
    }
}

/// Whether the type is the one that its pool has by a name.
fn is_same(descriptor: MessageDescriptor<'_>, name: &str) -> bool {
    match descriptor.parent_pool().get_message_by_name(name) {
        Some(found) => found.is_same(&descriptor),
        None => false,
    }
}

/// Writes the type's number and name that a field's record has, and how many bytes of options.
fn write_record(out: &mut Text, field: Option<FieldDescriptor<'_>>) {
    let Some(field) = field else {
        return out.push_str("-");
    };
    let record = field.field_descriptor_proto();
    if let Some(number) = record.field_type {
        out.push_shown("type ", number);
    }
    if let Some(name) = &record.type_name {
        out.push_pair(" ", name.as_str());
    }
    if let Some(options) = &record.options {
        out.push_shown(" options ", options.encoded.len());
    }
}

/// Writes the types that a field's kind is, as a message and as an enum.
fn write_kind(out: &mut Text, field: Option<FieldDescriptor<'_>>) {
    let Some(field) = field else {
        return out.push_str("no field");
    };
    let kind = field.kind();
    write_name(out, message_name(kind));
    out.push_str(" ");
    write_name(out, enum_name(kind));
}

/// The full name of the message type, of a kind that is one.
fn message_name<'p>(kind: Kind<'p>) -> Option<&'p str> {
    Some(kind.as_message()?.full_name())
}

/// The full name of the enum type, of a kind that is one.
fn enum_name<'p>(kind: Kind<'p>) -> Option<&'p str> {
    Some(kind.as_enum()?.full_name())
}

/// Writes how values of a kind stand in bytes.
fn write_wire_type(out: &mut Text, kind: Option<Kind<'_>>) {
    match kind {
        Some(kind) => write!(out, "{:?}", kind.wire_type()),
        None => out.push_str("-"),
    }
}

/// The default of the field, the extension or the kind that the call names.
fn default_of<'p>(
    alloc: Global,
    out: &mut Text,
    descriptor: MessageDescriptor<'p>,
    call: &Json,
) -> Option<Value<'p>> {
    if let Some(field) = field_of(descriptor, call) {
        return Some(value_made(out, field.default_value(alloc)));
    }
    if let Some(extension) = extension_of(descriptor, call) {
        return Some(value_made(out, extension.default_value(alloc)));
    }
    Some(KindExt::default_value(&kind_of(descriptor, call)?, alloc))
}

/// Writes the default that the call asks for.
fn write_default(alloc: Global, out: &mut Text, descriptor: MessageDescriptor<'_>, call: &Json) {
    match default_of(alloc, out, descriptor, call) {
        Some(value) => write_value(out, &value),
        None => out.push_str("-"),
    }
}
