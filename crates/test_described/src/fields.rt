//! Lines of fields and extensions.

use crate::parts::{
    or_dash, write_found, write_home, write_listed, write_named, write_path, write_record,
    write_truth,
};
use reflect_link::{
    Cardinality, DefaultValue, ExtensionDescriptor, FieldDescriptor, FieldReaders, InFile, Kind,
};
use reflect_scalar::{AnyField, FieldDescriptorLike};
use test_json::Text;

/// Writes a field's names, where it stands, and what finds it again.
pub fn write_field(out: &mut Text, field: FieldDescriptor<'_>) {
    write_field_names(out, field);
    write_field_lookups(out, field);
    write_truth(out, " required=", field.is_required());
    write_listed(out, " oneof=", field.containing_oneof());
    write_form(out, AnyField::Field(field), field.cardinality());
}

fn write_field_names(out: &mut Text, field: FieldDescriptor<'_>) {
    write_named(out, "field ", field.full_name(), field.name());
    out.push_pair(" json=", or_dash(field.json_name()));
    write_path(out, field.path());
    out.push_pair(" in=", field.parent_message().full_name());
    write_record(out, &field.field_descriptor_proto().name);
}

/// Writes the field of its message that has its number, its name and its JSON name.
fn write_field_lookups(out: &mut Text, field: FieldDescriptor<'_>) {
    let message = field.parent_message();
    write_listed(out, " found=", message.get_field(field.number()));
    write_listed(out, ",", message.get_field_by_name(field.name()));
    let json_name = or_dash(field.json_name());
    write_listed(out, ",", message.get_field_by_json_name(json_name));
}

/// Writes an extension's names, where it stands, and what finds it again.
pub fn write_extension(out: &mut Text, extension: ExtensionDescriptor<'_>) {
    let (full_name, name) = (extension.full_name(), extension.name());
    write_named(out, "extension ", full_name, name);
    out.push_pair(" json=", extension.json_name());
    let file = extension.parent_file().name();
    write_home(out, extension.path(), file, extension.package_name());
    write_found(out, " in=", extension.parent_message());
    out.push_pair(" of=", extension.containing_message().full_name());
    write_record(out, &extension.field_descriptor_proto().name);
    write_extension_lookups(out, extension);
    let cardinality = extension.cardinality();
    write_form(out, AnyField::Extension(extension), cardinality);
}

/// Writes the extension of its message that has its number, its full name, its JSON name, and that
/// of the pool with its full name.
fn write_extension_lookups(out: &mut Text, extension: ExtensionDescriptor<'_>) {
    let message = extension.containing_message();
    write_found(out, " found=", message.get_extension(extension.number()));
    let full_name = extension.full_name();
    write_found(out, ",", message.get_extension_by_full_name(full_name));
    let json_name = extension.json_name();
    write_found(out, ",", message.get_extension_by_json_name(json_name));
    let pool = extension.parent_pool();
    write_found(out, ",", pool.get_extension_by_name(full_name));
}

fn cardinality_name(cardinality: Cardinality) -> &'static str {
    match cardinality {
        Cardinality::Optional => "Optional",
        Cardinality::Required => "Required",
        Cardinality::Repeated => "Repeated",
    }
}

/// Writes what fields and extensions have in common.
fn write_form(out: &mut Text, field: AnyField<'_>, cardinality: Cardinality) {
    out.push_shown(" number=", field.number());
    out.push_pair(" ", cardinality_name(cardinality));
    out.push_pair(" kind=", kind_name(field.kind()));
    write_default(out, field.default());
    write_traits(out, field);
}

fn write_traits(out: &mut Text, field: AnyField<'_>) {
    write_truth(out, " group=", field.is_group());
    write_truth(out, " list=", field.is_list());
    write_truth(out, " map=", field.is_map());
    write_truth(out, " packed=", field.is_packed());
    write_truth(out, " presence=", field.supports_presence());
    out.push_str("\n");
}

/// The keyword of a kind, or the full name of its type.
fn kind_name<'p>(kind: Kind<'p>) -> &'p str {
    match kind {
        Kind::Double => "double",
        Kind::Float => "float",
        Kind::Int32 => "int32",
        Kind::Int64 => "int64",
        Kind::Uint32 => "uint32",
        Kind::Uint64 => "uint64",
        Kind::Sint32 => "sint32",
        Kind::Sint64 => "sint64",
        Kind::Fixed32 => "fixed32",
        Kind::Fixed64 => "fixed64",
        Kind::Sfixed32 => "sfixed32",
        Kind::Sfixed64 => "sfixed64",
        Kind::Bool => "bool",
        Kind::String => "string",
        Kind::Bytes => "bytes",
        Kind::Message(message) => message.full_name(),
        Kind::Enum(kind) => kind.full_name(),
    }
}

/// Writes a default: of a text or of bytes the bytes.
fn write_default(out: &mut Text, default: Option<DefaultValue<'_>>) {
    out.push_str(" default=");
    match default {
        None => {}
        Some(DefaultValue::I64(number)) => out.push_shown("", number),
        Some(DefaultValue::U64(number)) => out.push_shown("", number),
        Some(DefaultValue::Bool(truth)) => write_truth(out, "", truth),
        Some(DefaultValue::Text(text)) => out.push_hex(text.as_bytes()),
        Some(DefaultValue::Bytes(bytes)) => out.push_hex(bytes),
        Some(DefaultValue::Enum(number)) => out.push_shown("enum ", number),
        Some(DefaultValue::Float(text)) => out.push_pair("float ", text),
    }
}
