//! What a field's record says about it, in the words of the pool.

ghost use Rattle.std.specs.Prelude.{◌≡◌, false, IfOk, option_map, string_bytes, unwrap_or};
ghost use Rattle.reflect_declarations.specs.Tree.{text_of as as_text};
ghost use Rattle.reflect_tables.specs.Views.{field_of, kind_of};
ghost use Rattle.reflect_fields.specs.Fields.{label_of, scalar_type, is_packable as may_pack, is_packed as packs, has_presence, is_number, natural, IsField, IsExtension};
ghost use Rattle.descriptor_records.specs.FieldNumbers.{type_number};
ghost use Rattle.descriptor_records.specs.declared.field.FieldType.TheVariants as types;

use crate::default::default_of;
use descriptor_records::{FieldDescriptorProto, FieldType, Label};
use reflect_tables::{Cardinality, StoredField, StoredKind, Syntax};
use std::alloc::{AllocError, Global};

/// What a scalar type holds.
pub fn scalar_kind(field_type: FieldType) -> Option<StoredKind>
    ensures { option_map kind_of result ≡ scalar_type field_type }
{
    match field_type {
        FieldType::Double => Some(StoredKind::Double),
        FieldType::Float => Some(StoredKind::Float),
        FieldType::Int64 => Some(StoredKind::Int64),
        FieldType::Uint64 => Some(StoredKind::Uint64),
        FieldType::Int32 => Some(StoredKind::Int32),
        FieldType::Fixed64 => Some(StoredKind::Fixed64),
        FieldType::Fixed32 => Some(StoredKind::Fixed32),
        FieldType::Bool => Some(StoredKind::Bool),
        FieldType::String => Some(StoredKind::String),
        FieldType::Bytes => Some(StoredKind::Bytes),
        FieldType::Uint32 => Some(StoredKind::Uint32),
        FieldType::Sfixed32 => Some(StoredKind::Sfixed32),
        FieldType::Sfixed64 => Some(StoredKind::Sfixed64),
        FieldType::Sint32 => Some(StoredKind::Sint32),
        FieldType::Sint64 => Some(StoredKind::Sint64),
        FieldType::Group | FieldType::Message | FieldType::Enum => None,
    }
}

/// How often a field may stand; without a label it is optional.
fn cardinality_of(label: Option<i32>) -> Cardinality
    ensures { result ≡ label_of label }
{
    if label == Some(Label::Required.number()) {
        Cardinality::Required
    } else if label == Some(Label::Repeated.number()) {
        Cardinality::Repeated
    } else {
        Cardinality::Optional
    }
}

/// Values of the kind may stand in one record, one behind the other.
fn is_packable(kind: StoredKind) -> bool
    ensures { result ≡ may_pack (kind_of kind) }
{
    !matches!(
        kind,
        StoredKind::String | StoredKind::Bytes | StoredKind::Message(_)
    )
}

/// A list is written as one record: in proto3 where the options do not say otherwise, in proto2
/// where they say so (protobuf.dev, "Encoding", "Packed Repeated Fields").
fn is_packed(
    syntax: Syntax,
    cardinality: Cardinality,
    kind: StoredKind,
    field: &FieldDescriptorProto,
) -> bool
    ensures { result ≡ packs syntax cardinality (kind_of kind) field.now.options }
{
    let written = match &field.options {
        Some(options) => options.packed,
        None => None,
    };
    matches!(cardinality, Cardinality::Repeated)
        && is_packable(kind)
        && written.unwrap_or(matches!(syntax, Syntax::Proto3))
}

/// A field that is not set differs from one that holds the default (protobuf.dev, "Application
/// Note: Field Presence").
fn supports_presence(
    syntax: Syntax,
    cardinality: Cardinality,
    kind: StoredKind,
    field: &FieldDescriptorProto,
) -> bool
    ensures { result ≡ has_presence syntax cardinality (kind_of kind) field.now.oneof_index }
{
    !matches!(cardinality, Cardinality::Repeated)
        && (matches!(kind, StoredKind::Message(_))
            || field.oneof_index.is_some()
            || matches!(syntax, Syntax::Proto2))
}

/// A copy of the text, empty where it is missing.
pub fn text_copy(alloc: Global, text: &Option<String>) -> Result<String, AllocError>
    ensures { IfOk result (λ s. string_bytes s ≡ as_text text.now) }
{
    match text {
        Some(text) => text.clone(),
        None => Ok(String::new(alloc)),
    }
}

/// A number, unless it is negative.
fn natural(number: Option<i32>) -> Option<u32>
    ensures { result ≡ natural number }
{
    u32::try_from(number?).ok()
}

/// The type's number stands in the record.
fn is_group(field: &FieldDescriptorProto) -> bool
    ensures { result ≡ is_number (type_number types.Group) field.now.field_type }
{
    field.field_type == Some(FieldType::Group.number())
}

/// The entry of a field of a kind in a file of a syntax. A number that no field may have is 0.
/// Refused for want of memory.
///
/// A field of a proto3 file that was declared `optional` has a record that says so
/// (descriptor.proto, `proto3_optional`).
pub fn field_entry(
    alloc: Global,
    syntax: Syntax,
    path: &[i32],
    full_name: &str,
    kind: StoredKind,
    field: &FieldDescriptorProto,
) -> Result<StoredField, AllocError>
    ensures says { IfOk result (λ f. IsField syntax path.now full_name.now (kind_of kind) field.now
        (field_of f)) }
    ensures optional { IfOk result
        (λ f. f.is_proto3_optional ≡ unwrap_or field.now.proto3_optional false) }
{
    let cardinality = cardinality_of(field.label);
    Ok(StoredField {
        path: Vec::from_slice(alloc, path)?,
        name: text_copy(alloc, &field.name)?,
        full_name: String::from_str(alloc, full_name)?,
        json_name: field.json_name.clone()?,
        number: natural(field.number).unwrap_or(0),
        kind,
        cardinality,
        is_group: is_group(field),
        is_packed: is_packed(syntax, cardinality, kind, field),
        supports_presence: supports_presence(syntax, cardinality, kind, field),
        is_proto3_optional: field.proto3_optional.unwrap_or(false),
        oneof: natural(field.oneof_index),
        default: default_of(alloc, kind, field)?,
    })
}

/// The entry of an extension's field: it is in no oneof, and has presence where it is singular.
/// Refused for want of memory.
pub fn extension_entry(
    alloc: Global,
    syntax: Syntax,
    path: &[i32],
    full_name: &str,
    kind: StoredKind,
    extension: &FieldDescriptorProto,
) -> Result<StoredField, AllocError>
    ensures { IfOk result (λ f. IsExtension syntax path.now full_name.now (kind_of kind)
        extension.now (field_of f)) }
{
    let mut field = field_entry(alloc, syntax, path, full_name, kind, extension)?;
    field.oneof = None;
    field.supports_presence = !matches!(field.cardinality, Cardinality::Repeated);
    Ok(field)
}
