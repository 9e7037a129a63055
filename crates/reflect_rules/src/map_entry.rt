//! The shape of the type of a map's entries (protobuf.dev, "Maps": a repeated field of a message
//! with `key` and `value`).

ghost use Rattle.std.specs.Prelude.{◌≡◌, Some};
ghost use Rattle.descriptor_records.specs.FieldNumbers.{type_number};
ghost use Rattle.reflect_declarations.specs.Tree.{parts_of};
ghost use Rattle.reflect_rules.specs.MapEntries.{has_name as is_named_so, is_optional as may_be_optional, is_part as is_part_so, is_key_type as may_be_key, share_oneof as share_one, are_key_and_value as are_parts, has_entry_shape as is_shaped};

use descriptor_records::{DescriptorProto, FieldDescriptorProto, FieldType, Label};

fn is_named(field: &FieldDescriptorProto, name: &str) -> bool
    ensures { result ≡ is_named_so field.now name.now }
{
    match &field.name {
        Some(found) => found.as_str() == name,
        None => false,
    }
}

fn is_optional(label: Option<i32>) -> bool
    ensures { result ≡ may_be_optional label }
{
    let optional = Label::Optional.number();
    label.unwrap_or(optional) == optional
}

/// The field has this name and number, and is optional.
fn is_part(field: &FieldDescriptorProto, name: &str, number: i32) -> bool
    ensures { result ≡ is_part_so field.now name.now number }
{
    is_named(field, name) && field.number == Some(number) && is_optional(field.label)
}

/// Maps may have keys of integers, truth values and strings.
fn is_key(field_type: FieldType) -> bool
    ensures { result ≡ may_be_key (Some (type_number field_type)) }
{
    !matches!(
        field_type,
        FieldType::Double
            | FieldType::Float
            | FieldType::Bytes
            | FieldType::Group
            | FieldType::Message
            | FieldType::Enum
    )
}

/// The type of the number is that of integers, truth values or strings.
fn is_key_type(field_type: Option<i32>) -> bool
    ensures { result ≡ may_be_key field_type }
{
    let Some(number) = field_type else {
        return false;
    };
    match FieldType::from_number(number) {
        Some(field_type) => is_key(field_type),
        None => false,
    }
}

/// Both are the index of one oneof.
fn share_oneof(key: Option<i32>, value: Option<i32>) -> bool
    ensures { result ≡ share_one key value }
{
    key.is_some() && key == value
}

fn are_key_and_value(key: &FieldDescriptorProto, value: &FieldDescriptorProto) -> bool
    ensures { result ≡ are_parts key.now value.now }
{
    is_part(key, "key", 1)
        && is_part(value, "value", 2)
        && is_key_type(key.field_type)
        && !share_oneof(key.oneof_index, value.oneof_index)
}

/// The message type has two fields, an optional `key` of number 1, of an integer type, `bool` or
/// `string`, and an optional `value` of number 2, which are not both in one oneof.
pub fn has_entry_shape(message: &DescriptorProto) -> bool
    ensures { result ≡ is_shaped (parts_of message.now).field }
{
    match message.field.as_slice() {
        [a, b] => are_key_and_value(a, b) || are_key_and_value(b, a),
        _ => false,
    }
}
