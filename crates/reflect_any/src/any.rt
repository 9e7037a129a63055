//! The type that keeps a message of any type (protobuf.dev, "Any").

ghost use Rattle.std.specs.Prelude.{◌≡◌, IfNone, IfSome, IsTrue};
ghost use Rattle.reflect_tables.specs.Types.{bytes, string};
ghost use Rattle.reflect_pool.specs.FieldsLeft.{field_type};
ghost use Rattle.reflect_any.specs.Any.{IsAny, StandsAlone, shares};
ghost use Rattle.reflect_message.specs.Declares.{Declares};

use reflect_pool::{FieldDescriptor, Kind, MessageDescriptor};

/// The two fields of a `google.protobuf.Any`.
#[derive(Clone, Copy)]
pub struct AnyFields<'p> {
    pub type_url: FieldDescriptor<'p>,
    pub value: FieldDescriptor<'p>,
}

/// The field is a member of a oneof, and not only for being optional.
fn shares_oneof(field: &FieldDescriptor<'_>) -> bool
    ensures { result ≡ shares field.now.message.pool.now field.now.message.index
        (field_type field.now) }
{
    match field.containing_oneof() {
        Some(oneof) => !oneof.is_synthetic(),
        None => false,
    }
}

/// The field holds one value, and shares no oneof.
fn stands_alone(field: &FieldDescriptor<'_>) -> bool
    ensures alone { IsTrue result → StandsAlone field.now.message.pool.now field.now.message.index
        (field_type field.now) }
    ensures other { StandsAlone field.now.message.pool.now field.now.message.index
        (field_type field.now) → IsTrue result }
{
    !field.is_list() && !field.is_map() && !shares_oneof(field)
}

fn holds_strings(field: &FieldDescriptor<'_>) -> bool
    ensures string { IsTrue result → (field_type field.now).kind ≡ string }
    ensures other { (field_type field.now).kind ≡ string → IsTrue result }
{
    match field.kind() {
        Kind::String => true,
        _ => false,
    }
}

fn holds_bytes(field: &FieldDescriptor<'_>) -> bool
    ensures bytes { IsTrue result → (field_type field.now).kind ≡ bytes }
    ensures other { (field_type field.now).kind ≡ bytes → IsTrue result }
{
    match field.kind() {
        Kind::Bytes => true,
        _ => false,
    }
}

/// The fields that a type keeps a message of any type in: its name is `google.protobuf.Any`, field
/// 1 is a string and field 2 holds bytes, both singular and in no oneof.
pub fn any_fields<'p>(descriptor: MessageDescriptor<'p>) -> Option<AnyFields<'p>>
    ensures type_url { IfSome result
        (λ fields. Declares descriptor.entry fields.type_url
        × ((field_type fields.type_url).number ≡ 1)) }
    ensures value { IfSome result (λ fields. Declares descriptor.entry fields.value
        × ((field_type fields.value).number ≡ 2)) }
    ensures any { IfSome result (λ _. IsAny descriptor.entry) }
    ensures other { IfNone result (IsAny descriptor.entry → ⊥) }
{
    if descriptor.full_name() != "google.protobuf.Any" {
        return None;
    }
    let type_url = descriptor.get_field(1)?;
    let value = descriptor.get_field(2)?;
    if holds_strings(&type_url)
        && stands_alone(&type_url)
        && holds_bytes(&value)
        && stands_alone(&value)
    {
        Some(AnyFields { type_url, value })
    } else {
        None
    }
}
