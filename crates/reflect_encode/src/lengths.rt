//! How many bytes a message and its parts are written in, `None` past `usize::MAX`. Measuring takes
//! no memory.

ghost use Rattle.std.specs.List.{flat_map};
ghost use Rattle.std.specs.Prelude.{◌≡◌, ℕ, List, ◌<◌, ◌^◌, ◌++◌, length, map, option_map, SomeIff};
ghost use Rattle.reflect_codec.specs.Fields.{payload_field};
ghost use Rattle.reflect_pool.specs.FieldsLeft.{field_type};
ghost use Rattle.reflect_pool.specs.Kinds.{IsKind};
ghost use Rattle.reflect_tables.specs.Types.{KindType, PoolType};
ghost use Rattle.reflect_entries.specs.Sets.{above};
ghost use Rattle.reflect_entries.specs.Undeclared.{undeclared};
ghost use Rattle.reflect_wire.specs.Encoding.{key_bytes, records_bytes};
ghost use Rattle.reflect_wire.specs.Records.{key_of};
ghost use Rattle.reflect_wire.specs.Views.{records_of};
ghost use Rattle.reflect_wire.specs.declared.wire_key.WireType as wires;
ghost use Rattle.reflect_scalar.specs.FieldTypes.{either_pool, either_type, field_pool};
ghost use Rattle.reflect_scalar.specs.Keys.{key_view};
ghost use Rattle.reflect_scalar.specs.Singles.{scalar_view, wire_view};
ghost use Rattle.reflect_message.specs.Bytes.{content_bytes, declared_bytes, extension_bytes, form_of, forms, key_part, list_bytes, map_bytes, message_bytes, parts_bytes, record_in, row_in};
ghost use Rattle.reflect_message.specs.Singles.{single};
ghost use Rattle.reflect_encode.specs.Puts.{bare_bytes, form, row_bytes};

use reflect_entries::UnknownRecords;
use reflect_message::{
    DynamicMessage, Held, MessageParts, Parts, ScalarValue, Value, declared_extension,
    declared_field, entry_fields, is_present, is_present_scalar,
};
use reflect_pool::{FieldDescriptor, Kind, MessageDescriptor};
use reflect_scalar::{
    AnyField, FieldDescriptorLike, MapKey, Scalar, WireScalar, scalar_len, wire_scalar,
};
use reflect_wire::{WireKey, WireType, delimited_len, key_len};
use std::collections::BTreeMap;

/// The length of a key. It is the same for every wire type.
fn key_len_of(number: u32) -> usize
    ensures { (wire : wires.WireType) → result ≡ length (key_bytes (key_of number wire)) }
{
    key_len(WireKey {
        number,
        wire: WireType::LengthDelimited,
    })
}

/// The length of a message.
#[cycle(length)]
pub fn message_len(message: &DynamicMessage<'_>) -> Option<usize>
    ensures { let n = length (message_bytes message.now) in SomeIff result (n < 2 ^ 64) n }
{
    match message.held() {
        Held::Block(parts) => parts_len(message.descriptor(), parts),
        Held::Nothing => Some(0),
    }
}

/// The length of the records of what a message of the type holds.
#[cycle(length)]
fn parts_len<'p>(descriptor: MessageDescriptor<'p>, parts: &Parts<'p>) -> Option<usize>
    ensures { let n =
        length (parts_bytes descriptor.entry.pool.now descriptor.entry.index parts.now)
        in SomeIff result (n < 2 ^ 64) n }
{
    let fields = fields_len(descriptor, parts)?;
    let declared = fields.checked_add(extensions_len(descriptor, parts)?)?;
    declared.checked_add(unknown_len(&parts.unknown)?)
}

/// The length of the records of numbers that the type does not declare. No field has the number 0,
/// and none of it is put.
fn unknown_len(records: &UnknownRecords) -> Option<usize>
    ensures { let n = length (records_bytes (records_of (above 0 (undeclared records.now))))
        in SomeIff result (n < 2 ^ 64) n }
{
    let mut len = 0usize;
    'records: for record in records.iter() {
        if record.number() > 0 {
            len = len.checked_add(record.encoded_len()?)?;
        }
    }
    Some(len)
}

/// The length of the records of the declared fields.
#[cycle(length)]
fn fields_len<'p>(descriptor: MessageDescriptor<'p>, parts: &Parts<'p>) -> Option<usize>
    ensures { let n = length (flat_map
        (declared_bytes descriptor.entry.pool.now descriptor.entry.index) (forms parts.now.fields))
        in SomeIff result (n < 2 ^ 64) n }
{
    let mut len = 0usize;
    'fields: for (number, value) in parts.fields.numbers().iter().zip(parts.fields.values()) {
        if let Some(field) = declared_field(descriptor, *number) {
            len = len.checked_add(content_len(AnyField::Field(field), value)?)?;
        }
    }
    Some(len)
}

/// The length of the records of the extensions.
#[cycle(length)]
fn extensions_len<'p>(descriptor: MessageDescriptor<'p>, parts: &Parts<'p>) -> Option<usize>
    ensures { let n = length (flat_map
        (extension_bytes descriptor.entry.pool.now descriptor.entry.index)
        (forms parts.now.extensions)) in SomeIff result (n < 2 ^ 64) n }
{
    let mut len = 0usize;
    'extensions: for (number, value) in parts
        .extensions
        .numbers()
        .iter()
        .zip(parts.extensions.values())
    {
        if let Some(extension) = declared_extension(descriptor, *number) {
            len = len.checked_add(content_len(AnyField::Extension(extension), value)?)?;
        }
    }
    Some(len)
}

/// The length of a field's records.
#[cycle(length)]
fn content_len<'p>(field: AnyField<'p>, value: &Value<'p>) -> Option<usize>
    ensures { let n = length (content_bytes (either_pool field.entry) (either_type field.entry)
        (form_of value.now)) in SomeIff result (n < 2 ^ 64) n }
{
    if !is_present(value, &field) {
        return Some(0);
    }
    match value {
        Value::List(values) if field.is_packed() => packed_len(field, values.as_slice()),
        Value::List(values) => list_len(field, values.as_slice()),
        Value::Map(entries) => map_len(field, entries),
        _ => record_len(field, value),
    }
}

/// The length of the record of one value.
#[cycle(length)]
fn record_len<'p>(field: AnyField<'p>, value: &Value<'p>) -> Option<usize>
    ensures { let n = length ((form_of value.now).one (either_type field.entry))
        in SomeIff result (n < 2 ^ 64) n }
{
    let number = field.number();
    match value {
        Value::Message(message) if field.is_group() => {
            let key = key_len_of(number);
            message_len(message)?.checked_add(key)?.checked_add(key)
        }
        Value::Message(message) => payload_len(number, message_len(message)?),
        _ => single_len(number, &field.kind(), value.as_scalar()),
    }
}

/// The length of a record of so many bytes behind their length.
fn payload_len(number: u32, len: usize) -> Option<usize>
    ensures { (payload : List ℕ) → length payload ≡ len
        → let n = length (payload_field number payload) in SomeIff result (n < 2 ^ 64) n }
{
    key_len_of(number).checked_add(delimited_len(len)?)
}

/// What a single value is written as, where it suits the kind.
fn written_as<'v>(kind: &Kind<'_>, value: Option<Scalar<'v>>) -> Option<WireScalar<'v>>
    ensures { option_map wire_view result ≡ form kind.now (option_map scalar_view value.entry) }
{
    wire_scalar(kind, value?)
}

/// The length of the record of a single value, 0 where it does not suit the kind.
#[tactic(auto, using(crate::proofs::Forms::record_same))]
fn single_len(number: u32, kind: &Kind<'_>, value: Option<Scalar<'_>>) -> Option<usize>
    ensures { (pool : PoolType) (k : KindType) → IsKind pool kind.now k
        → let n = length (record_in k number (option_map scalar_view value.entry))
        in SomeIff result (n < 2 ^ 64) n }
{
    match written_as(kind, value) {
        Some(written) => key_len_of(number).checked_add(scalar_len(written)?),
        None => Some(0),
    }
}

/// The length of a single value without its key, 0 where it does not suit the kind.
fn bare_len(kind: &Kind<'_>, value: Option<Scalar<'_>>) -> Option<usize>
    ensures { let n = length (bare_bytes kind.now (option_map scalar_view value.entry))
        in SomeIff result (n < 2 ^ 64) n }
{
    match written_as(kind, value) {
        Some(written) => scalar_len(written),
        None => Some(0),
    }
}

/// The length of the records of a list that is not packed.
#[cycle(length)]
fn list_len<'p>(field: AnyField<'p>, values: &[Value<'p>]) -> Option<usize>
    ensures { let n = length (list_bytes (either_type field.entry) (map form_of values.now))
        in SomeIff result (n < 2 ^ 64) n }
{
    let mut len = 0usize;
    'values: for value in values {
        len = len.checked_add(record_len(field, value)?)?;
    }
    Some(len)
}

/// The length of values one behind the other.
fn row_len(kind: &Kind<'_>, values: &[Value<'_>]) -> Option<usize>
    ensures { let n = length (row_bytes kind.now (map single values.now))
        in SomeIff result (n < 2 ^ 64) n }
{
    let mut len = 0usize;
    'values: for value in values {
        len = len.checked_add(bare_len(kind, value.as_scalar())?)?;
    }
    Some(len)
}

/// The length of the record of a packed list.
#[tactic(auto, using(crate::proofs::Forms::row_same))]
fn packed_len<'p>(field: AnyField<'p>, values: &[Value<'p>]) -> Option<usize>
    ensures { let n = length (payload_field (either_type field.entry).number
        (row_in (either_type field.entry).kind (map form_of values.now)))
        in SomeIff result (n < 2 ^ 64) n }
{
    payload_len(field.number(), row_len(&field.kind(), values)?)
}

/// The length of the key of a map's entry, 0 where it is the default.
fn entry_key_len(keys: FieldDescriptor<'_>, key: &MapKey) -> Option<usize>
    ensures { let n = length (key_part (field_pool keys.entry) (field_type keys.entry)
        (key_view key.now)) in SomeIff result (n < 2 ^ 64) n }
{
    let key = key.as_scalar();
    if !is_present_scalar(key, &keys) {
        return Some(0);
    }
    single_len(keys.number(), &keys.kind(), Some(key))
}

/// The length of the record of an entry of a map.
#[cycle(length)]
fn entry_len<'p>(
    number: u32,
    keys: FieldDescriptor<'p>,
    key: &MapKey,
    values: FieldDescriptor<'p>,
    value: &Value<'p>,
) -> Option<usize>
    ensures { let n = length (payload_field number
        (key_part (field_pool keys.entry) (field_type keys.entry) (key_view key.now)
        ++ content_bytes (field_pool values.entry) (field_type values.entry) (form_of value.now)))
        in SomeIff result (n < 2 ^ 64) n }
{
    let value = content_len(AnyField::Field(values), value)?;
    let body = entry_key_len(keys, key)?.checked_add(value)?;
    payload_len(number, body)
}

/// The length of the records of a map.
#[cycle(length)]
fn map_len<'p>(field: AnyField<'p>, entries: &BTreeMap<MapKey, Value<'p>>) -> Option<usize>
    ensures { let n = length (map_bytes (either_pool field.entry) (either_type field.entry)
        (map (λ e. (e.0, form_of e.1)) entries.now.entries)) in SomeIff result (n < 2 ^ 64) n }
{
    let Some((keys, values)) = entry_fields(&field.kind()) else {
        return Some(0);
    };
    let mut len = 0usize;
    'entries: for (key, value) in entries.iter() {
        len = len.checked_add(entry_len(field.number(), keys, key, values, value)?)?;
    }
    Some(len)
}
