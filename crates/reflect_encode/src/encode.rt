//! From a message to wire bytes, which are put from the last to the first: so the length of what
//! stands behind a key is known when the key is put.

ghost use Rattle.std.specs.Prelude.{◌≡◌, List, ◌++◌, map, OnOk, IfOk, is_some, option_map, reverse};
ghost use Rattle.reflect_codec.specs.Held.{held};
ghost use Rattle.reflect_codec.specs.Fields.{payload_field};
ghost use Rattle.std.specs.List.{flat_map};
ghost use Rattle.reflect_tables.specs.Types.{PoolType, KindType};
ghost use Rattle.reflect_entries.specs.Undeclared.{undeclared};
ghost use Rattle.reflect_pool.specs.Kinds.{IsKind};
ghost use Rattle.reflect_scalar.specs.FieldTypes.{either_pool, either_type, field_pool};
ghost use Rattle.reflect_scalar.specs.Keys.{key_view};
ghost use Rattle.reflect_scalar.specs.Singles.{scalar_view};
ghost use Rattle.reflect_pool.specs.FieldsLeft.{field_type};
ghost use Rattle.reflect_message.specs.Bytes.{form_of, forms, message_bytes, parts_bytes, declared_bytes, others_down, content_bytes, record_in, row_in, list_bytes, map_bytes, key_part};
ghost use Rattle.reflect_encode.specs.Puts.{form, bare_bytes, single_bytes, row_bytes};
ghost use Rattle.reflect_message.specs.Singles.{single};

use reflect_codec::Backward;
use reflect_message::{
    DynamicMessage, Held, MessageParts, Parts, ScalarValue, Value, declared_extension,
    declared_field, entry_fields, is_present, is_present_scalar,
};
use reflect_pool::{FieldDescriptor, Kind, MessageDescriptor};
use reflect_scalar::{
    AnyField, FieldDescriptorLike, MapKey, Scalar, put_scalar, wire_scalar, wire_type,
};
use reflect_wire::{WireKey, WireType};
use std::alloc::AllocError;
use std::collections::BTreeMap;

/// Puts the records of a message: declared fields, then extensions and other records, each by
/// ascending number.
#[cycle(put)]
pub fn put_message(out: &mut Backward, message: &DynamicMessage<'_>) -> Result<(), AllocError>
    ensures { OnOk result (held out.new ≡ message_bytes message.now ++ held out.old) }
{
    match message.held() {
        Held::Block(parts) => put_parts(out, message.descriptor(), parts),
        Held::Nothing => Ok(()),
    }
}

/// Puts the records of what a message of the type holds.
#[cycle(put)]
fn put_parts<'p>(
    out: &mut Backward,
    descriptor: MessageDescriptor<'p>,
    parts: &Parts<'p>,
) -> Result<(), AllocError>
    ensures { OnOk result (held out.new
        ≡ parts_bytes descriptor.entry.pool.now descriptor.entry.index parts.now ++ held out.old) }
{
    put_others(out, descriptor, parts)?;
    put_fields(out, descriptor, parts)
}

/// Puts the records of the declared fields.
#[cycle(put)]
fn put_fields<'p>(
    out: &mut Backward,
    descriptor: MessageDescriptor<'p>,
    parts: &Parts<'p>,
) -> Result<(), AllocError>
    ensures { OnOk result (held out.new
        ≡ flat_map (declared_bytes descriptor.entry.pool.now descriptor.entry.index)
        (forms parts.now.fields) ++ held out.old) }
{
    let numbers = parts.fields.numbers().iter().rev();
    'fields: for (number, value) in numbers.zip(parts.fields.values().iter().rev()) {
        if let Some(field) = declared_field(descriptor, *number) {
            put_content(out, AnyField::Field(field), value)?;
        }
    }
    Ok(())
}

/// Puts the records of the extensions and of the numbers that the type does not declare.
#[cycle(put)]
fn put_others<'p>(
    out: &mut Backward,
    descriptor: MessageDescriptor<'p>,
    parts: &Parts<'p>,
) -> Result<(), AllocError>
    ensures { OnOk result (held out.new
        ≡ others_down descriptor.entry.pool.now descriptor.entry.index
        (reverse (forms parts.now.extensions)) (undeclared parts.now.unknown) ++ held out.old) }
{
    let mut unknown = parts.unknown.descent();
    let numbers = parts.extensions.numbers().iter().rev();
    'extensions: for (number, value) in numbers.zip(parts.extensions.values().iter().rev()) {
        unknown.put_above(out, *number)?;
        if let Some(extension) = declared_extension(descriptor, *number) {
            put_content(out, AnyField::Extension(extension), value)?;
        }
    }
    unknown.put_above(out, 0)
}

/// Puts the records of a field.
#[cycle(put)]
fn put_content<'p>(
    out: &mut Backward,
    field: AnyField<'p>,
    value: &Value<'p>,
) -> Result<(), AllocError>
    ensures { OnOk result (held out.new
        ≡ content_bytes (either_pool field.entry) (either_type field.entry) (form_of value.now)
        ++ held out.old) }
{
    if !is_present(value, &field) {
        return Ok(());
    }
    match value {
        Value::List(values) if field.is_packed() => put_packed(out, field, values.as_slice()),
        Value::List(values) => put_list(out, field, values.as_slice()),
        Value::Map(entries) => put_map(out, field, entries),
        _ => put_record(out, field, value),
    }
}

/// Puts the record of one value.
#[cycle(put)]
fn put_record<'p>(
    out: &mut Backward,
    field: AnyField<'p>,
    value: &Value<'p>,
) -> Result<(), AllocError>
    ensures { OnOk result (held out.new ≡ (form_of value.now).one (either_type field.entry)
        ++ held out.old) }
{
    let number = field.number();
    match value {
        Value::Message(message) if field.is_group() => {
            out.put_key(WireKey {
                number,
                wire: WireType::EndGroup,
            })?;
            put_message(out, message)?;
            out.put_key(WireKey {
                number,
                wire: WireType::StartGroup,
            })
        }
        Value::Message(message) => {
            let end = out.len();
            put_message(out, message)?;
            out.put_length(number, end)
        }
        _ => put_single(out, number, &field.kind(), value.as_scalar()),
    }
}

/// Puts the record of a single value, where it suits the kind.
#[tactic(auto, using(crate::proofs::Forms::record_same))]
fn put_single(
    out: &mut Backward,
    number: u32,
    kind: &Kind<'_>,
    value: Option<Scalar<'_>>,
) -> Result<(), AllocError>
    ensures put { OnOk result (held out.new
        ≡ single_bytes kind.now number (option_map scalar_view value.entry) ++ held out.old) }
    ensures written { (pool : PoolType) (k : KindType) → IsKind pool kind.now k
        → OnOk result (held out.new ≡ record_in k number (option_map scalar_view value.entry)
        ++ held out.old) }
{
    if put_bare(out, kind, value)? {
        out.put_key(WireKey {
            number,
            wire: wire_type(kind),
        })?;
    }
    Ok(())
}

/// Puts a single value without its key, where it suits the kind, and says whether it does.
fn put_bare(
    out: &mut Backward,
    kind: &Kind<'_>,
    value: Option<Scalar<'_>>,
) -> Result<bool, AllocError>
    ensures put { OnOk result (held out.new
        ≡ bare_bytes kind.now (option_map scalar_view value.entry) ++ held out.old) }
    ensures suits { IfOk result (λ b. b
        ≡ is_some (form kind.now (option_map scalar_view value.entry))) }
{
    let Some(value) = value else {
        return Ok(false);
    };
    let Some(written) = wire_scalar(kind, value) else {
        return Ok(false);
    };
    put_scalar(out, written)?;
    Ok(true)
}

/// Puts the records of a list that is not packed.
#[cycle(put)]
fn put_list<'p>(
    out: &mut Backward,
    field: AnyField<'p>,
    values: &[Value<'p>],
) -> Result<(), AllocError>
    ensures { OnOk result (held out.new
        ≡ list_bytes (either_type field.entry) (map form_of values.now) ++ held out.old) }
{
    'values: for value in values.iter().rev() {
        put_record(out, field, value)?;
    }
    Ok(())
}

/// Puts the values that suit the kind, one behind the other.
fn put_row(out: &mut Backward, kind: &Kind<'_>, values: &[Value<'_>]) -> Result<(), AllocError>
    ensures { OnOk result (held out.new ≡ row_bytes kind.now (map single values.now)
        ++ held out.old) }
{
    'values: for value in values.iter().rev() {
        put_bare(out, kind, value.as_scalar())?;
    }
    Ok(())
}

/// Puts the record of a packed list.
#[tactic(auto, using(crate::proofs::Forms::row_same))]
fn put_packed<'p>(
    out: &mut Backward,
    field: AnyField<'p>,
    values: &[Value<'p>],
) -> Result<(), AllocError>
    ensures { OnOk result (held out.new
        ≡ payload_field (either_type field.entry).number
        (row_in (either_type field.entry).kind (map form_of values.now)) ++ held out.old) }
{
    let end = out.len();
    let kind = field.kind();
    put_row(out, &kind, values)?;
    out.put_length(field.number(), end)
}

/// Puts the records of a map, by ascending key.
#[cycle(put)]
fn put_map<'p>(
    out: &mut Backward,
    field: AnyField<'p>,
    entries: &BTreeMap<MapKey, Value<'p>>,
) -> Result<(), AllocError>
    ensures { OnOk result (held out.new
        ≡ map_bytes (either_pool field.entry) (either_type field.entry)
        (map (λ e. (e.0, form_of e.1)) entries.now.entries) ++ held out.old) }
{
    let Some((keys, values)) = entry_fields(&field.kind()) else {
        return Ok(());
    };
    'entries: for (key, value) in entries.iter().rev() {
        put_entry(out, field.number(), keys, key, values, value)?;
    }
    Ok(())
}

/// Puts one entry of a map: a message of its key and its value, each where it is present.
#[cycle(put)]
fn put_entry<'p>(
    out: &mut Backward,
    number: u32,
    keys: FieldDescriptor<'p>,
    key: &MapKey,
    values: FieldDescriptor<'p>,
    value: &Value<'p>,
) -> Result<(), AllocError>
    ensures { OnOk result (held out.new
        ≡ payload_field number (key_part (field_pool keys.entry) (field_type keys.entry)
        (key_view key.now) ++ content_bytes (field_pool values.entry) (field_type values.entry)
        (form_of value.now)) ++ held out.old) }
{
    let end = out.len();
    put_content(out, AnyField::Field(values), value)?;
    put_key(out, keys, key)?;
    out.put_length(number, end)
}

/// Puts the record of a map's key, where it is present.
fn put_key(out: &mut Backward, keys: FieldDescriptor<'_>, key: &MapKey) -> Result<(), AllocError>
    ensures { OnOk result (held out.new
        ≡ key_part (field_pool keys.entry) (field_type keys.entry) (key_view key.now)
        ++ held out.old) }
{
    let key = key.as_scalar();
    if !is_present_scalar(key, &keys) {
        return Ok(());
    }
    put_single(out, keys.number(), &keys.kind(), Some(key))
}
