//! From wire bytes to a message, record by record.

ghost use Rattle.std.specs.Prelude.{◌≡◌, ◌≢◌, ℕ, ◌+◌, ◌<◌, ◌≤◌, List, [], None, Some, length, IfOk, IfErr, OnOk, OnErr, IfSome};
ghost use Rattle.std.specs.BTreeMap.{insert_entry};
ghost use Rattle.std.specs.Option.{IsSome};
ghost use Rattle.reflect_wire.specs.Faults.{TellsTrue, ValueFault};
ghost use Rattle.reflect_wire.specs.Key.{IsKey};
ghost use Rattle.reflect_wire.specs.Reads.{Fronts, RefusesFront, RefusesWhole};
ghost use Rattle.reflect_wire.specs.Records.{IsValue};
ghost use Rattle.reflect_wire.specs.Views.{field_view};
ghost use Rattle.reflect_wire.specs.declared.unknown.TheConstants.{MAX_LEVELS};
ghost use Rattle.reflect_wire.specs.declared.wire_error.WireError.TheVariants.{TooDeep};
ghost use Rattle.reflect_wire.specs.declared.wire_key.TheConstants.{MAX_FIELD_NUMBER};
ghost use Rattle.reflect_wire.specs.declared.wire_key.WireType.TheVariants.{Varint};
ghost use Rattle.reflect_pool.specs.FieldsLeft.{field_type};
ghost use Rattle.reflect_entries.specs.Entries.{IsAscending, value_at};
ghost use Rattle.reflect_entries.specs.Undeclared.{undeclared};
ghost use Rattle.reflect_scalar.specs.FieldTypes.{field_pool, either_pool, either_type};
ghost use Rattle.reflect_scalar.specs.Kinds.{wire_type};
ghost use Rattle.reflect_scalar.specs.Singles.{Single};
ghost use Rattle.reflect_message.specs.Contents.{content_of, content_in};
ghost use Rattle.reflect_decode.specs.Packed.{IsPacked, PackedFault, Continues};
ghost use Rattle.reflect_decode.specs.Reading.{KeepsRecord, ReadsBody, ReadsElement, ReadsEntries, ReadsEntry, ReadsEntryRecord, ReadsField, ReadsList, ReadsMap, ReadsMessage, ReadsPart, ReadsRecord, TellsBody, TellsElement, TellsEntries, TellsEntryRecord, TellsField, TellsList, TellsMessage, TellsPart, TellsRecord};
ghost use Rattle.reflect_message.specs.KindTypes.{IsMessageType};
ghost use Rattle.reflect_message.specs.Held.{Same};
ghost use Rattle.reflect_message.specs.Maps.{key_order, map_entries};
ghost use Rattle.reflect_decode.specs.Refused.{EntryFault, Within};

use reflect_entries::{Entries, UnknownRecords};
use reflect_message::{
    DynamicMessage, MessageParts, Parts, ScalarValue, Value, declared_extension, declared_field,
    default_one, entry_fields,
};
use reflect_pool::{FieldDescriptor, Kind, MessageDescriptor};
use reflect_scalar::{
    AnyField, FieldDescriptorLike, MapKey, is_packable, scalar_at, varint_scalar, wire_type,
};
use reflect_wire::{
    MAX_LEVELS, UnknownField, WireError, WireKey, WireType, delimited_at, key_at, varint_at,
};
use std::alloc::{AllocError, Global};
use std::collections::BTreeMap;

/// A record whose key was read: its value stands at the front of `bytes`.
#[derive(Clone, Copy)]
pub struct RawRecord<'b> {
    key: WireKey,
    bytes: &'b [u8],
    /// How many levels of messages and groups may lie below the message that the record is of.
    levels: u32,
    ghost positive: { 0 < key.number },
    ghost small: { key.number ≤ MAX_FIELD_NUMBER },
    ghost nested: { levels ≤ MAX_LEVELS },
}

impl<'b> RawRecord<'b> {
    /// How many levels may lie below a message or a group in this record; `TooDeep` where it may
    /// not lie there itself.
    fn levels_below(&self) -> Result<u32, WireError>
        ensures below { IfOk result (λ levels. levels + 1 ≡ self.now.levels) }
        ensures none { IfErr result (λ e. (e ≡ TooDeep) × (self.now.levels ≡ 0)) }
    {
        self.levels.checked_sub(1).ok_or(WireError::TooDeep)
    }

    /// The record behind, if it has the same key. The elements of a list, as the entries of a map,
    /// mostly stand together, and what their field says of them is asked once.
    fn another_at(&self, rest: &'b [u8]) -> Option<RawRecord<'b>>
        ensures key { IfSome result (λ next. next.key ≡ self.now.key) }
        ensures levels { IfSome result (λ next. next.levels ≡ self.now.levels) }
        ensures read { IfSome result (λ next. Fronts IsKey rest.now self.now.key next.bytes.now) }
        ensures shorter { IfSome result (λ next. length next.bytes.now < length rest.now) }
    {
        let (key, bytes) = key_at(rest).ok()?;
        if key != self.key {
            return None;
        }
        Some(RawRecord {
            key,
            bytes,
            levels: self.levels,
        })
    }
}

/// Takes in the records of a message, up to the end of the bytes, or, of a group, up to its end
/// tag, and gives what is behind them. Where there are no bytes, no memory is taken.
///
/// A refusal leaves a part of the records taken in.
#[cycle(merge)]
pub fn merge_body<'p, 'b>(
    message: &mut DynamicMessage<'p>,
    alloc: Global,
    bytes: &'b [u8],
    group: Option<u32>,
    levels: u32,
) -> Result<&'b [u8], WireError>
    requires nested { levels ≤ MAX_LEVELS }
    ensures same_type { message.new.descriptor ≡ message.old.descriptor }
    ensures read { ReadsBody levels group message.old.descriptor (content_of message.old)
        (content_of message.new) bytes.now result }
    ensures whole { group ≡ None → IfOk result (λ rest. rest.now ≡ []) }
    ensures shorter { IfOk result (λ rest. length rest.now ≤ length bytes.now) }
    ensures fault { TellsBody levels group message.old.descriptor (content_of message.old)
        bytes.now result }
{
    if bytes.is_empty() && group.is_none() {
        return Ok(bytes);
    }
    let mut parts = message.take_block()?;
    let outcome = merge_records(
        &mut parts,
        alloc,
        message.descriptor(),
        bytes,
        group,
        levels,
    );
    message.put_block(parts);
    outcome
}

/// Takes in the records of a message of the type, as `merge_body` does.
#[cycle(merge)]
fn merge_records<'p, 'b>(
    parts: &mut Parts<'p>,
    alloc: Global,
    descriptor: MessageDescriptor<'p>,
    bytes: &'b [u8],
    group: Option<u32>,
    levels: u32,
) -> Result<&'b [u8], WireError>
    requires nested { levels ≤ MAX_LEVELS }
    ensures read { ReadsBody levels group descriptor.entry (content_in parts.old)
        (content_in parts.new)
        bytes.now result }
    ensures whole { group ≡ None → IfOk result (λ rest. rest.now ≡ []) }
    ensures shorter { IfOk result (λ rest. length rest.now ≤ length bytes.now) }
    ensures fault { TellsBody levels group descriptor.entry (content_in parts.old)
        bytes.now result }
{
    let mut rest = bytes;
    'records: while !rest.is_empty() {
        let (key, behind) = key_at(rest)?;
        if key.wire == WireType::EndGroup {
            return match group {
                Some(number) if number == key.number => Ok(behind),
                _ => Err(WireError::EndGroupMismatch),
            };
        }
        let raw = RawRecord {
            key,
            bytes: behind,
            levels,
        };
        rest = merge_record(parts, alloc, descriptor, raw)?;
    }
    match group {
        None => Ok(rest),
        Some(_) => Err(WireError::Truncated),
    }
}

/// Takes in a record, and gives what is behind it.
#[cycle(merge)]
fn merge_record<'p, 'b>(
    parts: &mut Parts<'p>,
    alloc: Global,
    descriptor: MessageDescriptor<'p>,
    raw: RawRecord<'b>,
) -> Result<&'b [u8], WireError>
    ensures read { ReadsRecord raw.entry.levels raw.entry.key descriptor.entry
        (content_in parts.old)
        (content_in parts.new) raw.entry.bytes.now result }
    ensures shorter { IfOk result (λ rest. length rest.now ≤ length raw.entry.bytes.now) }
    ensures fault { TellsRecord raw.entry.levels raw.entry.key descriptor.entry
        (content_in parts.old)
        raw.entry.bytes.now result }
{
    let number = raw.key.number;
    if let Some(field) = declared_field(descriptor, number) {
        parts.choices.make_room(&field)?;
        let rest = merge_field(&mut parts.fields, alloc, AnyField::Field(field), raw)?;
        parts.clear_siblings(&field);
        return Ok(rest);
    }
    if let Some(extension) = declared_extension(descriptor, number) {
        let extension = AnyField::Extension(extension);
        return merge_field(&mut parts.extensions, alloc, extension, raw);
    }
    keep_unknown(&mut parts.unknown, alloc, raw)
}

/// The record of a number that the type does not declare, and what is behind it.
fn unknown_at<'b>(alloc: Global, raw: RawRecord<'b>) -> Result<(UnknownField, &'b [u8]), WireError>
    ensures number { IfOk result (λ found. (field_view found.0).0 ≡ raw.entry.key.number) }
    ensures read { IfOk result (λ found. Fronts (IsValue raw.entry.levels raw.entry.key)
        raw.entry.bytes.now (field_view found.0).1 found.1.now) }
    ensures err { IfErr result (RefusesFront (IsValue raw.entry.levels raw.entry.key)
        raw.entry.bytes.now) }
    ensures fault { IfErr result (TellsTrue (ValueFault raw.entry.levels raw.entry.key)
        raw.entry.bytes.now) }
    ensures shorter { IfOk result (λ found. length found.1.now ≤ length raw.entry.bytes.now) }
{
    let mut rest = raw.bytes;
    let depth = MAX_LEVELS.saturating_sub(raw.levels);
    let field = UnknownField::decode_value(alloc, raw.key.number, raw.key.wire, &mut rest, depth)?;
    Ok((field, rest))
}

/// Keeps a record of a number that the type does not declare behind those of its number.
fn keep_unknown<'b>(
    unknown: &mut UnknownRecords,
    alloc: Global,
    raw: RawRecord<'b>,
) -> Result<&'b [u8], WireError>
    ensures kept { KeepsRecord raw.entry.levels raw.entry.key (undeclared unknown.old)
        (undeclared unknown.new)
        raw.entry.bytes.now result }
    ensures err { IfErr result (RefusesFront (IsValue raw.entry.levels raw.entry.key)
        raw.entry.bytes.now) }
    ensures fault { IfErr result (TellsTrue (ValueFault raw.entry.levels raw.entry.key)
        raw.entry.bytes.now) }
    ensures left { OnErr result (undeclared unknown.new ≡ undeclared unknown.old) }
    ensures shorter { IfOk result (λ rest. length rest.now ≤ length raw.entry.bytes.now) }
{
    let (field, rest) = unknown_at(alloc, raw)?;
    unknown.insert(field)?;
    Ok(rest)
}

/// Takes in a record of a field or an extension.
///
/// `BadWireType` where its wire type is not that of the field, or the message holds what does not
/// suit the field.
#[cycle(merge)]
fn merge_field<'p, 'b>(
    content: &mut Entries<Value<'p>>,
    alloc: Global,
    field: AnyField<'p>,
    raw: RawRecord<'b>,
) -> Result<&'b [u8], WireError>
    ensures ascending { IsAscending content.old → IsAscending content.new }
    ensures others { (n : ℕ) → n ≢ raw.entry.key.number → Same content.old content.new n }
    ensures read { ReadsField raw.entry.levels raw.entry.key (either_pool field.entry)
        (either_type field.entry)
        (value_at content.old raw.entry.key.number) (value_at content.new raw.entry.key.number)
        raw.entry.bytes.now result }
    ensures shorter { IfOk result (λ rest. length rest.now ≤ length raw.entry.bytes.now) }
    ensures fault { TellsField raw.entry.levels raw.entry.key (either_pool field.entry)
        (either_type field.entry)
        (value_at content.old raw.entry.key.number) raw.entry.bytes.now result }
{
    let number = raw.key.number;
    let kind = field.kind();
    if field.is_list() {
        let list = content.slot(number, Value::List(Vec::new(alloc)))?;
        return merge_list(list, alloc, &kind, field.is_group(), raw);
    }
    if field.is_map() {
        let map = content.slot(number, Value::Map(BTreeMap::new(alloc)))?;
        return merge_map(map, alloc, &kind, raw);
    }
    match kind {
        Kind::Message(inner) => {
            let empty = Value::Message(DynamicMessage::new(alloc, inner));
            match content.slot(number, empty)? {
                Value::Message(message) => { merge_message(message, alloc, field.is_group(), raw) }
                _ => Err(WireError::BadWireType),
            }
        }
        _ => {
            let (scalar, rest) = scalar_at(&kind, raw.key.wire, raw.bytes)?;
            content.set(number, Value::from_scalar(alloc, scalar)?)?;
            Ok(rest)
        }
    }
}

/// Takes in the message at the front: a length and its bytes, or a group up to its end tag.
///
/// `TooDeep` where no level may lie below.
#[cycle(merge)]
fn merge_message<'p, 'b>(
    message: &mut DynamicMessage<'p>,
    alloc: Global,
    is_group: bool,
    raw: RawRecord<'b>,
) -> Result<&'b [u8], WireError>
    ensures same_type { message.new.descriptor ≡ message.old.descriptor }
    ensures read { ReadsMessage raw.entry.levels raw.entry.key is_group message.old.descriptor
        (content_of message.old) (content_of message.new) raw.entry.bytes.now result }
    ensures shorter { IfOk result (λ rest. length rest.now ≤ length raw.entry.bytes.now) }
    ensures fault { TellsMessage raw.entry.levels raw.entry.key is_group message.old.descriptor
        (content_of message.old) raw.entry.bytes.now result }
{
    match raw.key.wire {
        WireType::LengthDelimited if !is_group => {
            let (body, rest) = delimited_at(raw.bytes)?;
            merge_body(message, alloc, body, None, raw.levels_below()?)?;
            Ok(rest)
        }
        WireType::StartGroup if is_group => {
            let levels = raw.levels_below()?;
            merge_body(message, alloc, raw.bytes, Some(raw.key.number), levels)
        }
        _ => Err(WireError::BadWireType),
    }
}

/// Takes in an element of a list, or the elements of a packed record, and with them the records
/// behind that have the same key.
#[cycle(merge)]
fn merge_list<'p, 'b>(
    list: &mut Value<'p>,
    alloc: Global,
    kind: &Kind<'p>,
    is_group: bool,
    raw: RawRecord<'b>,
) -> Result<&'b [u8], WireError>
    ensures read { ReadsList raw.entry.levels raw.entry.key is_group kind.now list.old list.new
        raw.entry.bytes.now result }
    ensures shorter { IfOk result (λ rest. length rest.now ≤ length raw.entry.bytes.now) }
    ensures fault { TellsList raw.entry.levels raw.entry.key is_group kind.now list.old
        raw.entry.bytes.now result }
{
    let Value::List(values) = list else {
        return Err(WireError::BadWireType);
    };
    let mut record = raw;
    'records: loop {
        let rest = merge_element(values, alloc, kind, is_group, record)?;
        match record.another_at(rest) {
            Some(next) => record = next,
            None => return Ok(rest),
        }
    }
}

/// Takes in an element of a list of the kind, or the elements of a packed record.
#[cycle(merge)]
fn merge_element<'p, 'b>(
    values: &mut Vec<Value<'p>>,
    alloc: Global,
    kind: &Kind<'p>,
    is_group: bool,
    raw: RawRecord<'b>,
) -> Result<&'b [u8], WireError>
    ensures read { ReadsElement raw.entry.levels raw.entry.key is_group kind.now values.old.items
        values.new.items raw.entry.bytes.now result }
    ensures shorter { IfOk result (λ rest. length rest.now ≤ length raw.entry.bytes.now) }
    ensures fault { TellsElement raw.entry.levels raw.entry.key is_group kind.now
        raw.entry.bytes.now result }
{
    if let Kind::Message(inner) = kind {
        let mut message = DynamicMessage::new(alloc, *inner);
        let rest = merge_message(&mut message, alloc, is_group, raw)?;
        values.push(Value::Message(message))?;
        return Ok(rest);
    }
    if raw.key.wire == WireType::LengthDelimited && is_packable(kind) {
        let (body, rest) = delimited_at(raw.bytes)?;
        push_packed(values, alloc, kind, body)?;
        return Ok(rest);
    }
    let (scalar, rest) = scalar_at(kind, raw.key.wire, raw.bytes)?;
    values.push(Value::from_scalar(alloc, scalar)?)?;
    Ok(rest)
}

/// How many values a packed record of the kind holds, where it can be read.
fn packed_count(kind: &Kind<'_>, body: &[u8]) -> usize {
    match wire_type(kind) {
        WireType::SixtyFourBit => body.len() / 8,
        WireType::ThirtyTwoBit => body.len() / 4,
        // (a varint ends with its first byte below 128)
        _ => body.iter().filter(|byte| **byte < 128).count(),
    }
}

/// Adds the values of a packed record.
fn push_packed(
    values: &mut Vec<Value<'_>>,
    alloc: Global,
    kind: &Kind<'_>,
    body: &[u8],
) -> Result<(), WireError>
    ensures read { OnOk result ((vs : List Single) × IsPacked kind.now body.now vs
        × Continues values.old.items values.new.items vs) }
    ensures err { IfErr result (RefusesWhole (IsPacked kind.now) body.now) }
    ensures fault { IfErr result (TellsTrue (PackedFault kind.now) body.now) }
{
    values.reserve(packed_count(kind, body))?;
    match wire_type(kind) {
        WireType::Varint => push_varints(values, alloc, kind, body),
        wire => push_fixed(values, alloc, kind, wire, body),
    }
}

/// Adds the values of a packed record of a kind that is written as varints. Most packed records
/// are, and this reads them fast.
fn push_varints(
    values: &mut Vec<Value<'_>>,
    alloc: Global,
    kind: &Kind<'_>,
    body: &[u8],
) -> Result<(), WireError>
    requires varints { wire_type kind.now ≡ Varint }
    ensures read { OnOk result ((vs : List Single) × IsPacked kind.now body.now vs
        × Continues values.old.items values.new.items vs) }
    ensures err { IfErr result (RefusesWhole (IsPacked kind.now) body.now) }
    ensures fault { IfErr result (TellsTrue (PackedFault kind.now) body.now) }
{
    let mut rest = body;
    'values: while !rest.is_empty() {
        let (n, behind) = varint_at(rest)?;
        let scalar = varint_scalar(kind, n)?;
        values.push(Value::from_scalar(alloc, scalar)?)?;
        rest = behind;
    }
    Ok(())
}

/// Adds the values of a packed record of a kind of the wire type.
fn push_fixed(
    values: &mut Vec<Value<'_>>,
    alloc: Global,
    kind: &Kind<'_>,
    wire: WireType,
    body: &[u8],
) -> Result<(), WireError>
    requires form { wire ≡ wire_type kind.now }
    ensures read { OnOk result ((vs : List Single) × IsPacked kind.now body.now vs
        × Continues values.old.items values.new.items vs) }
    ensures err { IfErr result (RefusesWhole (IsPacked kind.now) body.now) }
    ensures fault { IfErr result (TellsTrue (PackedFault kind.now) body.now) }
{
    let mut rest = body;
    'values: while !rest.is_empty() {
        let (scalar, behind) = scalar_at(kind, wire, rest)?;
        values.push(Value::from_scalar(alloc, scalar)?)?;
        rest = behind;
    }
    Ok(())
}

/// Takes in an entry of a map.
#[cycle(merge)]
fn merge_map<'p, 'b>(
    map: &mut Value<'p>,
    alloc: Global,
    kind: &Kind<'p>,
    raw: RawRecord<'b>,
) -> Result<&'b [u8], WireError>
    ensures read { ReadsMap raw.entry.levels raw.entry.key kind.now map.old map.new
        raw.entry.bytes.now result }
    ensures shorter { IfOk result (λ rest. length rest.now ≤ length raw.entry.bytes.now) }
    ensures fault { IsSome (map_entries map.old)
        → TellsEntries raw.entry.levels raw.entry.key kind.now raw.entry.bytes.now result }
{
    match map {
        Value::Map(entries) => merge_entries(entries, alloc, kind, raw),
        _ => Err(WireError::BadWireType),
    }
}

/// Takes in an entry of a map, over what stood under its key, and with it the records behind that
/// have the same key.
#[cycle(merge)]
fn merge_entries<'p, 'b>(
    entries: &mut BTreeMap<MapKey, Value<'p>>,
    alloc: Global,
    kind: &Kind<'p>,
    raw: RawRecord<'b>,
) -> Result<&'b [u8], WireError>
    ensures read { ReadsEntries raw.entry.levels raw.entry.key kind.now entries.old.entries
        entries.new.entries raw.entry.bytes.now result }
    ensures shorter { IfOk result (λ rest. length rest.now ≤ length raw.entry.bytes.now) }
    ensures fault { TellsEntries raw.entry.levels raw.entry.key kind.now
        raw.entry.bytes.now result }
{
    if raw.key.wire != WireType::LengthDelimited {
        return Err(WireError::BadWireType);
    }
    let Some((keys, values)) = entry_fields(kind) else {
        return Err(WireError::BadWireType);
    };
    let mut record = raw;
    'records: loop {
        let (body, rest) = delimited_at(record.bytes)?;
        let (key, value) = entry_of(alloc, keys, values, body, record.levels)?;
        put_entry(entries, key, value)?;
        match record.another_at(rest) {
            Some(next) => record = next,
            None => return Ok(rest),
        }
    }
}

/// Puts an entry over what stood under its key.
fn put_entry<'p>(
    entries: &mut BTreeMap<MapKey, Value<'p>>,
    key: MapKey,
    value: Value<'p>,
) -> Result<(), AllocError>
    ensures { OnOk result (entries.new.entries
        ≡ insert_entry key_order entries.old.entries key value.entry) }
{
    entries.insert(key, value)?;
    Ok(())
}

/// `TooDeep` where the field holds a message and no level may lie below.
fn check_level(field: &FieldDescriptor<'_>, levels: u32) -> Result<(), WireError>
    ensures left { OnOk result (IsMessageType (field_type field.now).kind → 0 < levels) }
    ensures err { IfErr result (λ e. (e ≡ TooDeep) × IsMessageType (field_type field.now).kind
        × (levels ≡ 0)) }
{
    if levels > 0 {
        return Ok(());
    }
    match field.kind() {
        Kind::Message(_) => Err(WireError::TooDeep),
        _ => Ok(()),
    }
}

/// The key and the value of a map's entry, which is at the level of the message that holds the map.
/// What the entry does not set is the default, and its other records are dropped.
///
/// A message value is one level below, whether it is written or not.
#[cycle(merge)]
fn entry_of<'p>(
    alloc: Global,
    keys: FieldDescriptor<'p>,
    values: FieldDescriptor<'p>,
    body: &[u8],
    levels: u32,
) -> Result<(MapKey, Value<'p>), WireError>
    requires nested { levels ≤ MAX_LEVELS }
    ensures read { ReadsEntry levels (field_pool keys.entry) (field_type keys.entry)
        (field_pool values.entry) (field_type values.entry) body.now result }
    ensures fault { IfErr result (TellsTrue (EntryFault levels (Within levels)
        (field_pool keys.entry) (field_type keys.entry)
        (field_pool values.entry) (field_type values.entry)) body.now) }
{
    check_level(&values, levels)?;
    let mut held_key = default_one(alloc, &keys)?;
    let mut value = default_one(alloc, &values)?;
    let mut rest = body;
    'records: while !rest.is_empty() {
        let (key, bytes) = key_at(rest)?;
        let raw = RawRecord { key, bytes, levels };
        rest = merge_entry(&mut held_key, &mut value, alloc, &keys, &values, raw)?;
    }
    match held_key.into_map_key() {
        Some(key) => Ok((key, value)),
        None => Err(WireError::BadWireType),
    }
}

/// Takes in a record of a map's entry: of its key, of its value, or one that is dropped.
#[cycle(merge)]
fn merge_entry<'p, 'b>(
    held_key: &mut Value<'p>,
    value: &mut Value<'p>,
    alloc: Global,
    keys: &FieldDescriptor<'p>,
    values: &FieldDescriptor<'p>,
    raw: RawRecord<'b>,
) -> Result<&'b [u8], WireError>
    ensures read { ReadsEntryRecord raw.entry.levels raw.entry.key (field_pool keys.now)
        (field_type keys.now)
        (field_pool values.now) (field_type values.now) (held_key.old, value.old)
        (held_key.new, value.new) raw.entry.bytes.now result }
    ensures shorter { IfOk result (λ rest. length rest.now ≤ length raw.entry.bytes.now) }
    ensures fault { TellsEntryRecord raw.entry.levels raw.entry.key (field_pool keys.now)
        (field_type keys.now)
        (field_pool values.now) (field_type values.now) (held_key.old, value.old)
        raw.entry.bytes.now result }
{
    match raw.key.number {
        1 => merge_part(held_key, alloc, keys, raw),
        2 => merge_part(value, alloc, values, raw),
        _ => Ok(unknown_at(alloc, raw)?.1),
    }
}

/// Takes in a record of the key or the value of a map's entry.
#[cycle(merge)]
fn merge_part<'p, 'b>(
    held: &mut Value<'p>,
    alloc: Global,
    field: &FieldDescriptor<'p>,
    raw: RawRecord<'b>,
) -> Result<&'b [u8], WireError>
    ensures read { ReadsPart raw.entry.levels raw.entry.key (field_pool field.now)
        (field_type field.now)
        held.old held.new raw.entry.bytes.now result }
    ensures shorter { IfOk result (λ rest. length rest.now ≤ length raw.entry.bytes.now) }
    ensures fault { TellsPart raw.entry.levels raw.entry.key (field_pool field.now)
        (field_type field.now)
        held.old raw.entry.bytes.now result }
{
    let kind = field.kind();
    if let Kind::Message(_inner) = kind {
        return match held {
            Value::Message(message) => merge_message(message, alloc, field.is_group(), raw),
            _ => Err(WireError::BadWireType),
        };
    }
    let (scalar, rest) = scalar_at(&kind, raw.key.wire, raw.bytes)?;
    *held = Value::from_scalar(alloc, scalar)?;
    Ok(rest)
}
