//! Values put behind those of a list, and entries put into a map.

ghost use Rattle.std.specs.Prelude.{◌≡◌, ◌≢◌, ℕ, ◌++◌, true, false, None, Some, IfOk, IfSome, OnOk, OnErr};
ghost use Rattle.reflect_entries.specs.Entries.{IsAscending, Updates, value_at};
ghost use Rattle.reflect_pool.specs.FieldsLeft.{field_type};
ghost use Rattle.reflect_pool.specs.Shapes.{holds_list, holds_map};
ghost use Rattle.reflect_scalar.specs.FieldTypes.{field_pool};
ghost use Rattle.reflect_message.specs.Declares.{Declares};
ghost use Rattle.reflect_message.specs.Lists.{list_items, Lengthens, KeepsList};
ghost use Rattle.reflect_message.specs.Held.{fields_of, Same};
ghost use Rattle.reflect_extend.specs.Gives.{GivesOneEntry, GivesEntry, IsSetOrDefault};
ghost use Rattle.reflect_extend.specs.Others.{KeepsOther, StaysUnset};
ghost use Rattle.reflect_extend.specs.Puts.{Puts, PutsAll, PutsFront, PutsEntries, PutsSome};

use reflect_entries::Entries;
use reflect_message::{DynamicMessage, Value, default_of};
use reflect_pool::FieldDescriptor;
use reflect_scalar::{FieldDescriptorLike, MapKey};
use std::alloc::{AllocError, Global};
use std::collections::BTreeMap;

/// Puts values behind those of a list, or the entries that they are into a map, each over what
/// stood under its key. Of a field that is neither nothing happens, nor where something else stands
/// under its number.
///
/// A refusal leaves the values of a list; a map that stood there has then perhaps some of the
/// entries. Where nothing stood nothing does.
pub fn extend<'p, F: FieldDescriptorLike<'p>>(
    alloc: Global,
    content: &mut Entries<Value<'p>>,
    field: &F,
    values: Vec<Value<'p>>,
) -> Result<(), AllocError>
    ensures others { (n : ℕ) → n ≢ (F.says field.now).number → Same content.old content.new n }
    ensures ascending { IsAscending content.old → IsAscending content.new }
    ensures list { holds_list (F.pool field.now) (F.says field.now) ≡ true
        → OnOk result (Lengthens (value_at content.old (F.says field.now).number)
        (value_at content.new (F.says field.now).number) values.entry.items) }
    ensures left { holds_list (F.pool field.now) (F.says field.now) ≡ true
        → OnErr result (KeepsList (value_at content.old (F.says field.now).number)
        (value_at content.new (F.says field.now).number)) }
    ensures other { holds_list (F.pool field.now) (F.says field.now) ≡ true
        → KeepsOther (value_at content.old (F.says field.now).number)
        (value_at content.new (F.says field.now).number) }
    ensures map { holds_map (F.pool field.now) (F.says field.now) ≡ true
        → OnOk result (PutsEntries (value_at content.old (F.says field.now).number)
        (value_at content.new (F.says field.now).number) values.entry.items) }
    ensures part { holds_map (F.pool field.now) (F.says field.now) ≡ true
        → OnErr result (PutsSome (value_at content.old (F.says field.now).number)
        (value_at content.new (F.says field.now).number) values.entry.items) }
    ensures absent { OnErr result (StaysUnset (value_at content.old (F.says field.now).number)
        (value_at content.new (F.says field.now).number)) }
    ensures neither { holds_list (F.pool field.now) (F.says field.now) ≡ false
        → holds_map (F.pool field.now) (F.says field.now) ≡ false → content.new ≡ content.old }
{
    if field.is_list() {
        return extend_list(content, field.number(), values);
    }
    if field.is_map() {
        return extend_map(alloc, content, field.number(), values);
    }
    Ok(())
}

/// Puts values behind those of the list under a number; where nothing stands, they are the list.
fn extend_list<'p>(
    content: &mut Entries<Value<'p>>,
    number: u32,
    values: Vec<Value<'p>>,
) -> Result<(), AllocError>
    ensures others { (n : ℕ) → n ≢ number → Same content.old content.new n }
    ensures ascending { IsAscending content.old → IsAscending content.new }
    ensures list { OnOk result (Lengthens (value_at content.old number)
        (value_at content.new number) values.entry.items) }
    ensures left { OnErr result (KeepsList (value_at content.old number)
        (value_at content.new number)) }
    ensures other { KeepsOther (value_at content.old number) (value_at content.new number) }
    ensures absent { OnErr result (StaysUnset (value_at content.old number)
        (value_at content.new number)) }
{
    if let Some(list) = content.get_mut(number) {
        return append(list, values);
    }
    content.set(number, Value::List(values))?;
    Ok(())
}

/// Puts entries into the map under a number; where nothing stands, a map is made of them and put
/// there whole.
fn extend_map<'p>(
    alloc: Global,
    content: &mut Entries<Value<'p>>,
    number: u32,
    entries: Vec<Value<'p>>,
) -> Result<(), AllocError>
    ensures others { (n : ℕ) → n ≢ number → Same content.old content.new n }
    ensures ascending { IsAscending content.old → IsAscending content.new }
    ensures map { OnOk result (PutsEntries (value_at content.old number)
        (value_at content.new number) entries.entry.items) }
    ensures part { OnErr result (PutsSome (value_at content.old number)
        (value_at content.new number) entries.entry.items) }
    ensures absent { OnErr result (StaysUnset (value_at content.old number)
        (value_at content.new number)) }
{
    if let Some(map) = content.get_mut(number) {
        return insert(alloc, map, entries);
    }
    let mut map = Value::Map(BTreeMap::new(alloc));
    insert(alloc, &mut map, entries)?;
    content.set(number, map)?;
    Ok(())
}

/// Puts values behind those of a list; what is no list stays. Refused, the list is as before.
fn append<'p>(list: &mut Value<'p>, mut values: Vec<Value<'p>>) -> Result<(), AllocError>
    ensures more { OnOk result (IfSome (list_items list.old)
        (λ before. list_items list.new ≡ Some (before ++ values.entry.items))) }
    ensures left { OnErr result (list_items list.new ≡ list_items list.old) }
    ensures other { list_items list.old ≡ None → list.new ≡ list.old }
{
    let Value::List(held) = list else {
        return Ok(());
    };
    held.append(&mut values)
}

/// Puts the entries that values give into a map, one behind the other, each over what stood under
/// its key.
fn insert<'p>(alloc: Global, map: &mut Value<'p>, entries: Vec<Value<'p>>) -> Result<(), AllocError>
    ensures puts { OnOk result (PutsEntries (Some map.old) (Some map.new) entries.entry.items) }
    ensures part { OnErr result (PutsSome (Some map.old) (Some map.new) entries.entry.items) }
{
    match map {
        Value::Map(held) => insert_all(alloc, held, entries),
        _ => Ok(()),
    }
}

fn insert_all<'p>(
    alloc: Global,
    held: &mut BTreeMap<MapKey, Value<'p>>,
    entries: Vec<Value<'p>>,
) -> Result<(), AllocError>
    ensures puts { OnOk result (PutsAll held.old.entries held.new.entries entries.entry.items) }
    ensures part { OnErr result (PutsFront held.old.entries held.new.entries
        entries.entry.items) }
{
    for entry in entries {
        insert_one(alloc, held, entry)?;
    }
    Ok(())
}

/// Puts the entry that a value gives, if it gives one. A refusal leaves the map.
fn insert_one<'p>(
    alloc: Global,
    held: &mut BTreeMap<MapKey, Value<'p>>,
    entry: Value<'p>,
) -> Result<(), AllocError>
    ensures puts { OnOk result (Puts held.old.entries held.new.entries entry.entry) }
    ensures left { OnErr result (held.new.entries ≡ held.old.entries) }
{
    if let Some((key, value)) = entry_of(alloc, entry)? {
        held.insert(key, value)?;
    }
    Ok(())
}

/// The entry that a value gives, if it is a message of a type of entries.
fn entry_of<'p>(alloc: Global, value: Value<'p>) -> Result<Option<(MapKey, Value<'p>)>, AllocError>
    ensures { IfOk result (GivesOneEntry value.entry) }
{
    match value {
        Value::Message(entry) => key_and_value(alloc, entry),
        _other => Ok(None),
    }
}

/// The key and the value of an entry. Each is its default where the entry has none.
fn key_and_value<'p>(
    alloc: Global,
    mut entry: DynamicMessage<'p>,
) -> Result<Option<(MapKey, Value<'p>)>, AllocError>
    ensures { IfOk result (GivesEntry entry.entry) }
{
    let descriptor = entry.descriptor();
    if !descriptor.is_map_entry() {
        return Ok(None);
    }
    let key_field = descriptor.map_entry_key_field();
    let value_field = descriptor.map_entry_value_field();
    let key = taken(alloc, &mut entry, key_field)?;
    let value = taken(alloc, &mut entry, value_field)?;
    match key.into_map_key() {
        Some(key) => Ok(Some((key, value))),
        None => Ok(None),
    }
}

/// What a message holds under a field of its type, taken out, or the field's default.
fn taken<'p>(
    alloc: Global,
    message: &mut DynamicMessage<'p>,
    field: FieldDescriptor<'p>,
) -> Result<Value<'p>, AllocError>
    requires { Declares message.old.descriptor field }
    ensures type_stays { message.new.descriptor ≡ message.old.descriptor }
    ensures part { IfOk result (IsSetOrDefault (field_pool field.entry) (field_type field.entry)
        (value_at (fields_of message.old) (field_type field.entry).number)) }
    ensures taken { Updates (fields_of message.old) (fields_of message.new)
        (field_type field.entry).number None }
{
    match message.take_field(&field) {
        Some(value) => Ok(value),
        None => default_of(alloc, &field),
    }
}
