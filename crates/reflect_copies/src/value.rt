//! Values, lists and maps.

ghost use Rattle.std.specs.Prelude.{◌≡◌, IfOk, IsTrue, OnOk, map};
ghost use Rattle.reflect_copies.specs.InOrder.{in_order, items_in_order, map_in_order};
ghost use Rattle.reflect_copies.specs.Maps.{PutsCopy};
ghost use Rattle.reflect_copies.specs.Trees.{entry_tree, tree};

use crate::message::message_clone;
use reflect_message::{MapKey, Value};
use std::alloc::AllocError;
use std::collections::BTreeMap;
use std::default::Emptied;

#[cycle(clone)]
pub fn value_clone<'p>(value: &Value<'p>) -> Result<Value<'p>, AllocError>
    ensures content { IfOk result (λ copy. tree copy ≡ tree value.now) }
    ensures in_order { IfOk result (λ copy. IsTrue (in_order copy)) }
{
    match value {
        Value::Bool(truth) => Ok(Value::Bool(*truth)),
        Value::I32(n) => Ok(Value::I32(*n)),
        Value::I64(n) => Ok(Value::I64(*n)),
        Value::U32(n) => Ok(Value::U32(*n)),
        Value::U64(n) => Ok(Value::U64(*n)),
        Value::String(text) => Ok(Value::String(text.clone()?)),
        Value::Bytes(bytes) => Ok(Value::Bytes(bytes.clone()?)),
        Value::EnumNumber(n) => Ok(Value::EnumNumber(*n)),
        Value::Message(message) => Ok(Value::Message(message_clone(message)?)),
        Value::List(values) => Ok(Value::List(list_clone(values)?)),
        Value::Map(entries) => Ok(Value::Map(map_clone(entries)?)),
    }
}

#[cycle(clone)]
fn list_clone<'p>(values: &Vec<Value<'p>>) -> Result<Vec<Value<'p>>, AllocError>
    ensures content { IfOk result (λ copy. map tree copy.items ≡ map tree values.now.items) }
    ensures in_order { IfOk result (λ copy. IsTrue (items_in_order copy.items)) }
{
    let mut copy = Vec::with_capacity(*values.allocator(), values.len())?;
    'values: for value in values {
        copy.push(value_clone(value)?)?;
    }
    Ok(copy)
}

#[cycle(clone)]
fn map_clone<'p>(
    entries: &BTreeMap<MapKey, Value<'p>>,
) -> Result<BTreeMap<MapKey, Value<'p>>, AllocError>
    ensures content { IfOk result (λ copy. map entry_tree copy.entries
        ≡ map entry_tree entries.now.entries) }
    ensures in_order { IfOk result (λ copy. IsTrue (map_in_order copy.entries)) }
{
    let mut copy = BTreeMap::emptied(entries)?;
    for (key, value) in entries.iter() {
        insert_at(&mut copy, key, value_clone(value)?)?;
    }
    Ok(copy)
}

/// Puts the value under a copy of the key.
fn insert_at<'p>(
    entries: &mut BTreeMap<MapKey, Value<'p>>,
    key: &MapKey,
    value: Value<'p>,
) -> Result<(), AllocError>
    ensures { OnOk result (PutsCopy key.now value.entry entries.old.entries entries.new.entries) }
{
    entries.insert(key.clone()?, value)?;
    Ok(())
}
