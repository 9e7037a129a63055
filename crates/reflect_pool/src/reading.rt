//! What fields and extensions have in common.

ghost use Rattle.std.specs.Prelude.{◌≡◌};
ghost use Rattle.reflect_tables.specs.Types.{IsWithin, counts_of};
ghost use Rattle.reflect_tables.specs.Views.{field_of, kind_of};
ghost use Rattle.reflect_pool.specs.Defaults.{HasNumber, IsDefault};
ghost use Rattle.reflect_pool.specs.Kinds.{IsKind};
ghost use Rattle.reflect_pool.specs.Shapes.{holds_map};

use crate::enums::EnumDescriptor;
use crate::kind::{DefaultValue, Kind};
use crate::message::MessageDescriptor;
use crate::pool::DescriptorPool;
use reflect_tables::{Cardinality, StoredDefault, StoredField, StoredKind};

/// A kind whose types stand in the pool.
pub fn kind_in<'p>(pool: &'p DescriptorPool, kind: StoredKind) -> Kind<'p>
    requires { IsWithin (counts_of pool.now) (kind_of kind) }
    ensures { IsKind pool.now result (kind_of kind) }
{
    match kind {
        StoredKind::Double => Kind::Double,
        StoredKind::Float => Kind::Float,
        StoredKind::Int32 => Kind::Int32,
        StoredKind::Int64 => Kind::Int64,
        StoredKind::Uint32 => Kind::Uint32,
        StoredKind::Uint64 => Kind::Uint64,
        StoredKind::Sint32 => Kind::Sint32,
        StoredKind::Sint64 => Kind::Sint64,
        StoredKind::Fixed32 => Kind::Fixed32,
        StoredKind::Fixed64 => Kind::Fixed64,
        StoredKind::Sfixed32 => Kind::Sfixed32,
        StoredKind::Sfixed64 => Kind::Sfixed64,
        StoredKind::Bool => Kind::Bool,
        StoredKind::String => Kind::String,
        StoredKind::Bytes => Kind::Bytes,
        StoredKind::Message(index) => Kind::Message(MessageDescriptor { pool, index }),
        StoredKind::Enum(index) => Kind::Enum(EnumDescriptor { pool, index }),
    }
}

/// The field's values are the entries of a map.
pub fn is_map(pool: &DescriptorPool, field: &StoredField) -> bool
    ensures { result ≡ holds_map pool.now (field_of field.now) }
{
    let StoredKind::Message(index) = field.kind else {
        return false;
    };
    match pool.tables.messages.get(index as usize) {
        Some(message) => {
            field.cardinality == Cardinality::Repeated && !field.is_group && message.entry.is_some()
        }
        None => false,
    }
}

/// The number of an enum's value by its name.
fn value_number(pool: &DescriptorPool, kind: StoredKind, name: &str) -> Option<i32>
    ensures { HasNumber pool.now (kind_of kind) name.now result }
{
    let StoredKind::Enum(index) = kind else {
        return None;
    };
    Some(pool.enum_at(index)?.get_value_by_name(name)?.number())
}

/// The default that a field's declaration gives, if it gives one.
pub fn default_value<'p>(
    pool: &'p DescriptorPool,
    field: &'p StoredField,
) -> Option<DefaultValue<'p>>
    ensures { IsDefault pool.now (field_of field.now) result }
{
    Some(match field.default.as_ref()? {
        StoredDefault::I64(value) => DefaultValue::I64(*value),
        StoredDefault::U64(value) => DefaultValue::U64(*value),
        StoredDefault::Bool(value) => DefaultValue::Bool(*value),
        StoredDefault::Text(text) => DefaultValue::Text(text.as_str()),
        StoredDefault::Bytes(bytes) => DefaultValue::Bytes(bytes.as_slice()),
        StoredDefault::Float(text) => DefaultValue::Float(text.as_str()),
        StoredDefault::Enum(name) => {
            DefaultValue::Enum(value_number(pool, field.kind, name.as_str())?)
        }
    })
}
