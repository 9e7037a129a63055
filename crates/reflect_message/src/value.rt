ghost use Rattle.std.specs.Prelude.{◌≡◌, Some, IfSome};
ghost use Rattle.reflect_scalar.specs.Keys.{key_view};
ghost use Rattle.reflect_message.specs.MapKeys.{key_of_value, value_of_key};
ghost use Rattle.reflect_message.specs.Singles.{single};

use crate::message::MessageOf;
use reflect_pool::MessageDescriptor;
use reflect_scalar::MapKey;
use std::collections::BTreeMap;

/// What a field of a message holds, where a `D` tells the message's type.
///
/// It names no lifetime, so that a contract can say what is written through a lent one.
#[derive(Drop)]
#[cycle(value)]
pub enum ValueOf<D> {
    Bool(bool),
    /// An `int32`, `sint32` or `sfixed32`.
    I32(i32),
    /// An `int64`, `sint64` or `sfixed64`.
    I64(i64),
    /// A `uint32` or `fixed32`.
    U32(u32),
    /// A `uint64` or `fixed64`.
    U64(u64),
    String(String),
    Bytes(Vec<u8>),
    /// The number of an enum's value, which need not be declared.
    EnumNumber(i32),
    Message(MessageOf<D>),
    /// What a repeated field holds.
    List(Vec<ValueOf<D>>),
    /// What a map field holds.
    Map(BTreeMap<MapKey, ValueOf<D>>),
}

/// What a field of a message holds.
pub type Value<'p> = ValueOf<MessageDescriptor<'p>>;

impl<'p> Value<'p> {
    /// The value as a key of a map, if it can be one.
    pub fn into_map_key(self) -> Option<MapKey>
        ensures key { result ≡ key_of_value self.entry }
        ensures same { IfSome result (λ key. self.entry ≡ value_of_key key) }
        ensures single { IfSome result (λ key. single self.entry ≡ Some (key_view key)) }
    {
        match self {
            Value::Bool(truth) => Some(MapKey::Bool(truth)),
            Value::I32(n) => Some(MapKey::I32(n)),
            Value::I64(n) => Some(MapKey::I64(n)),
            Value::U32(n) => Some(MapKey::U32(n)),
            Value::U64(n) => Some(MapKey::U64(n)),
            Value::String(text) => Some(MapKey::String(text)),
            _other => None,
        }
    }
}

impl<'p> From<MapKey> for Value<'p> {
    ghost use Rattle.std.specs.Prelude.{◌≡◌, Some};
    ghost use Rattle.reflect_message.specs.MapKeys.{key_of_value, value_of_key};

    ghost from_gives = { λ key v. (v ≡ value_of_key key) × (key_of_value v ≡ Some key) };

    fn from(key: MapKey) -> Value<'p> {
        match key {
            MapKey::Bool(truth) => Value::Bool(truth),
            MapKey::I32(n) => Value::I32(n),
            MapKey::I64(n) => Value::I64(n),
            MapKey::U32(n) => Value::U32(n),
            MapKey::U64(n) => Value::U64(n),
            MapKey::String(text) => Value::String(text),
        }
    }
}
