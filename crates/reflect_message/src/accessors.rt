//! Readers of values by their cases.

ghost use Rattle.std.specs.Option.{option_and_then, option_copied};
ghost use Rattle.std.specs.Prelude.{◌≡◌, option_map};
ghost use Rattle.reflect_scalar.specs.Cases.{blob_of, int32_of, int64_of, number_of, text_of, truth_of, uint32_of, uint64_of};
ghost use Rattle.reflect_message.specs.Lists.{list_items};
ghost use Rattle.reflect_message.specs.Maps.{map_entries};
ghost use Rattle.reflect_message.specs.Messages.{message_in};
ghost use Rattle.reflect_message.specs.Singles.{single};

use crate::message::DynamicMessage;
use crate::value::Value;
use reflect_scalar::MapKey;
use std::collections::BTreeMap;

impl<'p> Value<'p> {
    /// The value, if it is a truth value.
    pub fn as_bool(&self) -> Option<bool>
        ensures { result ≡ option_and_then truth_of (single self.now) }
    {
        match self {
            Value::Bool(truth) => Some(*truth),
            _ => None,
        }
    }

    /// The value, if it is a signed 32-bit number.
    pub fn as_i32(&self) -> Option<i32>
        ensures { result ≡ option_and_then int32_of (single self.now) }
    {
        match self {
            Value::I32(n) => Some(*n),
            _ => None,
        }
    }

    /// The value, if it is a signed 64-bit number.
    pub fn as_i64(&self) -> Option<i64>
        ensures { result ≡ option_and_then int64_of (single self.now) }
    {
        match self {
            Value::I64(n) => Some(*n),
            _ => None,
        }
    }

    /// The value, if it is an unsigned 32-bit number.
    pub fn as_u32(&self) -> Option<u32>
        ensures { result ≡ option_and_then uint32_of (single self.now) }
    {
        match self {
            Value::U32(n) => Some(*n),
            _ => None,
        }
    }

    /// The value, if it is an unsigned 64-bit number.
    pub fn as_u64(&self) -> Option<u64>
        ensures { result ≡ option_and_then uint64_of (single self.now) }
    {
        match self {
            Value::U64(n) => Some(*n),
            _ => None,
        }
    }

    /// The value, if it is the number of an enum's value.
    pub fn as_enum_number(&self) -> Option<i32>
        ensures { result ≡ option_and_then number_of (single self.now) }
    {
        match self {
            Value::EnumNumber(n) => Some(*n),
            _ => None,
        }
    }

    /// The value, if it is a text.
    pub fn as_str(&self) -> Option<&str>
        ensures { option_map (λ t. t.now) result ≡ option_and_then text_of (single self.now) }
    {
        match self {
            Value::String(text) => Some(text.as_str()),
            _ => None,
        }
    }

    /// The value, if it is bytes.
    pub fn as_bytes(&self) -> Option<&[u8]>
        ensures { option_map (λ b. b.now) result ≡ option_and_then blob_of (single self.now) }
    {
        match self {
            Value::Bytes(bytes) => Some(bytes.as_slice()),
            _ => None,
        }
    }

    /// The value, if it is a message.
    pub fn as_message(&self) -> Option<&DynamicMessage<'p>>
        ensures { option_copied result ≡ message_in self.now }
    {
        match self {
            Value::Message(message) => Some(message),
            _ => None,
        }
    }

    /// The value, if it is a list.
    pub fn as_list(&self) -> Option<&[Value<'p>]>
        ensures { option_map (λ vs. vs.now) result ≡ list_items self.now }
    {
        match self {
            Value::List(values) => Some(values.as_slice()),
            _ => None,
        }
    }

    /// The value, if it is a map.
    pub fn as_map(&self) -> Option<&BTreeMap<MapKey, Value<'p>>>
        ensures { option_map (λ es. es.now.entries) result ≡ map_entries self.now }
    {
        match self {
            Value::Map(entries) => Some(entries),
            _ => None,
        }
    }
}
