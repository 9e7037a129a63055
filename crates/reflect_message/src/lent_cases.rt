//! Values that lend by their cases what they hold, to be changed.
//!
//! As for messages, what is lent names no lifetime, but a type `D`.

ghost use Rattle.std.specs.Borrow.{bool, i32, i64, sem, u32, u64};
ghost use Rattle.std.specs.Option.{option_and_then, option_copied_mut};
ghost use Rattle.std.specs.Prelude.{◌≡◌, option_map, string_bytes};
ghost use Rattle.reflect_scalar.specs.Cases.{blob_of, int32_of, int64_of, number_of, text_of, truth_of, uint32_of, uint64_of};
ghost use Rattle.reflect_scalar.specs.KeyRows.{text_row};
ghost use Rattle.reflect_message.specs.Lists.{list_items};
ghost use Rattle.reflect_message.specs.Maps.{map_entries};
ghost use Rattle.reflect_message.specs.Messages.{message_in};
ghost use Rattle.reflect_message.specs.Singles.{single};

use crate::message::MessageOf;
use crate::value::ValueOf;
use reflect_scalar::MapKey;
use std::collections::BTreeMap;

impl<D> ValueOf<D> {
    ghost use Rattle.reflect_message.specs.contracts.message.MessageOf as message;
    ghost use Rattle.reflect_message.specs.declared.value.ValueOf.TheVariants as values;
    ghost use Rattle.reflect_message.specs.Lent.{lends_case};
    ghost use Rattle.reflect_message.specs.Rows.{blob_row, list_row, map_row};

    /// The value to be changed, if it is a truth value.
    pub fn as_bool_mut(&mut self) -> Option<&mut bool>
        ensures* writes_back { sem 𝓛 (lends_case D.row bool values.Bool self.entry result) }
        ensures value { option_copied_mut result ≡ option_and_then truth_of (single self.old) }
    {
        match self {
            ValueOf::Bool(truth) => Some(truth),
            _ => None,
        }
    }

    /// The value to be changed, if it is a signed 32-bit number.
    pub fn as_i32_mut(&mut self) -> Option<&mut i32>
        ensures* writes_back { sem 𝓛 (lends_case D.row i32 values.I32 self.entry result) }
        ensures value { option_copied_mut result ≡ option_and_then int32_of (single self.old) }
    {
        match self {
            ValueOf::I32(n) => Some(n),
            _ => None,
        }
    }

    /// The value to be changed, if it is a signed 64-bit number.
    pub fn as_i64_mut(&mut self) -> Option<&mut i64>
        ensures* writes_back { sem 𝓛 (lends_case D.row i64 values.I64 self.entry result) }
        ensures value { option_copied_mut result ≡ option_and_then int64_of (single self.old) }
    {
        match self {
            ValueOf::I64(n) => Some(n),
            _ => None,
        }
    }

    /// The value to be changed, if it is an unsigned 32-bit number.
    pub fn as_u32_mut(&mut self) -> Option<&mut u32>
        ensures* writes_back { sem 𝓛 (lends_case D.row u32 values.U32 self.entry result) }
        ensures value { option_copied_mut result ≡ option_and_then uint32_of (single self.old) }
    {
        match self {
            ValueOf::U32(n) => Some(n),
            _ => None,
        }
    }

    /// The value to be changed, if it is an unsigned 64-bit number.
    pub fn as_u64_mut(&mut self) -> Option<&mut u64>
        ensures* writes_back { sem 𝓛 (lends_case D.row u64 values.U64 self.entry result) }
        ensures value { option_copied_mut result ≡ option_and_then uint64_of (single self.old) }
    {
        match self {
            ValueOf::U64(n) => Some(n),
            _ => None,
        }
    }

    /// The value to be changed, if it is the number of an enum's value.
    pub fn as_enum_number_mut(&mut self) -> Option<&mut i32>
        ensures* writes_back { sem 𝓛 (lends_case D.row i32 values.EnumNumber self.entry result) }
        ensures value { option_copied_mut result ≡ option_and_then number_of (single self.old) }
    {
        match self {
            ValueOf::EnumNumber(n) => Some(n),
            _ => None,
        }
    }

    /// The value to be changed, if it is a text.
    pub fn as_string_mut(&mut self) -> Option<&mut String>
        ensures* writes_back { sem 𝓛 (lends_case D.row text_row values.String self.entry result) }
        ensures value { option_map (λ t. string_bytes t.now) result
            ≡ option_and_then text_of (single self.old) }
    {
        match self {
            ValueOf::String(text) => Some(text),
            _ => None,
        }
    }

    /// The value to be changed, if it is bytes.
    pub fn as_bytes_mut(&mut self) -> Option<&mut Vec<u8>>
        ensures* writes_back { sem 𝓛 (lends_case D.row blob_row values.Bytes self.entry result) }
        ensures value { option_map (λ b. b.now.items) result
            ≡ option_and_then blob_of (single self.old) }
    {
        match self {
            ValueOf::Bytes(bytes) => Some(bytes),
            _ => None,
        }
    }

    /// The value to be changed, if it is a message.
    pub fn as_message_mut(&mut self) -> Option<&mut MessageOf<D>>
        ensures* writes_back { sem 𝓛 (lends_case D.row (message.the_row D.row) values.Message
            self.entry result) }
        ensures value { option_copied_mut result ≡ message_in self.old }
    {
        match self {
            ValueOf::Message(message) => Some(message),
            _ => None,
        }
    }

    /// The value to be changed, if it is a list.
    pub fn as_list_mut(&mut self) -> Option<&mut Vec<ValueOf<D>>>
        ensures* writes_back { sem 𝓛 (lends_case D.row (list_row D.row) values.List
            self.entry result) }
        ensures value { option_map (λ vs. vs.now.items) result ≡ list_items self.old }
    {
        match self {
            ValueOf::List(values) => Some(values),
            _ => None,
        }
    }

    /// The value to be changed, if it is a map.
    pub fn as_map_mut(&mut self) -> Option<&mut BTreeMap<MapKey, ValueOf<D>>>
        ensures* writes_back { sem 𝓛 (lends_case D.row (map_row D.row) values.Map
            self.entry result) }
        ensures value { option_map (λ es. es.now.entries) result ≡ map_entries self.old }
    {
        match self {
            ValueOf::Map(entries) => Some(entries),
            _ => None,
        }
    }
}
