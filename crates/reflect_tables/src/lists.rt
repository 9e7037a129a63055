//! The fields of a message type and the values of an enum type, with what they are looked up by.

ghost use Rattle.std.specs.Prelude.{map};
ghost use Rattle.reflect_tables.specs.Index.{IsIndex, field_key, value_key};
ghost use Rattle.reflect_tables.specs.declared.keys.By.TheVariants as by;
ghost use Rattle.std.proofs.Props.{props};

use crate::stored::{StoredField, StoredValue};
use reflect_scope::{EnumValueIndex, FieldIndex};

/// The fields of a message type.
#[derive(Drop)]
pub struct FieldList {
    /// The fields, as they were declared.
    pub list: Vec<StoredField>,
    /// The place of the first field of each number, by ascending number.
    pub by_number: Vec<FieldIndex>,
    /// That of each name.
    pub by_name: Vec<FieldIndex>,
    /// That of each JSON name that was written, and that of the first field without one.
    pub by_json_name: Vec<FieldIndex>,
    ghost numbers: { IsIndex (map (field_key by.Number) list.items)
        by_number.items } by { Prim.hlevel props },
    ghost names: { IsIndex (map (field_key by.Name) list.items)
        by_name.items } by { Prim.hlevel props },
    ghost json_names: { IsIndex (map (field_key by.JsonName) list.items)
        by_json_name.items } by { Prim.hlevel props },
}

/// The values of an enum type.
#[derive(Drop)]
pub struct ValueList {
    /// The values, as they were declared.
    pub list: Vec<StoredValue>,
    /// The place of the first value of each number, by ascending number.
    pub by_number: Vec<EnumValueIndex>,
    /// That of each name.
    pub by_name: Vec<EnumValueIndex>,
    ghost numbers: { IsIndex (map (value_key by.Number) list.items)
        by_number.items } by { Prim.hlevel props },
    ghost names: { IsIndex (map (value_key by.Name) list.items)
        by_name.items } by { Prim.hlevel props },
}
