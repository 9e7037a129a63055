//! Looks up in lists of fields and of values.

ghost use Rattle.std.specs.Prelude.{◌≡◌, Some, map};
ghost use Rattle.reflect_tables.specs.Finding.{IsFirst};
ghost use Rattle.reflect_tables.specs.Views.{field_of, value_of};

use crate::find::first;
use crate::keys::{By, Key};
use crate::lists::{FieldList, ValueList};
use reflect_scope::{EnumValueIndex, FieldIndex};

impl FieldList {
    /// The place of the first field of a number. Takes no memory, and a number of steps that grows
    /// with the logarithm of the fields' count, as the other lookups do.
    pub fn of_number(&self, number: FieldIndex) -> Option<FieldIndex>
        ensures { IsFirst (λ f. f.number ≡ number) (map field_of self.now.list.items) result }
    {
        first(
            self.list.as_slice(),
            By::Number,
            self.by_number.as_slice(),
            Key::of_number(number),
        )
    }

    /// The place of the first field of a name.
    pub fn of_name(&self, name: &str) -> Option<FieldIndex>
        ensures { IsFirst (λ f. f.name ≡ name.now) (map field_of self.now.list.items) result }
    {
        first(
            self.list.as_slice(),
            By::Name,
            self.by_name.as_slice(),
            Key::of_name(name),
        )
    }

    /// The place of the first field of a written JSON name.
    pub fn of_json_name(&self, name: &str) -> Option<FieldIndex>
        ensures { IsFirst (λ f. f.json_name ≡ Some name.now)
            (map field_of self.now.list.items) result }
    {
        first(
            self.list.as_slice(),
            By::JsonName,
            self.by_json_name.as_slice(),
            Key::of_json_name(name),
        )
    }
}

impl ValueList {
    /// The place of the first value of a number. Takes no memory, and a number of steps that grows
    /// with the logarithm of the values' count, as the lookup by name does.
    pub fn of_number(&self, number: i32) -> Option<EnumValueIndex>
        ensures { IsFirst (λ v. v.number ≡ number) (map value_of self.now.list.items) result }
    {
        first(
            self.list.as_slice(),
            By::Number,
            self.by_number.as_slice(),
            Key::of_value(number),
        )
    }

    /// The place of the first value of a name.
    pub fn of_name(&self, name: &str) -> Option<EnumValueIndex>
        ensures { IsFirst (λ v. v.name ≡ name.now) (map value_of self.now.list.items) result }
    {
        first(
            self.list.as_slice(),
            By::Name,
            self.by_name.as_slice(),
            Key::of_name(name),
        )
    }
}
