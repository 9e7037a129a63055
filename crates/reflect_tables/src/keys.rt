//! What the items of a list are looked up by.

ghost use Rattle.std.specs.Prelude.{◌≡◌, [], pos};
ghost use Rattle.reflect_tables.specs.Index.{KeyType, key_view, key_order, field_key, value_key, json_key};

use crate::stored::{StoredField, StoredValue};
use std::cmp::Ordering;

/// What items are told apart by. An enum's value has its name for a JSON name.
#[derive(Clone, Copy)]
pub enum By {
    Number,
    Name,
    JsonName,
}

/// A number, and behind it a text; the keys of one sort differ in one of them.
#[derive(Clone, Copy)]
pub struct Key<'a> {
    pub number: i64,
    pub text: &'a str,
}

impl<'a> Key<'a> {
    /// The key of a field's number.
    pub fn of_number(number: u32) -> Key<'a>
        ensures { key_view result ≡ (pos number, []) }
    {
        Key {
            number: i64::from(number),
            text: "",
        }
    }

    /// The key of the number of an enum's value.
    pub fn of_value(number: i32) -> Key<'a>
        ensures { key_view result ≡ (number, []) }
    {
        Key {
            number: i64::from(number),
            text: "",
        }
    }

    /// The key of a name.
    pub fn of_name(name: &'a str) -> Key<'a>
        ensures { key_view result ≡ (pos 0, name.now) }
    {
        Key {
            number: 0,
            text: name,
        }
    }

    /// The key of a written JSON name.
    pub fn of_json_name(name: &'a str) -> Key<'a>
        ensures { key_view result ≡ (pos 1, name.now) }
    {
        Key {
            number: 1,
            text: name,
        }
    }
}

/// How a key stands to another: by the number, and where that is equal by the text.
pub fn compare(a: Key<'_>, b: Key<'_>) -> Ordering
    ensures { result ≡ key_order (key_view a.entry) (key_view b.entry) }
{
    match a.number.cmp(&b.number) {
        Ordering::Equal => a.text.cmp(b.text),
        order => order,
    }
}

/// An item with keys.
pub trait Keyed {
    ghost use Rattle.reflect_tables.specs.declared.keys.By.{By};

    /// The view of the item's key of a sort.
    ghost key_of: { By → Self → KeyType };

    /// The item's key of a sort.
    fn key(&self, by: By) -> Key<'_>
        ensures { key_view result ≡ key_of by self.now };
}

/// The key of a JSON name, or the least one where none was written.
fn json_name_key(name: &Option<String>) -> Key<'_>
    ensures { key_view result ≡ json_key name.now }
{
    match name {
        Some(name) => Key::of_json_name(name.as_str()),
        None => Key::of_number(0),
    }
}

impl Keyed for StoredField {
    ghost key_of = { field_key };

    fn key(&self, by: By) -> Key<'_> {
        match by {
            By::Number => Key::of_number(self.number),
            By::Name => Key::of_name(self.name.as_str()),
            By::JsonName => json_name_key(&self.json_name),
        }
    }
}

impl Keyed for StoredValue {
    ghost key_of = { value_key };

    fn key(&self, by: By) -> Key<'_> {
        match by {
            By::Number => Key::of_value(self.number),
            By::Name | By::JsonName => Key::of_name(self.name.as_str()),
        }
    }
}
