//! What a message holds, one content after another.

ghost use Rattle.std.specs.Prelude.{◌≡◌, IfSome, option_map};
ghost use Rattle.std.specs.Bool.{Decides};
ghost use Rattle.reflect_pool.specs.FieldsLeft.{field_type};
ghost use Rattle.reflect_scalar.specs.FieldTypes.{extension_type};
ghost use Rattle.reflect_message.specs.Held.{fields_of, extensions_of, unknown_of};
ghost use Rattle.reflect_contents.specs.EntriesLeft.{walked_left};
ghost use Rattle.reflect_contents.specs.Left.{records_left};
ghost use Rattle.reflect_contents.specs.Walked.{HoldsNothing, extensions_left, fields_left, in_pool, of_message, set_extension, set_extensions_of, set_field, set_fields_of};

use reflect_entries::entries;
use reflect_message::{DynamicMessage, Held, MessageParts, Value, is_present};
use reflect_pool::{ExtensionDescriptor, FieldDescriptor, MessageDescriptor};
use reflect_wire::UnknownField;

/// A message that is walked over.
pub trait MessageWalks<'p> {
    ghost use Rattle.reflect_message.specs.Names.{DynamicMessage};

    /// The message that it is.
    ghost message: { Self → DynamicMessage };

    /// The fields that are set, with what they hold, by ascending number. Takes no memory.
    fn fields(&self) -> FieldValues<'_, 'p>
        ensures { fields_left result ≡ of_message (message self.now).descriptor
            (set_fields_of (message self.now)) };

    /// The extensions that are set, with what they hold, by ascending number. Takes no memory.
    fn extensions(&self) -> ExtensionValues<'_, 'p>
        ensures { extensions_left result ≡ in_pool (message self.now).descriptor.pool.now
            (set_extensions_of (message self.now)) };

    /// The records of numbers that the type does not declare, by ascending number, those of a
    /// number as they came. Takes no memory.
    fn unknown_fields(&self) -> UnknownFields<'_>
        ensures { records_left result ≡ unknown_of (message self.now) };

    /// No field or extension is set, and there are no other records. Takes no memory.
    fn is_empty(&self) -> bool
        ensures { Decides result (HoldsNothing (message self.now)) };
}

impl<'p> MessageWalks<'p> for DynamicMessage<'p> {
    ghost message = { λ m. m };

    fn fields(&self) -> FieldValues<'_, 'p> {
        FieldValues {
            descriptor: self.descriptor(),
            entries: field_entries(self),
        }
    }

    fn extensions(&self) -> ExtensionValues<'_, 'p> {
        ExtensionValues {
            descriptor: self.descriptor(),
            entries: extension_entries(self),
        }
    }

    fn unknown_fields(&self) -> UnknownFields<'_> {
        let records = match self.held() {
            Held::Block(parts) => Some(parts.unknown.iter()),
            Held::Nothing => None,
        };
        UnknownFields { records }
    }

    fn is_empty(&self) -> bool {
        if self.unknown_fields().next().is_some() || self.fields().next().is_some() {
            return false;
        }
        self.extensions().next().is_none()
    }
}

/// What the declared fields hold, by ascending number, if the message holds anything.
fn field_entries<'m, 'p>(message: &'m DynamicMessage<'p>) -> Option<entries::Iter<'m, Value<'p>>>
    ensures { walked_left result ≡ fields_of message.now }
{
    match message.held() {
        Held::Block(parts) => Some(parts.fields.iter()),
        Held::Nothing => None,
    }
}

/// What the extensions hold, by ascending number, if the message holds anything.
fn extension_entries<'m, 'p>(
    message: &'m DynamicMessage<'p>,
) -> Option<entries::Iter<'m, Value<'p>>>
    ensures { walked_left result ≡ extensions_of message.now }
{
    match message.held() {
        Held::Block(parts) => Some(parts.extensions.iter()),
        Held::Nothing => None,
    }
}

/// The field of the number, if it is set by the value that stands there.
pub fn field_if_set<'p>(
    descriptor: MessageDescriptor<'p>,
    number: u32,
    value: &Value<'p>,
) -> Option<FieldDescriptor<'p>>
    ensures message { IfSome result (λ f. f.message ≡ descriptor.entry) }
    ensures set { option_map (λ f. (field_type f, value.now)) result
        ≡ set_field descriptor.entry.pool.now descriptor.entry.index (number, value.now) }
{
    match descriptor.get_field(number) {
        Some(field) => {
            if is_present(value, &field) {
                Some(field)
            } else {
                None
            }
        }
        None => None,
    }
}

/// The extension of the number, if it is set by the value that stands there.
pub fn extension_if_set<'p>(
    descriptor: MessageDescriptor<'p>,
    number: u32,
    value: &Value<'p>,
) -> Option<ExtensionDescriptor<'p>>
    ensures pool { IfSome result (λ x. x.pool.now ≡ descriptor.entry.pool.now) }
    ensures set { option_map (λ x. (extension_type x, value.now)) result
        ≡ set_extension descriptor.entry.pool.now descriptor.entry.index (number, value.now) }
{
    match descriptor.get_extension(number) {
        Some(extension) => {
            if is_present(value, &extension) {
                Some(extension)
            } else {
                None
            }
        }
        None => None,
    }
}

/// The fields of a message that are set, by ascending number.
#[derive(Drop)]
pub struct FieldValues<'m, 'p> {
    descriptor: MessageDescriptor<'p>,
    /// `None` where the message holds nothing.
    entries: Option<entries::Iter<'m, Value<'p>>>,
}

impl<'m, 'p> Iterator for FieldValues<'m, 'p> {
    ghost use Rattle.std.specs.Iterator.{YieldsFirstBy, item_count};
    ghost use Rattle.reflect_contents.specs.Walked.{field_lent, fields_left};

    type Item = (FieldDescriptor<'p>, &'m Value<'p>);

    ghost next_gives = { YieldsFirstBy field_lent fields_left };

    ghost remaining = { item_count fields_left };

    fn next(&mut self) -> Option<(FieldDescriptor<'p>, &'m Value<'p>)> {
        let descriptor = self.descriptor;
        let Some(entries) = &mut self.entries else {
            return None;
        };
        'entries: while let Some((number, value)) = entries.next() {
            if let Some(field) = field_if_set(descriptor, number, value) {
                return Some((field, value));
            }
        }
        None
    }
}

/// The extensions of a message that are set, by ascending number.
#[derive(Drop)]
pub struct ExtensionValues<'m, 'p> {
    descriptor: MessageDescriptor<'p>,
    /// `None` where the message holds nothing.
    entries: Option<entries::Iter<'m, Value<'p>>>,
}

impl<'m, 'p> Iterator for ExtensionValues<'m, 'p> {
    ghost use Rattle.std.specs.Iterator.{YieldsFirstBy, item_count};
    ghost use Rattle.reflect_contents.specs.Walked.{extension_lent, extensions_left};

    type Item = (ExtensionDescriptor<'p>, &'m Value<'p>);

    ghost next_gives = { YieldsFirstBy extension_lent extensions_left };

    ghost remaining = { item_count extensions_left };

    fn next(&mut self) -> Option<(ExtensionDescriptor<'p>, &'m Value<'p>)> {
        let descriptor = self.descriptor;
        let Some(entries) = &mut self.entries else {
            return None;
        };
        'entries: while let Some((number, value)) = entries.next() {
            if let Some(extension) = extension_if_set(descriptor, number, value) {
                return Some((extension, value));
            }
        }
        None
    }
}

/// The records that a message's type does not declare, by ascending number.
#[derive(Drop)]
pub struct UnknownFields<'m> {
    /// `None` where the message holds nothing.
    records: Option<reflect_entries::UnknownFields<'m>>,
}

impl<'m> Iterator for UnknownFields<'m> {
    ghost use Rattle.std.specs.Iterator.{YieldsFirstBy, item_count};
    ghost use Rattle.reflect_wire.specs.Views.{field_view};
    ghost use Rattle.reflect_contents.specs.Left.{records_left};

    type Item = &'m UnknownField;

    ghost next_gives = { YieldsFirstBy (λ r. field_view r.now) records_left };

    ghost remaining = { item_count records_left };

    fn next(&mut self) -> Option<&'m UnknownField> {
        match &mut self.records {
            Some(records) => records.next(),
            None => None,
        }
    }
}
