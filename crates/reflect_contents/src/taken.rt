//! What was taken out of a message.

ghost use Rattle.std.specs.Prelude.{◌≡◌, ◌++◌, ◌∷◌, [], IfOk, OnErr, OnOk, map};
ghost use Rattle.reflect_wire.specs.Views.{field_view};
ghost use Rattle.reflect_message.specs.Held.{fields_of, extensions_of, unknown_of};
ghost use Rattle.reflect_message.specs.Oneofs.{IsExclusive};
ghost use Rattle.reflect_contents.specs.Walked.{in_pool, of_message, set_extensions_of, set_fields_of, taken_extensions_left, taken_fields_left};

use crate::walks::{MessageWalks, extension_if_set, field_if_set};
use reflect_entries::{Entries, entries};
use reflect_message::{DynamicMessage, MessageParts, Value};
use reflect_pool::{ExtensionDescriptor, FieldDescriptor, MessageDescriptor};
use reflect_wire::UnknownField;
use std::alloc::AllocError;
use std::mem;

/// A message whose contents are taken out.
pub trait TakeContents<'p> {
    ghost use Rattle.reflect_message.specs.Names.{DynamicMessage};

    /// The message that it is.
    ghost message: { Self → DynamicMessage };

    /// Unsets all fields, and gives those that were set with what they held, by ascending number.
    /// Takes no memory.
    fn take_fields(&mut self) -> TakenFields<'p>
        ensures type_stays { (message self.new).descriptor ≡ (message self.old).descriptor }
        ensures given { taken_fields_left result
            ≡ of_message (message self.old).descriptor (set_fields_of (message self.old)) }
        ensures fields { fields_of (message self.new) ≡ [] }
        ensures exclusive { IsExclusive (message self.old) → IsExclusive (message self.new) }
        ensures extensions { extensions_of (message self.new) ≡ extensions_of (message self.old) }
        ensures unknown { unknown_of (message self.new) ≡ unknown_of (message self.old) };

    /// Unsets all extensions, and gives those that were set with what they held, by ascending
    /// number. Takes no memory.
    fn take_extensions(&mut self) -> TakenExtensions<'p>
        ensures type_stays { (message self.new).descriptor ≡ (message self.old).descriptor }
        ensures given { taken_extensions_left result
            ≡ in_pool (message self.old).descriptor.pool.now (set_extensions_of (message self.old)) }
        ensures fields { fields_of (message self.new) ≡ fields_of (message self.old) }
        ensures exclusive { IsExclusive (message self.old) → IsExclusive (message self.new) }
        ensures extensions { extensions_of (message self.new) ≡ [] }
        ensures unknown { unknown_of (message self.new) ≡ unknown_of (message self.old) };

    /// Drops the records of numbers that the type does not declare, and gives copies of them in the
    /// order of `unknown_fields`. A refusal leaves the message.
    fn take_unknown_fields(&mut self) -> Result<Vec<UnknownField>, AllocError>
        ensures type_stays { (message self.new).descriptor ≡ (message self.old).descriptor }
        ensures given { IfOk result (λ records. map field_view records.items
            ≡ unknown_of (message self.old)) }
        ensures fields { fields_of (message self.new) ≡ fields_of (message self.old) }
        ensures exclusive { IsExclusive (message self.old) → IsExclusive (message self.new) }
        ensures extensions { extensions_of (message self.new) ≡ extensions_of (message self.old) }
        ensures unknown { OnOk result (unknown_of (message self.new) ≡ []) }
        ensures err { OnErr result (message self.new ≡ message self.old) };
}

impl<'p> TakeContents<'p> for DynamicMessage<'p> {
    ghost message = { λ m. m };

    fn take_fields(&mut self) -> TakenFields<'p> {
        let mut taken = Entries::new(self.allocator());
        if let Some(mut parts) = self.block() {
            mem::swap(&mut taken, &mut parts.fields);
            self.put_block(parts);
        }
        TakenFields {
            descriptor: self.descriptor(),
            entries: taken.into_iter(),
        }
    }

    fn take_extensions(&mut self) -> TakenExtensions<'p> {
        let mut taken = Entries::new(self.allocator());
        if let Some(mut parts) = self.block() {
            mem::swap(&mut taken, &mut parts.extensions);
            self.put_block(parts);
        }
        TakenExtensions {
            descriptor: self.descriptor(),
            entries: taken.into_iter(),
        }
    }

    fn take_unknown_fields(&mut self) -> Result<Vec<UnknownField>, AllocError> {
        let fields = unknown_copies(self)?;
        if let Some(mut parts) = self.block() {
            parts.unknown.clear();
            self.put_block(parts);
        }
        Ok(fields)
    }
}

/// Copies of the records of numbers that the type does not declare.
fn unknown_copies(message: &DynamicMessage<'_>) -> Result<Vec<UnknownField>, AllocError>
    ensures { IfOk result (λ records. map field_view records.items ≡ unknown_of message.now) }
{
    let mut fields = Vec::new(message.allocator());
    for field in message.unknown_fields() {
        push_copy(&mut fields, field)?;
    }
    Ok(fields)
}

/// Puts a copy of the record behind the others.
fn push_copy(fields: &mut Vec<UnknownField>, field: &UnknownField) -> Result<(), AllocError>
    ensures { OnOk result (map field_view fields.new.items ≡ map field_view fields.old.items
        ++ (field_view field.now ∷ [])) }
{
    fields.push(field.clone()?)?;
    Ok(())
}

/// The fields that were taken out of a message, by ascending number.
#[derive(Drop)]
pub struct TakenFields<'p> {
    descriptor: MessageDescriptor<'p>,
    entries: entries::IntoIter<Value<'p>>,
}

impl<'p> Iterator for TakenFields<'p> {
    ghost use Rattle.std.specs.Iterator.{YieldsFirstBy, item_count};
    ghost use Rattle.reflect_contents.specs.Walked.{field_given, taken_fields_left};

    type Item = (FieldDescriptor<'p>, Value<'p>);

    ghost next_gives = { YieldsFirstBy field_given taken_fields_left };

    ghost remaining = { item_count taken_fields_left };

    fn next(&mut self) -> Option<(FieldDescriptor<'p>, Value<'p>)> {
        let descriptor = self.descriptor;
        'entries: while let Some((number, value)) = self.entries.next() {
            if let Some(field) = field_if_set(descriptor, number, &value) {
                return Some((field, value));
            }
        }
        None
    }
}

/// The extensions that were taken out of a message, by ascending number.
#[derive(Drop)]
pub struct TakenExtensions<'p> {
    descriptor: MessageDescriptor<'p>,
    entries: entries::IntoIter<Value<'p>>,
}

impl<'p> Iterator for TakenExtensions<'p> {
    ghost use Rattle.std.specs.Iterator.{YieldsFirstBy, item_count};
    ghost use Rattle.reflect_contents.specs.Walked.{extension_given, taken_extensions_left};

    type Item = (ExtensionDescriptor<'p>, Value<'p>);

    ghost next_gives = { YieldsFirstBy extension_given taken_extensions_left };

    ghost remaining = { item_count taken_extensions_left };

    fn next(&mut self) -> Option<(ExtensionDescriptor<'p>, Value<'p>)> {
        let descriptor = self.descriptor;
        'entries: while let Some((number, value)) = self.entries.next() {
            if let Some(extension) = extension_if_set(descriptor, number, &value) {
                return Some((extension, value));
            }
        }
        None
    }
}
