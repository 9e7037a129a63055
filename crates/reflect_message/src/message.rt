ghost use Rattle.std.specs.Prelude.{◌≡◌, ◌↔◌, [], IfSome, IfNone, IsTrue};
ghost use Rattle.std.specs.Option.{option_copied};
ghost use Rattle.reflect_entries.specs.Entries.{value_at};
ghost use Rattle.reflect_entries.specs.Undeclared.{undeclared};
ghost use Rattle.reflect_message.specs.Contents.{content_of, nothing};
ghost use Rattle.reflect_message.specs.Declares.{IsHeldField, IsHeldExtension};
ghost use Rattle.reflect_message.specs.Held.{fields_of, choices_of, extensions_of, unknown_of};
ghost use Rattle.reflect_message.specs.Oneofs.{IsExclusive};

use crate::parts::{Held, HeldOf, Parts};
use crate::value::Value;
use reflect_pool::{ExtensionDescriptor, FieldDescriptor, MessageDescriptor};
use reflect_scalar::holds_floats;
use std::alloc::Global;
use std::mem;

/// A message of whose type a `D` tells.
#[derive(Drop)]
#[cycle(value)]
pub struct MessageOf<D> {
    pub(crate) descriptor: D,
    pub(crate) alloc: Global,
    pub(crate) held: HeldOf<D>,
}

/// A message of a type that is known at run time.
pub type DynamicMessage<'p> = MessageOf<MessageDescriptor<'p>>;

impl<'p> DynamicMessage<'p> {
    /// A message in which no field is set. Takes no memory.
    pub fn new(alloc: Global, descriptor: MessageDescriptor<'p>) -> DynamicMessage<'p>
        ensures same_type { result.descriptor ≡ descriptor.entry }
        ensures fields { fields_of result ≡ [] }
        ensures exclusive { IsExclusive result }
        ensures extensions { extensions_of result ≡ [] }
        ensures unknown { unknown_of result ≡ [] }
        ensures empty { content_of result ≡ nothing }
    {
        DynamicMessage {
            descriptor,
            alloc,
            held: Held::Nothing,
        }
    }

    /// A message of the type that holds this.
    pub fn with_held(
        alloc: Global,
        descriptor: MessageDescriptor<'p>,
        held: Held<'p>,
    ) -> DynamicMessage<'p>
        ensures same_type { result.descriptor ≡ descriptor.entry }
        ensures held { result.held ≡ held.entry }
    {
        DynamicMessage {
            descriptor,
            alloc,
            held,
        }
    }

    /// The message's type.
    pub fn descriptor(&self) -> MessageDescriptor<'p>
        ensures { result ≡ self.now.descriptor }
    {
        self.descriptor
    }

    /// Unsets all fields and extensions, and drops the other records. Takes no memory.
    pub fn clear(&mut self)
        ensures type_stays { self.new.descriptor ≡ self.old.descriptor }
        ensures empty { content_of self.new ≡ nothing }
    {
        self.held = Held::Nothing;
    }

    /// The field is one of the message's type, and one that messages hold: no floating-point
    /// number, and no map of such.
    pub fn declares(&self, field: &FieldDescriptor<'p>) -> bool
        ensures { IsTrue result ↔ IsHeldField self.now.descriptor field.now }
    {
        field.parent_message().is_same(&self.descriptor) && !holds_floats(field)
    }

    /// The extension is one of the message's type, and one that messages hold, as for fields.
    pub fn declares_extension(&self, extension: &ExtensionDescriptor<'p>) -> bool
        ensures { IsTrue result ↔ IsHeldExtension self.now.descriptor extension.now }
    {
        extension.containing_message().is_same(&self.descriptor) && !holds_floats(extension)
    }

    /// What stands under the number of a declared field.
    pub(crate) fn field_value(&self, number: u32) -> Option<&Value<'p>>
        ensures { option_copied result ≡ value_at (fields_of self.now) number }
    {
        match &self.held {
            Held::Block(parts) => parts.fields.get(number),
            Held::Nothing => None,
        }
    }

    /// What stands under the number of an extension.
    pub(crate) fn extension_value(&self, number: u32) -> Option<&Value<'p>>
        ensures { option_copied result ≡ value_at (extensions_of self.now) number }
    {
        match &self.held {
            Held::Block(parts) => parts.extensions.get(number),
            Held::Nothing => None,
        }
    }

    /// The block of what the message holds, taken out, if it holds anything. Takes no memory.
    pub fn block(&mut self) -> Option<Box<Parts<'p>>>
        ensures type_stays { self.new.descriptor ≡ self.old.descriptor }
        ensures fields { IfSome result (λ block. block.value.fields ≡ fields_of self.old) }
        ensures choices { IfSome result
            (λ block. block.value.choices.members ≡ choices_of self.old) }
        ensures extensions { IfSome result
            (λ block. block.value.extensions ≡ extensions_of self.old) }
        ensures unknown { IfSome result
            (λ block. undeclared block.value.unknown ≡ unknown_of self.old) }
        ensures nothing { IfNone result
            ((fields_of self.old ≡ []) × (choices_of self.old ≡ []) × (extensions_of self.old ≡ [])
            × (unknown_of self.old ≡ [])) }
        ensures none { IfNone result (self.new ≡ self.old) }
    {
        match mem::replace(&mut self.held, Held::Nothing) {
            Held::Block(block) => Some(block),
            Held::Nothing => None,
        }
    }
}
