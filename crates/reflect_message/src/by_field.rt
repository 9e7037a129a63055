//! Fields by their descriptors.

ghost use Rattle.std.specs.Prelude.{◌≡◌, true, None, Some, IsTrue, IsSome, IfOk, IfSome, OnOk, OnErr};
ghost use Rattle.std.specs.Option.{unwrap_or};
ghost use Rattle.reflect_pool.specs.FieldsLeft.{field_type};
ghost use Rattle.reflect_scalar.specs.FieldTypes.{field_pool};
ghost use Rattle.reflect_entries.specs.Entries.{IsAscending, value_at};
ghost use Rattle.reflect_message.specs.Declares.{Declares, Owns};
ghost use Rattle.reflect_message.specs.Held.{fields_of, extensions_of, unknown_of, UpdatesField};
ghost use Rattle.reflect_message.specs.Oneofs.{IsExclusive, SetsField};
ghost use Rattle.reflect_message.specs.Present.{held_if_set, is_held};
ghost use Rattle.reflect_message.specs.Shown.{Shows};

use crate::content;
use crate::field_ref::FieldRef;
use crate::message::DynamicMessage;
use crate::message_parts::MessageParts;
use crate::value::Value;
use reflect_pool::FieldDescriptor;
use std::alloc::AllocError;

impl<'p> DynamicMessage<'p> {
    /// The field, one of the message's type, is set: it has presence and was set, or it holds
    /// something else than its default. Takes no memory.
    pub fn has_field(&self, field: &FieldDescriptor<'p>) -> bool
        requires { Declares self.now.descriptor field.now }
        ensures held { IsTrue result → IsSome
            (value_at (fields_of self.now) (field_type field.now).number) }
        ensures presence { (field_type field.now).presence ≡ true
            → IsSome (value_at (fields_of self.now) (field_type field.now).number) → IsTrue result }
        ensures set { result ≡ is_held (field_pool field.now) (field_type field.now)
            (value_at (fields_of self.now) (field_type field.now).number) }
    {
        content::is_set(self.field_value(field.number()), field)
    }

    /// What the field, one of the message's type, holds, or its default, which may take memory;
    /// what is held takes none.
    pub fn get_field(&self, field: &FieldDescriptor<'p>) -> Result<FieldRef<'_, 'p>, AllocError>
        requires { Declares self.now.descriptor field.now }
        ensures shows { IfOk result (Shows (field_pool field.now) (field_type field.now)
            (value_at (fields_of self.now) (field_type field.now).number)) }
        ensures unset { OnErr result
            (value_at (fields_of self.now) (field_type field.now).number ≡ None) }
    {
        content::lend(self.allocator(), self.field_value(field.number()), field)
    }

    /// Puts the default where the field, one of the message's type, holds nothing, and unsets the
    /// other members of its oneof: what `get_field_mut` does before it lends the value. A refusal
    /// leaves the message.
    pub(crate) fn fill_field(
        &mut self,
        field: &FieldDescriptor<'p>,
        default: Value<'p>,
    ) -> Result<(), AllocError>
        ensures type_stays { self.new.descriptor ≡ self.old.descriptor }
        ensures ok { OnOk result (SetsField self.old self.new field.now
            (unwrap_or (value_at (fields_of self.old) (field_type field.now).number)
            default.entry)) }
        ensures ascending { OnOk result (IsAscending (fields_of self.new)) }
        ensures exclusive { Owns self.old.descriptor field.now → IsExclusive self.old
            → IsExclusive self.new }
        ensures err { OnErr result (fields_of self.new ≡ fields_of self.old) }
        ensures extensions { extensions_of self.new ≡ extensions_of self.old }
        ensures unknown { unknown_of self.new ≡ unknown_of self.old }
    {
        let mut parts = self.take_block()?;
        let outcome = parts.fill_field(field, default);
        self.put_block(parts);
        outcome
    }

    /// Sets the field, one of the message's type, to a value that suits it, over what it held; the
    /// other members of its oneof are unset. A refusal leaves the message.
    pub fn set_field(
        &mut self,
        field: &FieldDescriptor<'p>,
        value: Value<'p>,
    ) -> Result<(), AllocError>
        requires { Declares self.old.descriptor field.now }
        ensures type_stays { self.new.descriptor ≡ self.old.descriptor }
        ensures ok { OnOk result (SetsField self.old self.new field.now value.entry) }
        ensures ascending { OnOk result (IsAscending (fields_of self.new)) }
        ensures exclusive { Owns self.old.descriptor field.now → IsExclusive self.old
            → IsExclusive self.new }
        ensures err { OnErr result (fields_of self.new ≡ fields_of self.old) }
        ensures extensions { extensions_of self.new ≡ extensions_of self.old }
        ensures unknown { unknown_of self.new ≡ unknown_of self.old }
    {
        let mut parts = self.take_block()?;
        let outcome = parts.set_field(field, value);
        self.put_block(parts);
        outcome
    }

    /// Unsets the field, one of the message's type. Takes no memory.
    pub fn clear_field(&mut self, field: &FieldDescriptor<'p>)
        requires { Declares self.old.descriptor field.now }
        ensures updates { UpdatesField self.old self.new (field_type field.now).number None }
        ensures exclusive { IsExclusive self.old → IsExclusive self.new }
    {
        if let Some(mut parts) = self.block() {
            parts.fields.take(field.number());
            self.put_block(parts);
        }
    }

    /// Unsets the field, one of the message's type, and gives what it held, if it was set. Takes no
    /// memory.
    pub fn take_field(&mut self, field: &FieldDescriptor<'p>) -> Option<Value<'p>>
        requires { Declares self.old.descriptor field.now }
        ensures updates { UpdatesField self.old self.new (field_type field.now).number None }
        ensures exclusive { IsExclusive self.old → IsExclusive self.new }
        ensures held { IfSome result (λ v. value_at (fields_of self.old)
            (field_type field.now).number ≡ Some v) }
        ensures presence { (field_type field.now).presence ≡ true → result
            ≡ value_at (fields_of self.old) (field_type field.now).number }
        ensures taken { result ≡ held_if_set (field_pool field.now) (field_type field.now)
            (value_at (fields_of self.old) (field_type field.now).number) }
    {
        match self.block() {
            Some(mut parts) => {
                let taken = content::take(&mut parts.fields, field);
                self.put_block(parts);
                taken
            }
            None => None,
        }
    }
}
