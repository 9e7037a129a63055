//! Fields by their numbers.

ghost use Rattle.std.specs.Prelude.{◌≡◌, IfErr, IfOk, IsSome, IsTrue, OnErr, OnOk};
ghost use Rattle.reflect_entries.specs.Entries.{IsAscending, value_at};
ghost use Rattle.reflect_message.specs.Held.{fields_of};
ghost use Rattle.reflect_message.specs.Oneofs.{IsExclusive};
ghost use Rattle.reflect_numbered.specs.Called.{HasNothing, HasNumber, Lends, SetsMeant, SomeMeant, StaysWhole};
ghost use Rattle.reflect_numbered.specs.Called.{TakesMeant, TellsMeant, UnsetsMeant};
ghost use Rattle.reflect_numbered.specs.Refused.{RefusesSet};

use crate::set_field_error::{SetFieldError, TrySetField};
use reflect_message::{DynamicMessage, FieldRef, Value, declared_field};
use std::alloc::AllocError;

/// A message whose fields are called by their numbers.
pub trait FieldsByNumber<'p> {
    ghost use Rattle.reflect_message.specs.Names.{DynamicMessage};

    /// The message that it is.
    ghost message: { Self → DynamicMessage };

    /// The field of the number is set. Takes no memory.
    fn has_field_by_number(&self, number: u32) -> bool
        ensures held { IsTrue result → IsSome (value_at (fields_of (message self.now)) number) }
        ensures tells { TellsMeant (HasNumber number) (message self.now) result };

    /// What the field of the number holds, or its default, which may take memory; `None` where
    /// there is no such field.
    fn get_field_by_number(&self, number: u32) -> Result<Option<FieldRef<'_, 'p>>, AllocError>
        ensures lends { IfOk result (Lends (HasNumber number) (message self.now)) }
        ensures unset { OnErr result (HasNothing (HasNumber number) (message self.now)) };

    /// Sets the field of the number to a value that suits it; without such a field nothing happens.
    /// A refusal leaves the message.
    fn set_field_by_number(&mut self, number: u32, value: Value<'p>) -> Result<(), AllocError>
        ensures type_stays { (message self.new).descriptor ≡ (message self.old).descriptor }
        ensures meant { OnErr result (SomeMeant (HasNumber number) (message self.old).descriptor) }
        ensures ok { OnOk result (SetsMeant (HasNumber number) (message self.old) (message self.new)
            value.entry) }
        ensures ascending { OnOk result (IsAscending (fields_of (message self.old))
            → IsAscending (fields_of (message self.new))) }
        ensures exclusive { IsExclusive (message self.old) → IsExclusive (message self.new) }
        ensures err { OnErr result (StaysWhole (message self.old) (message self.new)) };

    /// Sets the field of the number, as `try_set_field` does. `NotFound` where there is no such
    /// field.
    fn try_set_field_by_number(
        &mut self,
        number: u32,
        value: Value<'p>,
    ) -> Result<(), SetFieldError<'p>>
        ensures type_stays { (message self.new).descriptor ≡ (message self.old).descriptor }
        ensures ok { OnOk result (SetsMeant (HasNumber number) (message self.old) (message self.new)
            value.entry) }
        ensures ascending { OnOk result (IsAscending (fields_of (message self.new))) }
        ensures exclusive { IsExclusive (message self.old) → IsExclusive (message self.new) }
        ensures refused { IfErr result
            (RefusesSet (HasNumber number) (message self.old).descriptor value.entry) }
        ensures err { OnErr result (StaysWhole (message self.old) (message self.new)) };

    /// Unsets the field of the number, if there is one. Takes no memory.
    fn clear_field_by_number(&mut self, number: u32)
        ensures type_stays { (message self.new).descriptor ≡ (message self.old).descriptor }
        ensures unsets { UnsetsMeant (HasNumber number) (message self.old) (message self.new) }
        ensures exclusive { IsExclusive (message self.old) → IsExclusive (message self.new) };

    /// Unsets the field of the number and gives what it held, if there is one and it was set. Takes
    /// no memory.
    fn take_field_by_number(&mut self, number: u32) -> Option<Value<'p>>
        ensures type_stays { (message self.new).descriptor ≡ (message self.old).descriptor }
        ensures takes { TakesMeant (HasNumber number) (message self.old)
            (message self.new) result }
        ensures exclusive { IsExclusive (message self.old) → IsExclusive (message self.new) };
}

impl<'p> FieldsByNumber<'p> for DynamicMessage<'p> {
    ghost message = { λ m. m };

    fn has_field_by_number(&self, number: u32) -> bool {
        match declared_field(self.descriptor(), number) {
            Some(field) => self.has_field(&field),
            None => false,
        }
    }

    fn get_field_by_number(&self, number: u32) -> Result<Option<FieldRef<'_, 'p>>, AllocError> {
        match declared_field(self.descriptor(), number) {
            Some(field) => Ok(Some(self.get_field(&field)?)),
            None => Ok(None),
        }
    }

    fn set_field_by_number(&mut self, number: u32, value: Value<'p>) -> Result<(), AllocError> {
        match declared_field(self.descriptor(), number) {
            Some(field) => self.set_field(&field, value),
            None => Ok(()),
        }
    }

    fn try_set_field_by_number(
        &mut self,
        number: u32,
        value: Value<'p>,
    ) -> Result<(), SetFieldError<'p>> {
        match declared_field(self.descriptor(), number) {
            Some(field) => self.try_set_field(&field, value),
            None => Err(SetFieldError::NotFound),
        }
    }

    fn clear_field_by_number(&mut self, number: u32) {
        if let Some(field) = declared_field(self.descriptor(), number) {
            self.clear_field(&field);
        }
    }

    fn take_field_by_number(&mut self, number: u32) -> Option<Value<'p>> {
        match declared_field(self.descriptor(), number) {
            Some(field) => self.take_field(&field),
            None => None,
        }
    }
}
