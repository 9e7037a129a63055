//! Fields by their names.

ghost use Rattle.std.specs.Prelude.{◌≡◌, IfErr, IfNone, IfOk, IfSome, OnErr, OnOk};
ghost use Rattle.reflect_entries.specs.Entries.{IsAscending};
ghost use Rattle.reflect_message.specs.Held.{fields_of};
ghost use Rattle.reflect_message.specs.Oneofs.{IsExclusive};
ghost use Rattle.reflect_numbered.specs.Called.{HasName, HasNothing, IsMeant, Lends, NoneMeant, OwnsMeant, SetsMeant};
ghost use Rattle.reflect_numbered.specs.Called.{SomeMeant, StaysWhole, TakesMeant, TellsMeant, UnsetsMeant};
ghost use Rattle.reflect_numbered.specs.Refused.{RefusesSet};

use reflect_message::{DynamicMessage, FieldRef, Value};
use reflect_numbered::{SetFieldError, TrySetField};
use reflect_pool::{FieldDescriptor, MessageDescriptor};
use reflect_scalar::holds_floats;
use std::alloc::AllocError;

/// The field of a name that messages of the type hold.
pub fn declared_field_by_name<'p>(
    descriptor: MessageDescriptor<'p>,
    name: &str,
) -> Option<FieldDescriptor<'p>>
    ensures meant { IfSome result (IsMeant (HasName name.now) descriptor.entry) }
    ensures none { IfNone result (NoneMeant (HasName name.now) descriptor.entry) }
{
    match descriptor.get_field_by_name(name) {
        Some(field) => {
            if holds_floats(&field) {
                None
            } else {
                Some(field)
            }
        }
        None => None,
    }
}

/// A message whose fields are called by their names.
pub trait FieldsByName<'p> {
    ghost use Rattle.reflect_message.specs.Names.{DynamicMessage};

    /// The message that it is.
    ghost message: { Self → DynamicMessage };

    /// The field of the name is set. Takes no memory.
    fn has_field_by_name(&self, name: &str) -> bool
        ensures { TellsMeant (HasName name.now) (message self.now) result };

    /// What the field of the name holds, or its default, which may take memory; `None` where there
    /// is no such field.
    fn get_field_by_name(&self, name: &str) -> Result<Option<FieldRef<'_, 'p>>, AllocError>
        ensures lends { IfOk result (Lends (HasName name.now) (message self.now)) }
        ensures unset { OnErr result (HasNothing (HasName name.now) (message self.now)) };

    /// Sets the field of the name to a value that suits it; without such a field nothing happens. A
    /// refusal leaves the message.
    fn set_field_by_name(&mut self, name: &str, value: Value<'p>) -> Result<(), AllocError>
        ensures type_stays { (message self.new).descriptor ≡ (message self.old).descriptor }
        ensures meant { OnErr result (SomeMeant (HasName name.now) (message self.old).descriptor) }
        ensures ok { OnOk result (SetsMeant (HasName name.now) (message self.old) (message self.new)
            value.entry) }
        ensures ascending { OnOk result (IsAscending (fields_of (message self.old))
            → IsAscending (fields_of (message self.new))) }
        ensures exclusive { OwnsMeant (HasName name.now) (message self.old).descriptor
            → IsExclusive (message self.old) → IsExclusive (message self.new) }
        ensures err { OnErr result (StaysWhole (message self.old) (message self.new)) };

    /// Sets the field of the name, as `try_set_field` does. `NotFound` where there is no such
    /// field.
    fn try_set_field_by_name(
        &mut self,
        name: &str,
        value: Value<'p>,
    ) -> Result<(), SetFieldError<'p>>
        ensures type_stays { (message self.new).descriptor ≡ (message self.old).descriptor }
        ensures ok { OnOk result (SetsMeant (HasName name.now) (message self.old) (message self.new)
            value.entry) }
        ensures ascending { OnOk result (IsAscending (fields_of (message self.new))) }
        ensures exclusive { OwnsMeant (HasName name.now) (message self.old).descriptor
            → IsExclusive (message self.old) → IsExclusive (message self.new) }
        ensures refused { IfErr result
            (RefusesSet (HasName name.now) (message self.old).descriptor value.entry) }
        ensures err { OnErr result (StaysWhole (message self.old) (message self.new)) };

    /// Unsets the field of the name, if there is one. Takes no memory.
    fn clear_field_by_name(&mut self, name: &str)
        ensures type_stays { (message self.new).descriptor ≡ (message self.old).descriptor }
        ensures unsets { UnsetsMeant (HasName name.now) (message self.old) (message self.new) }
        ensures exclusive { IsExclusive (message self.old) → IsExclusive (message self.new) };

    /// Unsets the field of the name and gives what it held, if there is one and it was set. Takes
    /// no memory.
    fn take_field_by_name(&mut self, name: &str) -> Option<Value<'p>>
        ensures type_stays { (message self.new).descriptor ≡ (message self.old).descriptor }
        ensures takes { TakesMeant (HasName name.now) (message self.old)
            (message self.new) result }
        ensures exclusive { IsExclusive (message self.old) → IsExclusive (message self.new) };
}

impl<'p> FieldsByName<'p> for DynamicMessage<'p> {
    ghost message = { λ m. m };

    fn has_field_by_name(&self, name: &str) -> bool {
        match declared_field_by_name(self.descriptor(), name) {
            Some(field) => self.has_field(&field),
            None => false,
        }
    }

    fn get_field_by_name(&self, name: &str) -> Result<Option<FieldRef<'_, 'p>>, AllocError> {
        match declared_field_by_name(self.descriptor(), name) {
            Some(field) => Ok(Some(self.get_field(&field)?)),
            None => Ok(None),
        }
    }

    fn set_field_by_name(&mut self, name: &str, value: Value<'p>) -> Result<(), AllocError> {
        match declared_field_by_name(self.descriptor(), name) {
            Some(field) => self.set_field(&field, value),
            None => Ok(()),
        }
    }

    fn try_set_field_by_name(
        &mut self,
        name: &str,
        value: Value<'p>,
    ) -> Result<(), SetFieldError<'p>> {
        match declared_field_by_name(self.descriptor(), name) {
            Some(field) => self.try_set_field(&field, value),
            None => Err(SetFieldError::NotFound),
        }
    }

    fn clear_field_by_name(&mut self, name: &str) {
        if let Some(field) = declared_field_by_name(self.descriptor(), name) {
            self.clear_field(&field);
        }
    }

    fn take_field_by_name(&mut self, name: &str) -> Option<Value<'p>> {
        match declared_field_by_name(self.descriptor(), name) {
            Some(field) => self.take_field(&field),
            None => None,
        }
    }
}
