//! Fields set to values that need not suit them.

ghost use Rattle.std.specs.Prelude.{◌≡◌, IfErr, OnErr, OnOk, Some};
ghost use Rattle.reflect_pool.specs.FieldsLeft.{field_type};
ghost use Rattle.reflect_scalar.specs.FieldTypes.{field_pool};
ghost use Rattle.reflect_entries.specs.Entries.{IsAscending};
ghost use Rattle.reflect_message.specs.Declares.{Declares, Owns};
ghost use Rattle.reflect_message.specs.Held.{fields_of};
ghost use Rattle.reflect_message.specs.Oneofs.{IsExclusive, SetsField};
ghost use Rattle.reflect_numbered.specs.Called.{StaysWhole};
ghost use Rattle.reflect_numbered.specs.Fits.{IsValidFor};
ghost use Rattle.reflect_numbered.specs.Refused.{HandsBack};
ghost use Rattle.reflect_numbered.specs.Texts.{named};

use crate::validity::is_valid_for;
use reflect_message::{DynamicMessage, Value};
use reflect_pool::FieldDescriptor;
use reflect_scalar::AnyField;
use std::alloc::AllocError;
use std::fmt;
use thiserror::Error;

/// Why a field was not set.
#[derive(Drop, Error)]
pub enum SetFieldError<'p> {
    /// The message's type has no such field, or one that messages do not hold.
    #[error("field not found")]
    NotFound,
    /// The field does not take the value; both are handed back.
    #[error("a value of invalid type was passed for field '{}'", .field.name())]
    InvalidType {
        field: FieldDescriptor<'p>,
        value: Value<'p>,
    },
    /// Want of memory.
    #[error("out of memory")]
    Memory,
}

impl<'p> fmt::Debug for SetFieldError<'p> {
    ghost debug_output = { λ e. Some (named e) };

    fn fmt<W: fmt::Write>(&self, f: &mut fmt::Formatter<W>) -> fmt::Result {
        match self {
            SetFieldError::NotFound => f.write_str("NotFound"),
            SetFieldError::InvalidType { field, value: _ } => {
                write!(f, "InvalidType({})", field.name())
            }
            SetFieldError::Memory => f.write_str("Memory"),
        }
    }
}

impl<'p> From<AllocError> for SetFieldError<'p> {
    ghost use Rattle.std.specs.Prelude.{◌≡◌};
    ghost use Rattle.reflect_numbered.specs.declared.set_field_error.SetFieldError.TheVariants.{Memory};

    ghost from_gives = { λ e x. x ≡ Memory };

    fn from(_error: AllocError) -> SetFieldError<'p> {
        SetFieldError::Memory
    }
}

/// A message whose fields are set where the value suits.
pub trait TrySetField<'p> {
    ghost use Rattle.reflect_message.specs.Names.{DynamicMessage};

    /// The message that it is.
    ghost message: { Self → DynamicMessage };

    /// Sets the field, one of the message's type, as `set_field` does.
    ///
    /// `InvalidType` hands field and value back where the field does not take the value; then, and
    /// for want of memory, the message is unchanged.
    fn try_set_field(
        &mut self,
        field: &FieldDescriptor<'p>,
        value: Value<'p>,
    ) -> Result<(), SetFieldError<'p>>
        requires { Declares (message self.old).descriptor field.now }
        ensures type_stays { (message self.new).descriptor ≡ (message self.old).descriptor }
        ensures suits { OnOk result (IsValidFor (field_pool field.now) (field_type field.now)
            value.entry) }
        ensures ok { OnOk result (SetsField (message self.old) (message self.new) field.now
            value.entry) }
        ensures ascending { OnOk result (IsAscending (fields_of (message self.new))) }
        ensures exclusive { Owns (message self.old).descriptor field.now
            → IsExclusive (message self.old) → IsExclusive (message self.new) }
        ensures refused { IfErr result (HandsBack field.now value.entry) }
        ensures err { OnErr result (StaysWhole (message self.old) (message self.new)) };
}

impl<'p> TrySetField<'p> for DynamicMessage<'p> {
    ghost message = { λ m. m };

    fn try_set_field(
        &mut self,
        field: &FieldDescriptor<'p>,
        value: Value<'p>,
    ) -> Result<(), SetFieldError<'p>> {
        if !is_valid_for(&value, AnyField::Field(*field)) {
            return Err(SetFieldError::InvalidType {
                field: *field,
                value,
            });
        }
        self.set_field(field, value)?;
        Ok(())
    }
}
