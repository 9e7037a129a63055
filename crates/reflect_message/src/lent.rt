//! Values that messages lend to be changed.
//!
//! What is lent names no lifetime here, but a type `D`: so a contract can say what the message is
//! once the borrow has ended.

ghost use Rattle.std.specs.Borrow.{sem};
ghost use Rattle.std.specs.Option.{option_copied_mut};
ghost use Rattle.std.specs.Prelude.{◌≡◌, IfOk};
ghost use Rattle.reflect_entries.specs.Entries.{value_at};
ghost use Rattle.reflect_message.specs.Held.{extensions_of, fields_of};

use crate::field_of::{ExtensionOf, FieldOf};
use crate::message::MessageOf;
use crate::parts::HeldOf;
use crate::value::ValueOf;
use std::alloc::AllocError;

impl<D> MessageOf<D> {
    ghost use Rattle.reflect_message.specs.Lent.{lends_extension, lends_field, lends_put, lends_set};

    /// What the field, one of the message's type, holds, to be changed. A field that is not set
    /// gets its default, and the other members of its oneof are unset. Behind the borrow the field
    /// is set to the last value that was written. A refusal leaves the message.
    pub fn get_field_mut<F: FieldOf<D>>(&mut self, field: &F) -> Result<&mut ValueOf<D>, AllocError>
        requires { F.FieldOf.suits field.now self.old.descriptor }
        ensures* writes_back { sem 𝓛 (lends_set D.row (F.FieldOf.sets field.now)
            (F.FieldOf.leaves field.now) self.entry result) }
        ensures value { IfOk result (λ r. F.FieldOf.shows field.now
            (value_at (fields_of self.old) (F.FieldOf.number_of field.now)) r.now) }
    {
        field.fill(self)?;
        match self.field_value_mut(field.number()) {
            Some(value) => Ok(value),
            None => unreachable!(),
        }
    }

    /// What the extension, one of the message's type, holds, to be changed. One that is not set
    /// gets its default. Behind the borrow the extension is set to the last value that was written.
    /// A refusal leaves the message.
    pub fn get_extension_mut<X: ExtensionOf<D>>(
        &mut self,
        extension: &X,
    ) -> Result<&mut ValueOf<D>, AllocError>
        ensures* writes_back { sem 𝓛 (lends_put D.row (X.ExtensionOf.number_of extension.now)
            self.entry result) }
        ensures value { IfOk result (λ r. X.ExtensionOf.shows extension.now
            (value_at (extensions_of self.old) (X.ExtensionOf.number_of extension.now)) r.now) }
    {
        extension.fill(self)?;
        match self.extension_value_mut(extension.number()) {
            Some(value) => Ok(value),
            None => unreachable!(),
        }
    }

    /// What stands under the number of a declared field, to be changed.
    fn field_value_mut(&mut self, number: u32) -> Option<&mut ValueOf<D>>
        ensures* writes_back { sem 𝓛 (lends_field D.row number self.entry result) }
        ensures value { option_copied_mut result ≡ value_at (fields_of self.old) number }
    {
        match &mut self.held {
            HeldOf::Block(parts) => parts.fields.get_mut(number),
            HeldOf::Nothing => None,
        }
    }

    /// What stands under the number of an extension, to be changed.
    fn extension_value_mut(&mut self, number: u32) -> Option<&mut ValueOf<D>>
        ensures* writes_back { sem 𝓛 (lends_extension D.row number self.entry result) }
        ensures value { option_copied_mut result ≡ value_at (extensions_of self.old) number }
    {
        match &mut self.held {
            HeldOf::Block(parts) => parts.extensions.get_mut(number),
            HeldOf::Nothing => None,
        }
    }
}
