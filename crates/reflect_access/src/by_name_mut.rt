//! Values that messages lend by the names of their fields, to be changed.
//!
//! As by the number of a field, what is lent names no lifetime, but a type `D`.

ghost use Rattle.std.specs.Borrow.{sem};
ghost use Rattle.std.specs.Prelude.{ℕ, IfErr, IfNone, IfOk, IfSome, List};
ghost use Rattle.reflect_numbered.specs.Lent.{LacksLoan, ShowsMeant, lends_meant};

use crate::by_name::declared_field_by_name;
use reflect_message::{DynamicMessage, FieldOf, MessageOf, ValueOf};
use reflect_numbered::LendError;
use reflect_pool::{FieldDescriptor, MessageDescriptor};

/// What tells of the types of messages, whose fields are found by their names.
pub trait NamedFields {
    /// A field of such messages.
    type Field: FieldOf<Self> + Copy;

    /// The field is the one that the name means.
    ghost is_meant: { Self → List ℕ → Self.Field → Type 0 };

    /// The field of the name that the message's type has, if messages hold it.
    fn field_by_name(message: &MessageOf<Self>, name: &str) -> Option<Self::Field>
        ensures suits { IfSome result (λ f. Self.Field.suits f message.now.descriptor) }
        ensures meant { IfSome result (is_meant message.now.descriptor name.now) }
        ensures none { IfNone result
            ((f : Self.Field) → is_meant message.now.descriptor name.now f → ⊥) };
}

impl<'p> NamedFields for MessageDescriptor<'p> {
    ghost use Rattle.reflect_numbered.specs.Called.{HasName, IsMeant};

    type Field = FieldDescriptor<'p>;

    ghost is_meant = { λ d name. IsMeant (HasName name) d };

    fn field_by_name(message: &DynamicMessage<'p>, name: &str) -> Option<FieldDescriptor<'p>> {
        declared_field_by_name(message.descriptor(), name)
    }
}

/// A message that lends what its fields hold by their names.
pub trait FieldsByNameMut<D: NamedFields> {
    ghost use Rattle.reflect_message.specs.declared.message.MessageOf.{MessageOf};

    /// The message that it is.
    ghost message: { Self → MessageOf D };

    /// What the field of the name holds, to be changed, as `get_field_mut` gives it. Behind the
    /// borrow the field is set to the last value that was written.
    ///
    /// `NotFound` where there is no such field, and then the message stays. Want of memory leaves
    /// what it holds.
    fn get_field_by_name_mut(&mut self, name: &str) -> Result<&mut ValueOf<D>, LendError>
        ensures* writes_back { sem 𝓛 (lends_meant Self.row D.row message
            (D.is_meant (message self.old).descriptor name.now) D.Field.sets D.Field.leaves
            self.entry result) }
        ensures value { IfOk result (λ r. ShowsMeant
            (D.is_meant (message self.old).descriptor name.now) D.Field.number_of D.Field.shows
            (message self.old) r.now) }
        ensures refused { IfErr result
            (LacksLoan (D.is_meant (message self.old).descriptor name.now)) };
}

impl<D: NamedFields> FieldsByNameMut<D> for MessageOf<D> {
    ghost message = { λ m. m };

    fn get_field_by_name_mut(&mut self, name: &str) -> Result<&mut ValueOf<D>, LendError> {
        match D::field_by_name(self, name) {
            Some(field) => Ok(self.get_field_mut(&field)?),
            None => Err(LendError::NotFound),
        }
    }
}
