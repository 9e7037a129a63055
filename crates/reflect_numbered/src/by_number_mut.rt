//! Values that messages lend by the numbers of their fields, to be changed.
//!
//! As by the descriptor of a field, what is lent names no lifetime, but a type `D`: so a contract
//! can say what the message is once the borrow has ended.

ghost use Rattle.std.specs.Borrow.{sem};
ghost use Rattle.std.specs.Prelude.{ℕ, IfErr, IfNone, IfOk, IfSome};
ghost use Rattle.reflect_numbered.specs.Lent.{LacksLoan, ShowsMeant, lends_meant};

use crate::lend_error::LendError;
use reflect_message::{DynamicMessage, FieldOf, MessageOf, ValueOf, declared_field};
use reflect_pool::{FieldDescriptor, MessageDescriptor};

/// What tells of the types of messages, whose fields are found by their numbers.
pub trait NumberedFields {
    /// A field of such messages.
    type Field: FieldOf<Self> + Copy;

    /// The field is the one that the number means.
    ghost is_meant: { Self → ℕ → Self.Field → Type 0 };

    /// The field of the number that the message's type has, if messages hold it.
    fn field_by_number(message: &MessageOf<Self>, number: u32) -> Option<Self::Field>
        ensures suits { IfSome result (λ f. Self.Field.suits f message.now.descriptor) }
        ensures meant { IfSome result (is_meant message.now.descriptor number) }
        ensures none { IfNone result
            ((f : Self.Field) → is_meant message.now.descriptor number f → ⊥) };
}

impl<'p> NumberedFields for MessageDescriptor<'p> {
    ghost use Rattle.reflect_numbered.specs.Called.{HasNumber, IsMeant};

    type Field = FieldDescriptor<'p>;

    ghost is_meant = { λ d number. IsMeant (HasNumber number) d };

    fn field_by_number(message: &DynamicMessage<'p>, number: u32) -> Option<FieldDescriptor<'p>> {
        declared_field(message.descriptor(), number)
    }
}

/// A message that lends what its fields hold by their numbers.
pub trait FieldsByNumberMut<D: NumberedFields> {
    ghost use Rattle.reflect_message.specs.declared.message.MessageOf.{MessageOf};

    /// The message that it is.
    ghost message: { Self → MessageOf D };

    /// What the field of the number holds, to be changed, as `get_field_mut` gives it. Behind the
    /// borrow the field is set to the last value that was written.
    ///
    /// `NotFound` where there is no such field, and then the message stays. Want of memory leaves
    /// what it holds.
    fn get_field_by_number_mut(&mut self, number: u32) -> Result<&mut ValueOf<D>, LendError>
        ensures* writes_back { sem 𝓛 (lends_meant Self.row D.row message
            (D.is_meant (message self.old).descriptor number) D.Field.sets D.Field.leaves
            self.entry result) }
        ensures value { IfOk result (λ r. ShowsMeant
            (D.is_meant (message self.old).descriptor number) D.Field.number_of D.Field.shows
            (message self.old) r.now) }
        ensures refused { IfErr result
            (LacksLoan (D.is_meant (message self.old).descriptor number)) };
}

impl<D: NumberedFields> FieldsByNumberMut<D> for MessageOf<D> {
    ghost message = { λ m. m };

    fn get_field_by_number_mut(&mut self, number: u32) -> Result<&mut ValueOf<D>, LendError> {
        match D::field_by_number(self, number) {
            Some(field) => Ok(self.get_field_mut(&field)?),
            None => Err(LendError::NotFound),
        }
    }
}
