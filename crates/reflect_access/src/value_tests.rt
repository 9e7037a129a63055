//! Values that are asked whether they suit fields, and whether they are their defaults.

ghost use Rattle.std.specs.Bool.{Decides};
ghost use Rattle.std.specs.Prelude.{◌≡◌, true};
ghost use Rattle.reflect_tables.specs.Types.{KindType, PoolType};
ghost use Rattle.reflect_pool.specs.FieldsLeft.{field_type};
ghost use Rattle.reflect_pool.specs.Kinds.{IsKind};
ghost use Rattle.reflect_pool.specs.Same.{same_message};
ghost use Rattle.reflect_scalar.specs.FieldTypes.{either_pool, either_type, extension_pool, extension_type, field_pool};
ghost use Rattle.reflect_contents.specs.Walked.{HoldsNothing};
ghost use Rattle.reflect_numbered.specs.Fits.{fit_of, IsValidFor};
ghost use Rattle.reflect_access.specs.Unset.{IsDefaultFor, IsKindDefault, SaysNothing};

use reflect_contents::MessageWalks;
use reflect_message::{DynamicMessage, ScalarValue, Value, is_default_scalar};
use reflect_numbered::{Strictness, content_suits, is_valid_for, value_suits};
use reflect_pool::{ExtensionDescriptor, FieldDescriptor, Kind, MessageDescriptor};
use reflect_scalar::{AnyField, FieldDescriptorLike, Scalar};

/// A value that is asked about fields.
pub trait ValueTests<'p> {
    ghost use Rattle.reflect_message.specs.Names.{Value};
    ghost use Rattle.reflect_numbered.specs.declared.validity.Strictness.TheVariants.{Surface};

    /// The value that it is.
    ghost value: { Self → Value };

    /// The value suits a field that holds one value of the kind: a message is of its type.
    fn is_valid(&self, kind: &Kind<'p>) -> bool
        ensures { (pool : PoolType) (k : KindType) → IsKind pool kind.now k
            → result ≡ (fit_of (value self.now)).one Surface pool k };

    /// The value suits the field, its label included.
    fn is_valid_for_field(&self, field: &FieldDescriptor<'p>) -> bool
        ensures { Decides result
            (IsValidFor (field_pool field.now) (field_type field.now) (value self.now)) };

    /// The value suits the extension, its label included.
    fn is_valid_for_extension(&self, extension: &ExtensionDescriptor<'p>) -> bool
        ensures { Decides result (IsValidFor (extension_pool extension.now)
            (extension_type extension.now) (value self.now)) };

    /// The value is the default of a field that holds one value of the kind.
    fn is_default(&self, kind: &Kind<'p>) -> bool
        ensures { Decides result (IsKindDefault kind.now (value self.now)) };

    /// The value is the default of the field: an empty list or map, an empty message of the field's
    /// type, or the single value that the field says.
    fn is_default_for_field(&self, field: &FieldDescriptor<'p>) -> bool
        ensures { Decides result
            (IsDefaultFor (field_pool field.now) (field_type field.now) (value self.now)) };

    /// The value is the default of the extension.
    fn is_default_for_extension(&self, extension: &ExtensionDescriptor<'p>) -> bool
        ensures { Decides result (IsDefaultFor (extension_pool extension.now)
            (extension_type extension.now) (value self.now)) };
}

impl<'p> ValueTests<'p> for Value<'p> {
    ghost value = { λ v. v };

    fn is_valid(&self, kind: &Kind<'p>) -> bool {
        value_suits(self, kind, Strictness::Surface)
    }

    fn is_valid_for_field(&self, field: &FieldDescriptor<'p>) -> bool {
        is_valid_for(self, AnyField::Field(*field))
    }

    fn is_valid_for_extension(&self, extension: &ExtensionDescriptor<'p>) -> bool {
        is_valid_for(self, AnyField::Extension(*extension))
    }

    fn is_default(&self, kind: &Kind<'p>) -> bool {
        match (self, kind) {
            (Value::Message(message), Kind::Message(wanted)) => is_empty_of(message, wanted),
            _ => match (self.as_scalar(), Scalar::default_value(kind)) {
                (Some(value), Some(default)) => value == default,
                _ => false,
            },
        }
    }

    fn is_default_for_field(&self, field: &FieldDescriptor<'p>) -> bool {
        is_default_of(self, AnyField::Field(*field))
    }

    fn is_default_for_extension(&self, extension: &ExtensionDescriptor<'p>) -> bool {
        is_default_of(self, AnyField::Extension(*extension))
    }
}

/// The message is of the type, and nothing is set in it.
fn is_empty_of<'p>(message: &DynamicMessage<'p>, wanted: &MessageDescriptor<'p>) -> bool
    ensures { Decides result ((same_message message.now.descriptor wanted.now ≡ true)
        × HoldsNothing message.now) }
{
    message.descriptor().is_same(wanted) && message.is_empty()
}

/// The value is the default of a field or an extension.
fn is_default_of<'p>(value: &Value<'p>, field: AnyField<'p>) -> bool
    ensures { Decides result
        (IsDefaultFor (either_pool field.entry) (either_type field.entry) value.now) }
{
    content_suits(value, field, Strictness::Surface) && says_nothing(value, &field)
}

/// The value is an empty list, map or message, or the default that a field or an extension says.
fn says_nothing<'p, F: FieldDescriptorLike<'p>>(value: &Value<'p>, field: &F) -> bool
    ensures { Decides result (SaysNothing (F.pool field.now) (F.says field.now) value.now) }
{
    match value {
        Value::Message(message) => message.is_empty(),
        Value::List(values) => values.is_empty(),
        Value::Map(entries) => entries.is_empty(),
        _ => is_default_scalar(value.as_scalar(), field),
    }
}
