//! The fields and extensions of a type that its messages hold: all but those of floating-point
//! numbers and of maps of such.

ghost use Rattle.std.specs.Prelude.{◌≡◌, ◌≢◌, IfSome, IfNone, option_map};
ghost use Rattle.reflect_pool.specs.FieldsLeft.{field_type};
ghost use Rattle.reflect_scalar.specs.FieldTypes.{extension_type};
ghost use Rattle.reflect_message.specs.Declares.{Owns, OwnsExtension};
ghost use Rattle.reflect_message.specs.Known.{known_field, known_extension};

use reflect_pool::{ExtensionDescriptor, FieldDescriptor, MessageDescriptor};
use reflect_scalar::holds_floats;

/// The field of a number that messages of the type hold.
pub fn declared_field<'p>(
    descriptor: MessageDescriptor<'p>,
    number: u32,
) -> Option<FieldDescriptor<'p>>
    ensures message { IfSome result (λ f. f.message ≡ descriptor.entry) }
    ensures number { IfSome result (λ f. (field_type f).number ≡ number) }
    ensures owns { IfSome result (λ f. Owns descriptor.entry f) }
    ensures none { IfNone result ((f : FieldDescriptor) → Owns descriptor.entry f
        → (field_type f).number ≢ number) }
    ensures known { option_map field_type result
        ≡ known_field descriptor.entry.pool.now descriptor.entry.index number }
{
    match descriptor.get_field(number) {
        Some(field) => {
            if holds_floats(&field) {
                None
            } else {
                Some(field)
            }
        }
        None => None,
    }
}

/// The extension of a number that messages of the type hold.
pub fn declared_extension<'p>(
    descriptor: MessageDescriptor<'p>,
    number: u32,
) -> Option<ExtensionDescriptor<'p>>
    ensures owns { IfSome result (λ x. OwnsExtension descriptor.entry x) }
    ensures number { IfSome result (λ x. (extension_type x).number ≡ number) }
    ensures none { IfNone result ((x : ExtensionDescriptor) → OwnsExtension descriptor.entry x
        → (extension_type x).number ≢ number) }
    ensures known { option_map extension_type result
        ≡ known_extension descriptor.entry.pool.now descriptor.entry.index number }
{
    match descriptor.get_extension(number) {
        Some(extension) => {
            if holds_floats(&extension) {
                None
            } else {
                Some(extension)
            }
        }
        None => None,
    }
}
