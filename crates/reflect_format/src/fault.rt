//! Faults with the names and numbers that they tell.

ghost use Rattle.std.specs.Prelude.{◌≡◌, IfOk, Some, string_bytes};
ghost use Rattle.text_error.specs.Places.{place_of};
ghost use Rattle.reflect_format.specs.Refusals.{TellsExtension, TellsField, TellsFloatField, TellsMessage, TellsOneof, TellsSet, TellsValue};

use reflect_pool::{EnumDescriptor, MessageDescriptor, OneofDescriptor};
use std::alloc::{AllocError, Global};
use text_error::ParseErrorKind;
use text_lex::Span;

/// The message's type has no field of this name.
pub fn unknown_field(
    alloc: Global,
    name: &str,
    descriptor: MessageDescriptor<'_>,
    span: Span,
) -> Result<ParseErrorKind, AllocError>
    ensures told { IfOk result (TellsField descriptor.entry name.now) }
    ensures placed { IfOk result (λ kind. place_of kind ≡ Some span) }
{
    Ok(ParseErrorKind::FieldNotFound {
        field_name: String::from_str(alloc, name)?,
        message_name: String::from_str(alloc, descriptor.full_name())?,
        span,
    })
}

/// The message's type has no extension of this name.
pub fn unknown_extension(
    alloc: Global,
    name: String,
    descriptor: MessageDescriptor<'_>,
    span: Span,
) -> Result<ParseErrorKind, AllocError>
    ensures told { IfOk result (TellsExtension descriptor.entry (string_bytes name)) }
    ensures placed { IfOk result (λ kind. place_of kind ≡ Some span) }
{
    Ok(ParseErrorKind::ExtensionNotFound {
        extension_name: name,
        message_name: String::from_str(alloc, descriptor.full_name())?,
        span,
    })
}

/// The pool has no message type of this name.
pub fn unknown_message(name: String, span: Span) -> ParseErrorKind
    ensures told { TellsMessage (string_bytes name) result }
    ensures placed { place_of result ≡ Some span }
{
    ParseErrorKind::MessageNotFound {
        message_name: name,
        span,
    }
}

/// The field holds floating-point numbers.
pub fn float_field(
    alloc: Global,
    name: &str,
    descriptor: MessageDescriptor<'_>,
    span: Span,
) -> Result<ParseErrorKind, AllocError>
    ensures told { IfOk result (TellsFloatField descriptor.entry name.now) }
    ensures placed { IfOk result (λ kind. place_of kind ≡ Some span) }
{
    Ok(ParseErrorKind::FloatField {
        field_name: String::from_str(alloc, name)?,
        message_name: String::from_str(alloc, descriptor.full_name())?,
        span,
    })
}

/// The field holds a value.
pub fn already_set(alloc: Global, name: &str, span: Span) -> Result<ParseErrorKind, AllocError>
    ensures told { IfOk result (TellsSet name.now) }
    ensures placed { IfOk result (λ kind. place_of kind ≡ Some span) }
{
    Ok(ParseErrorKind::FieldAlreadySet {
        field_name: String::from_str(alloc, name)?,
        span,
    })
}

/// Another field of the oneof holds a value.
pub fn oneof_already_set(
    alloc: Global,
    oneof: OneofDescriptor<'_>,
    span: Span,
) -> Result<ParseErrorKind, AllocError>
    ensures told { IfOk result (TellsOneof oneof.entry) }
    ensures placed { IfOk result (λ kind. place_of kind ≡ Some span) }
{
    Ok(ParseErrorKind::OneofAlreadySet {
        oneof_name: String::from_str(alloc, oneof.name())?,
        span,
    })
}

/// The enum has no value of this name.
pub fn unknown_enum_value(
    alloc: Global,
    name: &str,
    descriptor: EnumDescriptor<'_>,
    span: Span,
) -> Result<ParseErrorKind, AllocError>
    ensures { IfOk result (TellsValue descriptor.entry name.now span) }
{
    Ok(ParseErrorKind::EnumValueNotFound {
        value_name: String::from_str(alloc, name)?,
        enum_name: String::from_str(alloc, descriptor.full_name())?,
        span,
    })
}
