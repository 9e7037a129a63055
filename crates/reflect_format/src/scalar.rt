//! Values that are no messages, by the kind of their field.

ghost use Rattle.protobuf_model.specs.Types as scalars;
ghost use Rattle.protobuf_model.specs.Values.{enumerated};
ghost use Rattle.reflect_format.specs.Enums.{number_named};
ghost use Rattle.reflect_format.specs.Kinds.{ReadsSingle, RefusesEnum, RefusesKind, kind_value_at};
ghost use Rattle.reflect_format.specs.Refusals.{RefusesScalar, RefusesValue};
ghost use Rattle.std.specs.Prelude.{◌<◌, IfErr, IfOk};
ghost use Rattle.text_scalars.specs.Left.{left};
ghost use Rattle.text_scalars.specs.Remaining.{remaining};
ghost use Rattle.text_scalars.specs.Scalars.{ReadsValue, value_at};

use crate::fault::unknown_enum_value;
use reflect_message::Value;
use reflect_pool::{EnumDescriptor, Kind};
use text_error::ParseErrorKind;
use text_lex::{Span, Token};
use text_scalars::Tokens;

/// An enum's value by its name or its number.
fn enum_number(
    tokens: &mut Tokens<'_>,
    descriptor: EnumDescriptor<'_>,
) -> Result<(i32, Span), ParseErrorKind>
    ensures read { ReadsValue enumerated
        (value_at (number_named descriptor.entry) scalars.enumeration (remaining tokens.old))
        result (remaining tokens.new) }
    ensures told { IfErr result (RefusesEnum descriptor.entry (remaining tokens.old)) }
    ensures taken { IfOk result (λ _. left tokens.new < left tokens.old) }
    ensures refused { IfErr result (RefusesValue descriptor.entry) }
{
    if let Some((name, span)) = tokens.ident() {
        return match descriptor.get_value_by_name(name) {
            Some(value) => Ok((value.number(), span)),
            None => Err(unknown_enum_value(tokens.alloc, name, descriptor, span)?),
        };
    }
    match tokens.peek() {
        Some(lexeme) if matches!(lexeme.token, Token::Minus | Token::IntLiteral(_)) => {
            tokens.signed_32()
        }
        _ => Err(tokens.refuse("an enum value")),
    }
}

/// A value of a kind that is no message.
pub fn scalar_value<'p>(
    tokens: &mut Tokens<'_>,
    kind: Kind<'p>,
) -> Result<(Value<'p>, Span), ParseErrorKind>
    ensures read { ReadsSingle (kind_value_at kind.entry (remaining tokens.old))
        result (remaining tokens.new) }
    ensures told { IfErr result (RefusesKind kind.entry (remaining tokens.old)) }
    ensures taken { IfOk result (λ _. left tokens.new < left tokens.old) }
    ensures refused { IfErr result (RefusesScalar kind.entry) }
{
    match kind {
        Kind::Int32 | Kind::Sint32 | Kind::Sfixed32 => {
            let (number, span) = tokens.signed_32()?;
            Ok((Value::I32(number), span))
        }
        Kind::Int64 | Kind::Sint64 | Kind::Sfixed64 => {
            let (number, span) = tokens.signed_64()?;
            Ok((Value::I64(number), span))
        }
        Kind::Uint32 | Kind::Fixed32 => {
            let (number, span) = tokens.unsigned_32()?;
            Ok((Value::U32(number), span))
        }
        Kind::Uint64 | Kind::Fixed64 => {
            let (number, span) = tokens.unsigned_64()?;
            Ok((Value::U64(number), span))
        }
        Kind::Bool => {
            let (truth, span) = tokens.truth()?;
            Ok((Value::Bool(truth), span))
        }
        Kind::String => {
            let (text, span) = tokens.text()?;
            Ok((Value::String(text), span))
        }
        Kind::Bytes => {
            let (bytes, span) = tokens.bytes()?;
            Ok((Value::Bytes(bytes), span))
        }
        Kind::Enum(descriptor) => {
            let (number, span) = enum_number(tokens, descriptor)?;
            Ok((Value::EnumNumber(number), span))
        }
        Kind::Message(_) | Kind::Float | Kind::Double => Err(tokens.refuse("a number")),
    }
}
