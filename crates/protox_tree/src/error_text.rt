//! How faults print.

ghost use Rattle.std.specs.Prelude.{◌≡◌, Some};
ghost use Rattle.protox_tree.specs.FaultTexts.{plain_words, said};

use crate::error::ParseErrorKind;
use protox_lex::LexErrorKind;
use std::fmt;

impl fmt::Display for ParseErrorKind {
    ghost output = { λ k. Some (said k) };

    fn fmt<W: fmt::Write>(&self, f: &mut fmt::Formatter<W>) -> fmt::Result {
        match self {
            ParseErrorKind::UnexpectedToken {
                expected,
                found,
                ..
            } => write!(f, "expected {expected}, but found '{found}'"),
            ParseErrorKind::UnexpectedEof { expected } => {
                write!(f, "expected {expected}, but reached end of file")
            }
            _ => f.write_str(fixed_text(self)),
        }
    }
}

/// What is wrong, in a few words.
fn fixed_text(kind: &ParseErrorKind) -> &'static str
    ensures { result.now ≡ plain_words kind.now }
{
    match kind {
        ParseErrorKind::InvalidToken { .. } => LexErrorKind::InvalidToken.text(),
        ParseErrorKind::IntegerOutOfRange { .. } => LexErrorKind::IntegerOutOfRange.text(),
        ParseErrorKind::InvalidStringCharacters { .. } => {
            LexErrorKind::InvalidStringCharacters.text()
        }
        ParseErrorKind::InvalidStringEscape { .. } => LexErrorKind::InvalidStringEscape.text(),
        ParseErrorKind::UnterminatedString { .. } => LexErrorKind::UnterminatedString.text(),
        ParseErrorKind::NestedBlockComment { .. } => LexErrorKind::NestedBlockComment.text(),
        ParseErrorKind::UnterminatedComment { .. } => LexErrorKind::UnterminatedComment.text(),
        ParseErrorKind::NoSpaceBetweenIntAndIdent { .. } => {
            LexErrorKind::NoSpaceBetweenIntAndIdent.text()
        }
        ParseErrorKind::HashCommentOutsideTextFormat { .. } => {
            LexErrorKind::HashCommentOutsideTextFormat.text()
        }
        ParseErrorKind::FloatSuffixOutsideTextFormat { .. } => {
            LexErrorKind::FloatSuffixOutsideTextFormat.text()
        }
        ParseErrorKind::FileTooLarge => "file is too large",
        ParseErrorKind::UnexpectedToken { .. } => "unexpected token",
        ParseErrorKind::UnexpectedEof { .. } => "unexpected end of file",
        ParseErrorKind::UnknownSyntax { .. } => "unknown syntax",
        ParseErrorKind::NestingTooDeep { .. } => "nesting is too deep",
        ParseErrorKind::InvalidMessageNumber { .. } => "message numbers must be in range",
        ParseErrorKind::ReservedMessageNumber { .. } => "message number is reserved",
        ParseErrorKind::InvalidEnumNumber { .. } => "enum numbers must be 32-bit integers",
        ParseErrorKind::InvalidRange { .. } => "invalid range",
        ParseErrorKind::DuplicatePackage { .. } => "multiple package definitions",
        ParseErrorKind::InvalidGroupName { .. } => "group names must start with a capital letter",
        ParseErrorKind::EmptyOneof { .. } => "oneof must have at least one field",
        ParseErrorKind::MissingLabel { .. } => "proto2 fields must have a label",
        ParseErrorKind::RequiredInProto3 { .. } => "required fields are not allowed in proto3",
        ParseErrorKind::GroupInProto3 { .. } => "groups are not allowed in proto3",
        ParseErrorKind::OneofFieldWithLabel { .. } => "oneof fields cannot have labels",
        ParseErrorKind::MapFieldWithLabel { .. } => "map fields cannot have labels",
        ParseErrorKind::MapFieldInOneof { .. } => "oneof fields cannot be maps",
        ParseErrorKind::MapFieldInExtend { .. } => "extension fields cannot be maps",
        ParseErrorKind::InvalidMapKeyType { .. } => "invalid type for map key",
        ParseErrorKind::RequiredExtension { .. } => "extension fields may not be required",
        ParseErrorKind::DefaultInProto3 { .. } => "default values are not allowed in proto3",
        ParseErrorKind::InvalidDefault { .. } => "default value does not suit the field",
        ParseErrorKind::InvalidJsonName { .. } => "json_name must be a string",
        ParseErrorKind::DuplicateFieldOption { .. } => "option is already set",
        ParseErrorKind::InvalidUtf8String { .. } => "string is not valid utf-8",
        ParseErrorKind::ExtensionRangeInProto3 { .. } => {
            "extension ranges are not allowed in proto3"
        }
    }
}
