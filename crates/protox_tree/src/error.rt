//! What is wrong with a source.

ghost use Rattle.std.specs.Prelude.{◌≡◌, Some, option_map};
ghost use Rattle.protox_tree.specs.FaultTexts.{expected_text, expected_words, label_of, help_of};

use protox_lex::{LexError, LexErrorKind, Span, Token};
use std::fmt;

/// What could stand where another token stands.
#[derive(Clone, Copy, PartialEq, Debug)]
pub enum ExpectedToken {
    Token(Token<'static>),
    Ident,
    Int,
    String,
    /// The name of a type.
    TypeName,
    /// The value of an option.
    OptionValue,
    /// A statement of a file.
    FileItem,
    /// A statement of a service.
    ServiceItem,
    /// A number behind a minus.
    Number,
    /// The name of a field in an option's braces.
    FieldName,
    /// The value of a field in an option's braces.
    FieldValue,
    /// A colon, or a message in an option's braces.
    MessageValue,
}

impl ExpectedToken {
    /// The words for what is no one token.
    fn text(&self) -> &'static str
        ensures { result.now ≡ expected_words self.now }
    {
        match self {
            ExpectedToken::Token(_) => "a token",
            ExpectedToken::Ident => "an identifier",
            ExpectedToken::Int => "an integer",
            ExpectedToken::String => "a string literal",
            ExpectedToken::TypeName => "a type name",
            ExpectedToken::OptionValue => "an option value",
            ExpectedToken::FileItem => "a top-level statement",
            ExpectedToken::ServiceItem => "'rpc' or 'option'",
            ExpectedToken::Number => "a number",
            ExpectedToken::FieldName => "a field name",
            ExpectedToken::FieldValue => "a field value",
            ExpectedToken::MessageValue => "':' or a message value",
        }
    }
}

impl fmt::Display for ExpectedToken {
    ghost output = { λ t. Some (expected_text t) };

    fn fmt<W: fmt::Write>(&self, f: &mut fmt::Formatter<W>) -> fmt::Result {
        match self {
            ExpectedToken::Token(token) => write!(f, "'{token}'"),
            _ => f.write_str(self.text()),
        }
    }
}

/// One fault of a source, and the bytes at fault.
///
/// The rules are those of the "Language Specification" of proto2 and proto3, and of the "Language
/// Guide".
#[derive(PartialEq, Debug, Drop)]
pub enum ParseErrorKind {
    /// A character with which no token begins.
    InvalidToken {
        span: Span,
    },
    /// An integer of more than 64 bits, or a negative one below -2^63 as an option's value.
    IntegerOutOfRange {
        span: Span,
    },
    /// A line end or a NUL in a string.
    InvalidStringCharacters {
        span: Span,
    },
    /// An escape that no string has.
    InvalidStringEscape {
        span: Span,
    },
    /// A string without its closing quote.
    UnterminatedString {
        span: Span,
    },
    /// A `/*` in a block comment.
    NestedBlockComment {
        span: Span,
    },
    /// A block comment without its end.
    UnterminatedComment {
        span: Span,
    },
    /// An integer that is directly followed by a letter or `_`.
    NoSpaceBetweenIntAndIdent {
        span: Span,
    },
    /// A comment that begins with `#`, outside an option's braces.
    HashCommentOutsideTextFormat {
        span: Span,
    },
    /// A number that ends with `f`, outside an option's braces.
    FloatSuffixOutsideTextFormat {
        span: Span,
    },
    /// The source has more bytes than an `i32` counts.
    FileTooLarge,
    /// A token that cannot follow those before it.
    UnexpectedToken {
        expected: ExpectedToken,
        found: String,
        span: Span,
    },
    /// The source ends where a token has to follow.
    UnexpectedEof {
        expected: ExpectedToken,
    },
    /// A syntax other than proto2 and proto3.
    UnknownSyntax {
        span: Span,
    },
    /// The brace that opens the 32nd level of messages and groups, or the 101st inside an option's
    /// braces.
    NestingTooDeep {
        span: Span,
    },
    /// A field number that is not in 1 to 536870911.
    InvalidMessageNumber {
        span: Span,
    },
    /// A field number in 19000 to 19999.
    ReservedMessageNumber {
        span: Span,
    },
    /// The number of an enum value that is no `i32`.
    InvalidEnumNumber {
        span: Span,
    },
    /// A range that ends before it begins, or a bound that is no number of the kind.
    InvalidRange {
        span: Span,
    },
    /// A second `package` statement.
    DuplicatePackage {
        first: Span,
        second: Span,
    },
    /// A group's name that does not begin with a capital letter.
    InvalidGroupName {
        span: Span,
    },
    /// A oneof without a field.
    EmptyOneof {
        span: Span,
    },
    /// A proto2 field without a label.
    MissingLabel {
        span: Span,
    },
    /// A required field in a proto3 file.
    RequiredInProto3 {
        span: Span,
    },
    /// A group in a proto3 file.
    GroupInProto3 {
        span: Span,
    },
    /// A label on a field of a oneof.
    OneofFieldWithLabel {
        span: Span,
    },
    /// A label on a map.
    MapFieldWithLabel {
        span: Span,
    },
    /// A map in a oneof.
    MapFieldInOneof {
        span: Span,
    },
    /// A map in an `extend` statement.
    MapFieldInExtend {
        span: Span,
    },
    /// A map's key that is no integer, no truth value and no string.
    InvalidMapKeyType {
        span: Span,
    },
    /// A required extension.
    RequiredExtension {
        span: Span,
    },
    /// A default in a proto3 file.
    DefaultInProto3 {
        span: Span,
    },
    /// A default that does not suit its field.
    InvalidDefault {
        span: Span,
    },
    /// A `json_name` that is no string.
    InvalidJsonName {
        span: Span,
    },
    /// A `default` or `json_name` that is given twice.
    DuplicateFieldOption {
        first: Span,
        second: Span,
    },
    /// A string that has to be text, and is not UTF-8.
    InvalidUtf8String {
        span: Span,
    },
    /// Extension ranges in a proto3 file.
    ExtensionRangeInProto3 {
        span: Span,
    },
}

impl From<LexError> for ParseErrorKind {
    ghost use Rattle.protox_tree.specs.LexicalKinds.{lexical_kind};

    ghost from_gives = { λ e kind. kind ≡ lexical_kind e };

    fn from(error: LexError) -> ParseErrorKind {
        let span = error.span;
        match error.kind {
            LexErrorKind::InvalidToken => ParseErrorKind::InvalidToken { span },
            LexErrorKind::IntegerOutOfRange => ParseErrorKind::IntegerOutOfRange { span },
            LexErrorKind::InvalidStringCharacters => {
                ParseErrorKind::InvalidStringCharacters { span }
            }
            LexErrorKind::InvalidStringEscape => ParseErrorKind::InvalidStringEscape { span },
            LexErrorKind::UnterminatedString => ParseErrorKind::UnterminatedString { span },
            LexErrorKind::NestedBlockComment => ParseErrorKind::NestedBlockComment { span },
            LexErrorKind::UnterminatedComment => ParseErrorKind::UnterminatedComment { span },
            LexErrorKind::NoSpaceBetweenIntAndIdent => {
                ParseErrorKind::NoSpaceBetweenIntAndIdent { span }
            }
            LexErrorKind::HashCommentOutsideTextFormat => {
                ParseErrorKind::HashCommentOutsideTextFormat { span }
            }
            LexErrorKind::FloatSuffixOutsideTextFormat => {
                ParseErrorKind::FloatSuffixOutsideTextFormat { span }
            }
        }
    }
}

impl ParseErrorKind {
    ghost use Rattle.protox_tree.specs.Spans.{span_of};

    /// The bytes at fault. A source that is too large or ends too early has none.
    pub fn span(&self) -> Option<Span>
        ensures { result ≡ span_of self.now }
    {
        match self {
            ParseErrorKind::FileTooLarge | ParseErrorKind::UnexpectedEof { .. } => None,
            ParseErrorKind::DuplicatePackage { second, .. }
            | ParseErrorKind::DuplicateFieldOption { second, .. } => Some(*second),
            ParseErrorKind::InvalidToken { span }
            | ParseErrorKind::IntegerOutOfRange { span }
            | ParseErrorKind::InvalidStringCharacters { span }
            | ParseErrorKind::InvalidStringEscape { span }
            | ParseErrorKind::UnterminatedString { span }
            | ParseErrorKind::NestedBlockComment { span }
            | ParseErrorKind::UnterminatedComment { span }
            | ParseErrorKind::NoSpaceBetweenIntAndIdent { span }
            | ParseErrorKind::HashCommentOutsideTextFormat { span }
            | ParseErrorKind::FloatSuffixOutsideTextFormat { span }
            | ParseErrorKind::UnexpectedToken { span, .. }
            | ParseErrorKind::UnknownSyntax { span }
            | ParseErrorKind::NestingTooDeep { span }
            | ParseErrorKind::InvalidMessageNumber { span }
            | ParseErrorKind::ReservedMessageNumber { span }
            | ParseErrorKind::InvalidEnumNumber { span }
            | ParseErrorKind::InvalidRange { span }
            | ParseErrorKind::InvalidGroupName { span }
            | ParseErrorKind::EmptyOneof { span }
            | ParseErrorKind::MissingLabel { span }
            | ParseErrorKind::RequiredInProto3 { span }
            | ParseErrorKind::GroupInProto3 { span }
            | ParseErrorKind::OneofFieldWithLabel { span }
            | ParseErrorKind::MapFieldWithLabel { span }
            | ParseErrorKind::MapFieldInOneof { span }
            | ParseErrorKind::MapFieldInExtend { span }
            | ParseErrorKind::InvalidMapKeyType { span }
            | ParseErrorKind::RequiredExtension { span }
            | ParseErrorKind::DefaultInProto3 { span }
            | ParseErrorKind::InvalidDefault { span }
            | ParseErrorKind::InvalidJsonName { span }
            | ParseErrorKind::InvalidUtf8String { span }
            | ParseErrorKind::ExtensionRangeInProto3 { span } => Some(*span),
        }
    }

    /// A few words for the place at fault.
    pub fn label(&self) -> &'static str
        ensures { result.now ≡ label_of self.now }
    {
        match self {
            ParseErrorKind::FileTooLarge | ParseErrorKind::UnexpectedEof { .. } => "",
            ParseErrorKind::InvalidMessageNumber { .. }
            | ParseErrorKind::ReservedMessageNumber { .. }
            | ParseErrorKind::InvalidEnumNumber { .. } => "number used here",
            ParseErrorKind::InvalidRange { .. } => "range defined here",
            ParseErrorKind::DuplicatePackage { .. } | ParseErrorKind::DuplicateFieldOption { .. } =>
                "defined again here",
            ParseErrorKind::EmptyOneof { .. }
            | ParseErrorKind::MissingLabel { .. }
            | ParseErrorKind::MapFieldInOneof { .. }
            | ParseErrorKind::MapFieldInExtend { .. } => "defined here",
            _ => "found here",
        }
    }

    /// What the author can do, where there is more to say than the text of the fault.
    pub fn help(&self) -> Option<&'static str>
        ensures { option_map (λ h. h.now) result ≡ help_of self.now }
    {
        match self {
            ParseErrorKind::InvalidMessageNumber { .. } => {
                Some("the number must be between 1 and 536870911, inclusive")
            }
            ParseErrorKind::ReservedMessageNumber { .. } => {
                Some("the numbers 19000 to 19999 belong to the implementation of protobuf")
            }
            ParseErrorKind::UnknownSyntax { .. } => {
                Some("the syntaxes 'proto2' and 'proto3' are supported")
            }
            ParseErrorKind::MissingLabel { .. } => {
                Some("write 'optional', 'repeated' or 'required' before the field's type")
            }
            ParseErrorKind::NoSpaceBetweenIntAndIdent { .. } => {
                Some("write a space between the number and the name")
            }
            _ => None,
        }
    }
}
