ghost use Rattle.std.specs.Option.{option_and_then};
ghost use Rattle.std.specs.Prelude.{◌≡◌, Some, IfOk, option_map, string_bytes};
ghost use Rattle.text_error.specs.Places.{begins_in, bytes_of, label_of, place_of};
ghost use Rattle.text_error.specs.Texts.{help_of, plain_words, said};

use crate::lines::line_and_column;
use std::alloc::{AllocError, AllocFailed, Global};
use std::error::Error;
use std::fmt;
use std::ops::Range;
use text_lex::Span;

/// What is wrong with a text.
#[derive(PartialEq, Debug, Drop)]
pub enum ParseErrorKind {
    /// No token begins here.
    InvalidToken {
        span: Span,
    },
    /// A string literal has a NUL or a line end.
    InvalidStringCharacters {
        span: Span,
    },
    /// A string literal has a backslash that begins no escape, or one that stands for no byte and
    /// no character.
    InvalidStringEscape {
        span: Span,
    },
    /// The literals of a string field are no UTF-8.
    InvalidUtf8String {
        span: Span,
    },
    /// A letter directly behind an integer.
    NoSpaceBetweenIntAndIdent {
        span: Span,
    },
    /// Another token than the grammar takes here.
    UnexpectedToken {
        expected: &'static str,
        found: String,
        span: Span,
    },
    /// The text ends where the grammar takes more.
    UnexpectedEof {
        expected: &'static str,
    },
    /// An integer that its field's kind does not hold.
    IntegerValueOutOfRange {
        expected: &'static str,
        actual: String,
        min: &'static str,
        max: &'static str,
        span: Span,
    },
    /// The message's type has no such field.
    FieldNotFound {
        field_name: String,
        message_name: String,
        span: Span,
    },
    /// A field that holds one value is set a second time.
    FieldAlreadySet {
        field_name: String,
        span: Span,
    },
    /// Another field of the oneof is set.
    OneofAlreadySet {
        oneof_name: String,
        span: Span,
    },
    /// The message's type has no such extension.
    ExtensionNotFound {
        extension_name: String,
        message_name: String,
        span: Span,
    },
    /// No message type has this name.
    MessageNotFound {
        message_name: String,
        span: Span,
    },
    /// The enum has no value of this name.
    EnumValueNotFound {
        value_name: String,
        enum_name: String,
        span: Span,
    },
    /// The message that an `Any` is expanded in is none.
    InvalidTypeForAny {
        span: Span,
    },
    /// A value that is no key of a map.
    InvalidMapKey,
    /// The field holds a floating-point number.
    FloatField {
        field_name: String,
        message_name: String,
        span: Span,
    },
    /// The 101st brace that is open at once.
    NestingTooDeep {
        span: Span,
    },
    /// The message of an expansion is too long to be encoded.
    TooLong {
        span: Span,
    },
    /// Want of memory.
    Memory,
}

impl ParseErrorKind {
    /// Where the fault is, unless it is at the end of the text or nowhere in it.
    fn place(&self) -> Option<Span>
        ensures { result ≡ place_of self.now }
    {
        match self {
            ParseErrorKind::InvalidToken { span }
            | ParseErrorKind::InvalidStringCharacters { span }
            | ParseErrorKind::InvalidStringEscape { span }
            | ParseErrorKind::InvalidUtf8String { span }
            | ParseErrorKind::NoSpaceBetweenIntAndIdent { span }
            | ParseErrorKind::UnexpectedToken { span, .. }
            | ParseErrorKind::IntegerValueOutOfRange { span, .. }
            | ParseErrorKind::FieldNotFound { span, .. }
            | ParseErrorKind::FieldAlreadySet { span, .. }
            | ParseErrorKind::OneofAlreadySet { span, .. }
            | ParseErrorKind::ExtensionNotFound { span, .. }
            | ParseErrorKind::MessageNotFound { span, .. }
            | ParseErrorKind::EnumValueNotFound { span, .. }
            | ParseErrorKind::InvalidTypeForAny { span }
            | ParseErrorKind::FloatField { span, .. }
            | ParseErrorKind::NestingTooDeep { span }
            | ParseErrorKind::TooLong { span } => Some(*span),
            ParseErrorKind::UnexpectedEof { .. }
            | ParseErrorKind::InvalidMapKey
            | ParseErrorKind::Memory => None,
        }
    }

    /// What is said of the fault, empty where that takes a name, a number or a word of the grammar.
    fn text(&self) -> &'static str
        ensures { result.now ≡ plain_words self.now }
    {
        match self {
            ParseErrorKind::InvalidToken { .. } => "invalid token",
            ParseErrorKind::InvalidStringCharacters { .. } => "invalid string character",
            ParseErrorKind::InvalidStringEscape { .. } => "invalid string escape",
            ParseErrorKind::InvalidUtf8String { .. } => "string is not valid utf-8",
            ParseErrorKind::NoSpaceBetweenIntAndIdent { .. } =>
                "whitespace is required between an integer literal and an identifier",
            ParseErrorKind::InvalidTypeForAny { .. } =>
                "the field type must be 'google.protobuf.Any' to use Any expansion syntax",
            ParseErrorKind::NestingTooDeep { .. } => "more than 100 open braces",
            ParseErrorKind::TooLong { .. } => "encoded length too large",
            ParseErrorKind::InvalidMapKey => "invalid value type for map key",
            ParseErrorKind::Memory => "out of memory",
            _ => "",
        }
    }

    /// What to write at the fault's place, empty where it has none.
    pub fn label(&self) -> &'static str
        ensures { result.now ≡ label_of self.now }
    {
        match self {
            ParseErrorKind::InvalidToken { .. }
            | ParseErrorKind::NoSpaceBetweenIntAndIdent { .. }
            | ParseErrorKind::UnexpectedToken { .. }
            | ParseErrorKind::NestingTooDeep { .. } => "found here",
            ParseErrorKind::InvalidStringCharacters { .. } => "invalid characters",
            ParseErrorKind::InvalidStringEscape { .. }
            | ParseErrorKind::InvalidUtf8String { .. }
            | ParseErrorKind::IntegerValueOutOfRange { .. } => "defined here",
            ParseErrorKind::FieldNotFound { .. }
            | ParseErrorKind::FieldAlreadySet { .. }
            | ParseErrorKind::OneofAlreadySet { .. }
            | ParseErrorKind::ExtensionNotFound { .. }
            | ParseErrorKind::FloatField { .. } => "set here",
            ParseErrorKind::MessageNotFound { .. }
            | ParseErrorKind::EnumValueNotFound { .. }
            | ParseErrorKind::InvalidTypeForAny { .. }
            | ParseErrorKind::TooLong { .. } => "used here",
            ParseErrorKind::UnexpectedEof { .. }
            | ParseErrorKind::InvalidMapKey
            | ParseErrorKind::Memory => "",
        }
    }

    /// How to mend the fault, where there is more to say than its text does.
    pub fn help(&self, alloc: Global) -> Result<Option<String>, AllocError>
        ensures { IfOk result (λ h. option_map string_bytes h ≡ help_of self.now) }
    {
        match self {
            ParseErrorKind::IntegerValueOutOfRange { min, max, .. } => Ok(Some(format!(in alloc;
                "the value must be between {min} and {max} inclusive"
            )?)),
            _ => Ok(None),
        }
    }
}

impl fmt::Display for ParseErrorKind {
    ghost output = { λ k. Some (said k) };

    fn fmt<W: fmt::Write>(&self, f: &mut fmt::Formatter<W>) -> fmt::Result {
        match self {
            ParseErrorKind::UnexpectedToken {
                expected,
                found,
                ..
            } => write!(f, "expected {expected}, but found '{found}'"),
            ParseErrorKind::UnexpectedEof { expected } => {
                write!(f, "expected {expected}, but reached end of input")
            }
            ParseErrorKind::IntegerValueOutOfRange {
                expected,
                actual,
                ..
            } => write!(
                f,
                "expected value to be {expected}, but the value {actual} is out of range"
            ),
            ParseErrorKind::FieldNotFound {
                field_name,
                message_name,
                ..
            } => write!(
                f,
                "field '{field_name}' not found for message '{message_name}'"
            ),
            ParseErrorKind::FieldAlreadySet { field_name, .. } => {
                write!(f, "'{field_name}' is already set")
            }
            ParseErrorKind::OneofAlreadySet { oneof_name, .. } => {
                write!(f, "a value is already set for oneof '{oneof_name}'")
            }
            ParseErrorKind::ExtensionNotFound {
                extension_name,
                message_name,
                ..
            } => write!(
                f,
                "extension '{extension_name}' not found for message '{message_name}'"
            ),
            ParseErrorKind::MessageNotFound { message_name, .. } => {
                write!(f, "message type '{message_name}' not found")
            }
            ParseErrorKind::EnumValueNotFound {
                value_name,
                enum_name,
                ..
            } => write!(
                f,
                "value '{value_name}' was not found for enum '{enum_name}'"
            ),
            ParseErrorKind::FloatField {
                field_name,
                message_name,
                ..
            } => write!(
                f,
                "field '{field_name}' of message '{message_name}' has a floating-point type"
            ),
            _ => f.write_str(self.text()),
        }
    }
}

impl From<AllocError> for ParseErrorKind {
    ghost use Rattle.text_error.specs.declared.error.ParseErrorKind.TheVariants.{Memory};

    ghost from_gives = { λ _ e. e ≡ Memory };

    fn from(_error: AllocError) -> ParseErrorKind {
        ParseErrorKind::Memory
    }
}

impl<T: Drop> From<AllocFailed<T>> for ParseErrorKind {
    ghost use Rattle.text_error.specs.declared.error.ParseErrorKind.TheVariants.{Memory};

    ghost from_gives = { λ _ e. e ≡ Memory };

    fn from(_error: AllocFailed<T>) -> ParseErrorKind {
        ParseErrorKind::Memory
    }
}

/// The first fault of a text.
#[derive(PartialEq, Debug, Drop)]
pub struct ParseError {
    kind: ParseErrorKind,
}

impl ParseError {
    /// The error of a fault.
    pub fn new(kind: ParseErrorKind) -> ParseError
        ensures { result.kind ≡ kind }
    {
        ParseError { kind }
    }

    /// What is wrong.
    pub fn kind(&self) -> &ParseErrorKind
        ensures { result.now ≡ self.now.kind }
    {
        &self.kind
    }

    /// Where it is, in bytes from the start of the text; nothing where the text ended too early,
    /// and for what is nowhere in it.
    pub fn span(&self) -> Option<Range<usize>>
        ensures { result ≡ option_map bytes_of (place_of self.now.kind) }
    {
        let span = self.kind.place()?;
        Some(span.start..span.end)
    }

    /// The line and the column of the first byte at fault in the text that was read, both counted
    /// from 1 and the column in bytes; nothing where `span` gives nothing, or where the text given
    /// is another, too short to have that place. Takes no memory.
    pub fn position(&self, text: &str) -> Option<(usize, usize)>
        ensures { result ≡ option_and_then (begins_in text.now) (place_of self.now.kind) }
    {
        let span = self.kind.place()?;
        let (line, column) = line_and_column(text, span.start)?;
        Some((line.checked_add(1)?, column.checked_add(1)?))
    }

    /// What to write at that place, empty where there is none.
    pub fn label(&self) -> &'static str
        ensures { result.now ≡ label_of self.now.kind }
    {
        self.kind.label()
    }

    /// How to mend the fault, where there is more to say than its text does.
    pub fn help(&self, alloc: Global) -> Result<Option<String>, AllocError>
        ensures { IfOk result (λ h. option_map string_bytes h ≡ help_of self.now.kind) }
    {
        self.kind.help(alloc)
    }
}

impl fmt::Display for ParseError {
    ghost output = { λ e. Some (said e.kind) };

    fn fmt<W: fmt::Write>(&self, f: &mut fmt::Formatter<W>) -> fmt::Result {
        let kind = &self.kind;
        write!(f, "{kind}")
    }
}

impl Error for ParseError {}
