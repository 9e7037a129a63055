//! The tokens of a source, and the words that mean something in one.

ghost use Rattle.std.specs.Prelude.{◌≡◌, Some};

use crate::escape::write_contents;
use std::fmt;

/// How many braces of text format may be open at once; those around an option's value do not count.
pub const MAX_BRACES: u32 = 100;

/// A sign of one byte.
#[derive(Clone, Copy, PartialEq, Eq, Debug)]
pub enum Sign {
    Dot,
    Minus,
    LeftParen,
    RightParen,
    LeftBrace,
    RightBrace,
    LeftBracket,
    RightBracket,
    LeftAngleBracket,
    RightAngleBracket,
    Comma,
    Equals,
    Colon,
    Semicolon,
    ForwardSlash,
}

impl Sign {
    ghost use Rattle.protox_lex.specs.Lex.{sign_of};
    ghost use Rattle.protox_lex.specs.Printed.{sign_text};

    /// The sign that a byte is.
    pub(crate) fn from_byte(b: u8) -> Option<Sign>
        ensures { result ≡ sign_of b }
    {
        match b {
            b'.' => Some(Sign::Dot),
            b'-' => Some(Sign::Minus),
            b'(' => Some(Sign::LeftParen),
            b')' => Some(Sign::RightParen),
            b'{' => Some(Sign::LeftBrace),
            b'}' => Some(Sign::RightBrace),
            b'[' => Some(Sign::LeftBracket),
            b']' => Some(Sign::RightBracket),
            b'<' => Some(Sign::LeftAngleBracket),
            b'>' => Some(Sign::RightAngleBracket),
            b',' => Some(Sign::Comma),
            b'=' => Some(Sign::Equals),
            b':' => Some(Sign::Colon),
            b';' => Some(Sign::Semicolon),
            b'/' => Some(Sign::ForwardSlash),
            _ => None,
        }
    }

    fn as_str(self) -> &'static str
        ensures { result.now ≡ sign_text self }
    {
        match self {
            Sign::Dot => ".",
            Sign::Minus => "-",
            Sign::LeftParen => "(",
            Sign::RightParen => ")",
            Sign::LeftBrace => "{",
            Sign::RightBrace => "}",
            Sign::LeftBracket => "[",
            Sign::RightBracket => "]",
            Sign::LeftAngleBracket => "<",
            Sign::RightAngleBracket => ">",
            Sign::Comma => ",",
            Sign::Equals => "=",
            Sign::Colon => ":",
            Sign::Semicolon => ";",
            Sign::ForwardSlash => "/",
        }
    }
}

impl fmt::Display for Sign {
    ghost use Rattle.protox_lex.specs.Printed.{sign_text};

    ghost output = { λ s. Some (sign_text s) };

    fn fmt<W: fmt::Write>(&self, f: &mut fmt::Formatter<W>) -> fmt::Result {
        f.write_str(self.as_str())
    }
}

/// A token, lent from its source. Its grammar is "Lexical elements" of the protobuf language
/// specification; a float may end with `f`, and a comment may begin with `#`, as in "Lexical
/// elements" of the text format specification.
///
/// It prints as the text of an option's braces is written: an integer in decimal, a string in `"`
/// with its bytes escaped.
#[derive(Clone, Copy, PartialEq, Debug)]
pub enum Token<'a> {
    Ident(&'a str),
    Int(u64),
    /// As it is written, with its suffix.
    Float(&'a str),
    /// What stands between the quotes, as it is written. [`unescape`](crate::unescape) gives its
    /// bytes.
    String(&'a [u8]),
    Sign(Sign),
    /// From `#` through the end of the line. Text format alone has such comments.
    HashComment,
}

impl fmt::Display for Token<'_> {
    ghost use Rattle.protox_lex.specs.Printed.{token_text};
    ghost use Rattle.protox_lex.specs.Shown.{token_of};

    ghost output = { λ t. Some (token_text (token_of t)) };

    fn fmt<W: fmt::Write>(&self, f: &mut fmt::Formatter<W>) -> fmt::Result {
        match self {
            Token::Ident(text) => f.write_str(text),
            Token::Int(value) => write!(f, "{value}"),
            Token::Float(text) => f.write_str(text),
            Token::String(raw) => {
                f.write_str("\"")?;
                write_contents(f, raw)?;
                f.write_str("\"")
            }
            Token::Sign(sign) => f.write_str(sign.as_str()),
            Token::HashComment => f.write_str("#"),
        }
    }
}

pub const SYNTAX: Token<'static> = Token::Ident("syntax");

pub const PACKAGE: Token<'static> = Token::Ident("package");

pub const IMPORT: Token<'static> = Token::Ident("import");

pub const WEAK: Token<'static> = Token::Ident("weak");

pub const PUBLIC: Token<'static> = Token::Ident("public");

pub const OPTION: Token<'static> = Token::Ident("option");

pub const MESSAGE: Token<'static> = Token::Ident("message");

pub const ENUM: Token<'static> = Token::Ident("enum");

pub const SERVICE: Token<'static> = Token::Ident("service");

pub const RPC: Token<'static> = Token::Ident("rpc");

pub const STREAM: Token<'static> = Token::Ident("stream");

pub const RETURNS: Token<'static> = Token::Ident("returns");

pub const EXTEND: Token<'static> = Token::Ident("extend");

pub const OPTIONAL: Token<'static> = Token::Ident("optional");

pub const REQUIRED: Token<'static> = Token::Ident("required");

pub const REPEATED: Token<'static> = Token::Ident("repeated");

pub const MAP: Token<'static> = Token::Ident("map");

pub const ONEOF: Token<'static> = Token::Ident("oneof");

pub const GROUP: Token<'static> = Token::Ident("group");

pub const EXTENSIONS: Token<'static> = Token::Ident("extensions");

pub const RESERVED: Token<'static> = Token::Ident("reserved");

pub const TO: Token<'static> = Token::Ident("to");

pub const MAX: Token<'static> = Token::Ident("max");

pub const DOUBLE: Token<'static> = Token::Ident("double");

pub const FLOAT: Token<'static> = Token::Ident("float");

pub const INT32: Token<'static> = Token::Ident("int32");

pub const INT64: Token<'static> = Token::Ident("int64");

pub const UINT32: Token<'static> = Token::Ident("uint32");

pub const UINT64: Token<'static> = Token::Ident("uint64");

pub const SINT32: Token<'static> = Token::Ident("sint32");

pub const SINT64: Token<'static> = Token::Ident("sint64");

pub const FIXED32: Token<'static> = Token::Ident("fixed32");

pub const FIXED64: Token<'static> = Token::Ident("fixed64");

pub const SFIXED32: Token<'static> = Token::Ident("sfixed32");

pub const SFIXED64: Token<'static> = Token::Ident("sfixed64");

pub const BOOL: Token<'static> = Token::Ident("bool");

pub const STRING: Token<'static> = Token::Ident("string");

pub const BYTES: Token<'static> = Token::Ident("bytes");
