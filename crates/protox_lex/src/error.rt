//! Why a source cannot be cut into tokens.

ghost use Rattle.std.specs.Prelude.{◌≡◌, Some};
ghost use Rattle.protox_lex.specs.FaultTexts.{fault_text};

use crate::span::Span;
use std::error::Error;
use std::fmt;

/// What is wrong with the tokens of a source.
#[derive(Clone, Copy, PartialEq, Eq, Debug)]
pub enum LexErrorKind {
    /// A character with which no token begins.
    InvalidToken,
    /// An integer of more than 64 bits.
    IntegerOutOfRange,
    /// A line end or a NUL in a string.
    InvalidStringCharacters,
    /// A backslash in a string that begins no escape, or an escape that means no byte and no
    /// character.
    InvalidStringEscape,
    /// A string without its closing quote.
    UnterminatedString,
    /// A `/*` in a block comment.
    NestedBlockComment,
    /// A block comment without its end.
    UnterminatedComment,
    /// An integer that is directly followed by a letter or `_`.
    NoSpaceBetweenIntAndIdent,
    /// A comment that begins with `#`, where no text format stands.
    HashCommentOutsideTextFormat,
    /// A number that ends with `f`, where no text format stands.
    FloatSuffixOutsideTextFormat,
}

impl LexErrorKind {
    /// The fault in a few words.
    pub fn text(self) -> &'static str
        ensures { result.now ≡ fault_text self }
    {
        match self {
            LexErrorKind::InvalidToken => "invalid token",
            LexErrorKind::IntegerOutOfRange => "integer is out of range",
            LexErrorKind::InvalidStringCharacters => "invalid string character",
            LexErrorKind::InvalidStringEscape => "invalid string escape",
            LexErrorKind::UnterminatedString => "string has no closing quote",
            LexErrorKind::NestedBlockComment => "block comments cannot be nested",
            LexErrorKind::UnterminatedComment => "comment has no end",
            LexErrorKind::NoSpaceBetweenIntAndIdent => {
                "whitespace is required between an integer literal and an identifier"
            }
            LexErrorKind::HashCommentOutsideTextFormat => {
                "hash comments are only allowed in text format"
            }
            LexErrorKind::FloatSuffixOutsideTextFormat => {
                "float suffixes are only allowed in text format"
            }
        }
    }
}

impl fmt::Display for LexErrorKind {
    ghost output = { λ k. Some (fault_text k) };

    fn fmt<W: fmt::Write>(&self, f: &mut fmt::Formatter<W>) -> fmt::Result {
        f.write_str(self.text())
    }
}

/// A fault in the tokens of a source, and where it is.
#[derive(Clone, Copy, PartialEq, Eq, Debug)]
pub struct LexError {
    pub kind: LexErrorKind,
    pub span: Span,
}

impl fmt::Display for LexError {
    ghost output = { λ e. Some (fault_text e.kind) };

    fn fmt<W: fmt::Write>(&self, f: &mut fmt::Formatter<W>) -> fmt::Result {
        write!(f, "{}", self.kind)
    }
}

impl Error for LexError {}
