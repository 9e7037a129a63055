ghost use Rattle.std.specs.Prelude.{◌≡◌, Some, option_map};

use crate::escape::write_contents;
use protox_lex::Sign;
use std::fmt;

/// What the digits of an integer count in.
#[derive(Clone, Copy, PartialEq, Eq)]
pub enum Radix {
    Octal,
    Decimal,
    Hexadecimal,
}

/// An integer as it is written, of any length.
#[derive(Clone, Copy, PartialEq)]
pub struct Int<'a> {
    /// The digits without a prefix.
    pub digits: &'a str,
    pub radix: Radix,
}

impl<'a> Int<'a> {
    ghost use Rattle.text_lex.specs.Lex.{int_of};
    ghost use Rattle.text_lex.specs.Token.{int};

    /// The integer that is written so: `0x` before hexadecimal digits, `0` before octal ones.
    pub(crate) fn from_literal(literal: &'a str) -> Int<'a>
        ensures { int result.radix result.digits.now ≡ int_of literal.now }
    {
        let bytes = literal.as_bytes();
        if bytes.len() < 2 || bytes[0] != b'0' {
            return Int {
                digits: literal,
                radix: Radix::Decimal,
            };
        }
        if bytes[1] == b'x' || bytes[1] == b'X' {
            Int {
                digits: &literal[2..],
                radix: Radix::Hexadecimal,
            }
        } else {
            Int {
                digits: &literal[1..],
                radix: Radix::Octal,
            }
        }
    }
}

/// A token of the text format, lent from its text.
///
/// It prints as it is written, but an integer without its prefix, and a string in `"` with its
/// bytes escaped.
#[derive(Clone, Copy, PartialEq)]
pub enum Token<'a> {
    Ident(&'a str),
    IntLiteral(Int<'a>),
    /// As it is written, with its suffix.
    FloatLiteral(&'a str),
    /// What stands between the quotes, as it is written. `protox_lex::unescape` gives its bytes.
    StringLiteral(&'a [u8]),
    Dot,
    Minus,
    LeftBrace,
    RightBrace,
    LeftBracket,
    RightBracket,
    LeftAngleBracket,
    RightAngleBracket,
    Comma,
    Colon,
    Semicolon,
    ForwardSlash,
}

impl Token<'static> {
    ghost use Rattle.text_lex.specs.Lex.{sign_at, sign_byte};
    ghost use Rattle.text_lex.specs.Shown.{token_of};

    /// A sign of a source that is one of the text format too.
    pub(crate) fn from_sign(sign: Sign) -> Option<Token<'static>>
        ensures { option_map token_of result ≡ sign_at (sign_byte sign) }
    {
        match sign {
            Sign::Dot => Some(Token::Dot),
            Sign::Minus => Some(Token::Minus),
            Sign::LeftBrace => Some(Token::LeftBrace),
            Sign::RightBrace => Some(Token::RightBrace),
            Sign::LeftBracket => Some(Token::LeftBracket),
            Sign::RightBracket => Some(Token::RightBracket),
            Sign::LeftAngleBracket => Some(Token::LeftAngleBracket),
            Sign::RightAngleBracket => Some(Token::RightAngleBracket),
            Sign::Comma => Some(Token::Comma),
            Sign::Colon => Some(Token::Colon),
            Sign::Semicolon => Some(Token::Semicolon),
            Sign::ForwardSlash => Some(Token::ForwardSlash),
            Sign::LeftParen | Sign::RightParen | Sign::Equals => None,
        }
    }
}

impl Token<'_> {
    ghost use Rattle.text_lex.specs.Printed.{plain_text};
    ghost use Rattle.text_lex.specs.Shown.{token_of};

    /// What the token prints; nothing of a string, which prints its bytes.
    fn text(&self) -> &str
        ensures { result.now ≡ plain_text (token_of self.now) }
    {
        match self {
            Token::Ident(text) | Token::FloatLiteral(text) => text,
            Token::IntLiteral(int) => int.digits,
            Token::StringLiteral(_) => "",
            Token::Dot => ".",
            Token::Minus => "-",
            Token::LeftBrace => "{",
            Token::RightBrace => "}",
            Token::LeftBracket => "[",
            Token::RightBracket => "]",
            Token::LeftAngleBracket => "<",
            Token::RightAngleBracket => ">",
            Token::Comma => ",",
            Token::Colon => ":",
            Token::Semicolon => ";",
            Token::ForwardSlash => "/",
        }
    }
}

impl fmt::Display for Token<'_> {
    ghost use Rattle.text_lex.specs.Printed.{printed};
    ghost use Rattle.text_lex.specs.Shown.{token_of};

    ghost output = { λ t. Some (printed (token_of t)) };

    fn fmt<W: fmt::Write>(&self, f: &mut fmt::Formatter<W>) -> fmt::Result {
        match self {
            Token::StringLiteral(raw) => {
                f.write_str("\"")?;
                write_contents(f, raw)?;
                f.write_str("\"")
            }
            _ => f.write_str(self.text()),
        }
    }
}
