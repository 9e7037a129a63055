//! The tokens of a source, one after the other.

ghost use Rattle.std.specs.Prelude.{◌≡◌, ◌≤◌, ◌<◌, ◌-◌, length, slice_index, [], ◌∷◌, IfOk, IfErr, OnErr, MatchOption};
ghost use Rattle.protox_lex.specs.Lex.{is_suffix};
ghost use Rattle.protox_lex.specs.Token.{token_at, fault_at};

use crate::error::{LexError, LexErrorKind};
use crate::front::{Piece, front};
use crate::span::Span;
use crate::token::Token;

/// A token, and where it stands.
#[derive(Clone, Copy, PartialEq, Debug)]
pub struct Lexeme<'a> {
    pub span: Span,
    pub token: Token<'a>,
}

impl Lexeme<'_> {
    ghost use Rattle.protox_lex.specs.Shown.{token_of};
    ghost use Rattle.protox_lex.specs.TextFormat.{format_fault};
    ghost use Rattle.std.specs.Prelude.{option_map, IfSome};

    /// The fault of a token that only text format has: a comment that begins with `#`, or a number
    /// that ends with `f`.
    pub fn text_format_fault(&self) -> Option<LexError>
        ensures kind { option_map (λ e. e.kind) result ≡ format_fault (token_of self.now.token) }
        ensures span { IfSome result (λ e. e.span ≡ self.now.span) }
    {
        let kind = match self.token {
            Token::HashComment => LexErrorKind::HashCommentOutsideTextFormat,
            Token::Float(text) if ends_with_suffix(text.as_bytes()) => {
                LexErrorKind::FloatSuffixOutsideTextFormat
            }
            _ => return None,
        };
        Some(LexError {
            kind,
            span: self.span,
        })
    }
}

fn ends_with_suffix(text: &[u8]) -> bool
    ensures { result ≡ is_suffix (slice_index text.now (length text.now - 1)) }
{
    matches!(text, [.., b'f' | b'F'])
}

/// A source, and how far it is read.
///
/// In contracts `stream` is the list of what is left: the tokens with their places, and at the
/// first fault that fault and no more. `new` says that the list of a whole source is one that the
/// longest match cuts it into (`Lexes` of specs/Longest.antt), by `laws::one_reading` there is no
/// other such list, and `next` takes the first of what is left.
///
/// Gaps, that is, white space and the comments `//` and `/*`, stand between the tokens and are
/// passed over. A comment that begins with `#` is a token, since only who knows that text format
/// stands there may pass over it.
#[derive(Clone, Copy, Debug)]
pub struct Lexer<'a> {
    source: &'a [u8],
    at: usize,
    ghost within: { at ≤ length source.now },
}

impl<'a> Lexer<'a> {
    ghost use Rattle.protox_lex.specs.Longest.{Lexes};
    ghost use Rattle.protox_lex.specs.Shown.{stream, token_of};
    ghost use Rattle.protox_lex.specs.Unread.{unread};

    /// A lexer at the front of a source, whose tokens are those that the longest match cuts it into
    /// (`laws`).
    pub fn new(source: &'a str) -> Lexer<'a>
        ensures { Lexes 0 source.now (stream result) }
    {
        Lexer {
            source: source.as_bytes(),
            at: 0,
        }
    }

    /// The next token and the bytes that it takes, or `None` at the end. An `Err` is why the text
    /// can be cut no further, with the bytes at fault; after it each call gives it again, and the
    /// lexer stays as it is.
    pub fn next(&mut self) -> Result<Option<Lexeme<'a>>, LexError>
        ensures ok { IfOk result (λ o. MatchOption o
            ((stream self.old ≡ []) × (stream self.new ≡ []))
            (λ t. stream self.old ≡ token_at t.span.start t.span.end (token_of t.token)
            ∷ stream self.new)) }
        ensures err { IfErr result (λ e.
            (stream self.old ≡ fault_at e.kind e.span.start e.span.end ∷ [])
            × (stream self.new ≡ stream self.old)) }
        ensures moves { IfOk result (λ o. MatchOption o (unread self.new ≤ unread self.old)
            (λ _. unread self.new < unread self.old)) }
        ensures stays { OnErr result (unread self.new ≤ unread self.old) }
    {
        let source = self.source;
        while self.at < source.len() {
            let start = self.at;
            match front(&source[start..]) {
                Err(flaw) => {
                    return Err(LexError {
                        kind: flaw.kind,
                        span: Span {
                            start: start + flaw.start,
                            end: start + flaw.end,
                        },
                    });
                }
                Ok((Piece::Gap, len)) => self.at += len,
                Ok((Piece::Token(token), len)) => {
                    self.at += len;
                    let span = Span {
                        start,
                        end: self.at,
                    };
                    return Ok(Some(Lexeme { span, token }));
                }
            }
        }
        Ok(None)
    }
}
