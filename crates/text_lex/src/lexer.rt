//! The tokens of a text, one after the other.
//!
//! They are those of a source, but for comments, for some signs and for integers, which may have
//! any length.

ghost use Rattle.protox_lex.specs.Class.{is_in, past};
ghost use Rattle.protox_lex.specs.Shown as source;
ghost use Rattle.protox_lex.specs.Token.{int};
ghost use Rattle.protox_lex.specs.declared.class.Class.TheVariants as class;
ghost use Rattle.protox_lex.specs.declared.error.LexErrorKind.TheVariants as kinds;
ghost use Rattle.std.specs.Prelude.{◌≡◌, ℕ, ◌<◌, ◌≤◌, ◌+◌, ◌^◌, ◌==◌, ◌||◌, [], ◌∷◌, length, take, drop, slice_index, option_map, IfOk, IfErr, IfSome, IfNone, MatchOption, IsCharBoundary, Ok, List, false};
ghost use Rattle.text_lex.specs.Lex as spec;
ghost use Rattle.text_lex.specs.Shown.{token_of};
ghost use Rattle.text_lex.specs.Token.{token, token_at, fault};

use crate::token::{Int, Token};
use protox_lex::{Class, LexError as SourceError, LexErrorKind, Span, is_in, past};

/// A token, and where it stands.
#[derive(Clone, Copy)]
pub struct Lexeme<'a> {
    pub token: Token<'a>,
    pub span: Span,
}

/// Why no token was found.
#[derive(Clone, Copy, PartialEq, Eq, Debug)]
pub enum LexError {
    /// A character with which no token begins.
    InvalidToken(Span),
    /// A NUL or a line end in a string.
    InvalidStringCharacters(Span),
    /// A backslash in a string that begins no escape, or an escape that means no byte and no
    /// character.
    InvalidStringEscape(Span),
    /// A string without its closing quote.
    UnterminatedString,
    /// A letter directly behind an integer: from its digits to the end of the letters.
    NoSpaceBetweenIntAndIdent(Span),
}

/// The end of the gap that begins at a place: blanks, and comments from `#` to the end of the line.
fn gap_end(text: &[u8], at: usize) -> usize
    requires { at ≤ length text.now }
    ensures within { (at ≤ result) × (result ≤ length text.now) }
    ensures passed { spec.lexemes_from at 0 (drop at text.now)
        ≡ spec.lexemes_from result 0 (drop result text.now) }
    ensures begins { (is_in class.Blank (slice_index text.now result) ≡ false)
        × ((slice_index text.now result == 35) ≡ false) }
{
    let mut end = at;
    'gap: while end < text.len() {
        let b = text[end];
        if b == b'#' {
            end = past(Class::Line, text, end + 1);
        } else if is_in(Class::Blank, b) {
            end += 1;
        } else {
            return end;
        }
    }
    end
}

/// The integer that ends at a place.
fn integer_to(rest: &str, end: usize) -> Token<'_>
    requires { IsCharBoundary rest.now end }
    ensures { token_of result ≡ spec.int_of (take end rest.now) }
{
    Token::IntLiteral(Int::from_literal(&rest[..end]))
}

/// What the token that a source has in its front is in a text.
fn text_token<'a>(rest: &'a str, lexeme: protox_lex::Lexeme<'a>) -> Option<Token<'a>>
    requires { (n : ℕ) → source.token_of lexeme.token ≡ int n
        → IsCharBoundary rest.now lexeme.span.end }
    ensures { option_map token_of result
        ≡ spec.token_in (take lexeme.entry.span.end rest.now) (source.token_of lexeme.entry.token) }
{
    match lexeme.token {
        protox_lex::Token::Ident(text) => Some(Token::Ident(text)),
        protox_lex::Token::Int(_) => Some(integer_to(rest, lexeme.span.end)),
        protox_lex::Token::Float(text) => Some(Token::FloatLiteral(text)),
        protox_lex::Token::String(raw) => Some(Token::StringLiteral(raw)),
        protox_lex::Token::Sign(sign) => Token::from_sign(sign),
        protox_lex::Token::HashComment => None,
    }
}

/// The word in the front and its length.
fn word(rest: &str) -> Option<(Token<'_>, usize)>
    requires some { 0 < length rest.now }
    requires begins { is_in class.Blank (slice_index rest.now 0) ≡ false }
    ensures { IfSome result (λ p. (at : ℕ) → spec.front at rest.now
        ≡ Ok (token (token_of p.0), p.1)) }
{
    let bytes = rest.as_bytes();
    if !is_in(Class::Letter, bytes[0]) {
        return None;
    }
    let end = past(Class::Word, bytes, 1);
    Some((Token::Ident(&rest[..end]), end))
}

/// A letter or a point stands at a place.
fn is_at_letter_or_point(text: &[u8], at: usize) -> bool
    ensures { result ≡ (is_in class.Letter (slice_index text.now at)
        || slice_index text.now at == 46) }
{
    if at >= text.len() {
        return false;
    }
    is_in(Class::Letter, text[at]) || text[at] == b'.'
}

/// The decimal integer in the front and its length, where it does not begin with 0 and neither a
/// letter nor a point stands behind it.
fn decimal(rest: &str) -> Option<(Token<'_>, usize)>
    requires { 0 < length rest.now }
    ensures { IfSome result (λ p. (at : ℕ) → spec.front at rest.now
        ≡ Ok (token (token_of p.0), p.1)) }
{
    let bytes = rest.as_bytes();
    if !bytes[0].is_ascii_digit() || bytes[0] == b'0' {
        return None;
    }
    let end = past(Class::Digit, bytes, 0);
    if is_at_letter_or_point(bytes, end) {
        return None;
    }
    Some((integer_to(rest, end), end))
}

/// A token of so many bytes at a place, or the fault that none is there.
fn taken(found: Option<Token<'_>>, at: usize, len: usize) -> Result<(Token<'_>, usize), LexError>
    requires { at + len < 2 ^ 64 }
    ensures { source.Returns (λ p. (token (token_of p.0), p.1)) result
        (spec.taken at (option_map token_of found.entry) len) }
{
    match found {
        Some(token) => Ok((token, len)),
        None => Err(LexError::InvalidToken(Span {
            start: at,
            end: at + len,
        })),
    }
}

/// The fault at a place where a source has this one in its front. An integer of any length is a
/// token here.
fn refused(rest: &str, at: usize, error: SourceError) -> Result<(Token<'_>, usize), LexError>
    requires start { at + error.span.start < 2 ^ 64 }
    requires end { at + error.span.end < 2 ^ 64 }
    requires cut { error.kind ≡ kinds.IntegerOutOfRange → IsCharBoundary rest.now error.span.end }
    ensures { source.Returns (λ p. (token (token_of p.0), p.1)) result
        (spec.refused at rest.now error.kind error.span.start error.span.end) }
{
    let span = Span {
        start: at + error.span.start,
        end: at + error.span.end,
    };
    match error.kind {
        LexErrorKind::IntegerOutOfRange => {
            Ok((integer_to(rest, error.span.end), error.span.end))
        }
        LexErrorKind::InvalidStringCharacters => Err(LexError::InvalidStringCharacters(span)),
        LexErrorKind::InvalidStringEscape => Err(LexError::InvalidStringEscape(span)),
        LexErrorKind::UnterminatedString => Err(LexError::UnterminatedString),
        LexErrorKind::NoSpaceBetweenIntAndIdent => Err(LexError::NoSpaceBetweenIntAndIdent(span)),
        LexErrorKind::InvalidToken
        | LexErrorKind::NestedBlockComment
        | LexErrorKind::UnterminatedComment
        | LexErrorKind::HashCommentOutsideTextFormat
        | LexErrorKind::FloatSuffixOutsideTextFormat => Err(LexError::InvalidToken(span)),
    }
}

/// The sign that a byte is, whatever stands behind it. A point may begin a number.
fn lone_sign(b: u8) -> Option<Token<'static>>
    ensures sign { IfSome result (λ t. (at : ℕ) (rest : List ℕ) → slice_index rest 0 ≡ b
        → spec.front at rest ≡ Ok (token (token_of t), 1)) }
    ensures other { IfNone result ((b == 47) ≡ false) }
{
    match b {
        b'-' => Some(Token::Minus),
        b'{' => Some(Token::LeftBrace),
        b'}' => Some(Token::RightBrace),
        b'[' => Some(Token::LeftBracket),
        b']' => Some(Token::RightBracket),
        b'<' => Some(Token::LeftAngleBracket),
        b'>' => Some(Token::RightAngleBracket),
        b',' => Some(Token::Comma),
        b':' => Some(Token::Colon),
        b';' => Some(Token::Semicolon),
        b'/' => Some(Token::ForwardSlash),
        _ => None,
    }
}

/// The token in the front that a source has there too, and its length.
#[tactic(auto, unfolding(crate::specs::Lex::front))]
fn source_token(rest: &str, at: usize) -> Result<(Token<'_>, usize), LexError>
    requires some { 0 < length rest.now }
    requires fits { at + length rest.now < 2 ^ 64 }
    requires begins { (is_in class.Blank (slice_index rest.now 0) ≡ false)
        × ((slice_index rest.now 0 == 35) ≡ false) }
    requires slash { (slice_index rest.now 0 == 47) ≡ false }
    ensures { source.Returns (λ p. (token (token_of p.0), p.1)) result (spec.front at rest.now) }
{
    let mut source = protox_lex::Lexer::new(rest);
    match source.next() {
        Ok(Some(lexeme)) => taken(text_token(rest, lexeme), at, lexeme.span.end),
        Ok(None) => taken(None, at, 1),
        Err(error) => refused(rest, at, error),
    }
}

/// The token in the front of what is left of a text, and its length.
///
/// A source has all but `/` there too. What most tokens are is cut here: a source's lexer tests
/// that words are text, which is known here, and counts what digits write, which may be of any
/// length.
fn front(rest: &str, at: usize) -> Result<(Token<'_>, usize), LexError>
    requires some { 0 < length rest.now }
    requires fits { at + length rest.now < 2 ^ 64 }
    requires begins { (is_in class.Blank (slice_index rest.now 0) ≡ false)
        × ((slice_index rest.now 0 == 35) ≡ false) }
    ensures { source.Returns (λ p. (token (token_of p.0), p.1)) result (spec.front at rest.now) }
{
    if let Some(sign) = lone_sign(rest.as_bytes()[0]) {
        return Ok((sign, 1));
    }
    if let Some(found) = word(rest) {
        return Ok(found);
    }
    match decimal(rest) {
        Some(found) => Ok(found),
        None => source_token(rest, at),
    }
}

/// A text, and how far it is read.
///
/// In contracts `stream` is the list of what is left: the tokens with their places, and at the
/// first fault that fault and no more. `new` says that the list of a whole text is one that the
/// longest match cuts it into (`Lexes` of specs/Longest.antt), by `laws::one_reading` there is no
/// other such list, and `next` takes the first of what is left.
#[derive(Clone, Copy)]
pub struct Lexer<'a> {
    text: &'a str,
    at: usize,
    ghost within: { at ≤ length text.now },
}

impl<'a> Lexer<'a> {
    ghost use Rattle.text_lex.specs.Longest.{Lexes};
    ghost use Rattle.text_lex.specs.Stream.{stream};
    ghost use Rattle.text_lex.specs.Unread.{unread};

    /// A lexer at the front of a text, whose tokens are those that the longest match cuts it into
    /// (`laws`).
    pub fn new(text: &'a str) -> Lexer<'a>
        ensures { Lexes 0 text.now (stream result) }
    {
        Lexer { text, at: 0 }
    }

    /// The next token, or nothing at the end of the text. After an `Err` each call gives it again.
    pub fn next(&mut self) -> Result<Option<Lexeme<'a>>, LexError>
        ensures ok { IfOk result (λ o. MatchOption o
            ((stream self.old ≡ []) × (stream self.new ≡ []))
            (λ t. stream self.old ≡ token_at t.span.start t.span.end (token_of t.token)
            ∷ stream self.new)) }
        ensures err { IfErr result (λ e. (stream self.old ≡ fault e ∷ [])
            × (stream self.new ≡ stream self.old)) }
        ensures moves { IfOk result (λ o. IfSome o (λ _. unread self.new < unread self.old)) }
    {
        let text = self.text;
        let at = gap_end(text.as_bytes(), self.at);
        if at >= text.len() {
            return Ok(None);
        }
        let Some(rest) = text.get(at..) else {
            return Err(LexError::InvalidToken(Span {
                start: at,
                end: at + 1,
            }));
        };
        match front(rest, at) {
            Err(error) => Err(error),
            Ok((token, len)) => {
                let span = Span {
                    start: at,
                    end: at + len,
                };
                self.at = span.end;
                Ok(Some(Lexeme { token, span }))
            }
        }
    }
}
