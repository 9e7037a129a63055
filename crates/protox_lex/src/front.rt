//! The piece at the front of a text.

ghost use Rattle.std.specs.Prelude.{◌≡◌, ◌<◌, ◌≤◌, ◌+◌, length, slice_index, IfOk, IfErr, true};
ghost use Rattle.protox_lex.specs.Class.{is_in, past};
ghost use Rattle.protox_lex.specs.Lex as spec;
ghost use Rattle.protox_lex.specs.Shown.{Returns, piece_view};
ghost use Rattle.protox_lex.specs.Ascii.{IsAsciiTo};
ghost use Rattle.protox_lex.specs.declared.class.Class.TheVariants as class;

use crate::class::{Class, byte, is_in, past};
use crate::error::LexErrorKind;
use crate::number::{begins_number, number};
use crate::quoted::quoted;
use crate::token::{Sign, Token};

/// What a text is cut into.
#[derive(Clone, Copy, Debug)]
pub enum Piece<'a> {
    Gap,
    Token(Token<'a>),
}

/// Why no piece can be cut, and the bytes at fault. Places count from the front.
#[derive(Clone, Copy, Debug)]
pub struct Flaw {
    pub kind: LexErrorKind,
    pub start: usize,
    pub end: usize,
}

/// Bytes below 128 as text.
pub fn ascii_text(z: &[u8]) -> &str
    requires { IsAsciiTo z.now (length z.now) }
    ensures { result.now ≡ z.now }
{
    str::from_utf8(z).unwrap()
}

/// The length of the character that begins with this byte.
fn char_len(b: u8) -> usize
    ensures value { result ≡ spec.char_len b }
    ensures some { 1 ≤ result }
{
    if b < 0xc0 {
        1
    } else if b < 0xe0 {
        2
    } else if b < 0xf0 {
        3
    } else {
        4
    }
}

/// The first place from the third byte on where `/*` or `*/` begins, or the length.
fn past_comment_text(z: &[u8]) -> usize
    requires { 2 ≤ length z.now }
    ensures value { result ≡ spec.past_comment_text z.now }
    ensures within { result ≤ length z.now }
    ensures pair { result < length z.now → result + 2 ≤ length z.now }
{
    let mut at = 2;
    while at < z.len() {
        let next = byte(z, at + 1);
        if z[at] == b'*' && next == b'/' || z[at] == b'/' && next == b'*' {
            return at;
        }
        at += 1;
    }
    z.len()
}

/// A text that begins with `/*`.
#[tactic(auto, unfolding(crate::specs::Lex::block_comment))]
fn block_comment(z: &[u8]) -> Result<(Piece<'_>, usize), Flaw>
    requires { 2 ≤ length z.now }
    ensures value { Returns (λ p. (piece_view p.0, p.1)) result (spec.block_comment z.now) }
    ensures within { IfOk result (λ p. (1 ≤ p.1) × (p.1 ≤ length z.now)) }
    ensures flaw { IfErr result (λ f. (f.start ≤ f.end) × (f.end ≤ length z.now)) }
{
    let at = past_comment_text(z);
    match byte(z, at) {
        b'*' => Ok((Piece::Gap, at + 2)),
        b'/' => Err(Flaw {
            kind: LexErrorKind::NestedBlockComment,
            start: at,
            end: at + 2,
        }),
        _ => Err(Flaw {
            kind: LexErrorKind::UnterminatedComment,
            start: 0,
            end: z.len(),
        }),
    }
}

/// The place behind the end of the first line.
fn past_line(z: &[u8]) -> usize
    requires { 0 < length z.now }
    ensures value { result ≡ spec.past_line z.now }
    ensures within { (1 ≤ result) × (result ≤ length z.now) }
{
    let end = past(Class::Line, z, 1);
    if end < z.len() { end + 1 } else { end }
}

fn word(z: &[u8]) -> (Piece<'_>, usize)
    requires some { 0 < length z.now }
    requires letter { is_in class.Letter (slice_index z.now 0) ≡ true }
    ensures value { (piece_view result.0, result.1) ≡ spec.word_to z.now (past class.Word z.now 1) }
    ensures within { (1 ≤ result.1) × (result.1 ≤ length z.now) }
{
    let end = past(Class::Word, z, 1);
    (Piece::Token(Token::Ident(ascii_text(&z[..end]))), end)
}

fn sign(z: &[u8]) -> Result<(Piece<'_>, usize), Flaw>
    requires { 0 < length z.now }
    ensures value { Returns (λ p. (piece_view p.0, p.1)) result
        (spec.signed z.now (spec.sign_of (slice_index z.now 0))) }
    ensures within { IfOk result (λ p. (1 ≤ p.1) × (p.1 ≤ length z.now)) }
    ensures flaw { IfErr result (λ f. (f.start ≤ f.end) × (f.end ≤ length z.now)) }
{
    match Sign::from_byte(z[0]) {
        Some(sign) => Ok((Piece::Token(Token::Sign(sign)), 1)),
        None => Err(Flaw {
            kind: LexErrorKind::InvalidToken,
            start: 0,
            end: z.len().min(char_len(z[0])),
        }),
    }
}

/// The piece at the front, and its length.
#[tactic(auto, unfolding(crate::specs::Lex::front))]
pub fn front(z: &[u8]) -> Result<(Piece<'_>, usize), Flaw>
    requires { 0 < length z.now }
    ensures value { Returns (λ p. (piece_view p.0, p.1)) result (spec.front z.now) }
    ensures within { IfOk result (λ p. (1 ≤ p.1) × (p.1 ≤ length z.now)) }
    ensures flaw { IfErr result (λ f. (f.start ≤ f.end) × (f.end ≤ length z.now)) }
{
    let b = z[0];
    if is_in(Class::Blank, b) {
        Ok((Piece::Gap, past(Class::Blank, z, 1)))
    } else if is_in(Class::Letter, b) {
        Ok(word(z))
    } else if begins_number(z) {
        number(z)
    } else if b == b'"' || b == b'\'' {
        quoted(b, &z[1..])
    } else if b == b'#' {
        Ok((Piece::Token(Token::HashComment), past_line(z)))
    } else if b == b'/' && byte(z, 1) == b'/' {
        Ok((Piece::Gap, past(Class::Line, z, 2)))
    } else if b == b'/' && byte(z, 1) == b'*' {
        block_comment(z)
    } else {
        sign(z)
    }
}
