//! The string at the front of a text.

ghost use Rattle.protox_lex.specs.Lex as spec;
ghost use Rattle.protox_lex.specs.Shown.{Returns, piece_view};
ghost use Rattle.std.specs.Prelude.{◌≡◌, ◌≢◌, ◌<◌, ◌≤◌, ◌+◌, length, IfOk, IfErr, Err};

use crate::class::byte;
use crate::error::LexErrorKind;
use crate::escape::escape;
use crate::front::{Flaw, Piece};
use crate::token::Token;

fn is_plain(quote: u8, b: u8) -> bool
    ensures { result ≡ spec.is_plain quote b }
{
    !(b == quote || b == b'\\' || b == b'\n' || b == 0)
}

/// The length of the plain byte or the escape at the front, or 0.
fn unit_len(quote: u8, y: &[u8]) -> usize
    requires { 0 < length y.now }
    ensures value { result ≡ spec.unit_len quote y.now }
    ensures within { result ≤ length y.now }
{
    if y[0] == b'\\' {
        match escape(&y[1..]) {
            Ok((_, len)) => len + 1,
            Err(_) => 0,
        }
    } else if is_plain(quote, y[0]) {
        1
    } else {
        0
    }
}

/// How far the contents of a string reach: plain bytes and escapes.
fn contents_len(quote: u8, y: &[u8]) -> usize
    ensures value { result ≡ spec.contents_len quote y.now }
    ensures within { result ≤ length y.now }
{
    let mut n = 0;
    while n < y.len() {
        let len = unit_len(quote, &y[n..]);
        if len == 0 {
            return n;
        }
        n += len;
    }
    n
}

/// Why the contents of a string end at a place that has no closing quote. Places count from the
/// opening quote.
fn flaw(y: &[u8], n: usize) -> Flaw
    ensures value { spec.unclosed y.now n ≡ Err result }
    ensures within { (result.start ≤ result.end) × (result.end ≤ length y.now + 1) }
{
    if y.len() <= n {
        return Flaw {
            kind: LexErrorKind::UnterminatedString,
            start: 0,
            end: y.len() + 1,
        };
    }
    if y[n] == b'\\' {
        let len = escape(&y[n + 1..]).err().unwrap_or(0);
        return Flaw {
            kind: LexErrorKind::InvalidStringEscape,
            start: n + 1,
            end: n + 2 + len,
        };
    }
    Flaw {
        kind: LexErrorKind::InvalidStringCharacters,
        start: n + 1,
        end: n + 2,
    }
}

/// The string whose opening quote stands before `y`, and its length with both quotes.
#[tactic(auto, unfolding(crate::specs::Lex::quoted))]
pub fn quoted(quote: u8, y: &[u8]) -> Result<(Piece<'_>, usize), Flaw>
    requires { quote ≢ 0 }
    ensures value { Returns (λ p. (piece_view p.0, p.1)) result (spec.quoted quote y.now) }
    ensures within { IfOk result (λ p. (1 ≤ p.1) × (p.1 ≤ length y.now + 1)) }
    ensures flaw { IfErr result (λ f. (f.start ≤ f.end) × (f.end ≤ length y.now + 1)) }
{
    let n = contents_len(quote, y);
    if byte(y, n) == quote {
        Ok((Piece::Token(Token::String(&y[..n])), n + 2))
    } else {
        Err(flaw(y, n))
    }
}
