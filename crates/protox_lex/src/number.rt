//! The number at the front of a text.

ghost use Rattle.std.specs.Prelude.{◌≡◌, ◌<◌, ◌≤◌, ◌+◌, length, slice_index, true, IfOk, IfErr};
ghost use Rattle.protox_lex.specs.Lex as spec;
ghost use Rattle.protox_lex.specs.Ascii.{IsAsciiTo};
ghost use Rattle.protox_lex.specs.Shown.{Returns, piece_view};

use crate::class::{Class, byte, is_in, past};
use crate::error::LexErrorKind;
use crate::front::{Flaw, Piece, ascii_text};
use crate::token::Token;

/// What a digit counts.
fn digit(b: u8) -> u64
    ensures value { result ≡ spec.digit b }
    ensures small { result < 256 }
{
    if b.is_ascii_digit() {
        u64::from(b - b'0')
    } else if b <= b'F' {
        u64::from(b.saturating_sub(b'A' - 10))
    } else {
        u64::from(b.saturating_sub(b'a' - 10))
    }
}

/// A number below this bound has at most 64 bits with a further digit too, in each radix.
const SHORT: u64 = 1 << 59;

/// The number that digits write, if it has at most 64 bits.
pub fn value(radix: u64, digits: &[u8]) -> Option<u64>
    requires { (1 ≤ radix) × (radix ≤ 16) }
    ensures { result ≡ spec.short (spec.value radix digits.now) }
{
    let mut n = 0u64;
    for b in digits {
        let more = digit(*b);
        n = if n < SHORT {
            n * radix + more
        } else {
            n.checked_mul(radix)?.checked_add(more)?
        };
    }
    Some(n)
}

/// A number begins with a digit, or with a point and a digit.
pub fn begins_number(z: &[u8]) -> bool
    ensures { result ≡ spec.begins_number z.now }
{
    is_in(Class::Digit, byte(z, 0)) || byte(z, 0) == b'.' && is_in(Class::Digit, byte(z, 1))
}

fn is_hex(z: &[u8]) -> bool
    ensures value { result ≡ spec.is_hex z.now }
    ensures within { result ≡ true → 2 < length z.now }
{
    let x = byte(z, 1);
    byte(z, 0) == b'0' && (x == b'x' || x == b'X') && is_in(Class::Hex, byte(z, 2))
}

fn is_exponent_mark(b: u8) -> bool
    ensures { result ≡ spec.is_exponent_mark b }
{
    b == b'e' || b == b'E'
}

/// Where the digits of the exponent that stands at a place begin.
fn exponent_digits(z: &[u8], at: usize) -> usize
    requires { at < length z.now }
    ensures value { result ≡ spec.exponent_digits z.now at }
{
    let sign = byte(z, at + 1);
    if sign == b'+' || sign == b'-' {
        at + 2
    } else {
        at + 1
    }
}

/// The place behind the exponent that stands at a place, or that place.
#[tactic(auto, unfolding(crate::specs::Lex::past_exponent))]
fn past_exponent(z: &[u8], at: usize) -> usize
    requires { at ≤ length z.now }
    ensures value { result ≡ spec.past_exponent z.now at }
    ensures within { (at ≤ result) × (result ≤ length z.now) }
    ensures ascii { IsAsciiTo z.now at → IsAsciiTo z.now result }
{
    if !is_exponent_mark(byte(z, at)) {
        return at;
    }
    let digits = exponent_digits(z, at);
    if is_in(Class::Digit, byte(z, digits)) {
        past(Class::Digit, z, digits)
    } else {
        at
    }
}

/// The place behind the point, the decimals and the exponent that stand at a place, or that place.
#[tactic(auto, unfolding(crate::specs::Lex::past_fraction))]
fn past_fraction(z: &[u8], at: usize) -> usize
    requires { at ≤ length z.now }
    ensures within { (at ≤ result) × (result ≤ length z.now) }
    ensures value { result ≡ spec.past_fraction z.now at }
    ensures point { slice_index z.now at ≡ 46 → at < result }
    ensures ascii { IsAsciiTo z.now at → IsAsciiTo z.now result }
{
    if byte(z, at) == b'.' {
        past_exponent(z, past(Class::Digit, z, at + 1))
    } else {
        past_exponent(z, at)
    }
}

fn is_suffix(b: u8) -> bool
    ensures { result ≡ spec.is_suffix b }
{
    b == b'f' || b == b'F'
}

/// The place behind the suffix of a float that stands at a place, or that place.
fn past_suffix(z: &[u8], at: usize) -> usize
    requires { at ≤ length z.now }
    ensures value { result ≡ spec.past_suffix z.now at }
    ensures within { (at ≤ result) × (result ≤ length z.now) }
    ensures ascii { IsAsciiTo z.now at → IsAsciiTo z.now result }
{
    if is_suffix(byte(z, at)) { at + 1 } else { at }
}

/// The float of so many bytes, and its suffix if one stands behind.
fn float(z: &[u8], end: usize) -> (Piece<'_>, usize)
    requires within { end ≤ length z.now }
    requires ascii { IsAsciiTo z.now end }
    ensures value { (piece_view result.0, result.1)
        ≡ spec.float_to z.now (spec.past_suffix z.now end) }
    ensures within { (end ≤ result.1) × (result.1 ≤ length z.now) }
{
    let end = past_suffix(z, end);
    (Piece::Token(Token::Float(ascii_text(&z[..end]))), end)
}

/// The integer up to `end` whose digits begin at `start`.
fn integer<'a>(
    z: &'a [u8],
    start: usize,
    end: usize,
    number: Option<u64>,
) -> Result<(Piece<'a>, usize), Flaw>
    requires within { end ≤ length z.now }
    requires start { start ≤ end }
    ensures value { Returns (λ p. (piece_view p.0, p.1)) result
        (spec.integer z.now start end number) }
    ensures end { IfOk result (λ p. p.1 ≡ end) }
    ensures flaw { IfErr result (λ f. (f.start ≤ f.end) × (f.end ≤ length z.now)) }
{
    if is_in(Class::Letter, byte(z, end)) {
        return Err(Flaw {
            kind: LexErrorKind::NoSpaceBetweenIntAndIdent,
            start,
            end: past(Class::Alphabetic, z, end + 1),
        });
    }
    match number {
        Some(number) => Ok((Piece::Token(Token::Int(number)), end)),
        None => Err(Flaw {
            kind: LexErrorKind::IntegerOutOfRange,
            start: 0,
            end,
        }),
    }
}

/// A number with a point or an exponent, or with a suffix behind digits that are not octal.
fn is_float(z: &[u8], whole: usize, end: usize) -> bool
    ensures { result ≡ spec.is_float z.now whole end }
{
    whole < end || (byte(z, 0) != b'0' || whole == 1) && is_suffix(byte(z, end))
}

#[tactic(auto, unfolding(crate::specs::Lex::octal))]
fn octal(z: &[u8]) -> Result<(Piece<'_>, usize), Flaw>
    requires { 1 ≤ length z.now }
    ensures value { Returns (λ p. (piece_view p.0, p.1)) result (spec.octal z.now) }
    ensures within { IfOk result (λ p. (1 ≤ p.1) × (p.1 ≤ length z.now)) }
    ensures flaw { IfErr result (λ f. (f.start ≤ f.end) × (f.end ≤ length z.now)) }
{
    let end = past(Class::Octal, z, 1);
    integer(z, end.min(2) - 1, end, value(8, &z[..end]))
}

/// The number at the front, and its length.
#[tactic(auto, unfolding(crate::specs::Lex::number))]
pub fn number(z: &[u8]) -> Result<(Piece<'_>, usize), Flaw>
    requires { spec.begins_number z.now ≡ true }
    ensures value { Returns (λ p. (piece_view p.0, p.1)) result (spec.number z.now) }
    ensures within { IfOk result (λ p. (1 ≤ p.1) × (p.1 ≤ length z.now)) }
    ensures flaw { IfErr result (λ f. (f.start ≤ f.end) × (f.end ≤ length z.now)) }
{
    if is_hex(z) {
        let end = past(Class::Hex, z, 2);
        return integer(z, 2, end, value(16, &z[2..end]));
    }
    let whole = past(Class::Digit, z, 0);
    let end = past_fraction(z, whole);
    if is_float(z, whole, end) {
        Ok(float(z, end))
    } else if byte(z, 0) == b'0' {
        octal(z)
    } else {
        integer(z, 0, whole, value(10, &z[..whole]))
    }
}
