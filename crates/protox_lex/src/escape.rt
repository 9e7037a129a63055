//! The escapes of a string.

ghost use Rattle.std.specs.Prelude.{◌≡◌, ◌≢◌, ◌<◌, ◌≤◌, ◌+◌, ◌++◌, length, slice_index, Some, OnOk, IfOk, IfErr, IsSome, true, false};
ghost use Rattle.std.specs.Fmt.{WritesOnOk};
ghost use Rattle.protox_lex.specs.Class.{is_in};
ghost use Rattle.protox_lex.specs.Escapes.{escaped};
ghost use Rattle.protox_lex.specs.Lex as spec;
ghost use Rattle.protox_lex.specs.Spelled.{IsEscaped};
ghost use Rattle.protox_lex.specs.declared.class.Class.TheVariants as class;

use crate::class::{Class, byte, is_in, past};
use crate::number::value;
use std::alloc::{AllocError, Global};
use std::fmt;

/// What an escape stands for.
#[derive(Clone, Copy, Debug)]
pub enum Meaning {
    Byte(u8),
    Char(char),
}

/// The byte of an escape of one letter.
fn simple(b: u8) -> Option<u8>
    ensures value { result ≡ spec.simple b }
    ensures some { IsSome result → b ≢ 0 }
{
    match b {
        b'a' => Some(7),
        b'b' => Some(8),
        b't' => Some(b'\t'),
        b'n' => Some(b'\n'),
        b'v' => Some(11),
        b'f' => Some(12),
        b'r' => Some(b'\r'),
        b'?' | b'\\' | b'\'' | b'"' => Some(b),
        _ => None,
    }
}

/// The byte that digits write, of which so many bytes are read; refused with their number where it
/// is no byte.
fn byte_of(radix: u64, digits: &[u8], len: usize) -> Result<(Meaning, usize), usize>
    requires { (1 ≤ radix) × (radix ≤ 16) }
    ensures value { result ≡ spec.byte_of (spec.short (spec.value radix digits.now)) len }
    ensures ok { IfOk result (λ p. p.1 ≡ len) }
    ensures err { IfErr result (λ n. n ≡ len) }
{
    match value(radix, digits) {
        Some(n) if n < 256 => Ok((Meaning::Byte(n as u8), len)),
        _ => Err(len),
    }
}

/// `\x` and one or two digits, behind the backslash.
#[tactic(auto, unfolding(crate::specs::Lex::hex))]
fn hex(y: &[u8]) -> Result<(Meaning, usize), usize>
    requires { 0 < length y.now }
    ensures value { result ≡ spec.hex y.now }
    ensures within { IfOk result (λ p. (1 ≤ p.1) × (p.1 ≤ length y.now)) }
    ensures flaw { IfErr result (λ n. n ≤ length y.now) }
{
    let end = past(Class::Hex, y, 1).min(3);
    if end == 1 {
        return Err(0);
    }
    byte_of(16, &y[1..end], end)
}

/// One to three octal digits.
#[tactic(auto, unfolding(crate::specs::Lex::octal_escape))]
fn octal(y: &[u8]) -> Result<(Meaning, usize), usize>
    requires { is_in class.Octal (slice_index y.now 0) ≡ true }
    ensures value { result ≡ spec.octal_escape y.now }
    ensures within { IfOk result (λ p. (1 ≤ p.1) × (p.1 ≤ length y.now)) }
    ensures flaw { IfErr result (λ n. n ≤ length y.now) }
{
    let end = past(Class::Octal, y, 0).min(3);
    byte_of(8, &y[..end], end)
}

/// `\u` or `\U` and so many digits, behind the backslash.
#[tactic(auto, unfolding(crate::specs::Lex::unicode))]
fn unicode(y: &[u8], digits: usize) -> Result<(Meaning, usize), usize>
    requires some { 0 < length y.now }
    requires digits { digits ≤ 8 }
    ensures value { result ≡ spec.unicode y.now digits }
    ensures within { IfOk result (λ p. (1 ≤ p.1) × (p.1 ≤ length y.now)) }
    ensures flaw { IfErr result (λ n. n ≤ length y.now) }
{
    let end = digits + 1;
    if past(Class::Hex, y, 1) < end {
        return Err(0);
    }
    char_of(value(16, &y[1..end]), end)
}

fn scalar(n: u64) -> Option<char>
    ensures { result ≡ spec.scalar n }
{
    if n < 0xd800 || 0xdfff < n && n < 0x110000 {
        char::from_u32(n as u32)
    } else {
        None
    }
}

/// The character of a number of so many digits; refused with their length where it is no character.
fn char_of(number: Option<u64>, len: usize) -> Result<(Meaning, usize), usize>
    ensures value { result ≡ spec.char_of number len }
    ensures ok { IfOk result (λ p. p.1 ≡ len) }
    ensures err { IfErr result (λ n. n ≡ len) }
{
    match number.and_then(scalar) {
        Some(c) => Ok((Meaning::Char(c), len)),
        None => Err(len),
    }
}

/// What stands behind a backslash: the escape and its length. Refused with the length of what
/// matches a form and means nothing, or with 0 where no form matches.
#[tactic(auto, unfolding(crate::specs::Lex::escape))]
pub fn escape(y: &[u8]) -> Result<(Meaning, usize), usize>
    ensures value { result ≡ spec.escape y.now }
    ensures within { IfOk result (λ p. (1 ≤ p.1) × (p.1 ≤ length y.now)) }
    ensures flaw { IfErr result (λ n. n ≤ length y.now) }
{
    match byte(y, 0) {
        b'x' | b'X' => hex(y),
        b'u' => unicode(y, 4),
        b'U' => unicode(y, 8),
        b if is_in(Class::Octal, b) => octal(y),
        b => match simple(b) {
            Some(b) => Ok((Meaning::Byte(b), 1)),
            None => Err(0),
        },
    }
}

/// What the first byte of a string's contents, or the escape that begins there, stands for, and its
/// length. A backslash that begins no escape stands for itself. The contents are not empty.
pub fn unit(raw: &[u8]) -> (Meaning, usize)
    requires { 0 < length raw.now }
    ensures value { result ≡ spec.unit_of raw.now }
    ensures within { (1 ≤ result.1) × (result.1 ≤ length raw.now) }
{
    if raw[0] == b'\\' {
        if let Ok((meaning, len)) = escape(&raw[1..]) {
            return (meaning, len + 1);
        }
    }
    (Meaning::Byte(raw[0]), 1)
}

fn push(bytes: &mut Vec<u8>, meaning: Meaning) -> Result<(), AllocError>
    ensures { OnOk result (bytes.new.items ≡ bytes.old.items ++ spec.bytes_of meaning) }
{
    match meaning {
        Meaning::Byte(b) => bytes.push(b)?,
        Meaning::Char(c) => bytes.extend_from_slice(c.encode_utf8(&mut [0; 4]).as_bytes())?,
    }
    Ok(())
}

/// The bytes of a string whose contents stand so in a source. Refused only for want of memory.
///
/// Escapes are those of the "String literals" of the protobuf language specification. A backslash
/// that begins none of them stands for itself; no token has one.
pub fn unescape(alloc: Global, raw: &[u8]) -> Result<Vec<u8>, AllocError>
    ensures { IfOk result (λ bytes. bytes.items ≡ spec.unescaped raw.now) }
{
    let mut bytes = Vec::new(alloc);
    let mut at = 0;
    while at < raw.len() {
        let (meaning, len) = unit(&raw[at..]);
        push(&mut bytes, meaning)?;
        at += len;
    }
    Ok(bytes)
}

/// Bytes that print as the contents of a string: printable ASCII as itself, `\t`, `\r`, `\n`, `\'`,
/// `\"` and `\\`, and each other byte as a backslash and three octal digits.
#[derive(Clone, Copy, Debug)]
pub struct Escaped<'a>(pub &'a [u8]);

impl fmt::Display for Escaped<'_> {
    ghost output = { λ e. Some (escaped e.0.now) };

    fn fmt<W: fmt::Write>(&self, f: &mut fmt::Formatter<W>) -> fmt::Result {
        for b in self.0 {
            write!(f, "{}", EscapedByte(*b))?;
        }
        Ok(())
    }
}

/// A byte as it stands in a string.
#[derive(Clone, Copy)]
struct EscapedByte(u8);

impl fmt::Display for EscapedByte {
    ghost use Rattle.protox_lex.specs.Escapes.{escaped_byte};

    ghost output = { λ b. Some (escaped_byte b.0) };

    fn fmt<W: fmt::Write>(&self, f: &mut fmt::Formatter<W>) -> fmt::Result {
        let b = self.0;
        match b {
            b'\t' => f.write_str("\\t"),
            b'\r' => f.write_str("\\r"),
            b'\n' => f.write_str("\\n"),
            b'\'' => f.write_str("\\'"),
            b'"' => f.write_str("\\\""),
            b'\\' => f.write_str("\\\\"),
            b' '..=b'~' => f.write_char(b as char),
            _ => write!(f, "\\{b:03o}"),
        }
    }
}

/// The contents of a string of a source, printed as [`Escaped`] prints their bytes.
pub(crate) fn write_contents<W: fmt::Write>(f: &mut fmt::Formatter<W>, raw: &[u8]) -> fmt::Result
    ensures { WritesOnOk W.write_str_gives f.old result (escaped (spec.unescaped raw.now)) f.new }
{
    let mut at = 0;
    while at < raw.len() {
        let (meaning, len) = unit(&raw[at..]);
        write_meaning(f, meaning)?;
        at += len;
    }
    Ok(())
}

fn write_meaning<W: fmt::Write>(f: &mut fmt::Formatter<W>, meaning: Meaning) -> fmt::Result
    ensures { WritesOnOk W.write_str_gives f.old result (escaped (spec.bytes_of meaning)) f.new }
{
    match meaning {
        Meaning::Byte(b) => write!(f, "{}", EscapedByte(b)),
        Meaning::Char(c) => write!(f, "{}", Escaped(c.encode_utf8(&mut [0; 4]).as_bytes())),
    }
}

/// Each backslash among the bytes begins an escape, as [`unescape`] reads them.
pub fn is_escaped(raw: &[u8]) -> bool
    ensures yes { result ≡ true → IsEscaped raw.now }
    ensures no { result ≡ false → IsEscaped raw.now → ⊥ }
{
    let mut at = 0;
    while at < raw.len() {
        if raw[at] != b'\\' {
            at += 1;
        } else if let Ok((_, len)) = escape(&raw[at + 1..]) {
            at += len + 1;
        } else {
            return false;
        }
    }
    true
}
