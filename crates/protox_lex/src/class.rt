//! Classes of bytes, and runs of them.

ghost use Rattle.std.specs.Prelude.{◌≡◌, ◌≢◌, ◌<◌, ◌≤◌, length, slice_index, true};
ghost use Rattle.protox_lex.specs.Class as spec;
ghost use Rattle.protox_lex.specs.Ascii.{IsAsciiTo, is_ascii_class};

/// A class of bytes.
#[derive(Clone, Copy, Debug)]
pub enum Class {
    Blank,
    /// All but a line feed.
    Line,
    Alphabetic,
    /// A letter or `_`; a `Word` has digits too.
    Letter,
    Word,
    Digit,
    Octal,
    Hex,
}

/// The byte is of the class. Callers name the class: inlined, its test alone is left.
#[inline(always)]
pub fn is_in(class: Class, b: u8) -> bool
    ensures { result ≡ spec.is_in class b }
{
    match class {
        Class::Blank => b == b' ' || (9 <= b && b <= 13),
        Class::Line => b != b'\n',
        Class::Alphabetic => b.is_ascii_alphabetic(),
        Class::Letter => b.is_ascii_alphabetic() || b == b'_',
        Class::Word => b.is_ascii_alphanumeric() || b == b'_',
        Class::Digit => b.is_ascii_digit(),
        Class::Octal => b'0' <= b && b <= b'7',
        Class::Hex => b.is_ascii_hexdigit(),
    }
}

/// The byte at a place, or 0 behind the end.
pub fn byte(z: &[u8], at: usize) -> u8
    ensures value { result ≡ slice_index z.now at }
    ensures within { result ≢ 0 → at < length z.now }
{
    if at < z.len() { z[at] } else { 0 }
}

/// The first place from `at` on whose byte is not of the class. The loop has the test of the class
/// that a caller names alone, as [`is_in`] has.
#[inline(always)]
pub fn past(class: Class, z: &[u8], at: usize) -> usize
    requires { at ≤ length z.now }
    ensures value { result ≡ spec.past class z.now at }
    ensures within { (at ≤ result) × (result ≤ length z.now) }
    ensures moves { at < length z.now → spec.is_in class (slice_index z.now at) ≡ true → at
        < result }
    ensures ascii { is_ascii_class class ≡ true → IsAsciiTo z.now at → IsAsciiTo z.now result }
{
    let mut end = at;
    while end < z.len() && is_in(class, z[end]) {
        end += 1;
    }
    end
}
