//! The literals that a syntax tree keeps.

ghost use Rattle.std.specs.Int.{w32, w64};
ghost use Rattle.std.specs.Option.{SomeIff};
ghost use Rattle.std.specs.Prelude.{◌≡◌, ◌<◌, ◌^◌, MatchResult, FitsSigned, Some, false};
ghost use Rattle.std.specs.Str.{IsUtf8};
ghost use Rattle.std.specs.String.{string_bytes};

use crate::escape::Escaped;
use crate::span::Span;
use std::fmt;
use std::string::String as Text;

/// An integer with its sign.
#[derive(Clone, Copy, PartialEq, Eq, Debug)]
pub struct Int {
    pub negative: bool,
    pub value: u64,
    /// From the sign, if there is one.
    pub span: Span,
}

impl Int {
    ghost use Rattle.protox_lex.specs.Signed.{signed};

    /// The signed number, where it is in range.
    pub fn as_i32(&self) -> Option<i32>
        ensures { SomeIff result (FitsSigned w32 (signed self.now)) (signed self.now) }
    {
        i32::try_from(self.as_i64()?).ok()
    }

    /// The signed number, where it is in range.
    pub fn as_i64(&self) -> Option<i64>
        ensures { SomeIff result (FitsSigned w64 (signed self.now)) (signed self.now) }
    {
        if self.negative {
            0i64.checked_sub_unsigned(self.value)
        } else {
            i64::try_from(self.value).ok()
        }
    }

    /// The number, where it has no sign and is in range.
    pub fn as_u32(&self) -> Option<u32>
        ensures { SomeIff result ((self.now.negative ≡ false) × (self.now.value < 2 ^ 32))
            self.now.value }
    {
        u32::try_from(self.as_u64()?).ok()
    }

    /// The number, where it has no sign.
    pub fn as_u64(&self) -> Option<u64>
        ensures { SomeIff result (self.now.negative ≡ false) self.now.value }
    {
        (!self.negative).then_some(self.value)
    }
}

/// Its sign and decimal digits.
impl fmt::Display for Int {
    ghost use Rattle.protox_lex.specs.Printed.{int_text};

    ghost output = { λ n. Some (int_text n) };

    fn fmt<W: fmt::Write>(&self, f: &mut fmt::Formatter<W>) -> fmt::Result {
        if self.negative {
            f.write_str("-")?;
        }
        write!(f, "{}", self.value)
    }
}

/// A floating-point number, as it is written but for its sign, with which its span begins.
#[derive(Drop, PartialEq, Debug)]
pub struct Float {
    pub text: Text,
    pub span: Span,
}

impl fmt::Display for Float {
    ghost output = { λ x. Some (string_bytes x.text) };

    fn fmt<W: fmt::Write>(&self, f: &mut fmt::Formatter<W>) -> fmt::Result {
        f.write_str(self.text.as_str())
    }
}

/// The bytes of one string literal, or of several that stand one after the other.
#[derive(Drop, PartialEq, Debug)]
pub struct String {
    pub value: Vec<u8>,
    pub span: Span,
}

impl String {
    /// The bytes as text. Refused where they are not UTF-8, and then they are given back.
    pub fn into_utf8(self) -> Result<(Text, Span), String>
        ensures { MatchResult result (λ p. (string_bytes p.0 ≡ self.value.items)
            × (p.1 ≡ self.span))
            (λ s. (IsUtf8 self.value.items → ⊥) × (s.value.items ≡ self.value.items)
            × (s.span ≡ self.span)) }
    {
        let String { value, span } = self;
        match Text::from_utf8(value) {
            Ok(text) => Ok((text, span)),
            Err(e) => Err(String {
                value: e.into_bytes(),
                span,
            }),
        }
    }
}

/// The bytes, escaped, without quotes.
impl fmt::Display for String {
    ghost use Rattle.protox_lex.specs.Escapes.{escaped};

    ghost output = { λ s. Some (escaped s.value.items) };

    fn fmt<W: fmt::Write>(&self, f: &mut fmt::Formatter<W>) -> fmt::Result {
        write!(f, "{}", Escaped(self.value.as_slice()))
    }
}
