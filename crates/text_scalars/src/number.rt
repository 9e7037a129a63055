//! Integers in the ranges of the kinds that hold them.

ghost use Rattle.protox_lex.specs.Lex.{short, value};
ghost use Rattle.protobuf_model.specs.Values.{int32, int64, uint32, uint64};
ghost use Rattle.protobuf_model.specs.Types as kinds;
ghost use Rattle.std.specs.Prelude.{◌≡◌, ◌≤◌, IfOk, option_map, true};
ghost use Rattle.text_model.specs.Scalars.{base, scalar_in};
ghost use Rattle.text_scalars.specs.Number.{bounds_of, nameless, scalar_of, valued};
ghost use Rattle.text_scalars.specs.Refusals.{is_of_text};
ghost use Rattle.text_scalars.specs.Scalars.{IsBeyond};

use protox_lex::{Int as Number, digits_value};
use std::alloc::{AllocError, Global};
use text_error::ParseErrorKind;
use text_lex::{Int, Radix, Span};

/// The integers that kinds hold, as a fault tells them.
#[derive(Clone, Copy)]
pub struct IntegerRange {
    pub expected: &'static str,
    pub min: &'static str,
    pub max: &'static str,
}

/// Those of `int32`, `sint32` and `sfixed32`, and the numbers of enums.
pub const SIGNED_32: IntegerRange = IntegerRange {
    expected: "a signed 32-bit integer",
    min: "-2147483648",
    max: "2147483647",
};

/// Those of `int64`, `sint64` and `sfixed64`.
pub const SIGNED_64: IntegerRange = IntegerRange {
    expected: "a signed 64-bit integer",
    min: "-9223372036854775808",
    max: "9223372036854775807",
};

/// Those of `uint32` and `fixed32`.
pub const UNSIGNED_32: IntegerRange = IntegerRange {
    expected: "an unsigned 32-bit integer",
    min: "0",
    max: "4294967295",
};

/// Those of `uint64` and `fixed64`.
pub const UNSIGNED_64: IntegerRange = IntegerRange {
    expected: "an unsigned 64-bit integer",
    min: "0",
    max: "18446744073709551615",
};

/// An integer as it is written, with its sign.
#[derive(Clone, Copy)]
pub struct Literal<'a> {
    pub is_negative: bool,
    pub int: Int<'a>,
    /// From the sign, if there is one.
    pub span: Span,
}

impl Literal<'_> {
    /// The number, if it has at most 64 bits without its sign.
    fn number(&self) -> Option<Number>
        ensures { result
            ≡ valued self.now (short (value (base self.now.int.radix) self.now.int.digits.now)) }
    {
        let value = magnitude_of(self.int)?;
        Some(Number {
            negative: self.is_negative,
            value,
            span: self.span,
        })
    }

    /// The number, if it is one of 32 bits with a sign.
    pub fn signed_32(&self) -> Option<i32>
        ensures { option_map int32 result ≡ scalar_in nameless kinds.int32 (scalar_of self.now) }
    {
        self.number()?.as_i32()
    }

    /// The number, if it is one of 64 bits with a sign.
    pub fn signed_64(&self) -> Option<i64>
        ensures { option_map int64 result ≡ scalar_in nameless kinds.int64 (scalar_of self.now) }
    {
        self.number()?.as_i64()
    }

    /// The number, if it is one of 32 bits and has no sign.
    pub fn unsigned_32(&self) -> Option<u32>
        ensures { option_map uint32 result ≡ scalar_in nameless kinds.uint32 (scalar_of self.now) }
    {
        self.number()?.as_u32()
    }

    /// The number, if it is one of 64 bits and has no sign.
    pub fn unsigned_64(&self) -> Option<u64>
        ensures { option_map uint64 result ≡ scalar_in nameless kinds.uint64 (scalar_of self.now) }
    {
        self.number()?.as_u64()
    }
}

fn radix_of(radix: Radix) -> u64
    ensures value { result ≡ base radix }
    ensures within { (1 ≤ result) × (result ≤ 16) }
{
    match radix {
        Radix::Octal => 8,
        Radix::Decimal => 10,
        Radix::Hexadecimal => 16,
    }
}

/// The number that an integer's digits write, if it has at most 64 bits.
pub fn magnitude_of(int: Int<'_>) -> Option<u64>
    ensures { result ≡ short (value (base int.entry.radix) int.entry.digits.now) }
{
    digits_value(radix_of(int.radix), int.digits.as_bytes())
}

/// A kind of these bounds does not hold the integer.
pub fn out_of_range(
    alloc: Global,
    range: IntegerRange,
    literal: Literal<'_>,
) -> Result<ParseErrorKind, AllocError>
    ensures told { IfOk result
        (IsBeyond (bounds_of range) (scalar_of literal.entry) literal.entry.span) }
    ensures refused { IfOk result (λ kind. is_of_text kind ≡ true) }
{
    let sign = if literal.is_negative { "-" } else { "" };
    let digits = literal.int.digits;
    Ok(ParseErrorKind::IntegerValueOutOfRange {
        expected: range.expected,
        actual: format!(in alloc; "{sign}{digits}")?,
        min: range.min,
        max: range.max,
        span: literal.span,
    })
}
