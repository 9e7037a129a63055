//! From a single value to the bytes of its record.

ghost use Rattle.std.specs.Prelude.{◌≡◌, ◌<◌, ◌^◌, ◌++◌, length, option_map, is_some, IfSome, OnOk, SomeIff};
ghost use Rattle.reflect_codec.specs.Held.{held};
ghost use Rattle.reflect_scalar.specs.Kinds.{suits};
ghost use Rattle.reflect_scalar.specs.Meaning.{zigzag};
ghost use Rattle.reflect_scalar.specs.Singles.{truth, int32, int64, uint32, uint64, text, blob, enumerated, scalar_view, wire_view};
ghost use Rattle.reflect_scalar.specs.Written.{written, plain_bytes, IsFormOf, IsReadAs};

use crate::scalar::{Scalar, WireScalar};
use reflect_codec::Backward;
use reflect_pool::Kind;
use reflect_wire::{delimited_len, sign_extended, varint_len};
use std::alloc::AllocError;

/// The unsigned number that a signed one is written as where small amounts of either sign are to be
/// short.
fn zigzag32(n: i32) -> u32
    ensures { result ≡ zigzag n }
{
    if n >= 0 {
        n.cast_unsigned() * 2
    } else {
        (-(n + 1)).cast_unsigned() * 2 + 1
    }
}

fn zigzag64(n: i64) -> u64
    ensures { result ≡ zigzag n }
{
    if n >= 0 {
        n.cast_unsigned() * 2
    } else {
        (-(n + 1)).cast_unsigned() * 2 + 1
    }
}

// One function for each type of value: of a function's number the prover knows that it fits its
// type.

/// What a truth value is written as.
fn of_bool<'a>(kind: &Kind<'_>, is_true: bool) -> Option<WireScalar<'a>>
    ensures { IsFormOf kind.now (truth is_true) result }
{
    match kind {
        Kind::Bool => Some(WireScalar::Varint(u64::from(is_true))),
        _ => None,
    }
}

/// What a 32-bit number with a sign is written as.
fn of_i32<'a>(kind: &Kind<'_>, n: i32) -> Option<WireScalar<'a>>
    ensures { IsFormOf kind.now (int32 n) result }
{
    match kind {
        Kind::Int32 => Some(WireScalar::Varint(sign_extended(n))),
        Kind::Sint32 => Some(WireScalar::Varint(u64::from(zigzag32(n)))),
        Kind::Sfixed32 => Some(WireScalar::ThirtyTwoBit(n.cast_unsigned())),
        _ => None,
    }
}

/// What a 64-bit number with a sign is written as.
fn of_i64<'a>(kind: &Kind<'_>, n: i64) -> Option<WireScalar<'a>>
    ensures { IsFormOf kind.now (int64 n) result }
{
    match kind {
        Kind::Int64 => Some(WireScalar::Varint(n.cast_unsigned())),
        Kind::Sint64 => Some(WireScalar::Varint(zigzag64(n))),
        Kind::Sfixed64 => Some(WireScalar::SixtyFourBit(n.cast_unsigned())),
        _ => None,
    }
}

/// What a 32-bit number without a sign is written as.
fn of_u32<'a>(kind: &Kind<'_>, n: u32) -> Option<WireScalar<'a>>
    ensures { IsFormOf kind.now (uint32 n) result }
{
    match kind {
        Kind::Uint32 => Some(WireScalar::Varint(u64::from(n))),
        Kind::Fixed32 => Some(WireScalar::ThirtyTwoBit(n)),
        _ => None,
    }
}

/// What a 64-bit number without a sign is written as.
fn of_u64<'a>(kind: &Kind<'_>, n: u64) -> Option<WireScalar<'a>>
    ensures { IsFormOf kind.now (uint64 n) result }
{
    match kind {
        Kind::Uint64 => Some(WireScalar::Varint(n)),
        Kind::Fixed64 => Some(WireScalar::SixtyFourBit(n)),
        _ => None,
    }
}

/// What the number of an enum's value is written as.
fn of_enum_number<'a>(kind: &Kind<'_>, n: i32) -> Option<WireScalar<'a>>
    ensures { IsFormOf kind.now (enumerated n) result }
{
    match kind {
        Kind::Enum(_) => Some(WireScalar::Varint(sign_extended(n))),
        _ => None,
    }
}

/// What a text is written as.
fn of_text<'a>(kind: &Kind<'_>, string: &'a str) -> Option<WireScalar<'a>>
    ensures { IsFormOf kind.now (text string.now) result }
{
    match kind {
        Kind::String => Some(WireScalar::LengthDelimited(string.as_bytes())),
        _ => None,
    }
}

/// What bytes are written as.
fn of_bytes<'a>(kind: &Kind<'_>, bytes: &'a [u8]) -> Option<WireScalar<'a>>
    ensures { IsFormOf kind.now (blob bytes.now) result }
{
    match kind {
        Kind::Bytes => Some(WireScalar::LengthDelimited(bytes)),
        _ => None,
    }
}

/// What a value is written as in a record of a kind, `None` where it does not suit the kind. It is
/// read as the value.
#[tactic(auto, using(crate::proofs::ReadBack::read_written, crate::proofs::ReadBack::written_suits))]
pub fn wire_scalar<'a>(kind: &Kind<'_>, value: Scalar<'a>) -> Option<WireScalar<'a>>
    ensures form { option_map wire_view result ≡ written kind.now (scalar_view value.entry) }
    ensures some { is_some result ≡ suits kind.now (scalar_view value.entry) }
    ensures read { IfSome result (IsReadAs kind.now (scalar_view value.entry)) }
{
    match value {
        Scalar::Bool(truth) => of_bool(kind, truth),
        Scalar::I32(n) => of_i32(kind, n),
        Scalar::I64(n) => of_i64(kind, n),
        Scalar::U32(n) => of_u32(kind, n),
        Scalar::U64(n) => of_u64(kind, n),
        Scalar::String(text) => of_text(kind, text),
        Scalar::Bytes(bytes) => of_bytes(kind, bytes),
        Scalar::EnumNumber(n) => of_enum_number(kind, n),
    }
}

/// How many bytes a value takes behind its key, `None` past `usize::MAX`. Takes no memory.
pub fn scalar_len(scalar: WireScalar<'_>) -> Option<usize>
    ensures { let n = length (plain_bytes (wire_view scalar.entry)) in SomeIff result
        (n < 2 ^ 64) n }
{
    match scalar {
        WireScalar::Varint(n) => Some(varint_len(n)),
        WireScalar::ThirtyTwoBit(_) => Some(4),
        WireScalar::SixtyFourBit(_) => Some(8),
        WireScalar::LengthDelimited(payload) => delimited_len(payload.len()),
    }
}

/// Puts a value in front of what is held, without its key.
pub fn put_scalar(out: &mut Backward, scalar: WireScalar<'_>) -> Result<(), AllocError>
    ensures { OnOk result (held out.new ≡ plain_bytes (wire_view scalar.entry) ++ held out.old) }
{
    match scalar {
        WireScalar::Varint(n) => out.put_varint(n),
        WireScalar::ThirtyTwoBit(n) => out.put_bytes(&n.to_le_bytes()),
        WireScalar::SixtyFourBit(n) => out.put_bytes(&n.to_le_bytes()),
        WireScalar::LengthDelimited(payload) => {
            out.put_bytes(payload)?;
            out.put_varint(payload.len() as u64)
        }
    }
}
