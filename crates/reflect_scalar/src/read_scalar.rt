//! From the bytes of one record to its value.

ghost use Rattle.std.specs.Prelude.{◌≡◌, ◌<◌, length, IfOk, IfErr};
ghost use Rattle.reflect_wire.specs.Reads.{ReadsBy};
ghost use Rattle.reflect_wire.specs.Records.{varint};
ghost use Rattle.reflect_scalar.specs.Kinds.{wire_type, packs};
ghost use Rattle.reflect_scalar.specs.Meaning.{zigzag, StandsFor, MeaningFault, IsPlainPayload, PlainFault, IsScalar, ScalarFault};
ghost use Rattle.reflect_scalar.specs.Singles.{scalar_view, wire_view};

use crate::scalar::{Scalar, WireScalar};
use reflect_pool::Kind;
use reflect_wire::{
    WireError, WireType, delimited_at, fixed32_at, fixed64_at, low_half, varint_at,
};

/// The wire type of one value of a kind: a message's is that of a length and its bytes.
#[inline]
pub fn wire_type(kind: &Kind<'_>) -> WireType
    ensures { result ≡ wire_type kind.now }
{
    match kind {
        Kind::Int32
        | Kind::Int64
        | Kind::Uint32
        | Kind::Uint64
        | Kind::Sint32
        | Kind::Sint64
        | Kind::Bool
        | Kind::Enum(_) => WireType::Varint,
        Kind::Fixed64 | Kind::Sfixed64 | Kind::Double => WireType::SixtyFourBit,
        Kind::Fixed32 | Kind::Sfixed32 | Kind::Float => WireType::ThirtyTwoBit,
        Kind::String | Kind::Bytes | Kind::Message(_) => WireType::LengthDelimited,
    }
}

/// A list of the kind may stand in one record: numbers, truth values and enums.
pub fn is_packable(kind: &Kind<'_>) -> bool
    ensures { result ≡ packs (wire_type kind.now) }
{
    wire_type(kind) != WireType::LengthDelimited
}

/// The signed number that an unsigned one stands for where small amounts of either sign are to be
/// short.
fn unzigzag32(n: u32) -> i32
    ensures { n ≡ zigzag result }
{
    let half = (n / 2).cast_signed();
    if n % 2 == 0 { half } else { -half - 1 }
}

fn unzigzag64(n: u64) -> i64
    ensures { n ≡ zigzag result }
{
    let half = (n / 2).cast_signed();
    if n % 2 == 0 { half } else { -half - 1 }
}

/// The value of a kind that a varint stands for. Only its low 32 bits count where the kind has 32.
///
/// `BadWireType` where the kind is not written as a varint.
#[inline]
pub fn varint_scalar<'b>(kind: &Kind<'_>, n: u64) -> Result<Scalar<'b>, WireError>
    ensures ok { IfOk result (λ s. StandsFor kind.now (varint n) (scalar_view s)) }
    ensures err { IfErr result (MeaningFault kind.now (varint n)) }
{
    match kind {
        Kind::Int32 => Ok(Scalar::I32(low_half(n).cast_signed())),
        Kind::Int64 => Ok(Scalar::I64(n.cast_signed())),
        Kind::Uint32 => Ok(Scalar::U32(low_half(n))),
        Kind::Uint64 => Ok(Scalar::U64(n)),
        Kind::Sint32 => Ok(Scalar::I32(unzigzag32(low_half(n)))),
        Kind::Sint64 => Ok(Scalar::I64(unzigzag64(n))),
        Kind::Bool => Ok(Scalar::Bool(n != 0)),
        Kind::Enum(_) => Ok(Scalar::EnumNumber(low_half(n).cast_signed())),
        _ => Err(WireError::BadWireType),
    }
}

/// The value of a kind that is written so.
///
/// `BadWireType` where the kind is written in another form or is none of a single value, `BadUtf8`
/// where a string is no UTF-8.
#[inline]
fn value_of<'b>(kind: &Kind<'_>, written: WireScalar<'b>) -> Result<Scalar<'b>, WireError>
    ensures ok { IfOk result (λ s. StandsFor kind.now (wire_view written.entry) (scalar_view s)) }
    ensures err { IfErr result (MeaningFault kind.now (wire_view written.entry)) }
{
    match (kind, written) {
        (_, WireScalar::Varint(n)) => varint_scalar(kind, n),
        (Kind::Fixed32, WireScalar::ThirtyTwoBit(n)) => Ok(Scalar::U32(n)),
        (Kind::Sfixed32, WireScalar::ThirtyTwoBit(n)) => Ok(Scalar::I32(n.cast_signed())),
        (Kind::Fixed64, WireScalar::SixtyFourBit(n)) => Ok(Scalar::U64(n)),
        (Kind::Sfixed64, WireScalar::SixtyFourBit(n)) => Ok(Scalar::I64(n.cast_signed())),
        (Kind::String, WireScalar::LengthDelimited(payload)) => match str::from_utf8(payload) {
            Ok(text) => Ok(Scalar::String(text)),
            Err(_) => Err(WireError::BadUtf8),
        },
        (Kind::Bytes, WireScalar::LengthDelimited(payload)) => Ok(Scalar::Bytes(payload)),
        _ => Err(WireError::BadWireType),
    }
}

/// What is written at the front behind a key of the wire type, and the bytes behind it. A group is
/// no single value.
#[inline]
fn wire_scalar_at(wire: WireType, bytes: &[u8]) -> Result<(WireScalar<'_>, &[u8]), WireError>
    ensures read { ReadsBy wire_view (IsPlainPayload wire) bytes.now result }
    ensures fault { IfErr result (PlainFault wire bytes.now) }
    ensures shorter { IfOk result (λ found. length found.1.now < length bytes.now) }
{
    match wire {
        WireType::Varint => {
            let (n, rest) = varint_at(bytes)?;
            Ok((WireScalar::Varint(n), rest))
        }
        WireType::ThirtyTwoBit => {
            let (n, rest) = fixed32_at(bytes)?;
            Ok((WireScalar::ThirtyTwoBit(n), rest))
        }
        WireType::SixtyFourBit => {
            let (n, rest) = fixed64_at(bytes)?;
            Ok((WireScalar::SixtyFourBit(n), rest))
        }
        WireType::LengthDelimited => {
            let (payload, rest) = delimited_at(bytes)?;
            Ok((WireScalar::LengthDelimited(payload), rest))
        }
        WireType::StartGroup | WireType::EndGroup => Err(WireError::BadWireType),
    }
}

/// The value at the front, of a kind that is no message, and the bytes behind it.
///
/// `BadWireType` where the record has another wire type than the kind, `BadUtf8` where a string is
/// no UTF-8, else as the reader of its form is refused. Takes no memory.
#[inline]
pub fn scalar_at<'b>(
    kind: &Kind<'_>,
    wire: WireType,
    bytes: &'b [u8],
) -> Result<(Scalar<'b>, &'b [u8]), WireError>
    ensures read { ReadsBy scalar_view (IsScalar kind.now wire) bytes.now result }
    ensures fault { IfErr result (ScalarFault kind.now wire bytes.now) }
    ensures shorter { IfOk result (λ found. length found.1.now < length bytes.now) }
{
    if wire != wire_type(kind) {
        return Err(WireError::BadWireType);
    }
    let (written, rest) = wire_scalar_at(wire, bytes)?;
    Ok((value_of(kind, written)?, rest))
}
