//! Readers: each takes bytes and gives the value at their front and the bytes behind it.
ghost use Rattle.std.specs.Prelude.{◌≡◌, ◌<◌, ◌+◌, ◌*◌, ◌%◌, ◌^◌, IfErr, IfSome};
ghost use Rattle.reflect_wire.specs.Faults.{VarintFault, KeyFault, DelimitedFault, FixedFault};
ghost use Rattle.reflect_wire.specs.Reads.{Fronts, ReadsFront, ReadsBy};
ghost use Rattle.reflect_wire.specs.Varint.{IsVarintWithin, IsVarint};
ghost use Rattle.reflect_wire.specs.Key.{IsKey, IsDelimited, IsFixed32, IsFixed64};

use crate::wire_error::WireError;
use crate::wire_key::{MAX_FIELD_NUMBER, WireKey, WireType};

/// The number at the front, in at most `left` and one more bytes.
fn varint_within(bytes: &[u8], left: u32) -> Result<(u64, &[u8]), WireError>
    ensures read { ReadsFront (IsVarintWithin (left + 1)) bytes.now result }
    ensures fault { IfErr result (VarintFault (left + 1) bytes.now) }
{
    let Some((first, rest)) = bytes.split_first() else {
        return Err(WireError::Truncated);
    };
    let low = *first;
    if low < 128 {
        return Ok((u64::from(low), rest));
    }
    if left == 0 {
        return Err(WireError::BadVarint);
    }
    let (high, rest) = varint_within(rest, left - 1)?;
    if high >= 1 << 57 {
        return Err(WireError::BadVarint);
    }
    Ok((high * 128 + u64::from(low - 128), rest))
}

/// The number at the front, where it is spelled in at most four bytes. Most are, and this reads
/// them fast.
#[inline]
fn short_varint_at(bytes: &[u8]) -> Option<(u64, &[u8])>
    ensures { IfSome result (λ x. Fronts IsVarint bytes.now x.0 x.1.now) }
{
    let (first, rest) = bytes.split_first()?;
    let low = *first;
    if low < 128 {
        return Some((u64::from(low), rest));
    }
    let (high, behind) = three_bytes_at(rest)?;
    Some((high * 128 + u64::from(low - 128), behind))
}

/// The number at the front, where it is spelled in at most three bytes.
#[inline]
fn three_bytes_at(bytes: &[u8]) -> Option<(u64, &[u8])>
    ensures { IfSome result (λ x. Fronts (IsVarintWithin 9) bytes.now x.0 x.1.now
        × (x.0 < 128 * 128 * 128)) }
{
    let (first, rest) = bytes.split_first()?;
    let low = *first;
    if low < 128 {
        return Some((u64::from(low), rest));
    }
    let (second, rest) = rest.split_first()?;
    let middle = *second;
    if middle < 128 {
        return Some((u64::from(middle) * 128 + u64::from(low - 128), rest));
    }
    let (third, behind) = rest.split_first()?;
    let high = *third;
    if high >= 128 {
        return None;
    }
    let upper = u64::from(high) * 128 + u64::from(middle - 128);
    Some((upper * 128 + u64::from(low - 128), behind))
}

/// The base-128 varint at the front, in at most ten bytes ("Encoding", Base 128 Varints).
///
/// A spelling that is longer than it needs to be is accepted. `Truncated` where the bytes end
/// inside the number, `BadVarint` where it has more than ten bytes or does not fit 64 bits.
#[inline]
pub fn varint_at(bytes: &[u8]) -> Result<(u64, &[u8]), WireError>
    ensures read { ReadsFront IsVarint bytes.now result }
    ensures fault { IfErr result (VarintFault 10 bytes.now) }
{
    match short_varint_at(bytes) {
        Some(found) => Ok(found),
        None => varint_within(bytes, 9),
    }
}

/// The key at the front: a field number from 1 to the highest and a wire type ("Encoding", Message
/// Structure).
///
/// Refused as `varint_at` is, and with `BadKey` where the number or the wire type is none.
#[inline]
pub fn key_at(bytes: &[u8]) -> Result<(WireKey, &[u8]), WireError>
    ensures read { ReadsFront IsKey bytes.now result }
    ensures fault { IfErr result (KeyFault bytes.now) }
{
    let (n, rest) = varint_at(bytes)?;
    let wire = match n % 8 {
        0 => WireType::Varint,
        1 => WireType::SixtyFourBit,
        2 => WireType::LengthDelimited,
        3 => WireType::StartGroup,
        4 => WireType::EndGroup,
        5 => WireType::ThirtyTwoBit,
        _ => return Err(WireError::BadKey),
    };
    let number = n / 8;
    let highest = MAX_FIELD_NUMBER as u64;
    if number == 0 || number > highest {
        return Err(WireError::BadKey);
    }
    Ok((
        WireKey {
            number: number as u32,
            wire,
        },
        rest,
    ))
}

/// A length and so many bytes ("Encoding", Length-Delimited Records). The payload is lent, not
/// copied.
///
/// Refused as `varint_at` is, and with `Truncated` where fewer bytes follow than the length says.
#[inline]
pub fn delimited_at(bytes: &[u8]) -> Result<(&[u8], &[u8]), WireError>
    ensures read { ReadsBy (λ x. x.now) IsDelimited bytes.now result }
    ensures fault { IfErr result (DelimitedFault bytes.now) }
{
    let (len, rest) = varint_at(bytes)?;
    if len > rest.len() as u64 {
        return Err(WireError::Truncated);
    }
    Ok(rest.split_at(len as usize))
}

/// Four bytes, the lowest first. `Truncated` where there are fewer.
#[inline]
pub fn fixed32_at(bytes: &[u8]) -> Result<(u32, &[u8]), WireError>
    ensures read { ReadsFront IsFixed32 bytes.now result }
    ensures fault { IfErr result (FixedFault 4 bytes.now) }
{
    match bytes.split_first_chunk::<4>() {
        Some((front, rest)) => Ok((u32::from_le_bytes(*front), rest)),
        None => Err(WireError::Truncated),
    }
}

/// Eight bytes, the lowest first. `Truncated` where there are fewer.
#[inline]
pub fn fixed64_at(bytes: &[u8]) -> Result<(u64, &[u8]), WireError>
    ensures read { ReadsFront IsFixed64 bytes.now result }
    ensures fault { IfErr result (FixedFault 8 bytes.now) }
{
    match bytes.split_first_chunk::<8>() {
        Some((front, rest)) => Ok((u64::from_le_bytes(*front), rest)),
        None => Err(WireError::Truncated),
    }
}

/// The low half of a number, which is what counts of it where a field has 32 bits.
#[inline]
pub fn low_half(n: u64) -> u32
    ensures { result ≡ n % 2 ^ 32 }
{
    (n % (1 << 32)) as u32
}
