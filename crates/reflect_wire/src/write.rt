//! Writers: each appends the one written form of a value, and each form's length is offered beside
//! it. They are refused for want of memory alone; what stood before stays then, and a part of the
//! value may stand behind it.
ghost use Rattle.std.specs.Prelude.{◌≡◌, ◌<◌, ◌+◌, ◌^◌, ◌++◌, length, OnOk, OnErr, IfErr, IfNone, IfSome, IsOk, OnSome, SomeIff, take, vec_len, vec_capacity, ◌≤◌};
ghost use Rattle.reflect_wire.specs.declared.wire_error.WireError.TheVariants.{TooLong, Memory};
ghost use Rattle.std.specs.Int.{w32, w64, cast_unsigned, to_le_bytes};
ghost use Rattle.reflect_wire.specs.Key.{key_code};
ghost use Rattle.reflect_wire.specs.Encoding.{varint_bytes, key_bytes, delimited_bytes, KeepsFront};

use crate::wire_error::WireError;
use crate::wire_key::{WireKey, WireType};
use std::alloc::AllocError;

/// How many bytes a number's varint has: 1 to 10.
pub fn varint_len(n: u64) -> usize
    ensures { result ≡ length (varint_bytes n) }
{
    let mut len = 1;
    let mut rest = n;
    while rest >= 128 {
        rest /= 128;
        len += 1;
    }
    len
}

/// Appends the shortest base-128 varint of the number.
pub(crate) fn push_varint(out: &mut Vec<u8>, n: u64) -> Result<(), AllocError>
    ensures ok { OnOk result (out.new.items ≡ out.old.items ++ varint_bytes n) }
    ensures err { OnErr result (KeepsFront out.old.items out.new.items) }
{
    let mut rest = n;
    while rest >= 128 {
        out.push((rest % 128 + 128) as u8)?;
        rest /= 128;
    }
    out.push(rest as u8)?;
    Ok(())
}

/// The number that a signed one of 32 bits is written as: a negative one has the upper bits set.
#[inline]
pub fn sign_extended(n: i32) -> u64
    ensures { result ≡ cast_unsigned w64 n }
{
    i64::from(n).cast_unsigned()
}

/// The number that a key is written as.
#[inline]
pub fn code_of_key(key: WireKey) -> u64
    ensures { result ≡ key_code key }
{
    let wire = match key.wire {
        WireType::Varint => 0,
        WireType::SixtyFourBit => 1,
        WireType::LengthDelimited => 2,
        WireType::StartGroup => 3,
        WireType::EndGroup => 4,
        WireType::ThirtyTwoBit => 5,
    };
    u64::from(key.number) * 8 + wire
}

/// How many bytes `push_key` writes.
pub fn key_len(key: WireKey) -> usize
    ensures { result ≡ length (key_bytes key) }
{
    varint_len(code_of_key(key))
}

/// Appends the key.
pub fn push_key(out: &mut Vec<u8>, key: WireKey) -> Result<(), AllocError>
    ensures ok { OnOk result (out.new.items ≡ out.old.items ++ key_bytes key) }
    ensures err { OnErr result (KeepsFront out.old.items out.new.items) }
{
    push_varint(out, code_of_key(key))
}

/// How many bytes `push_delimited` writes for a payload of this length, `None` past `usize::MAX`.
pub fn delimited_len(payload: usize) -> Option<usize>
    ensures { let n = length (varint_bytes payload) + payload in SomeIff result (n < 2 ^ 64) n }
{
    varint_len(payload as u64).checked_add(payload)
}

/// Appends the payload's length and the payload.
pub fn push_delimited(out: &mut Vec<u8>, payload: &[u8]) -> Result<(), AllocError>
    ensures ok { OnOk result (out.new.items ≡ out.old.items ++ delimited_bytes payload.now) }
    ensures err { OnErr result (KeepsFront out.old.items out.new.items) }
{
    push_varint(out, payload.len() as u64)?;
    out.extend_from_slice(payload)?;
    Ok(())
}

/// Appends four bytes, the lowest first.
pub(crate) fn push_fixed32(out: &mut Vec<u8>, n: u32) -> Result<(), AllocError>
    ensures ok { OnOk result (out.new.items ≡ out.old.items ++ to_le_bytes w32 n) }
    ensures err { OnErr result (KeepsFront out.old.items out.new.items) }
{
    out.extend_from_slice(&n.to_le_bytes())?;
    Ok(())
}

/// Appends eight bytes, the lowest first.
pub(crate) fn push_fixed64(out: &mut Vec<u8>, n: u64) -> Result<(), AllocError>
    ensures ok { OnOk result (out.new.items ≡ out.old.items ++ to_le_bytes w64 n) }
    ensures err { OnErr result (KeepsFront out.old.items out.new.items) }
{
    out.extend_from_slice(&n.to_le_bytes())?;
    Ok(())
}

/// Makes room for a number of bytes, as the length of a value tells it.
///
/// `TooLong` where there is no such number, `Memory` where there is no room. The bytes stay,
/// whatever the answer.
pub(crate) fn reserve_room(out: &mut Vec<u8>, len: Option<usize>) -> Result<(), WireError>
    ensures items { out.new.items ≡ out.old.items }
    ensures room { IfSome len (λ n. OnOk result (vec_len out.new + n ≤ vec_capacity out.new)) }
    ensures err { IfNone len (result ≡ Err TooLong) }
    ensures memory { OnSome len (IfErr result (λ e. e ≡ Memory)) }
{
    match len {
        None => Err(WireError::TooLong),
        Some(len) => {
            out.reserve(len)?;
            Ok(())
        }
    }
}

/// Ends a writing that began at `start`: where it was refused, what it wrote is taken back.
pub(crate) fn keep_written(
    out: &mut Vec<u8>,
    start: usize,
    written: Result<(), AllocError>,
) -> Result<(), WireError>
    ensures ok { OnOk written (IsOk result × (out.new.items ≡ out.old.items)) }
    ensures err { OnErr written ((result ≡ Err Memory)
        × (out.new.items ≡ take start out.old.items)) }
{
    match written {
        Ok(()) => Ok(()),
        Err(refused) => {
            out.truncate(start);
            Err(WireError::from(refused))
        }
    }
}
