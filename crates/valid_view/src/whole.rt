//! What the types of the code say of each value that it has.
ghost use Rattle.std.specs.Prelude.{◌<◌};
ghost use Rattle.std.specs.List.{AllByRecursion};
ghost use Rattle.reflect_scalar.specs.Singles.{blob, enumerated, int32, int64, scalar_view};
ghost use Rattle.reflect_scalar.specs.Singles.{text, uint32, uint64};
ghost use Rattle.reflect_scalar.specs.Written.{Fits};
ghost use Rattle.reflect_wire.specs.Written.{AreBytes};
ghost use Rattle.valid_view.specs.Inside.{AreAscending, IfSingle, IsWhole, KeysFit, ValuesFit};

use reflect_message::{ScalarValue, Value};
use reflect_scalar::{MapKey, Scalar};
use std::collections::BTreeMap;

// One function for each type of value: of a function's number the prover knows that it fits its
// type.

fn signed_32(n: i32)
    ensures number { Fits (int32 n) }
    ensures of_enum { Fits (enumerated n) }
{}

fn signed_64(n: i64)
    ensures { Fits (int64 n) }
{}

fn unsigned_32(n: u32)
    ensures { Fits (uint32 n) }
{}

fn unsigned_64(n: u64)
    ensures { Fits (uint64 n) }
{}

fn text_fits(string: &str)
    ensures { Fits (text string.now) }
{}

fn bytes_fit(bytes: &[u8])
    ensures { Fits (blob bytes.now) }
{}

/// So each single value fits its type.
fn scalar_fits(value: Scalar<'_>)
    ensures { Fits (scalar_view value.entry) }
{
    match value {
        Scalar::Bool(_) => {}
        Scalar::I32(n) => signed_32(n),
        Scalar::I64(n) => signed_64(n),
        Scalar::U32(n) => unsigned_32(n),
        Scalar::U64(n) => unsigned_64(n),
        Scalar::String(string) => text_fits(string),
        Scalar::Bytes(bytes) => bytes_fit(bytes),
        Scalar::EnumNumber(n) => signed_32(n),
    }
}

fn single_fits(value: &Value<'_>)
    ensures { IfSingle Fits value.now }
{
    if let Some(scalar) = value.as_scalar() {
        scalar_fits(scalar);
    }
}

fn list_fits(values: &[Value<'_>])
    ensures { AllByRecursion (IfSingle Fits) values.now }
{
    'values: for value in values {
        single_fits(value);
    }
}

fn map_fits(entries: &BTreeMap<MapKey, Value<'_>>)
    ensures keys { KeysFit entries.now.entries }
    ensures values { ValuesFit entries.now.entries }
    ensures ascending { AreAscending entries.now.entries }
{
    let _count = entries.len();
    'turns: for (key, value) in entries.iter() {
        scalar_fits(key.as_scalar());
        single_fits(value);
    }
}

/// Numbers have their bits, texts are of UTF-8, and the keys of maps ascend, of the value and of
/// those in its list or its map.
///
/// Nothing comes of it: whoever calls this has then said of a value what its type keeps of each.
pub fn values_are_whole(value: &Value<'_>)
    ensures { IsWhole value.now }
{
    match value {
        Value::List(values) => list_fits(values.as_slice()),
        Value::Map(entries) => map_fits(entries),
        _ => single_fits(value),
    }
}

fn is_byte(byte: u8)
    ensures { byte < 256 }
{}

fn each_is_byte(bytes: &[u8])
    ensures { AllByRecursion (λ b. b < 256) bytes.now }
{
    'bytes: for byte in bytes {
        is_byte(*byte);
    }
}

/// Each byte of a slice is below 256, as the laws of bytes, of messages and of texts ask.
///
/// Nothing comes of it: whoever calls this has then said of a slice what its type keeps of each.
pub fn slices_are_of_bytes(bytes: &[u8])
    ensures bytes { AreBytes bytes.now }
    ensures each { AllByRecursion (λ b. b < 256) bytes.now }
{
    each_is_byte(bytes);
}
