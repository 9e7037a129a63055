//! Single values, and the defaults of fields that hold them.

ghost use Rattle.std.specs.Prelude.{◌≡◌, Option, option_map};
ghost use Rattle.std.specs.Option.{option_and_then};
ghost use Rattle.reflect_pool.specs.Defaults as pools;
ghost use Rattle.reflect_pool.specs.declared.kind.DefaultValue.{DefaultValue};
ghost use Rattle.reflect_scalar.specs.Defaults.{signed_in, unsigned_in, lent_in, default_in};
ghost use Rattle.reflect_scalar.specs.Kinds.{suits, kind_type, IsDefault};
ghost use Rattle.reflect_scalar.specs.Singles.{scalar_view};

use crate::field_like::FieldDescriptorLike;
use reflect_pool::{DefaultValue, Kind};

/// One value that is no message, list or map. Text and bytes are lent.
#[derive(Clone, Copy, PartialEq)]
pub enum Scalar<'a> {
    Bool(bool),
    I32(i32),
    I64(i64),
    U32(u32),
    U64(u64),
    String(&'a str),
    Bytes(&'a [u8]),
    EnumNumber(i32),
}

/// What one value is written as, behind its key.
#[derive(Clone, Copy)]
pub enum WireScalar<'a> {
    Varint(u64),
    ThirtyTwoBit(u32),
    SixtyFourBit(u64),
    LengthDelimited(&'a [u8]),
}

impl<'a> Scalar<'a> {
    /// The value suits a field that holds one value of the kind.
    pub fn is_valid(&self, kind: &Kind<'_>) -> bool
        ensures { result ≡ suits kind.now (scalar_view self.now) }
    {
        matches!(
            (self, kind),
            (Scalar::Bool(_), Kind::Bool)
                | (Scalar::I32(_), Kind::Int32 | Kind::Sint32 | Kind::Sfixed32)
                | (Scalar::I64(_), Kind::Int64 | Kind::Sint64 | Kind::Sfixed64)
                | (Scalar::U32(_), Kind::Uint32 | Kind::Fixed32)
                | (Scalar::U64(_), Kind::Uint64 | Kind::Fixed64)
                | (Scalar::String(_), Kind::String)
                | (Scalar::Bytes(_), Kind::Bytes)
                | (Scalar::EnumNumber(_), Kind::Enum(_))
        )
    }

    /// The default of a kind, `None` of a message: zero, false or empty, of an enum its first
    /// value.
    ///
    /// Messages hold no floating-point numbers; of these kinds it is the bits of zero.
    pub fn default_value(kind: &Kind<'_>) -> Option<Scalar<'a>>
        ensures { IsDefault kind.now (option_map scalar_view result) }
    {
        match kind {
            Kind::Int32 | Kind::Sint32 | Kind::Sfixed32 => Some(Scalar::I32(0)),
            Kind::Int64 | Kind::Sint64 | Kind::Sfixed64 => Some(Scalar::I64(0)),
            Kind::Uint32 | Kind::Fixed32 | Kind::Float => Some(Scalar::U32(0)),
            Kind::Uint64 | Kind::Fixed64 | Kind::Double => Some(Scalar::U64(0)),
            Kind::Bool => Some(Scalar::Bool(false)),
            Kind::String => Some(Scalar::String("")),
            Kind::Bytes => Some(Scalar::Bytes(&[])),
            Kind::Enum(values) => Some(Scalar::EnumNumber(values.default_value().number())),
            Kind::Message(_) => None,
        }
    }
}

/// A declared default of a kind with a sign.
fn signed_default<'a>(kind: &Kind<'_>, n: i64) -> Option<Scalar<'a>>
    ensures { option_map scalar_view result ≡ signed_in (kind_type kind.now) n }
{
    match kind {
        Kind::Int32 | Kind::Sint32 | Kind::Sfixed32 => Some(Scalar::I32(i32::try_from(n).ok()?)),
        _ => Some(Scalar::I64(n)),
    }
}

/// A declared default of a kind without a sign.
fn unsigned_default<'a>(kind: &Kind<'_>, n: u64) -> Option<Scalar<'a>>
    ensures { option_map scalar_view result ≡ unsigned_in (kind_type kind.now) n }
{
    match kind {
        Kind::Uint32 | Kind::Fixed32 => Some(Scalar::U32(u32::try_from(n).ok()?)),
        _ => Some(Scalar::U64(n)),
    }
}

/// What a declared default says of a field of a kind. The text of a floating-point one is not read.
fn declared_default<'p>(kind: &Kind<'p>, default: DefaultValue<'p>) -> Option<Scalar<'p>>
    ensures { option_map scalar_view result ≡ lent_in (kind_type kind.now) default.entry }
{
    match default {
        DefaultValue::I64(n) => signed_default(kind, n),
        DefaultValue::U64(n) => unsigned_default(kind, n),
        DefaultValue::Bool(truth) => Some(Scalar::Bool(truth)),
        DefaultValue::Text(text) => Some(Scalar::String(text)),
        DefaultValue::Bytes(bytes) => Some(Scalar::Bytes(bytes)),
        DefaultValue::Enum(number) => Some(Scalar::EnumNumber(number)),
        DefaultValue::Float(_) => None,
    }
}

/// The default that a field's declaration gives, as a value of its kind.
fn declared_scalar<'p, F: FieldDescriptorLike<'p>>(field: &F, kind: &Kind<'p>) -> Option<Scalar<'p>>
    ensures { (o : Option DefaultValue) × pools.IsDefault (F.pool field.now) (F.says field.now) o
        × (option_map scalar_view result ≡ option_and_then (lent_in (kind_type kind.now)) o) }
{
    declared_default(kind, field.default()?)
}

/// What one value of a field is where none was set: the declared default, else that of the kind.
/// `None` of a message.
pub fn default_scalar<'p, F: FieldDescriptorLike<'p>>(field: &F) -> Option<Scalar<'p>>
    ensures { option_map scalar_view result ≡ default_in (F.pool field.now) (F.says field.now) }
{
    let kind = field.kind();
    match declared_scalar(field, &kind) {
        Some(scalar) => Some(scalar),
        None => Scalar::default_value(&kind),
    }
}
