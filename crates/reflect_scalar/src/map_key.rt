ghost use Rattle.std.specs.Borrow.{LendsIf, bool, i32, i64, sem, u32, u64};
ghost use Rattle.std.specs.Option.{option_copied_mut};
ghost use Rattle.std.specs.Prelude.{◌≡◌, IfOk, Some, option_map, string_bytes};
ghost use Rattle.std.specs.Bool.{Decides};
ghost use Rattle.reflect_scalar.specs.Cases.{int32_of, int64_of, text_of, truth_of, uint32_of, uint64_of};
ghost use Rattle.reflect_scalar.specs.KeyRows.{text_row};
ghost use Rattle.reflect_scalar.specs.Keys.{default_key, key_view};
ghost use Rattle.reflect_scalar.specs.Kinds.{suits, IsDefault};
ghost use Rattle.reflect_scalar.specs.Singles.{scalar_view};

use crate::scalar::Scalar;
use reflect_pool::Kind;
use std::alloc::{AllocError, Global};

/// A key of a map field.
#[derive(PartialEq, Eq, PartialOrd, Ord, Hash, Drop)]
pub enum MapKey {
    Bool(bool),
    I32(i32),
    I64(i64),
    U32(u32),
    U64(u64),
    String(String),
}

impl MapKey {
    ghost use Rattle.reflect_scalar.specs.contracts.map_key.MapKey.{the_row};
    ghost use Rattle.reflect_scalar.specs.declared.map_key.MapKey.TheVariants as keys;

    /// The default key of a kind: zero, false or empty. Of a kind that keys do not have it is the
    /// empty text. Takes no memory.
    pub fn default_value(alloc: Global, kind: &Kind<'_>) -> MapKey
        ensures { key_view result ≡ default_key kind.now }
    {
        match kind {
            Kind::Bool => MapKey::Bool(false),
            Kind::Int32 | Kind::Sint32 | Kind::Sfixed32 => MapKey::I32(0),
            Kind::Int64 | Kind::Sint64 | Kind::Sfixed64 => MapKey::I64(0),
            Kind::Uint32 | Kind::Fixed32 => MapKey::U32(0),
            Kind::Uint64 | Kind::Fixed64 => MapKey::U64(0),
            _ => MapKey::String(String::new(alloc)),
        }
    }

    /// The key is the default of the kind.
    pub fn is_default(&self, kind: &Kind<'_>) -> bool
        ensures { Decides result (IsDefault kind.now (Some (key_view self.now))) }
    {
        Scalar::default_value(kind) == Some(self.as_scalar())
    }

    /// The key suits a map whose keys are of the kind.
    pub fn is_valid(&self, kind: &Kind<'_>) -> bool
        ensures { result ≡ suits kind.now (key_view self.now) }
    {
        self.as_scalar().is_valid(kind)
    }

    /// The key as a single value.
    pub fn as_scalar(&self) -> Scalar<'_>
        ensures { scalar_view result ≡ key_view self.now }
    {
        match self {
            MapKey::Bool(truth) => Scalar::Bool(*truth),
            MapKey::I32(n) => Scalar::I32(*n),
            MapKey::I64(n) => Scalar::I64(*n),
            MapKey::U32(n) => Scalar::U32(*n),
            MapKey::U64(n) => Scalar::U64(*n),
            MapKey::String(text) => Scalar::String(text.as_str()),
        }
    }

    /// A copy.
    pub fn clone(&self) -> Result<MapKey, AllocError>
        ensures { IfOk result (λ copy. key_view copy ≡ key_view self.now) }
    {
        match self {
            MapKey::Bool(truth) => Ok(MapKey::Bool(*truth)),
            MapKey::I32(n) => Ok(MapKey::I32(*n)),
            MapKey::I64(n) => Ok(MapKey::I64(*n)),
            MapKey::U32(n) => Ok(MapKey::U32(*n)),
            MapKey::U64(n) => Ok(MapKey::U64(*n)),
            MapKey::String(text) => Ok(MapKey::String(text.clone()?)),
        }
    }

    /// The key, if it is a truth value.
    pub fn as_bool(&self) -> Option<bool>
        ensures { result ≡ truth_of (key_view self.now) }
    {
        match self {
            MapKey::Bool(truth) => Some(*truth),
            _ => None,
        }
    }

    /// The key to be changed, if it is a truth value.
    pub fn as_bool_mut(&mut self) -> Option<&mut bool>
        ensures* writes_back { sem 𝓛 (LendsIf the_row bool self.entry result keys.Bool self.old) }
        ensures value { option_copied_mut result ≡ truth_of (key_view self.old) }
    {
        match self {
            MapKey::Bool(truth) => Some(truth),
            _ => None,
        }
    }

    /// The key, if it is a signed 32-bit number.
    pub fn as_i32(&self) -> Option<i32>
        ensures { result ≡ int32_of (key_view self.now) }
    {
        match self {
            MapKey::I32(n) => Some(*n),
            _ => None,
        }
    }

    /// The key to be changed, if it is a signed 32-bit number.
    pub fn as_i32_mut(&mut self) -> Option<&mut i32>
        ensures* writes_back { sem 𝓛 (LendsIf the_row i32 self.entry result keys.I32 self.old) }
        ensures value { option_copied_mut result ≡ int32_of (key_view self.old) }
    {
        match self {
            MapKey::I32(n) => Some(n),
            _ => None,
        }
    }

    /// The key, if it is a signed 64-bit number.
    pub fn as_i64(&self) -> Option<i64>
        ensures { result ≡ int64_of (key_view self.now) }
    {
        match self {
            MapKey::I64(n) => Some(*n),
            _ => None,
        }
    }

    /// The key to be changed, if it is a signed 64-bit number.
    pub fn as_i64_mut(&mut self) -> Option<&mut i64>
        ensures* writes_back { sem 𝓛 (LendsIf the_row i64 self.entry result keys.I64 self.old) }
        ensures value { option_copied_mut result ≡ int64_of (key_view self.old) }
    {
        match self {
            MapKey::I64(n) => Some(n),
            _ => None,
        }
    }

    /// The key, if it is an unsigned 32-bit number.
    pub fn as_u32(&self) -> Option<u32>
        ensures { result ≡ uint32_of (key_view self.now) }
    {
        match self {
            MapKey::U32(n) => Some(*n),
            _ => None,
        }
    }

    /// The key to be changed, if it is an unsigned 32-bit number.
    pub fn as_u32_mut(&mut self) -> Option<&mut u32>
        ensures* writes_back { sem 𝓛 (LendsIf the_row u32 self.entry result keys.U32 self.old) }
        ensures value { option_copied_mut result ≡ uint32_of (key_view self.old) }
    {
        match self {
            MapKey::U32(n) => Some(n),
            _ => None,
        }
    }

    /// The key, if it is an unsigned 64-bit number.
    pub fn as_u64(&self) -> Option<u64>
        ensures { result ≡ uint64_of (key_view self.now) }
    {
        match self {
            MapKey::U64(n) => Some(*n),
            _ => None,
        }
    }

    /// The key to be changed, if it is an unsigned 64-bit number.
    pub fn as_u64_mut(&mut self) -> Option<&mut u64>
        ensures* writes_back { sem 𝓛 (LendsIf the_row u64 self.entry result keys.U64 self.old) }
        ensures value { option_copied_mut result ≡ uint64_of (key_view self.old) }
    {
        match self {
            MapKey::U64(n) => Some(n),
            _ => None,
        }
    }

    /// The key, if it is a text.
    pub fn as_str(&self) -> Option<&str>
        ensures { option_map (λ t. t.now) result ≡ text_of (key_view self.now) }
    {
        match self {
            MapKey::String(text) => Some(text.as_str()),
            _ => None,
        }
    }

    /// The key to be changed, if it is a text.
    pub fn as_string_mut(&mut self) -> Option<&mut String>
        ensures* writes_back { sem 𝓛
            (LendsIf the_row text_row self.entry result keys.String self.old) }
        ensures value { option_map (λ t. string_bytes t.now) result ≡ text_of (key_view self.old) }
    {
        match self {
            MapKey::String(text) => Some(text),
            _ => None,
        }
    }
}
