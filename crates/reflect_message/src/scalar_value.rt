//! Single values, as what they are written as and read from.

ghost use Rattle.std.specs.Prelude.{◌≡◌, Option, Some, IfOk, option_map};
ghost use Rattle.reflect_scalar.specs.Singles.{Single, scalar_view};

use crate::value::Value;
use reflect_scalar::Scalar;
use std::alloc::{AllocError, Global};

/// What may be a single value.
pub trait ScalarValue: Sized {
    /// The single value that it is.
    ghost single: { Self → Option Single };

    /// The value as a single one, `None` of a message, a list or a map.
    fn as_scalar(&self) -> Option<Scalar<'_>>
        ensures { option_map scalar_view result ≡ single self.now };

    /// A value that owns its text or bytes.
    fn from_scalar(alloc: Global, scalar: Scalar<'_>) -> Result<Self, AllocError>
        ensures { IfOk result (λ v. single v ≡ Some (scalar_view scalar.entry)) };
}

impl ScalarValue for Value<'_> {
    ghost use Rattle.reflect_message.specs.Singles.{single};

    ghost single = { single };

    fn as_scalar(&self) -> Option<Scalar<'_>> {
        match self {
            Value::Bool(truth) => Some(Scalar::Bool(*truth)),
            Value::I32(n) => Some(Scalar::I32(*n)),
            Value::I64(n) => Some(Scalar::I64(*n)),
            Value::U32(n) => Some(Scalar::U32(*n)),
            Value::U64(n) => Some(Scalar::U64(*n)),
            Value::String(text) => Some(Scalar::String(text.as_str())),
            Value::Bytes(bytes) => Some(Scalar::Bytes(bytes.as_slice())),
            Value::EnumNumber(n) => Some(Scalar::EnumNumber(*n)),
            Value::Message(_) | Value::List(_) | Value::Map(_) => None,
        }
    }

    #[inline]
    fn from_scalar(alloc: Global, scalar: Scalar<'_>) -> Result<Self, AllocError> {
        match scalar {
            Scalar::Bool(truth) => Ok(Value::Bool(truth)),
            Scalar::I32(n) => Ok(Value::I32(n)),
            Scalar::I64(n) => Ok(Value::I64(n)),
            Scalar::U32(n) => Ok(Value::U32(n)),
            Scalar::U64(n) => Ok(Value::U64(n)),
            Scalar::String(text) => Ok(Value::String(String::from_str(alloc, text)?)),
            Scalar::Bytes(bytes) => Ok(Value::Bytes(bytes.to_vec(alloc)?)),
            Scalar::EnumNumber(n) => Ok(Value::EnumNumber(n)),
        }
    }
}
