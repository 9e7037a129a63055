ghost use Rattle.std.specs.Prelude.{◌≡◌, Some};
ghost use Rattle.reflect_wire.specs.Texts.{said};

use std::alloc::{AllocError, AllocFailed};
use std::error::Error;
use std::fmt;

/// Why bytes were not read, or a value was not written.
///
/// The rules behind the refusals stand in "Encoding" at protobuf.dev.
#[derive(Clone, Copy, Debug, PartialEq, Eq)]
pub enum WireError {
    /// The bytes end inside a record.
    Truncated,
    /// A varint of more than ten bytes, or of more than 64 bits.
    BadVarint,
    /// A key with a number that no field has, or with no wire type.
    BadKey,
    /// A record of a field, in a form that is not that of its kind.
    BadWireType,
    /// An end of a group where none began, or with the number of another.
    EndGroupMismatch,
    /// Messages and groups nest more than 100 levels deep.
    TooDeep,
    /// A string that is not UTF-8.
    BadUtf8,
    /// A length past the greatest that can be written.
    TooLong,
    /// Want of memory.
    Memory,
}

impl WireError {
    /// What is wrong, in a few words.
    fn text(self) -> &'static str
        ensures { result.now ≡ said self }
    {
        match self {
            WireError::Truncated => "the input ends inside a record",
            WireError::BadVarint => "a varint has more than ten bytes or more than 64 bits",
            WireError::BadKey => "a key has no valid field number or wire type",
            WireError::BadWireType => "a field has a wire type that is not its own",
            WireError::EndGroupMismatch => "an end of a group does not fit its start",
            WireError::TooDeep => "messages and groups are nested more than 100 levels deep",
            WireError::BadUtf8 => "a string is not valid UTF-8",
            WireError::TooLong => "a length passes the largest that can be written",
            WireError::Memory => "out of memory",
        }
    }
}

impl fmt::Display for WireError {
    ghost output = { λ e. Some (said e) };

    fn fmt<W: fmt::Write>(&self, f: &mut fmt::Formatter<W>) -> fmt::Result {
        f.write_str(self.text())
    }
}

impl Error for WireError {}

impl From<AllocError> for WireError {
    ghost use Rattle.reflect_wire.specs.declared.wire_error.WireError.TheVariants.{Memory};

    ghost from_gives = { λ _ e. e ≡ Memory };

    fn from(_error: AllocError) -> WireError {
        WireError::Memory
    }
}

impl<T: Drop> From<AllocFailed<T>> for WireError {
    ghost use Rattle.reflect_wire.specs.declared.wire_error.WireError.TheVariants.{Memory};

    ghost from_gives = { λ _ e. e ≡ Memory };

    fn from(_error: AllocFailed<T>) -> WireError {
        WireError::Memory
    }
}
