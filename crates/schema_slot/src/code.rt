//! How a call ends.

ghost use Rattle.std.specs.Prelude.{◌≡◌};
ghost use Rattle.schema_slot.specs.Codes.{code_of, number_of};

use schema_core::SchemaError;

/// How a call on a slot ended.
#[derive(Clone, Copy, PartialEq, Eq, Debug)]
pub enum Code {
    /// It did what was asked.
    Done,
    /// The slot holds nothing.
    Closed,
    /// Want of memory.
    Memory,
    /// The buffer is shorter than what belongs into it.
    Room,
    /// A name or a text is not UTF-8.
    NotUtf8,
    /// A source is no protobuf file.
    Parse,
    /// The files do not fit together.
    Link,
    /// The options of the files do not suit their types.
    Options,
    /// The bytes are no message of the type, or no descriptor set.
    Wire,
    /// The text is no message of the type.
    Text,
    /// There is no message type of this name.
    UnknownType,
    /// The bytes would be more than a length can say.
    TooLong,
}

impl Code {
    /// The number that stands for it in C.
    pub fn number(self) -> u32
        ensures { result ≡ number_of self }
    {
        match self {
            Code::Done => 0,
            Code::Closed => 1,
            Code::Memory => 2,
            Code::Room => 3,
            Code::NotUtf8 => 4,
            Code::Parse => 5,
            Code::Link => 6,
            Code::Options => 7,
            Code::Wire => 8,
            Code::Text => 9,
            Code::UnknownType => 10,
            Code::TooLong => 11,
        }
    }

    /// That of a refusal.
    pub fn of(error: &SchemaError) -> Code
        ensures { result ≡ code_of error.now }
    {
        match error {
            SchemaError::Parse(_) => Code::Parse,
            SchemaError::Link(_) => Code::Link,
            SchemaError::Options(_) => Code::Options,
            SchemaError::Wire(_) => Code::Wire,
            SchemaError::Text(_) => Code::Text,
            SchemaError::UnknownType(_) => Code::UnknownType,
            SchemaError::Memory => Code::Memory,
            SchemaError::TooLong => Code::TooLong,
        }
    }
}
