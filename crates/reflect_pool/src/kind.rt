ghost use Rattle.std.specs.Prelude.{◌≡◌};

use crate::enums::EnumDescriptor;
use crate::message::MessageDescriptor;

/// What a field holds.
///
/// Two are equal where they are the same kind, with equal message or enum types.
#[derive(Clone, Copy, PartialEq, Eq)]
pub enum Kind<'p> {
    Double,
    Float,
    Int32,
    Int64,
    Uint32,
    Uint64,
    Sint32,
    Sint64,
    Fixed32,
    Fixed64,
    Sfixed32,
    Sfixed64,
    Bool,
    String,
    Bytes,
    Message(MessageDescriptor<'p>),
    Enum(EnumDescriptor<'p>),
}

impl<'p> Kind<'p> {
    ghost use Rattle.reflect_pool.specs.Kinds.{enum_of_kind, message_of_kind};

    /// The message type, of a kind that is one.
    pub fn as_message(&self) -> Option<MessageDescriptor<'p>>
        ensures { result ≡ message_of_kind self.now }
    {
        match self {
            Kind::Message(message) => Some(*message),
            _ => None,
        }
    }

    /// The enum type, of a kind that is one.
    pub fn as_enum(&self) -> Option<EnumDescriptor<'p>>
        ensures { result ≡ enum_of_kind self.now }
    {
        match self {
            Kind::Enum(kind) => Some(*kind),
            _ => None,
        }
    }
}

/// The default that a field's declaration gives.
#[derive(Clone, Copy, PartialEq)]
pub enum DefaultValue<'p> {
    /// Of a signed integer kind.
    I64(i64),
    /// Of an unsigned integer kind.
    U64(u64),
    Bool(bool),
    Text(&'p str),
    Bytes(&'p [u8]),
    /// The number of an enum's value.
    Enum(i32),
    /// The text of a floating-point number, which nothing has read.
    Float(&'p str),
}
