ghost use Rattle.std.specs.Prelude.{◌≡◌, Some};
ghost use Rattle.reflect_scope.specs.Words.{wanted_words};

use crate::index::{EnumIndex, ExtensionIndex, FileIndex, MessageIndex, ServiceIndex};
use std::fmt;

/// What kind of thing a full name stands for. The numbers are indexes among all messages, enums,
/// extensions or services.
#[derive(Clone, Copy, PartialEq, Eq)]
pub enum DefinitionKind {
    Package,
    Message(MessageIndex),
    Field,
    Oneof,
    Enum(EnumIndex),
    EnumValue,
    Extension(ExtensionIndex),
    Service(ServiceIndex),
    Method,
}

/// What a full name stands for, and the index of the file that defines it. A package's file is the
/// first that bears it.
#[derive(Clone, Copy, PartialEq, Eq)]
pub struct Definition {
    pub file: FileIndex,
    pub kind: DefinitionKind,
}

/// Which kinds a reference may mean.
#[derive(Clone, Copy, PartialEq, Eq)]
pub enum ResolveNameFilter {
    /// A message.
    Message,
    /// The type of a field: a message or an enum.
    FieldType,
    /// An extension.
    Extension,
}

impl ResolveNameFilter {
    /// What is wanted, as a refusal says it.
    pub fn text(self) -> &'static str
        ensures { result.now ≡ wanted_words self }
    {
        match self {
            ResolveNameFilter::Message => "a message type",
            ResolveNameFilter::FieldType => "a message or enum type",
            ResolveNameFilter::Extension => "an extension",
        }
    }
}

impl fmt::Display for ResolveNameFilter {
    ghost output = { λ f. Some (wanted_words f) };

    fn fmt<W: fmt::Write>(&self, f: &mut fmt::Formatter<W>) -> fmt::Result {
        f.write_str(self.text())
    }
}
