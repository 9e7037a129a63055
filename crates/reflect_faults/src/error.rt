ghost use Rattle.std.specs.Prelude.{Some};
ghost use Rattle.reflect_faults.specs.FaultTexts.{said};

use crate::label::Label;
use reflect_walk::VisitError;
use std::alloc::AllocError;
use std::error::Error;
use std::fmt;

impl From<VisitError> for DescriptorErrorKind {
    ghost use Rattle.std.specs.Prelude.{◌≡◌};
    ghost use Rattle.reflect_faults.specs.Faults.{fault_view, of_walk, another};

    ghost from_gives = { λ error kind. (kind ≡ of_walk error) × (fault_view kind ≡ another) };

    fn from(error: VisitError) -> Self {
        match error {
            VisitError::TooMany => DescriptorErrorKind::TooMany,
            VisitError::Memory => DescriptorErrorKind::Memory,
        }
    }
}

impl From<AllocError> for DescriptorErrorKind {
    ghost use Rattle.std.specs.Prelude.{◌≡◌};
    ghost use Rattle.reflect_faults.specs.declared.error.DescriptorErrorKind.{DescriptorErrorKind};

    ghost from_gives = { λ _ kind. kind ≡ DescriptorErrorKind.Memory };

    fn from(_: AllocError) -> Self {
        DescriptorErrorKind::Memory
    }
}

/// What is wrong with a file, and where: `found` is the place of the fault.
#[derive(PartialEq, Debug, Drop)]
pub enum DescriptorErrorKind {
    /// Another new file has this name.
    DuplicateFileName {
        name: String,
        found: Label,
    },
    /// There is no file of this name, which is imported.
    FileNotFound {
        name: String,
        found: Label,
    },
    /// Another declaration has this full name.
    DuplicateName {
        name: String,
        found: Label,
    },
    /// A reference means nothing that is seen.
    NameNotFound {
        name: String,
        found: Label,
    },
    /// The first part of a reference means something that does not define the whole.
    NameShadowed {
        name: String,
        shadowed_name: String,
        found: Label,
    },
    /// A reference means something else than is wanted, or a label or a type has no such number.
    InvalidType {
        name: String,
        expected: &'static str,
        found: Label,
    },
    /// The syntax is neither `proto2` nor `proto3`.
    UnknownSyntax {
        syntax: String,
        found: Label,
    },
    /// A record lacks a field that it must have.
    MissingRequiredField {
        field: &'static str,
        found: Label,
    },
    /// A public import's index is not one of an import.
    InvalidImportIndex {
        index: i32,
        found: Label,
    },
    /// A field number is not one of 1 to 536870911 without 19000 to 19999.
    InvalidFieldNumber {
        number: i32,
        found: Label,
    },
    /// Two fields of one message have this number.
    DuplicateFieldNumber {
        number: i32,
        found: Label,
    },
    /// The number is reserved: it lies from `start`, below `end`.
    NumberInReservedRange {
        number: i32,
        start: i32,
        end: i32,
        found: Label,
    },
    /// The number is kept for extensions: it lies from `start`, below `end`.
    NumberInExtensionRange {
        number: i32,
        start: i32,
        end: i32,
        found: Label,
    },
    /// The extended message keeps no range with this number for extensions.
    ExtensionNumberOutOfRange {
        number: i32,
        message: String,
        found: Label,
    },
    /// An enum has no values.
    EmptyEnum {
        found: Label,
    },
    /// Two values of an enum without aliases have this number.
    DuplicateEnumNumber {
        number: i32,
        found: Label,
    },
    /// The first value of a proto3 enum is not 0.
    InvalidProto3EnumDefault {
        found: Label,
    },
    /// A default does not suit its field.
    InvalidFieldDefault {
        value: String,
        found: Label,
    },
    /// A field names a oneof that its message does not have.
    InvalidOneofIndex {
        index: i32,
        found: Label,
    },
    /// A map's entry has not the shape of one, or is not used as one.
    BadMapEntry {
        name: String,
        found: Label,
    },
    /// Two extensions of one message have this number.
    DuplicateExtensionNumber {
        number: i32,
        message: String,
        found: Label,
    },
    /// An index past `i32::MAX`.
    TooMany,
    /// Want of memory.
    Memory,
}

impl DescriptorErrorKind {
    ghost use Rattle.std.specs.Prelude.{◌≡◌, option_map};
    ghost use Rattle.reflect_faults.specs.FaultPlaces.{label_of, located, located_of, locating, moved};
    ghost use Rattle.reflect_faults.specs.Faults.{fault_view, place_of, place_of_fault};

    /// The place of the fault, if it has one.
    pub fn label(&self) -> Option<&Label>
        ensures place { option_map (λ l. place_of l.now) result
            ≡ place_of_fault (fault_view self.now) }
        ensures label { option_map (λ l. l.now) result ≡ label_of self.now }
    {
        match self {
            DescriptorErrorKind::DuplicateFileName { found, .. }
            | DescriptorErrorKind::FileNotFound { found, .. }
            | DescriptorErrorKind::DuplicateName { found, .. }
            | DescriptorErrorKind::NameNotFound { found, .. }
            | DescriptorErrorKind::NameShadowed { found, .. }
            | DescriptorErrorKind::InvalidType { found, .. }
            | DescriptorErrorKind::UnknownSyntax { found, .. }
            | DescriptorErrorKind::MissingRequiredField { found, .. }
            | DescriptorErrorKind::InvalidImportIndex { found, .. }
            | DescriptorErrorKind::InvalidFieldNumber { found, .. }
            | DescriptorErrorKind::DuplicateFieldNumber { found, .. }
            | DescriptorErrorKind::NumberInReservedRange { found, .. }
            | DescriptorErrorKind::NumberInExtensionRange { found, .. }
            | DescriptorErrorKind::ExtensionNumberOutOfRange { found, .. }
            | DescriptorErrorKind::EmptyEnum { found }
            | DescriptorErrorKind::DuplicateEnumNumber { found, .. }
            | DescriptorErrorKind::InvalidProto3EnumDefault { found }
            | DescriptorErrorKind::InvalidFieldDefault { found, .. }
            | DescriptorErrorKind::InvalidOneofIndex { found, .. }
            | DescriptorErrorKind::BadMapEntry { found, .. }
            | DescriptorErrorKind::DuplicateExtensionNumber { found, .. } => Some(found),
            DescriptorErrorKind::TooMany | DescriptorErrorKind::Memory => None,
        }
    }

    /// Finds the bytes of the fault's place in `source`, if it is the text of the fault's file; see
    /// [`Label::resolve_span`].
    pub fn resolve_span(&mut self, file: &str, source: &str)
        ensures { self.new ≡ moved (located_of file.now source.now) self.old }
    {
        self.locate_of(Some(file), source)
    }

    /// The same where `source` is known to be the text of the fault's file.
    pub fn locate(&mut self, source: &str)
        ensures { self.new ≡ moved (located source.now) self.old }
    {
        self.locate_of(None, source)
    }

    /// Finds the place in a source, of a file if one is named.
    fn locate_of(&mut self, file: Option<&str>, source: &str)
        ensures { self.new
            ≡ moved (locating (option_map (λ f. f.now) file.entry) source.now) self.old }
    {
        match self {
            Self::DuplicateFileName { found, .. } => found.locate_of(file, source),
            Self::FileNotFound { found, .. } => found.locate_of(file, source),
            Self::DuplicateName { found, .. } => found.locate_of(file, source),
            Self::NameNotFound { found, .. } => found.locate_of(file, source),
            Self::NameShadowed { found, .. } => found.locate_of(file, source),
            Self::InvalidType { found, .. } => found.locate_of(file, source),
            Self::UnknownSyntax { found, .. } => found.locate_of(file, source),
            Self::MissingRequiredField { found, .. } => found.locate_of(file, source),
            Self::InvalidImportIndex { found, .. } => found.locate_of(file, source),
            Self::InvalidFieldNumber { found, .. } => found.locate_of(file, source),
            Self::DuplicateFieldNumber { found, .. } => found.locate_of(file, source),
            Self::NumberInReservedRange { found, .. } => found.locate_of(file, source),
            Self::NumberInExtensionRange { found, .. } => found.locate_of(file, source),
            Self::ExtensionNumberOutOfRange { found, .. } => found.locate_of(file, source),
            Self::EmptyEnum { found } => found.locate_of(file, source),
            Self::DuplicateEnumNumber { found, .. } => found.locate_of(file, source),
            Self::InvalidProto3EnumDefault { found } => found.locate_of(file, source),
            Self::InvalidFieldDefault { found, .. } => found.locate_of(file, source),
            Self::InvalidOneofIndex { found, .. } => found.locate_of(file, source),
            Self::BadMapEntry { found, .. } => found.locate_of(file, source),
            Self::DuplicateExtensionNumber { found, .. } => found.locate_of(file, source),
            Self::TooMany | Self::Memory => {}
        }
    }
}

impl fmt::Display for DescriptorErrorKind {
    ghost output = { λ k. Some (said k) };

    fn fmt<W: fmt::Write>(&self, f: &mut fmt::Formatter<W>) -> fmt::Result {
        match self {
            DescriptorErrorKind::DuplicateFileName { name, .. } => {
                write!(f, "a different file named '{name}' has already been added")
            }
            DescriptorErrorKind::FileNotFound { name, .. } => {
                write!(f, "imported file '{name}' has not been added")
            }
            DescriptorErrorKind::DuplicateName { name, .. } => {
                write!(f, "name '{name}' is defined twice")
            }
            DescriptorErrorKind::NameNotFound { name, .. } => {
                write!(f, "name '{name}' is not defined")
            }
            DescriptorErrorKind::NameShadowed {
                name,
                shadowed_name,
                ..
            } => write!(
                f,
                "'{name}' resolves to '{shadowed_name}', which is not defined"
            ),
            DescriptorErrorKind::InvalidType { name, expected, .. } => {
                write!(f, "'{name}' is not {expected}")
            }
            DescriptorErrorKind::UnknownSyntax { syntax, .. } => {
                write!(f, "unknown syntax '{syntax}'")
            }
            DescriptorErrorKind::MissingRequiredField { field, .. } => {
                write!(f, "missing required field '{field}'")
            }
            DescriptorErrorKind::InvalidImportIndex { index, .. } => {
                write!(f, "invalid import index '{index}'")
            }
            DescriptorErrorKind::InvalidFieldNumber { number, .. } => {
                write!(f, "invalid field number '{number}'")
            }
            DescriptorErrorKind::DuplicateFieldNumber { number, .. } => {
                write!(f, "field number '{number}' has already been used")
            }
            DescriptorErrorKind::NumberInReservedRange {
                number,
                start,
                end,
                ..
            } => write!(
                f,
                "number '{number}' conflicts with a reserved range from '{start}' to below '{end}'"
            ),
            DescriptorErrorKind::NumberInExtensionRange {
                number,
                start,
                end,
                ..
            } => write!(
                f,
                "number '{number}' conflicts with an extension range from '{start}' to below '{end}'"
            ),
            DescriptorErrorKind::ExtensionNumberOutOfRange {
                number,
                message,
                ..
            } => write!(
                f,
                "message '{message}' does not define '{number}' as an extension number"
            ),
            DescriptorErrorKind::EmptyEnum { .. } => {
                f.write_str("enums must have at least one value")
            }
            DescriptorErrorKind::DuplicateEnumNumber { number, .. } => {
                write!(f, "enum number '{number}' has already been used")
            }
            DescriptorErrorKind::InvalidProto3EnumDefault { .. } => {
                f.write_str("the first value for proto3 enums must be 0")
            }
            DescriptorErrorKind::InvalidFieldDefault { value, .. } => {
                write!(f, "invalid default value '{value}'")
            }
            DescriptorErrorKind::InvalidOneofIndex { index, .. } => {
                write!(f, "invalid oneof index '{index}'")
            }
            DescriptorErrorKind::BadMapEntry { name, .. } => {
                write!(f, "map entry '{name}' is invalid")
            }
            DescriptorErrorKind::DuplicateExtensionNumber {
                number,
                message,
                ..
            } => write!(
                f,
                "extension number '{number}' of message '{message}' has already been used"
            ),
            DescriptorErrorKind::TooMany => f.write_str("too many declarations"),
            DescriptorErrorKind::Memory => f.write_str("out of memory"),
        }
    }
}

impl Error for DescriptorErrorKind {}
