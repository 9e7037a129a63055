ghost use Rattle.std.specs.Prelude.{◌≡◌, None, Some, option_map};
ghost use Rattle.option_parts.specs.Texts.{plain_words, said};

use reflect_faults::Label;
use reflect_wire::WireError;
use std::alloc::{AllocError, AllocFailed};
use std::error::Error;
use std::fmt;
use text_error::ParseError;

/// What is wrong with an option.
#[derive(PartialEq, Debug, Drop)]
pub enum OptionErrorKind {
    /// No option has this name.
    OptionNotFound { name: String },
    /// The option does not take the value, or a part of its name is no message.
    InvalidOptionType { name: String },
    /// The extension that the option names extends another message.
    InvalidOptionExtendee { name: String },
    /// The text in the option's braces is no message of its type.
    InvalidMessageOption { name: String, error: ParseError },
    /// The option is set a second time.
    DuplicateOption { name: String },
    /// The option holds a floating-point number.
    FloatOption { name: String },
    /// The options nest more than 100 levels deep.
    OptionTooDeep,
    /// The option is one that no source may set.
    ForbiddenOption { name: String },
    /// The pool has no type for the options.
    NoDescriptorProto,
    /// The pool's type for the options lacks what every such type has.
    BadDescriptorProto { name: String },
    /// The stored bytes are no options of the pool's type, or contradict the record about map
    /// entries.
    UndecodableOptions { error: Option<WireError> },
    /// Want of memory.
    Memory,
}

impl OptionErrorKind {
    /// What is said of the fault, empty where that takes a name or an error.
    fn text(&self) -> &'static str
        ensures { result.now ≡ plain_words self.now }
    {
        match self {
            OptionErrorKind::OptionTooDeep => "options nest more than 100 levels deep",
            OptionErrorKind::NoDescriptorProto => {
                "there is no type for the options: 'google/protobuf/descriptor.proto' has not been added"
            }
            OptionErrorKind::UndecodableOptions { error: None } => {
                "the stored options contradict the record about map entries"
            }
            OptionErrorKind::Memory => "out of memory",
            _ => "",
        }
    }
}

impl fmt::Display for OptionErrorKind {
    ghost output = { λ k. Some (said k) };

    fn fmt<W: fmt::Write>(&self, f: &mut fmt::Formatter<W>) -> fmt::Result {
        match self {
            OptionErrorKind::OptionNotFound { name } => write!(f, "option '{name}' not found"),
            OptionErrorKind::InvalidOptionType { name } => {
                write!(f, "option '{name}' has another type")
            }
            OptionErrorKind::InvalidOptionExtendee { name } => {
                write!(f, "option '{name}' extends another message")
            }
            OptionErrorKind::InvalidMessageOption { name, error } => {
                write!(f, "invalid value for option '{name}': {error}")
            }
            OptionErrorKind::DuplicateOption { name } => {
                write!(f, "option '{name}' is already set")
            }
            OptionErrorKind::FloatOption { name } => {
                write!(f, "option '{name}' has a floating-point type")
            }
            OptionErrorKind::ForbiddenOption { name } => {
                write!(f, "option '{name}' may not be set in a source")
            }
            OptionErrorKind::BadDescriptorProto { name } => {
                write!(
                    f,
                    "'{name}' is not the type of options that it is named after"
                )
            }
            OptionErrorKind::UndecodableOptions { error: Some(error) } => {
                write!(f, "the stored options cannot be read: {error}")
            }
            _ => f.write_str(self.text()),
        }
    }
}

impl From<AllocError> for OptionErrorKind {
    ghost use Rattle.option_parts.specs.declared.option_error.OptionErrorKind.TheVariants.{Memory};

    ghost from_gives = { λ _ e. e ≡ Memory };

    fn from(_error: AllocError) -> OptionErrorKind {
        OptionErrorKind::Memory
    }
}

impl<T: Drop> From<AllocFailed<T>> for OptionErrorKind {
    ghost use Rattle.option_parts.specs.declared.option_error.OptionErrorKind.TheVariants.{Memory};

    ghost from_gives = { λ _ e. e ≡ Memory };

    fn from(_error: AllocFailed<T>) -> OptionErrorKind {
        OptionErrorKind::Memory
    }
}

/// The first fault that was found in options, and where it is.
#[derive(PartialEq, Debug, Drop)]
pub struct OptionError {
    kind: OptionErrorKind,
    place: Option<Label>,
}

impl OptionError {
    ghost use Rattle.option_parts.specs.Places.{option_place, option_span};

    /// The error of a fault at a place, if it has one.
    pub fn new(kind: OptionErrorKind, place: Option<Label>) -> OptionError
        ensures kind { result.kind ≡ kind }
        ensures place { result.place ≡ place }
    {
        OptionError { kind, place }
    }

    /// What is wrong.
    pub fn kind(&self) -> &OptionErrorKind
        ensures { result.now ≡ self.now.kind }
    {
        &self.kind
    }

    /// The name of the file.
    pub fn file(&self) -> Option<&str>
        ensures { option_map (λ f. f.now) result
            ≡ option_map (λ p. p.file) (option_place self.now) }
    {
        Some(self.place.as_ref()?.file())
    }

    /// The line, counted from 0, where the file's record says where things stand.
    pub fn line(&self) -> Option<usize>
        ensures { result ≡ option_map (λ s. s.start_line) (option_span self.now) }
    {
        self.place.as_ref()?.line()
    }

    /// The column, counted from 0 in bytes, where the file's record says where things stand.
    pub fn column(&self) -> Option<usize>
        ensures { result ≡ option_map (λ s. s.start_column) (option_span self.now) }
    {
        self.place.as_ref()?.column()
    }

    /// Which part of the file's record it is, as in a record's locations.
    pub fn path(&self) -> Option<&[i32]>
        ensures { option_map (λ p. p.now) result
            ≡ option_map (λ p. p.path) (option_place self.now) }
    {
        Some(self.place.as_ref()?.path())
    }
}

impl fmt::Display for OptionError {
    ghost output = { λ e. Some (said e.kind) };

    fn fmt<W: fmt::Write>(&self, f: &mut fmt::Formatter<W>) -> fmt::Result {
        let kind = &self.kind;
        write!(f, "{kind}")
    }
}

impl Error for OptionError {}

impl From<AllocError> for OptionError {
    ghost use Rattle.option_parts.specs.declared.option_error.OptionErrorKind.TheVariants.{Memory};

    ghost from_gives = { λ _ e. (e.kind ≡ Memory) × (e.place ≡ None) };

    fn from(_error: AllocError) -> OptionError {
        OptionError::new(OptionErrorKind::Memory, None)
    }
}

impl<T: Drop> From<AllocFailed<T>> for OptionError {
    ghost use Rattle.option_parts.specs.declared.option_error.OptionErrorKind.TheVariants.{Memory};

    ghost from_gives = { λ _ e. (e.kind ≡ Memory) × (e.place ≡ None) };

    fn from(_error: AllocFailed<T>) -> OptionError {
        OptionError::new(OptionErrorKind::Memory, None)
    }
}
