ghost use Rattle.std.specs.Prelude.{◌≡◌, Some, option_map};
ghost use Rattle.std.specs.Fmt.{WritesOnOk};
ghost use Rattle.schema_core.specs.Texts.{said, words};

use option_parts::{OptionError, OptionErrorKind};
use protox_parse::ParseError as SourceError;
use reflect_build::DescriptorError;
use reflect_passes::write_place;
use reflect_wire::WireError;
use std::alloc::{AllocError, AllocFailed};
use std::error::Error;
use std::fmt;
use text_error::{ParseError as TextError, ParseErrorKind};

/// Why a schema refused something.
#[derive(Drop)]
pub enum SchemaError {
    /// A source is no protobuf file.
    Parse(SourceError),
    /// The files do not fit together.
    Link(DescriptorError),
    /// The options of the files do not suit their types.
    Options(OptionError),
    /// The bytes are no message of the type, or no descriptor set.
    Wire(WireError),
    /// The text is no message of the type.
    Text(TextError),
    /// There is no message type of this name.
    UnknownType(String),
    /// Want of memory.
    Memory,
    /// The bytes would be more than a length can say.
    TooLong,
}

impl SchemaError {
    ghost use Rattle.schema_core.specs.Places.{told_file, told_position};

    /// The name of the file that is refused.
    pub fn file(&self) -> Option<&str>
        ensures { option_map (λ f. f.now) result ≡ told_file self.now }
    {
        match self {
            SchemaError::Parse(error) => Some(error.file()),
            SchemaError::Link(error) => error.file(),
            SchemaError::Options(error) => error.file(),
            _ => None,
        }
    }

    /// Line and column of the first fault, both from 1 and the column in bytes, where they are
    /// known.
    pub fn position(&self) -> Option<(usize, usize)>
        ensures { result ≡ told_position self.now }
    {
        let (line, column) = match self {
            SchemaError::Parse(error) => {
                let (line, column) = error.position()?;
                (usize::try_from(line).ok()?, usize::try_from(column).ok()?)
            }
            SchemaError::Link(error) => return error.position(),
            SchemaError::Options(error) => (error.line()?, error.column()?),
            _ => return None,
        };
        Some((line.checked_add(1)?, column.checked_add(1)?))
    }

    /// The words without a place.
    fn write_words<W: fmt::Write>(&self, f: &mut fmt::Formatter<W>) -> fmt::Result
        ensures { WritesOnOk W.write_str_gives f.old result (words self.now) f.new }
    {
        match self {
            SchemaError::Parse(error) => write!(f, "{error}"),
            SchemaError::Link(error) => write!(f, "{error}"),
            SchemaError::Options(error) => write!(f, "{error}"),
            SchemaError::Wire(error) => write!(f, "{error}"),
            SchemaError::Text(error) => write!(f, "{error}"),
            SchemaError::UnknownType(name) => write!(f, "message type '{name}' not found"),
            SchemaError::Memory => f.write_str("out of memory"),
            SchemaError::TooLong => f.write_str("encoded length too large"),
        }
    }
}

/// `file:line:column: text` where the place is known, else `file: text` where the file is, else the
/// text.
impl fmt::Display for SchemaError {
    ghost output = { λ e. Some (said e) };

    fn fmt<W: fmt::Write>(&self, f: &mut fmt::Formatter<W>) -> fmt::Result {
        write_place(f, self.file(), self.position())?;
        self.write_words(f)
    }
}

impl fmt::Debug for SchemaError {
    ghost debug_output = { λ e. Some (said e) };

    fn fmt<W: fmt::Write>(&self, f: &mut fmt::Formatter<W>) -> fmt::Result {
        write!(f, "{self}")
    }
}

impl Error for SchemaError {}

impl From<AllocError> for SchemaError {
    ghost use Rattle.schema_core.specs.declared.error.SchemaError.TheVariants.{Memory};

    ghost from_gives = { λ _ e. e ≡ Memory };

    fn from(_error: AllocError) -> SchemaError {
        SchemaError::Memory
    }
}

impl<T: Drop> From<AllocFailed<T>> for SchemaError {
    ghost use Rattle.schema_core.specs.declared.error.SchemaError.TheVariants.{Memory};

    ghost from_gives = { λ _ e. e ≡ Memory };

    fn from(_error: AllocFailed<T>) -> SchemaError {
        SchemaError::Memory
    }
}

impl From<SourceError> for SchemaError {
    ghost use Rattle.schema_core.specs.Refusals.{of_source};

    ghost from_gives = { λ error e. e ≡ of_source error };

    fn from(error: SourceError) -> SchemaError {
        match error {
            SourceError::Memory => SchemaError::Memory,
            SourceError::Refused(refusal) => SchemaError::Parse(SourceError::Refused(refusal)),
        }
    }
}

impl From<DescriptorError> for SchemaError {
    ghost use Rattle.schema_core.specs.Refusals.{of_linker};

    ghost from_gives = { λ error e. e ≡ of_linker error };

    fn from(error: DescriptorError) -> SchemaError {
        if error.is_memory() {
            return SchemaError::Memory;
        }
        SchemaError::Link(error)
    }
}

impl From<OptionError> for SchemaError {
    ghost use Rattle.schema_core.specs.Refusals.{of_options};

    ghost from_gives = { λ error e. e ≡ of_options error error.kind };

    fn from(error: OptionError) -> SchemaError {
        match error.kind() {
            OptionErrorKind::Memory => SchemaError::Memory,
            _ => SchemaError::Options(error),
        }
    }
}

impl From<WireError> for SchemaError {
    ghost use Rattle.schema_core.specs.Refusals.{of_wire};

    ghost from_gives = { λ error e. e ≡ of_wire error };

    fn from(error: WireError) -> SchemaError {
        match error {
            WireError::Memory => SchemaError::Memory,
            WireError::TooLong => SchemaError::TooLong,
            _ => SchemaError::Wire(error),
        }
    }
}

impl From<TextError> for SchemaError {
    ghost use Rattle.schema_core.specs.Refusals.{of_text};

    ghost from_gives = { λ error e. e ≡ of_text error error.kind };

    fn from(error: TextError) -> SchemaError {
        match error.kind() {
            ParseErrorKind::Memory => SchemaError::Memory,
            ParseErrorKind::TooLong { .. } => SchemaError::TooLong,
            _ => SchemaError::Text(error),
        }
    }
}
