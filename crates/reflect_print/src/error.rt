ghost use Rattle.std.specs.Prelude.{◌≡◌, Some};
ghost use Rattle.reflect_print.specs.Errors.{said};

use std::alloc::{AllocError, AllocFailed};
use std::error::Error;
use std::fmt;

/// Why a text was not written.
#[derive(Clone, Copy, PartialEq, Eq, Debug)]
pub enum WriteError {
    /// The output refused the text, which it was given whole.
    Format,
    /// Want of memory.
    Memory,
}

impl WriteError {
    fn text(&self) -> &'static str
        ensures { result.now ≡ said self.now }
    {
        match self {
            WriteError::Format => "the writer refused the text",
            WriteError::Memory => "out of memory",
        }
    }
}

impl fmt::Display for WriteError {
    ghost output = { λ e. Some (said e) };

    fn fmt<W: fmt::Write>(&self, f: &mut fmt::Formatter<W>) -> fmt::Result {
        f.write_str(self.text())
    }
}

impl Error for WriteError {}

impl From<fmt::Error> for WriteError {
    ghost use Rattle.reflect_print.specs.declared.error.WriteError.TheVariants.{Format};

    ghost from_gives = { λ _ e. e ≡ Format };

    fn from(_error: fmt::Error) -> WriteError {
        WriteError::Format
    }
}

impl From<AllocError> for WriteError {
    ghost use Rattle.reflect_print.specs.declared.error.WriteError.TheVariants.{Memory};

    ghost from_gives = { λ _ e. e ≡ Memory };

    fn from(_error: AllocError) -> WriteError {
        WriteError::Memory
    }
}

impl<T: Drop> From<AllocFailed<T>> for WriteError {
    ghost use Rattle.reflect_print.specs.declared.error.WriteError.TheVariants.{Memory};

    ghost from_gives = { λ _ e. e ≡ Memory };

    fn from(_error: AllocFailed<T>) -> WriteError {
        WriteError::Memory
    }
}
