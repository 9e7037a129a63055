ghost use Rattle.std.specs.Prelude.{◌≡◌};

use std::alloc::{AllocError, AllocFailed};

/// Why a walk over a file's declarations ended early.
#[derive(Clone, Copy, PartialEq, Eq, Debug)]
pub enum VisitError {
    /// An index past `i32::MAX`; also what no files have whose references are resolved.
    TooMany,
    /// Want of memory.
    Memory,
}

impl From<AllocError> for VisitError {
    ghost use Rattle.reflect_walk.specs.declared.visit_error.VisitError.{VisitError};

    ghost from_gives = { λ _ e. e ≡ VisitError.Memory };

    fn from(_: AllocError) -> Self {
        VisitError::Memory
    }
}

impl<T: Drop> From<AllocFailed<T>> for VisitError {
    ghost use Rattle.reflect_walk.specs.declared.visit_error.VisitError.{VisitError};

    ghost from_gives = { λ _ e. e ≡ VisitError.Memory };

    fn from(_: AllocFailed<T>) -> Self {
        VisitError::Memory
    }
}
