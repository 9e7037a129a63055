//! Why no value of a field is lent.

use std::alloc::AllocError;
use thiserror::Error;

/// Why no value of a field is lent to be changed.
#[derive(PartialEq, Debug, Drop, Error)]
pub enum LendError {
    /// The message's type has no such field, or one that messages do not hold.
    #[error("field not found")]
    NotFound,
    /// Want of memory.
    #[error("out of memory")]
    Memory,
}

impl From<AllocError> for LendError {
    ghost use Rattle.std.specs.Prelude.{◌≡◌};
    ghost use Rattle.reflect_numbered.specs.declared.lend_error.LendError.TheVariants.{Memory};

    ghost from_gives = { λ e x. x ≡ Memory };

    fn from(_error: AllocError) -> LendError {
        LendError::Memory
    }
}
