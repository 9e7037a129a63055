ghost use Rattle.std.specs.Prelude.{◌≡◌, IfOk, IsTrue};
ghost use Rattle.reflect_copies.specs.InOrder.{in_order};
ghost use Rattle.reflect_copies.specs.Trees.{tree};

use crate::value::value_clone;
use reflect_message::Value;
use std::alloc::AllocError;

/// A value that is copied with all that it holds, where memory may run out.
pub trait CloneValue: Sized {
    ghost use Rattle.reflect_message.specs.Names.{Value};

    /// The value that it is.
    ghost value: { Self → Value };

    /// A copy.
    fn clone(&self) -> Result<Self, AllocError>
        ensures content { IfOk result (λ copy. tree (value copy) ≡ tree (value self.now)) }
        ensures in_order { IfOk result (λ copy. IsTrue (in_order (value copy))) };
}

impl CloneValue for Value<'_> {
    ghost value = { λ v. v };

    fn clone(&self) -> Result<Self, AllocError> {
        value_clone(self)
    }
}
