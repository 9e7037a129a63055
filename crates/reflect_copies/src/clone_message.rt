ghost use Rattle.std.specs.Prelude.{◌≡◌, IfOk};
ghost use Rattle.reflect_message.specs.Contents.{content_of};
ghost use Rattle.reflect_copies.specs.Copies.{IsCopy};
ghost use Rattle.reflect_copies.specs.InOrder.{IsInOrder};
ghost use Rattle.reflect_copies.specs.Trees.{held_tree};

use crate::message::message_clone;
use reflect_message::DynamicMessage;
use std::alloc::AllocError;

/// A message that is copied with all that it holds, where memory may run out.
pub trait CloneMessage: Sized {
    ghost use Rattle.reflect_message.specs.Names.{DynamicMessage};

    /// The message that it is.
    ghost message: { Self → DynamicMessage };

    /// A copy.
    fn clone(&self) -> Result<Self, AllocError>
        ensures same_type { IfOk result
            (λ m. (message m).descriptor ≡ (message self.now).descriptor) }
        ensures copied { IfOk result
            (λ m. IsCopy (content_of (message self.now)) (content_of (message m))) }
        ensures content { IfOk result
            (λ m. held_tree (message m).held ≡ held_tree (message self.now).held) }
        ensures in_order { IfOk result (λ m. IsInOrder (message m)) };
}

impl CloneMessage for DynamicMessage<'_> {
    ghost message = { λ m. m };

    fn clone(&self) -> Result<Self, AllocError> {
        message_clone(self)
    }
}
