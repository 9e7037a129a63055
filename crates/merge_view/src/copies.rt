//! Laws of copies of messages, as `clone` makes them.
ghost use Rattle.std.specs.Prelude.{◌≡◌, Bool, ℕ};
ghost use Rattle.reflect_decode.specs.Ordered.{IsOrdered};
ghost use Rattle.reflect_message.specs.Contents.{content_of};
ghost use Rattle.reflect_copies.specs.Copies.{IsCopy};
ghost use Rattle.reflect_copies.specs.InOrder.{IsInOrder};
ghost use Rattle.reflect_message.specs.Names.{DynamicMessage};
ghost use Rattle.message_view.specs.Shaped.{HasShape};
ghost use Rattle.message_view.specs.Views.{view};

/// A copy of a message in shape is in shape, and one of a message that is exclusive at each depth
/// is so too.
pub fn copies_are_in_shape()
    ensures { (exclusive : Bool) (levels : ℕ) (old copy : DynamicMessage)
        → copy.descriptor ≡ old.descriptor → IsCopy (content_of old) (content_of copy)
        → IsInOrder copy → HasShape exclusive levels old → HasShape exclusive levels copy }
{}

/// It means the same.
pub fn copies_mean_the_same()
    ensures { (old copy : DynamicMessage) → copy.descriptor ≡ old.descriptor
        → IsCopy (content_of old) (content_of copy) → view copy ≡ view old }
{}

/// One of a message that is in order, whether or not what it holds suits its fields, is in order.
pub fn copies_are_in_order()
    ensures { (old copy : DynamicMessage) → IsCopy (content_of old) (content_of copy)
        → IsInOrder copy → IsOrdered (content_of old) → IsOrdered (content_of copy) }
{}
