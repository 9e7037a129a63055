//! Laws of what `merge` says of bytes and messages, each the contract of a function that does
//! nothing. They speak of the types of a pool, and of a message as one of these.
ghost use Rattle.std.specs.Prelude.{◌≡◌, ◌<◌, ◌≤◌, ◌^◌, ◌++◌, ℕ, Bool, List, length, suc};
ghost use Rattle.std.specs.List.{AllByRecursion, concat};
ghost use Rattle.protobuf_model.specs.Bytes.{bytes_of};
ghost use Rattle.protobuf_model.specs.Coded.{AreMerged, Mean, SuitsType};
ghost use Rattle.protobuf_model.specs.Typed.{IsTyped};
ghost use Rattle.reflect_decode.specs.Ordered.{IsOrdered};
ghost use Rattle.reflect_decode.specs.Spelled.{IsMerged, IsSpelled};
ghost use Rattle.reflect_decode.specs.Suits.{Suits};
ghost use Rattle.reflect_message.specs.Bytes.{message_bytes};
ghost use Rattle.reflect_message.specs.Contents.{content_of};
ghost use Rattle.reflect_message.specs.Oneofs.{IsExclusive};
ghost use Rattle.reflect_message.specs.Names.{DynamicMessage};
ghost use Rattle.reflect_pool.specs.declared.message.MessageDescriptor.{MessageDescriptor};
ghost use Rattle.reflect_wire.specs.Written.{AreBytes};
ghost use Rattle.message_view.specs.Shaped.{Exclusive, HasShape, Shaped};
ghost use Rattle.message_view.specs.Sound.{IsSound};
ghost use Rattle.message_view.specs.Types.{name_at, types_of};
ghost use Rattle.message_view.specs.Views.{view};
ghost use Rattle.merge_view.specs.Pieces.{MergesEach};

/// What `merge` leaves is what the bytes mean behind what the message held, where this suits the
/// type, however deep it is.
pub fn merged_bytes_mean_what_they_leave()
    ensures { (d : MessageDescriptor) → IsSound d.pool.now → (bytes : List ℕ) → AreBytes bytes
        → (old new : DynamicMessage) → old.descriptor ≡ d → new.descriptor ≡ d
        → Suits 100 d (content_of old)
        → (levels : ℕ)
        → IsTyped levels (types_of d.pool.now) (name_at d.pool.now d.index) (view old)
        → IsMerged d bytes old new
        → AreMerged (types_of d.pool.now) (name_at d.pool.now d.index) (view old) bytes (view new) }
{}

/// It suits the type again, in both words, where the message was as deep as bytes may be, or
/// deeper.
pub fn merged_messages_suit_the_type()
    ensures { (d : MessageDescriptor) → IsSound d.pool.now → (bytes : List ℕ) → AreBytes bytes
        → (old new : DynamicMessage) → old.descriptor ≡ d → new.descriptor ≡ d
        → Suits 100 d (content_of old) → (levels : ℕ) → 100 ≤ levels
        → IsTyped levels (types_of d.pool.now) (name_at d.pool.now d.index) (view old)
        → IsMerged d bytes old new
        → Suits 100 d (content_of new)
        × IsTyped levels (types_of d.pool.now) (name_at d.pool.now d.index) (view new) }
{}

/// Where the message was in order, whether or not what it held suited its fields, it is so still.
pub fn merged_messages_are_in_order()
    ensures { (d : MessageDescriptor) (bytes : List ℕ) (old new : DynamicMessage)
        → IsOrdered (content_of old) → IsMerged d bytes old new → IsOrdered (content_of new) }
{}

/// Where what the message held was in shape, so is what `merge` leaves, of as many levels as bytes
/// have, or more. Where it was exclusive at each depth, it is so still.
pub fn merged_messages_are_in_shape()
    ensures { (exclusive : Bool) (d : MessageDescriptor) (bytes : List ℕ)
        → (old new : DynamicMessage) → old.descriptor ≡ d → new.descriptor ≡ d
        → (levels : ℕ) → 100 ≤ levels → HasShape exclusive (suc levels) old
        → Suits 100 d (content_of old) → IsMerged d bytes old new
        → HasShape exclusive (suc levels) new }
{}

/// `encode` writes it in the one form of what it holds.
pub fn merged_messages_are_written_in_one_form()
    ensures { (d : MessageDescriptor) → IsSound d.pool.now → (bytes : List ℕ)
        → (old new : DynamicMessage) → old.descriptor ≡ d → new.descriptor ≡ d
        → (levels : ℕ) → Shaped levels old → Suits 100 d (content_of old)
        → IsMerged d bytes old new
        → message_bytes new
        ≡ bytes_of (types_of d.pool.now) (name_at d.pool.now d.index) (view new) }
{}

/// What `decode` gives of these bytes is the message that was encoded, if they are no more than a
/// length can say.
pub fn merged_messages_are_decoded_as_they_were()
    ensures { (d : MessageDescriptor) → IsSound d.pool.now → (bytes : List ℕ) → AreBytes bytes
        → (old new : DynamicMessage) → old.descriptor ≡ d → new.descriptor ≡ d
        → (levels : ℕ) → Shaped levels old → Suits 100 d (content_of old)
        → SuitsType (types_of d.pool.now) (name_at d.pool.now d.index) (view old)
        → IsMerged d bytes old new
        → length (message_bytes new) < 2 ^ 64 → AreBytes (message_bytes new)
        → (n : DynamicMessage) → n.descriptor ≡ d → IsSpelled d (message_bytes new) n
        → view n ≡ view new }
{}

/// What `decode` gives suits its type as `merge` asks for it.
pub fn decoded_messages_may_be_merged_into()
    ensures { (d : MessageDescriptor) → (bytes : List ℕ)
        → (m : DynamicMessage) → m.descriptor ≡ d → IsSpelled d bytes m → IsExclusive m
        → Suits 100 d (content_of m) }
{}

/// So does a message that is exclusive at each depth, in whatever way it was made and however deep
/// it is.
pub fn exclusive_messages_may_be_merged_into()
    ensures { (d : MessageDescriptor) (m : DynamicMessage) → m.descriptor ≡ d
        → (levels below : ℕ) → Exclusive levels m → Suits below d (content_of m) }
{}

/// Bytes that are merged into what others mean leave what both mean, one behind the other.
pub fn bytes_are_merged_behind_others()
    ensures { (d : MessageDescriptor) → IsSound d.pool.now → (a b : List ℕ) → AreBytes b
        → (old new : DynamicMessage) → old.descriptor ≡ d → new.descriptor ≡ d
        → Suits 100 d (content_of old)
        → Mean (types_of d.pool.now) (name_at d.pool.now d.index) a (view old)
        → IsMerged d b old new
        → Mean (types_of d.pool.now) (name_at d.pool.now d.index) (a ++ b) (view new) }
{}

/// A message of which one piece was decoded and the other merged is what the bytes mean.
pub fn decoded_and_merged_pieces_mean_the_message()
    ensures { (d : MessageDescriptor) → IsSound d.pool.now
        → (a b : List ℕ) → AreBytes a → AreBytes b
        → (old new : DynamicMessage) → old.descriptor ≡ d → new.descriptor ≡ d
        → IsSpelled d a old → IsExclusive old → IsMerged d b old new
        → Mean (types_of d.pool.now) (name_at d.pool.now d.index) (a ++ b) (view new) }
{}

/// So is one into which any number of pieces was merged, one after the other.
pub fn pieces_mean_the_message()
    ensures { (d : MessageDescriptor) → IsSound d.pool.now
        → (a : List ℕ) (bs : List (List ℕ)) → AreBytes a → AllByRecursion AreBytes bs
        → (old new : DynamicMessage) → old.descriptor ≡ d → new.descriptor ≡ d
        → IsSpelled d a old → IsExclusive old → MergesEach d old bs new
        → Mean (types_of d.pool.now) (name_at d.pool.now d.index) (a ++ concat bs) (view new) }
{}

/// What `decode` gives of them together is the same message.
pub fn pieces_are_merged_as_they_are_decoded()
    ensures { (d : MessageDescriptor) → IsSound d.pool.now
        → (a : List ℕ) (bs : List (List ℕ)) → AreBytes a → AllByRecursion AreBytes bs
        → (old new whole : DynamicMessage)
        → old.descriptor ≡ d → new.descriptor ≡ d → whole.descriptor ≡ d
        → IsSpelled d a old → IsExclusive old → MergesEach d old bs new
        → IsSpelled d (a ++ concat bs) whole → view new ≡ view whole }
{}

/// A message of which one piece was decoded and the others merged is in shape, and exclusive at
/// each depth.
pub fn pieces_are_in_shape()
    ensures { (exclusive : Bool) (d : MessageDescriptor) (a : List ℕ) (bs : List (List ℕ))
        → (old new : DynamicMessage) → old.descriptor ≡ d → new.descriptor ≡ d
        → IsSpelled d a old → IsExclusive old → MergesEach d old bs new
        → HasShape exclusive 101 new }
{}

/// `encode` writes it in the bytes that it writes of what `decode` gives of the pieces together.
pub fn pieces_are_written_as_one()
    ensures { (d : MessageDescriptor) → IsSound d.pool.now
        → (a : List ℕ) (bs : List (List ℕ)) → AreBytes a → AllByRecursion AreBytes bs
        → (old new whole : DynamicMessage)
        → old.descriptor ≡ d → new.descriptor ≡ d → whole.descriptor ≡ d
        → IsSpelled d a old → IsExclusive old → MergesEach d old bs new
        → IsSpelled d (a ++ concat bs) whole → message_bytes new ≡ message_bytes whole }
{}
