//! Laws of messages in which all that is of bytes is bytes, as what is printed asks of them: calls
//! leave them so that put what is so.
ghost use Rattle.std.specs.Prelude.{◌≡◌, ℕ, Option, Some};
ghost use Rattle.protobuf_model.specs.Types.{Field};
ghost use Rattle.protobuf_model.specs.Values.{Content, Held, Message, Single};
ghost use Rattle.reflect_tables.specs.Types.{FieldType, PoolType};
ghost use Rattle.reflect_message.specs.Contents.{content_of, nothing};
ghost use Rattle.reflect_message.specs.Names.{DynamicMessage};
ghost use Rattle.message_view.specs.Views.{held_in, view};
ghost use Rattle.set_view.specs.Puts.{IsPut, IsUnset};
ghost use Rattle.text_model.specs.Plain.{AreBytes};
ghost use Rattle.print_view.specs.InBytes.{HoldsBytes, StandsIn, StandsInHeld};

/// A message in which nothing is set is so.
pub fn empty_messages_hold_bytes()
    ensures { (m : DynamicMessage) → content_of m ≡ nothing → HoldsBytes (view m) }
{}

/// One in which something is put that is so stays so.
pub fn put_messages_hold_bytes()
    ensures { (type : ℕ → Option Field) (n : ℕ) (held : Held) (old new : Message)
        → IsPut type n held old new → HoldsBytes old
        → ((v : Single) → StandsInHeld v held → AreBytes v) → HoldsBytes new }
{}

/// Of a value that is so that is what counts as set.
pub fn values_are_held_in_bytes()
    ensures { (pool : PoolType) (f : FieldType) (c : Content)
        → ((v : Single) → StandsIn v c → AreBytes v)
        → (v : Single) → StandsInHeld v (held_in pool f (Some c)) → AreBytes v }
{}

/// A message in which a number is unset stays so.
pub fn unset_messages_hold_bytes()
    ensures { (n : ℕ) (old new : Message) → IsUnset n old new → HoldsBytes old → HoldsBytes new }
{}
