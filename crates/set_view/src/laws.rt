//! Laws of what calls leave in messages, each the contract of a function that does nothing. They
//! speak of the types of a pool, and of a message as one of these.
//!
//! With those of `message_view` on what is in shape, what such calls make of an empty message is
//! written in one form, and read again as it was.
ghost use Rattle.std.specs.Prelude.{◌≡◌, ◌<◌, ◌^◌, ℕ, None, Some, suc};
ghost use Rattle.protobuf_model.specs.Typed.{IsHeldOf, IsTyped};
ghost use Rattle.protobuf_model.specs.Types.{Name, Types};
ghost use Rattle.protobuf_model.specs.Values.{Held, Message};
ghost use Rattle.reflect_message.specs.Contents.{content_of, nothing};
ghost use Rattle.reflect_message.specs.Declares.{NoField, Owns, OwnsExtension};
ghost use Rattle.reflect_message.specs.Held.{UpdatesExtension, UpdatesField};
ghost use Rattle.reflect_message.specs.Names.{DynamicMessage, Value};
ghost use Rattle.reflect_message.specs.Oneofs.{IsExclusive, SetsField};
ghost use Rattle.reflect_pool.specs.FieldsLeft.{field_type};
ghost use Rattle.reflect_pool.specs.declared.extension.ExtensionDescriptor.{ExtensionDescriptor};
ghost use Rattle.reflect_pool.specs.declared.field.FieldDescriptor.{FieldDescriptor};
ghost use Rattle.reflect_scalar.specs.FieldTypes.{extension_type};
ghost use Rattle.message_view.specs.Sound.{IsSound};
ghost use Rattle.message_view.specs.Taken.{TakesOut};
ghost use Rattle.message_view.specs.Types.{name_at, types_of};
ghost use Rattle.message_view.specs.Views.{content_view, held_in, view};
ghost use Rattle.set_view.specs.Puts.{IsPut, IsUnset};

/// A field that is set to a value holds it, if that counts as set, the other members of its oneof
/// hold nothing, and nothing else is changed.
pub fn set_fields_are_put()
    ensures { (old new : DynamicMessage) → IsSound old.descriptor.pool.now
        → new.descriptor ≡ old.descriptor → IsExclusive old
        → (f : FieldDescriptor) → Owns old.descriptor f → (v : Value) → SetsField old new f v
        → IsPut (types_of old.descriptor.pool.now
        (name_at old.descriptor.pool.now old.descriptor.index)) (field_type f).number
        (held_in old.descriptor.pool.now (field_type f) (Some (content_view v)))
        (view old) (view new) }
{}

/// So does an extension, under whose number no field stands.
pub fn set_extensions_are_put()
    ensures { (old new : DynamicMessage) → IsSound old.descriptor.pool.now
        → new.descriptor ≡ old.descriptor
        → (x : ExtensionDescriptor) → OwnsExtension old.descriptor x
        → NoField old.descriptor (extension_type x).number
        → (v : Value) → UpdatesExtension old new (extension_type x).number (Some v)
        → IsPut (types_of old.descriptor.pool.now
        (name_at old.descriptor.pool.now old.descriptor.index)) (extension_type x).number
        (held_in old.descriptor.pool.now (extension_type x) (Some (content_view v)))
        (view old) (view new) }
{}

/// A field that is cleared or taken holds nothing, and nothing else is changed.
pub fn unset_fields_hold_nothing()
    ensures { (old new : DynamicMessage) → new.descriptor ≡ old.descriptor
        → (f : FieldDescriptor) → Owns old.descriptor f
        → UpdatesField old new (field_type f).number None
        → IsUnset (field_type f).number (view old) (view new) }
{}

/// The same of an extension.
pub fn unset_extensions_hold_nothing()
    ensures { (old new : DynamicMessage) → new.descriptor ≡ old.descriptor
        → (x : ExtensionDescriptor) → OwnsExtension old.descriptor x
        → NoField old.descriptor (extension_type x).number
        → UpdatesExtension old new (extension_type x).number None
        → IsUnset (extension_type x).number (view old) (view new) }
{}

/// A message in which nothing is set suits each type, of any levels.
pub fn empty_messages_suit_the_type()
    ensures { (levels : ℕ) (types : Types) (t : Name) (m : DynamicMessage)
        → content_of m ≡ nothing → IsTyped levels types t (view m) }
{}

/// Where what is put suits the field of its number, in messages of fewer levels, the message suits
/// its type as before.
pub fn put_messages_suit_the_type()
    ensures { (levels : ℕ) (types : Types) (t : Name) (n : ℕ) (held : Held) (old new : Message)
        → IsPut (types t) n held old new → 0 < n → n < 2 ^ 29
        → IsHeldOf (IsTyped levels types) (suc levels) (types t n) held
        → IsTyped (suc levels) types t old → IsTyped (suc levels) types t new }
{}

/// So it does where a number is unset.
pub fn unset_messages_suit_the_type()
    ensures { (levels : ℕ) (types : Types) (t : Name) (n : ℕ) (old new : Message)
        → IsUnset n old new → IsTyped levels types t old → IsTyped levels types t new }
{}

/// And where fields, extensions or other records are taken out.
pub fn what_is_taken_out_suits_the_type()
    ensures { (levels : ℕ) (types : Types) (t : Name) (old new : DynamicMessage)
        → TakesOut old new
        → IsTyped levels types t (view old) → IsTyped levels types t (view new) }
{}
