//! Laws of messages that are asked whether they suit their types at each depth.
ghost use Rattle.std.specs.Prelude.{◌≡◌, Bool, List, Some, suc, true, ℕ};
ghost use Rattle.protobuf_model.specs.Typed.{IsTyped};
ghost use Rattle.reflect_decode.specs.Spelled.{IsSpelled};
ghost use Rattle.reflect_entries.specs.Entries.{IsAscending};
ghost use Rattle.reflect_message.specs.Declares.{Owns, OwnsExtension};
ghost use Rattle.reflect_message.specs.Held.{UpdatesExtension, fields_of};
ghost use Rattle.reflect_message.specs.Names.{DynamicMessage, Value};
ghost use Rattle.reflect_message.specs.Oneofs.{SetsField};
ghost use Rattle.reflect_numbered.specs.Fits.{IsValidFor, suits_type};
ghost use Rattle.reflect_numbered.specs.declared.validity.Strictness.{Strictness};
ghost use Rattle.reflect_numbered.specs.declared.validity.Strictness.TheVariants.{Types};
ghost use Rattle.reflect_pool.specs.FieldsLeft.{field_type};
ghost use Rattle.reflect_pool.specs.declared.extension.ExtensionDescriptor.{ExtensionDescriptor};
ghost use Rattle.reflect_pool.specs.declared.field.FieldDescriptor.{FieldDescriptor};
ghost use Rattle.reflect_pool.specs.declared.message.MessageDescriptor.{MessageDescriptor};
ghost use Rattle.reflect_scalar.specs.FieldTypes.{extension_type};
ghost use Rattle.reflect_tables.specs.Types.{PoolType};
ghost use Rattle.message_view.specs.Shaped.{HasShape};
ghost use Rattle.message_view.specs.Sound.{IsSound};
ghost use Rattle.message_view.specs.Types.{name_at, types_of};
ghost use Rattle.message_view.specs.Views.{view};
ghost use Rattle.valid_view.specs.Inside.{EachMessage};
ghost use Rattle.valid_view.specs.Tidy.{Solid, Tidy};

/// A message that suits its type at each depth, as `is_typed` tells, is in shape, and exclusive at
/// each depth, where it is tidy: each message in it is of a type of the pool, holds what it does in
/// order and nothing else under the numbers of its fields, as calls leave it.
pub fn messages_that_are_typed_are_in_shape()
    ensures { (exclusive : Bool) (pool : PoolType) → IsSound pool
        → (levels : ℕ) (m : DynamicMessage) → Tidy pool levels m
        → suits_type Types m ≡ true → HasShape exclusive levels m }
{}

/// It suits its type in the words of the model too, where what it holds at each depth is such as
/// the types of the code have: so its bytes mean it, and are read again as it was.
pub fn messages_that_are_typed_suit_the_type()
    ensures { (pool : PoolType) → IsSound pool → (levels : ℕ) (m : DynamicMessage)
        → Tidy pool (suc levels) m → Solid (suc levels) m → suits_type Types m ≡ true
        → IsTyped levels (types_of pool) (name_at pool m.descriptor.index) (view m) }
{}

/// A message that was decoded suits its type at each depth: `is_typed` tells true of it.
pub fn decoded_messages_are_typed()
    ensures { (d : MessageDescriptor) → IsSound d.pool.now → (bytes : List ℕ) (m : DynamicMessage)
        → m.descriptor ≡ d → IsSpelled d bytes m → suits_type Types m ≡ true }
{}

/// A message that suits its type does so where a field is set to what is valid for it, as
/// `try_set_field` does it, if each message in this suits its own. So it is with `is_encodable`.
pub fn set_fields_leave_messages_typed()
    ensures { (how : Strictness) (old new : DynamicMessage) → suits_type how old ≡ true
        → new.descriptor ≡ old.descriptor → (f : FieldDescriptor) → Owns old.descriptor f
        → (v : Value) → IsValidFor old.descriptor.pool.now (field_type f) v
        → EachMessage (λ m. suits_type how m ≡ true) v
        → SetsField old new f v → IsAscending (fields_of new) → suits_type how new ≡ true }
{}

/// And where an extension is.
pub fn set_extensions_leave_messages_typed()
    ensures { (how : Strictness) (old new : DynamicMessage) → suits_type how old ≡ true
        → (x : ExtensionDescriptor) → OwnsExtension old.descriptor x
        → (v : Value) → IsValidFor old.descriptor.pool.now (extension_type x) v
        → EachMessage (λ m. suits_type how m ≡ true) v
        → UpdatesExtension old new (extension_type x).number (Some v) → suits_type how new ≡ true }
{}
