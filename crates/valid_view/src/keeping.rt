//! Laws of calls that leave messages tidy, whatever they put, and what these hold as the types of
//! the code have it. That of each oneof one member at most holds anything the calls themselves say.
ghost use Rattle.std.specs.Prelude.{◌≡◌, ◌≤◌, List, None, Some, suc, true, ℕ};
ghost use Rattle.reflect_copies.specs.Copies.{IsCopy};
ghost use Rattle.reflect_copies.specs.InOrder.{IsInOrder};
ghost use Rattle.reflect_decode.specs.Spelled.{IsSpelled};
ghost use Rattle.reflect_entries.specs.Entries.{IsAscending};
ghost use Rattle.reflect_message.specs.Contents.{content_of, nothing};
ghost use Rattle.reflect_message.specs.Declares.{Owns, OwnsExtension};
ghost use Rattle.reflect_message.specs.Held.{UpdatesExtension, UpdatesField, fields_of};
ghost use Rattle.reflect_message.specs.Names.{DynamicMessage, Value};
ghost use Rattle.reflect_message.specs.Oneofs.{IsExclusive, SetsField};
ghost use Rattle.reflect_numbered.specs.Fits.{suits_type};
ghost use Rattle.reflect_numbered.specs.declared.validity.Strictness.TheVariants.{Types};
ghost use Rattle.reflect_pool.specs.FieldsLeft.{field_type};
ghost use Rattle.reflect_pool.specs.declared.extension.ExtensionDescriptor.{ExtensionDescriptor};
ghost use Rattle.reflect_pool.specs.declared.field.FieldDescriptor.{FieldDescriptor};
ghost use Rattle.reflect_pool.specs.declared.message.MessageDescriptor.{MessageDescriptor};
ghost use Rattle.reflect_scalar.specs.FieldTypes.{extension_type};
ghost use Rattle.reflect_tables.specs.Types.{PoolType};
ghost use Rattle.reflect_wire.specs.Written.{AreBytes};
ghost use Rattle.message_view.specs.Sound.{IsSound};
ghost use Rattle.message_view.specs.Taken.{TakesOut};
ghost use Rattle.valid_view.specs.Inside.{EachMessage, IsWhole};
ghost use Rattle.valid_view.specs.Tidy.{Solid, Tidy};

/// A message in which nothing is set is tidy, and what it holds is whole.
pub fn empty_messages_are_tidy()
    ensures tidy { (pool : PoolType) (levels : ℕ) (m : DynamicMessage)
        → m.descriptor.pool.now ≡ pool → content_of m ≡ nothing → Tidy pool (suc levels) m }
    ensures solid { (levels : ℕ) (m : DynamicMessage) → content_of m ≡ nothing
        → Solid (suc levels) m }
{}

/// A message that was decoded is tidy, with 100 levels of messages below it at most, and what it
/// holds is whole. That bytes are below 256 `slices_are_of_bytes` says.
pub fn decoded_messages_are_tidy()
    ensures tidy { (d : MessageDescriptor) → IsSound d.pool.now → (bytes : List ℕ)
        → (m : DynamicMessage)
        → m.descriptor ≡ d → IsExclusive m → IsSpelled d bytes m → Tidy d.pool.now 101 m }
    ensures solid { (d : MessageDescriptor) → IsSound d.pool.now → (bytes : List ℕ)
        → AreBytes bytes → (m : DynamicMessage) → IsSpelled d bytes m → Solid 101 m }
{}

/// A copy, as `clone` makes it, of a message that suits its type and is tidy does and is so, and of
/// one that is tidy and solid is solid.
pub fn copies_are_typed_and_tidy()
    ensures both { (pool : PoolType) (levels : ℕ) (old copy : DynamicMessage)
        → copy.descriptor ≡ old.descriptor → IsCopy (content_of old) (content_of copy)
        → IsInOrder copy → suits_type Types old ≡ true → Tidy pool levels old
        → (suits_type Types copy ≡ true) × Tidy pool levels copy }
    ensures solid { (pool : PoolType) (levels : ℕ) (old copy : DynamicMessage)
        → copy.descriptor ≡ old.descriptor → IsCopy (content_of old) (content_of copy)
        → IsInOrder copy → Tidy pool levels old → Solid levels old → Solid levels copy }
{}

/// What is so with some levels below is so with more.
pub fn tidy_messages_may_be_deeper()
    ensures tidy { (pool : PoolType) (levels deeper : ℕ) → levels ≤ deeper → (m : DynamicMessage)
        → Tidy pool levels m → Tidy pool deeper m }
    ensures solid { (levels deeper : ℕ) → levels ≤ deeper → (m : DynamicMessage)
        → Solid levels m → Solid deeper m }
{}

/// A field that is set to a value whose messages are so leaves a message so.
pub fn set_fields_leave_messages_tidy()
    ensures tidy { (pool : PoolType) → IsSound pool → (levels : ℕ) (old new : DynamicMessage)
        → Tidy pool (suc levels) old → IsExclusive new → new.descriptor ≡ old.descriptor
        → (f : FieldDescriptor) → Owns old.descriptor f
        → (v : Value) → EachMessage (Tidy pool levels) v
        → SetsField old new f v → IsAscending (fields_of new) → Tidy pool (suc levels) new }
    ensures solid { (levels : ℕ) (old new : DynamicMessage) → Solid (suc levels) old
        → (f : FieldDescriptor) (v : Value) → IsWhole v → EachMessage (Solid levels) v
        → SetsField old new f v → Solid (suc levels) new }
{}

/// So does a field that is cleared or taken.
pub fn unset_fields_leave_messages_tidy()
    ensures tidy { (pool : PoolType) → IsSound pool → (levels : ℕ) (old new : DynamicMessage)
        → Tidy pool (suc levels) old → IsExclusive new
        → (f : FieldDescriptor) → Owns old.descriptor f
        → UpdatesField old new (field_type f).number None → Tidy pool (suc levels) new }
    ensures solid { (levels : ℕ) (old new : DynamicMessage) → Solid (suc levels) old
        → (f : FieldDescriptor) → UpdatesField old new (field_type f).number None
        → Solid (suc levels) new }
{}

/// The same of an extension that is set.
pub fn set_extensions_leave_messages_tidy()
    ensures tidy { (pool : PoolType) → IsSound pool → (levels : ℕ) (old new : DynamicMessage)
        → Tidy pool (suc levels) old → IsExclusive new
        → (x : ExtensionDescriptor) → OwnsExtension old.descriptor x
        → (v : Value) → EachMessage (Tidy pool levels) v
        → UpdatesExtension old new (extension_type x).number (Some v) → Tidy pool (suc levels) new }
    ensures solid { (levels : ℕ) (old new : DynamicMessage) → Solid (suc levels) old
        → (x : ExtensionDescriptor) (v : Value) → IsWhole v → EachMessage (Solid levels) v
        → UpdatesExtension old new (extension_type x).number (Some v) → Solid (suc levels) new }
{}

/// And of one that is cleared or taken.
pub fn unset_extensions_leave_messages_tidy()
    ensures tidy { (pool : PoolType) → IsSound pool → (levels : ℕ) (old new : DynamicMessage)
        → Tidy pool (suc levels) old → IsExclusive new
        → (x : ExtensionDescriptor) → OwnsExtension old.descriptor x
        → UpdatesExtension old new (extension_type x).number None → Tidy pool (suc levels) new }
    ensures solid { (levels : ℕ) (old new : DynamicMessage) → Solid (suc levels) old
        → (x : ExtensionDescriptor) → UpdatesExtension old new (extension_type x).number None
        → Solid (suc levels) new }
{}

/// What is taken out, as `take_fields` and its like and `clear` do, leaves a message so.
pub fn what_is_taken_out_leaves_messages_tidy()
    ensures tidy { (pool : PoolType) (levels : ℕ) (old new : DynamicMessage)
        → Tidy pool (suc levels) old → IsExclusive new → TakesOut old new
        → Tidy pool (suc levels) new }
    ensures solid { (levels : ℕ) (old new : DynamicMessage) → Solid (suc levels) old
        → TakesOut old new → Solid (suc levels) new }
{}
