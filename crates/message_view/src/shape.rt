//! Laws of messages in whatever way they were made: that what holds fitting values in order is
//! written in one form and read again, and that calls leave it so.
//!
//! Those of calls are of any count of levels below, and of messages that are exclusive at each
//! depth as of any others: that the message itself stays exclusive is said by the calls.
ghost use Rattle.std.specs.Prelude.{◌≡◌, ◌↔◌, ◌<◌, ◌≤◌, ◌^◌, Bool, List, None, Some, length, suc, ℕ};
ghost use Rattle.protobuf_model.specs.Bytes.{bytes_of};
ghost use Rattle.protobuf_model.specs.Coded.{Mean, SuitsType};
ghost use Rattle.reflect_decode.specs.Spelled.{IsSpelled, TellsWhy};
ghost use Rattle.reflect_entries.specs.Entries.{IsAscending};
ghost use Rattle.reflect_message.specs.Bytes.{message_bytes};
ghost use Rattle.reflect_message.specs.Contents.{content_of, nothing};
ghost use Rattle.reflect_message.specs.Declares.{Owns, OwnsExtension};
ghost use Rattle.reflect_message.specs.Held.{UpdatesExtension, UpdatesField, fields_of};
ghost use Rattle.reflect_message.specs.Oneofs.{IsExclusive, SetsField};
ghost use Rattle.reflect_message.specs.Names.{DynamicMessage, Value};
ghost use Rattle.reflect_pool.specs.FieldsLeft.{field_type};
ghost use Rattle.reflect_pool.specs.declared.extension.ExtensionDescriptor.{ExtensionDescriptor};
ghost use Rattle.reflect_pool.specs.declared.field.FieldDescriptor.{FieldDescriptor};
ghost use Rattle.reflect_pool.specs.declared.message.MessageDescriptor.{MessageDescriptor};
ghost use Rattle.reflect_scalar.specs.FieldTypes.{extension_type};
ghost use Rattle.reflect_tables.specs.Types.{FieldType, PoolType};
ghost use Rattle.reflect_wire.specs.Written.{AreBytes};
ghost use Rattle.reflect_wire.specs.declared.wire_error.WireError.{WireError};
ghost use Rattle.reflect_wire.specs.declared.wire_error.WireError.TheVariants.{Memory};
ghost use Rattle.message_view.specs.Shaped.{Exclusive, FitsShaped, FitsOne, HasShape, IsInShape, IsShaped, Shaped};
ghost use Rattle.message_view.specs.Sound.{IsSound};
ghost use Rattle.message_view.specs.Taken.{TakesOut};
ghost use Rattle.message_view.specs.Types.{name_at, types_of};
ghost use Rattle.message_view.specs.Views.{view};

/// What `decode` gives is in shape.
pub fn decoded_messages_are_in_shape()
    ensures { (d : MessageDescriptor) (bytes : List ℕ) (m : DynamicMessage) → m.descriptor ≡ d
        → IsSpelled d bytes m → IsInShape m }
{}

/// It is exclusive at each depth, as it is itself.
pub fn decoded_messages_are_exclusive()
    ensures { (d : MessageDescriptor) (bytes : List ℕ) (m : DynamicMessage) → m.descriptor ≡ d
        → IsSpelled d bytes m → IsExclusive m → Exclusive 101 m }
{}

/// `encode` writes a message that is in shape, in whatever way it was made and however deep it is,
/// in the one form of what it holds.
pub fn messages_in_shape_are_written_in_one_form()
    ensures { (d : MessageDescriptor) → IsSound d.pool.now
        → (m : DynamicMessage) → m.descriptor ≡ d → (levels : ℕ) → Shaped levels m
        → message_bytes m ≡ bytes_of (types_of d.pool.now) (name_at d.pool.now d.index) (view m) }
{}

/// Where it suits its type, of 100 levels at most, these bytes mean it, if they are no more than a
/// length can say.
pub fn messages_in_shape_are_what_their_bytes_mean()
    ensures { (d : MessageDescriptor) → IsSound d.pool.now
        → (m : DynamicMessage) → m.descriptor ≡ d → (levels : ℕ) → Shaped levels m
        → SuitsType (types_of d.pool.now) (name_at d.pool.now d.index) (view m)
        → length (message_bytes m) < 2 ^ 64
        → Mean (types_of d.pool.now) (name_at d.pool.now d.index) (message_bytes m) (view m) }
{}

/// `decode` refuses no such bytes, but for want of memory.
pub fn messages_in_shape_are_decoded()
    ensures { (d : MessageDescriptor) → IsSound d.pool.now
        → (m : DynamicMessage) → m.descriptor ≡ d → (levels : ℕ) → Shaped levels m
        → SuitsType (types_of d.pool.now) (name_at d.pool.now d.index) (view m)
        → length (message_bytes m) < 2 ^ 64
        → (e : WireError) → (e ≡ Memory → ⊥) → TellsWhy d (message_bytes m) e → ⊥ }
{}

/// What `decode` gives of them is the message that was encoded.
pub fn messages_in_shape_are_decoded_as_they_were()
    ensures { (d : MessageDescriptor) → IsSound d.pool.now
        → (m : DynamicMessage) → m.descriptor ≡ d → (levels : ℕ) → Shaped levels m
        → SuitsType (types_of d.pool.now) (name_at d.pool.now d.index) (view m)
        → length (message_bytes m) < 2 ^ 64 → AreBytes (message_bytes m)
        → (n : DynamicMessage) → n.descriptor ≡ d → IsSpelled d (message_bytes m) n
        → view n ≡ view m }
{}

/// What has the shape with some levels below has it with more.
pub fn messages_in_shape_may_be_deeper()
    ensures { (exclusive : Bool) (levels deeper : ℕ) → levels ≤ deeper → (m : DynamicMessage)
        → HasShape exclusive levels m → HasShape exclusive deeper m }
{}

/// So what suits a field with messages of some levels suits it with messages of more.
pub fn values_that_fit_may_be_deeper()
    ensures { (exclusive : Bool) (levels deeper : ℕ) → levels ≤ deeper
        → (pool : PoolType) (f : FieldType) (v : Value)
        → FitsShaped (HasShape exclusive levels) pool f v
        → FitsShaped (HasShape exclusive deeper) pool f v }
{}

/// The same of a value that suits it as one.
pub fn single_values_that_fit_may_be_deeper()
    ensures { (exclusive : Bool) (levels deeper : ℕ) → levels ≤ deeper
        → (pool : PoolType) (f : FieldType) (v : Value)
        → FitsOne (HasShape exclusive levels) pool f v
        → FitsOne (HasShape exclusive deeper) pool f v }
{}

/// A message that is exclusive at each depth is in shape.
pub fn exclusive_messages_are_in_shape()
    ensures { (levels : ℕ) (m : DynamicMessage) → Exclusive levels m → Shaped levels m }
{}

/// A message in which nothing is set is in shape, and exclusive.
pub fn empty_messages_are_in_shape()
    ensures { (exclusive : Bool) (levels : ℕ) (m : DynamicMessage) → content_of m ≡ nothing
        → HasShape exclusive (suc levels) m }
{}

/// A field that is set to what suits it leaves the message in shape.
pub fn set_fields_leave_the_shape()
    ensures { (exclusive : Bool) (levels : ℕ) (old new : DynamicMessage)
        → IsSound old.descriptor.pool.now → new.descriptor ≡ old.descriptor
        → IsShaped (HasShape exclusive levels) old.descriptor (content_of old)
        → (f : FieldDescriptor) → Owns old.descriptor f
        → (v : Value)
        → FitsShaped (HasShape exclusive levels) old.descriptor.pool.now (field_type f) v
        → SetsField old new f v → IsAscending (fields_of new)
        → IsShaped (HasShape exclusive levels) new.descriptor (content_of new) }
{}

/// So does a field that is cleared or taken.
pub fn unset_fields_leave_the_shape()
    ensures { (exclusive : Bool) (levels : ℕ) (old new : DynamicMessage)
        → IsSound old.descriptor.pool.now → new.descriptor ≡ old.descriptor
        → IsShaped (HasShape exclusive levels) old.descriptor (content_of old)
        → (f : FieldDescriptor) → Owns old.descriptor f
        → UpdatesField old new (field_type f).number None
        → IsShaped (HasShape exclusive levels) new.descriptor (content_of new) }
{}

/// The same of an extension that is set.
pub fn set_extensions_leave_the_shape()
    ensures { (exclusive : Bool) (levels : ℕ) (old new : DynamicMessage)
        → IsSound old.descriptor.pool.now → new.descriptor ≡ old.descriptor
        → IsShaped (HasShape exclusive levels) old.descriptor (content_of old)
        → (x : ExtensionDescriptor) → OwnsExtension old.descriptor x
        → (v : Value)
        → FitsShaped (HasShape exclusive levels) old.descriptor.pool.now (extension_type x) v
        → UpdatesExtension old new (extension_type x).number (Some v)
        → IsShaped (HasShape exclusive levels) new.descriptor (content_of new) }
{}

/// And of one that is cleared or taken.
pub fn unset_extensions_leave_the_shape()
    ensures { (exclusive : Bool) (levels : ℕ) (old new : DynamicMessage)
        → IsSound old.descriptor.pool.now → new.descriptor ≡ old.descriptor
        → IsShaped (HasShape exclusive levels) old.descriptor (content_of old)
        → (x : ExtensionDescriptor) → OwnsExtension old.descriptor x
        → UpdatesExtension old new (extension_type x).number None
        → IsShaped (HasShape exclusive levels) new.descriptor (content_of new) }
{}

/// What is taken out, as `take_fields` and its like and `clear` do, leaves a message in shape. A
/// call that is refused has taken nothing out.
pub fn what_is_taken_out_leaves_the_shape()
    ensures { (exclusive : Bool) (levels : ℕ) (old new : DynamicMessage) → TakesOut old new
        → IsShaped (HasShape exclusive levels) old.descriptor (content_of old)
        → IsShaped (HasShape exclusive levels) new.descriptor (content_of new) }
{}

/// Messages of one type that suit it, of 100 levels at most, are written in the same bytes exactly
/// where they hold the same, records without a field too, if these are no more than a length can
/// say.
pub fn messages_in_shape_have_the_same_bytes_where_they_hold_the_same()
    ensures { (d : MessageDescriptor) → IsSound d.pool.now → (m n : DynamicMessage)
        → m.descriptor ≡ d → n.descriptor ≡ d
        → (levels depth : ℕ) → Shaped levels m → Shaped depth n
        → SuitsType (types_of d.pool.now) (name_at d.pool.now d.index) (view m)
        → SuitsType (types_of d.pool.now) (name_at d.pool.now d.index) (view n)
        → length (message_bytes m) < 2 ^ 64 → length (message_bytes n) < 2 ^ 64
        → (message_bytes m ≡ message_bytes n) ↔ (view m ≡ view n) }
{}
