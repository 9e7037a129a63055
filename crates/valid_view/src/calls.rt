//! Laws of messages into which valid values are set: they stay in shape, and suit their types.
ghost use Rattle.std.specs.Prelude.{◌≡◌, Bool, Some, suc, ℕ};
ghost use Rattle.protobuf_model.specs.Typed.{IsTyped};
ghost use Rattle.reflect_entries.specs.Entries.{IsAscending};
ghost use Rattle.reflect_message.specs.Declares.{NoField, Owns, OwnsExtension};
ghost use Rattle.reflect_message.specs.Held.{UpdatesExtension, fields_of};
ghost use Rattle.reflect_message.specs.Names.{DynamicMessage, Value};
ghost use Rattle.reflect_message.specs.Oneofs.{IsExclusive, SetsField};
ghost use Rattle.reflect_numbered.specs.Fits.{IsValidFor};
ghost use Rattle.reflect_pool.specs.FieldsLeft.{field_type};
ghost use Rattle.reflect_pool.specs.declared.extension.ExtensionDescriptor.{ExtensionDescriptor};
ghost use Rattle.reflect_pool.specs.declared.field.FieldDescriptor.{FieldDescriptor};
ghost use Rattle.reflect_scalar.specs.FieldTypes.{extension_type};
ghost use Rattle.message_view.specs.Shaped.{HasShape};
ghost use Rattle.message_view.specs.Sound.{IsSound};
ghost use Rattle.message_view.specs.Types.{name_at, types_of};
ghost use Rattle.message_view.specs.Views.{view};
ghost use Rattle.valid_view.specs.Inside.{EachMessage, IsShapedIn, IsTypedIn, IsWhole};

/// A message in shape that suits its type does both where a field is set to what is valid for it,
/// as `try_set_field` does it, and each message in this does so one level below: then `encode`
/// writes it in one form, and `decode` reads it again as it was.
pub fn valid_fields_leave_shape_and_type()
    ensures { (exclusive : Bool) (levels depth : ℕ) (old new : DynamicMessage)
        → IsSound old.descriptor.pool.now → new.descriptor ≡ old.descriptor
        → HasShape exclusive (suc levels) old
        → IsTyped (suc depth) (types_of old.descriptor.pool.now)
        (name_at old.descriptor.pool.now old.descriptor.index) (view old)
        → IsExclusive new → IsExclusive old
        → (f : FieldDescriptor) → Owns old.descriptor f
        → (v : Value) → IsValidFor old.descriptor.pool.now (field_type f) v
        → EachMessage (IsShapedIn exclusive levels old.descriptor.pool.now) v
        → EachMessage (IsTypedIn depth old.descriptor.pool.now) v → IsWhole v
        → SetsField old new f v → IsAscending (fields_of new)
        → HasShape exclusive (suc levels) new
        × IsTyped (suc depth) (types_of old.descriptor.pool.now)
        (name_at old.descriptor.pool.now old.descriptor.index) (view new) }
{}

/// So does one in which an extension is set, under whose number no field stands.
pub fn valid_extensions_leave_shape_and_type()
    ensures { (exclusive : Bool) (levels depth : ℕ) (old new : DynamicMessage)
        → IsSound old.descriptor.pool.now → new.descriptor ≡ old.descriptor
        → HasShape exclusive (suc levels) old
        → IsTyped (suc depth) (types_of old.descriptor.pool.now)
        (name_at old.descriptor.pool.now old.descriptor.index) (view old)
        → IsExclusive new → (x : ExtensionDescriptor) → OwnsExtension old.descriptor x
        → NoField old.descriptor (extension_type x).number
        → (v : Value) → IsValidFor old.descriptor.pool.now (extension_type x) v
        → EachMessage (IsShapedIn exclusive levels old.descriptor.pool.now) v
        → EachMessage (IsTypedIn depth old.descriptor.pool.now) v → IsWhole v
        → UpdatesExtension old new (extension_type x).number (Some v)
        → HasShape exclusive (suc levels) new
        × IsTyped (suc depth) (types_of old.descriptor.pool.now)
        (name_at old.descriptor.pool.now old.descriptor.index) (view new) }
{}
