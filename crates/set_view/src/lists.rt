//! Laws of lists that values are put behind, as `extend_field` and `extend_extension` do. A call
//! that is refused leaves the list: it is one of no values.
ghost use Rattle.std.specs.Prelude.{◌≡◌, Bool, List, [], Option, true, ℕ};
ghost use Rattle.std.specs.List.{AllByRecursion};
ghost use Rattle.reflect_entries.specs.Entries.{value_at};
ghost use Rattle.reflect_message.specs.Contents.{content_of};
ghost use Rattle.reflect_message.specs.Declares.{Owns, OwnsExtension};
ghost use Rattle.reflect_message.specs.Held.{extensions_of, fields_of};
ghost use Rattle.reflect_message.specs.Lists.{KeepsList, Lengthens};
ghost use Rattle.reflect_message.specs.Names.{DynamicMessage, Value};
ghost use Rattle.reflect_pool.specs.FieldsLeft.{field_type};
ghost use Rattle.reflect_pool.specs.Shapes.{holds_list};
ghost use Rattle.reflect_pool.specs.declared.extension.ExtensionDescriptor.{ExtensionDescriptor};
ghost use Rattle.reflect_pool.specs.declared.field.FieldDescriptor.{FieldDescriptor};
ghost use Rattle.reflect_scalar.specs.FieldTypes.{extension_type};
ghost use Rattle.message_view.specs.Shaped.{FitsOne, HasShape, IsShaped};
ghost use Rattle.message_view.specs.Sound.{IsSound};
ghost use Rattle.set_view.specs.Extends.{ExtendsExtension, ExtendsField};

/// Values that each suit it, put behind those of a field that is a list, leave a message in shape.
pub fn extended_lists_leave_the_shape()
    ensures { (exclusive : Bool) (levels : ℕ) (old new : DynamicMessage)
        → IsSound old.descriptor.pool.now
        → IsShaped (HasShape exclusive levels) old.descriptor (content_of old)
        → (f : FieldDescriptor) → Owns old.descriptor f
        → holds_list old.descriptor.pool.now (field_type f) ≡ true
        → ExtendsField old new f
        → (vs : List Value)
        → AllByRecursion
        (FitsOne (HasShape exclusive levels) old.descriptor.pool.now (field_type f)) vs
        → Lengthens (value_at (fields_of old) (field_type f).number)
        (value_at (fields_of new) (field_type f).number) vs
        → IsShaped (HasShape exclusive levels) new.descriptor (content_of new) }
{}

/// The same of an extension.
pub fn extended_list_extensions_leave_the_shape()
    ensures { (exclusive : Bool) (levels : ℕ) (old new : DynamicMessage)
        → IsSound old.descriptor.pool.now
        → IsShaped (HasShape exclusive levels) old.descriptor (content_of old)
        → (x : ExtensionDescriptor) → OwnsExtension old.descriptor x
        → holds_list old.descriptor.pool.now (extension_type x) ≡ true
        → ExtendsExtension old new x
        → (vs : List Value)
        → AllByRecursion
        (FitsOne (HasShape exclusive levels) old.descriptor.pool.now (extension_type x)) vs
        → Lengthens (value_at (extensions_of old) (extension_type x).number)
        (value_at (extensions_of new) (extension_type x).number) vs
        → IsShaped (HasShape exclusive levels) new.descriptor (content_of new) }
{}

/// A list that stays is one that no values are put behind.
pub fn lists_that_stay_take_no_values()
    ensures { (old new : Option Value) → KeepsList old new → Lengthens old new [] }
{}
