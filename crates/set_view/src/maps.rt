//! Laws of maps that values put their entries into, as `extend_field` and `extend_extension` do. A
//! call that is refused has put those of the first of its values: it is one of these.
ghost use Rattle.std.specs.Prelude.{◌≡◌, ◌++◌, Bool, List, Option, suc, true, ℕ};
ghost use Rattle.std.specs.List.{AllByRecursion};
ghost use Rattle.reflect_entries.specs.Entries.{value_at};
ghost use Rattle.reflect_extend.specs.Puts.{PutsEntries, PutsSome};
ghost use Rattle.reflect_message.specs.Contents.{content_of};
ghost use Rattle.reflect_message.specs.Declares.{Owns, OwnsExtension};
ghost use Rattle.reflect_message.specs.Held.{extensions_of, fields_of};
ghost use Rattle.reflect_message.specs.Names.{DynamicMessage, Value};
ghost use Rattle.reflect_pool.specs.FieldsLeft.{field_type};
ghost use Rattle.reflect_pool.specs.Shapes.{holds_map};
ghost use Rattle.reflect_pool.specs.declared.extension.ExtensionDescriptor.{ExtensionDescriptor};
ghost use Rattle.reflect_pool.specs.declared.field.FieldDescriptor.{FieldDescriptor};
ghost use Rattle.reflect_scalar.specs.FieldTypes.{extension_type};
ghost use Rattle.reflect_tables.specs.Types.{FieldType, PoolType};
ghost use Rattle.message_view.specs.Shaped.{FitsOne, HasShape, IsShaped};
ghost use Rattle.message_view.specs.Sound.{IsSound};
ghost use Rattle.set_view.specs.Extends.{ExtendsExtension, ExtendsField};
ghost use Rattle.set_view.specs.Given.{GivesFitting};

/// Entries with values that suit it, put into a field that is a map, each over what stood under an
/// equal key, leave a message in shape.
pub fn extended_maps_leave_the_shape()
    ensures { (exclusive : Bool) (levels : ℕ) (old new : DynamicMessage)
        → IsSound old.descriptor.pool.now
        → IsShaped (HasShape exclusive levels) old.descriptor (content_of old)
        → (f : FieldDescriptor) → Owns old.descriptor f
        → holds_map old.descriptor.pool.now (field_type f) ≡ true
        → ExtendsField old new f
        → (vs : List Value)
        → AllByRecursion
        (GivesFitting (HasShape exclusive levels) old.descriptor.pool.now (field_type f)) vs
        → PutsEntries (value_at (fields_of old) (field_type f).number)
        (value_at (fields_of new) (field_type f).number) vs
        → IsShaped (HasShape exclusive levels) new.descriptor (content_of new) }
{}

/// The same of an extension.
pub fn extended_map_extensions_leave_the_shape()
    ensures { (exclusive : Bool) (levels : ℕ) (old new : DynamicMessage)
        → IsSound old.descriptor.pool.now
        → IsShaped (HasShape exclusive levels) old.descriptor (content_of old)
        → (x : ExtensionDescriptor) → OwnsExtension old.descriptor x
        → holds_map old.descriptor.pool.now (extension_type x) ≡ true
        → ExtendsExtension old new x
        → (vs : List Value)
        → AllByRecursion
        (GivesFitting (HasShape exclusive levels) old.descriptor.pool.now (extension_type x)) vs
        → PutsEntries (value_at (extensions_of old) (extension_type x).number)
        (value_at (extensions_of new) (extension_type x).number) vs
        → IsShaped (HasShape exclusive levels) new.descriptor (content_of new) }
{}

/// A message in shape, of the type of a map's entries, gives an entry with such a value.
pub fn entries_in_shape_give_what_fits()
    ensures { (exclusive : Bool) (levels : ℕ) (pool : PoolType) → IsSound pool
        → (f : FieldType) (v : Value) → FitsOne (HasShape exclusive (suc (suc levels))) pool f v
        → GivesFitting (HasShape exclusive (suc levels)) pool f v }
{}

/// What a call that is refused leaves of a map is what the first of its values put there.
pub fn refused_maps_take_the_first_values()
    ensures { (old new : Option Value) (vs : List Value) → PutsSome old new vs
        → (front behind : List Value) × (vs ≡ front ++ behind) × PutsEntries old new front }
{}
