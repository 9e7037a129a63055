//! Laws of calls of `extend_field` that are refused. Each leaves the other members of the field's
//! oneof: where the field held something none was noted, and where it held nothing the message
//! means what it did.
ghost use Rattle.std.specs.Prelude.{◌≡◌, List, None, ℕ};
ghost use Rattle.std.specs.Option.{IsSome};
ghost use Rattle.reflect_entries.specs.Entries.{value_at};
ghost use Rattle.reflect_extend.specs.Others.{StaysUnset};
ghost use Rattle.reflect_extend.specs.Siblings.{KeepsRest, LacksSibling};
ghost use Rattle.reflect_message.specs.Declares.{Owns};
ghost use Rattle.reflect_message.specs.Held.{choices_of, fields_of};
ghost use Rattle.reflect_message.specs.Names.{DynamicMessage, Value};
ghost use Rattle.reflect_message.specs.Oneofs.{IsExclusive};
ghost use Rattle.reflect_pool.specs.FieldsLeft.{field_type};
ghost use Rattle.reflect_pool.specs.declared.field.FieldDescriptor.{FieldDescriptor};
ghost use Rattle.message_view.specs.Views.{view};
ghost use Rattle.set_view.specs.Extends.{ExtendsField};

/// Where the field held something, no other member of its oneof that was noted holds anything
/// afterwards, as where the call is not refused: there was none.
pub fn fields_that_are_held_lack_siblings()
    ensures { (old : DynamicMessage) → IsExclusive old
        → (f : FieldDescriptor) → Owns old.descriptor f
        → IsSome (value_at (fields_of old) (field_type f).number)
        → (held : List (ℕ × Value)) → LacksSibling f (choices_of old) held }
{}

/// Where it held nothing, the message means what it did.
pub fn refused_calls_leave_unset_fields()
    ensures { (old new : DynamicMessage) → (f : FieldDescriptor) → ExtendsField old new f
        → KeepsRest f (fields_of old) (fields_of new)
        → StaysUnset (value_at (fields_of old) (field_type f).number)
        (value_at (fields_of new) (field_type f).number)
        → value_at (fields_of old) (field_type f).number ≡ None
        → (n : ℕ) → view new n ≡ view old n }
{}
