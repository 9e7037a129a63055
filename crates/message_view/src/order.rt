//! Laws of the order in which messages keep what they hold, whether or not it suits their fields:
//! the numbers of fields and of extensions ascend, each is one that a field may have, and so do
//! those of other records. Calls leave it so, whatever they put.
ghost use Rattle.std.specs.Prelude.{◌≡◌, Option};
ghost use Rattle.reflect_decode.specs.Ordered.{IsOrdered};
ghost use Rattle.reflect_entries.specs.Entries.{IsAscending};
ghost use Rattle.reflect_message.specs.Contents.{content_of, nothing};
ghost use Rattle.reflect_message.specs.Held.{UpdatesExtension, UpdatesField, fields_of};
ghost use Rattle.reflect_message.specs.Names.{DynamicMessage, Value};
ghost use Rattle.reflect_message.specs.Oneofs.{SetsField};
ghost use Rattle.reflect_pool.specs.FieldsLeft.{field_type};
ghost use Rattle.reflect_pool.specs.declared.extension.ExtensionDescriptor.{ExtensionDescriptor};
ghost use Rattle.reflect_pool.specs.declared.field.FieldDescriptor.{FieldDescriptor};
ghost use Rattle.reflect_scalar.specs.FieldTypes.{extension_pool, extension_type, field_pool};
ghost use Rattle.message_view.specs.Sound.{IsSound};
ghost use Rattle.message_view.specs.Taken.{TakesOut};

/// A message in which nothing is set is in order.
pub fn empty_messages_are_in_order()
    ensures { (m : DynamicMessage) → content_of m ≡ nothing → IsOrdered (content_of m) }
{}

/// A field that is set leaves the order.
pub fn set_fields_leave_the_order()
    ensures { (old new : DynamicMessage) (f : FieldDescriptor) → IsSound (field_pool f)
        → (v : Value) → SetsField old new f v → IsAscending (fields_of new)
        → IsOrdered (content_of old) → IsOrdered (content_of new) }
{}

/// So does one that is cleared or taken.
pub fn updated_fields_leave_the_order()
    ensures { (old new : DynamicMessage) (f : FieldDescriptor) → IsSound (field_pool f)
        → (given : Option Value) → UpdatesField old new (field_type f).number given
        → IsOrdered (content_of old) → IsOrdered (content_of new) }
{}

/// So does an extension that is set, cleared or taken.
pub fn updated_extensions_leave_the_order()
    ensures { (old new : DynamicMessage) (x : ExtensionDescriptor) → IsSound (extension_pool x)
        → (given : Option Value) → UpdatesExtension old new (extension_type x).number given
        → IsOrdered (content_of old) → IsOrdered (content_of new) }
{}

/// And what is taken out.
pub fn what_is_taken_out_leaves_the_order()
    ensures { (old new : DynamicMessage) → TakesOut old new
        → IsOrdered (content_of old) → IsOrdered (content_of new) }
{}
