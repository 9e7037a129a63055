//! Laws of the order of what messages hold whose lists and maps take further values, whether or not
//! these suit their fields.
ghost use Rattle.reflect_decode.specs.Ordered.{IsOrdered};
ghost use Rattle.reflect_message.specs.Contents.{content_of};
ghost use Rattle.reflect_message.specs.Names.{DynamicMessage};
ghost use Rattle.reflect_pool.specs.declared.extension.ExtensionDescriptor.{ExtensionDescriptor};
ghost use Rattle.reflect_pool.specs.declared.field.FieldDescriptor.{FieldDescriptor};
ghost use Rattle.reflect_scalar.specs.FieldTypes.{extension_pool, field_pool};
ghost use Rattle.message_view.specs.Sound.{IsSound};
ghost use Rattle.set_view.specs.Extends.{ExtendsExtension, ExtendsField};

/// A field that takes further values leaves the order, whether or not the call is refused.
pub fn extended_fields_leave_the_order()
    ensures { (old new : DynamicMessage) (f : FieldDescriptor) → IsSound (field_pool f)
        → ExtendsField old new f → IsOrdered (content_of old) → IsOrdered (content_of new) }
{}

/// So does an extension.
pub fn extended_extensions_leave_the_order()
    ensures { (old new : DynamicMessage) (x : ExtensionDescriptor) → IsSound (extension_pool x)
        → ExtendsExtension old new x → IsOrdered (content_of old) → IsOrdered (content_of new) }
{}
