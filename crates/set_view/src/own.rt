//! Laws of which fields and extensions the laws of what is set speak: where numbers are apart, as in
//! a sound pool, of all that messages of the type hold.
ghost use Rattle.message_view.specs.Sound.{AreApart};
ghost use Rattle.reflect_message.specs.Declares.{Declares, Extends, NoField, Owns, OwnsExtension};
ghost use Rattle.reflect_pool.specs.FieldsLeft.{field_type};
ghost use Rattle.reflect_pool.specs.declared.extension.ExtensionDescriptor.{ExtensionDescriptor};
ghost use Rattle.reflect_pool.specs.declared.field.FieldDescriptor.{FieldDescriptor};
ghost use Rattle.reflect_pool.specs.declared.message.MessageDescriptor.{MessageDescriptor};
ghost use Rattle.reflect_scalar.specs.FieldTypes.{extension_pool, extension_type, field_pool};
ghost use Rattle.reflect_scalar.specs.Floats.{HoldsFloats};

/// A field of a type that holds no floating-point numbers is the type's own: the first of its
/// number.
pub fn declared_fields_are_the_types_own()
    ensures { (m : MessageDescriptor) → AreApart m.pool.now → (f : FieldDescriptor) → Declares m f
        → (HoldsFloats (field_pool f) (field_type f) → ⊥) → Owns m f }
{}

/// So is such an extension of it, and under its number no field stands.
pub fn declared_extensions_are_the_types_own()
    ensures own { (m : MessageDescriptor) → AreApart m.pool.now → (x : ExtensionDescriptor)
        → Extends m x → (HoldsFloats (extension_pool x) (extension_type x) → ⊥)
        → OwnsExtension m x }
    ensures apart { (m : MessageDescriptor) → AreApart m.pool.now → (x : ExtensionDescriptor)
        → OwnsExtension m x → NoField m (extension_type x).number }
{}
