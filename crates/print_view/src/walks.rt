//! Laws of what is set in a message, and of what walks over it give, in the words of the model's
//! message. A message that was decoded, set or filled by a text is in shape, as their own laws say;
//! of how many levels does not count here.
ghost use Rattle.std.specs.Prelude.{◌≡◌, ℕ, map, not};
ghost use Rattle.reflect_pool.specs.FieldsLeft.{field_type};
ghost use Rattle.reflect_pool.specs.declared.extension.ExtensionDescriptor.{ExtensionDescriptor};
ghost use Rattle.reflect_pool.specs.declared.field.FieldDescriptor.{FieldDescriptor};
ghost use Rattle.reflect_scalar.specs.FieldTypes.{extension_pool, extension_type, field_pool};
ghost use Rattle.reflect_scalar.specs.Floats.{HoldsFloats};
ghost use Rattle.reflect_entries.specs.Entries.{value_at};
ghost use Rattle.reflect_message.specs.Declares.{Declares, Extends};
ghost use Rattle.reflect_message.specs.Held.{extensions_of, fields_of, unknown_of};
ghost use Rattle.reflect_message.specs.Names.{DynamicMessage};
ghost use Rattle.reflect_message.specs.Present.{is_held};
ghost use Rattle.reflect_contents.specs.Walked.{set_fields_of};
ghost use Rattle.text_model.specs.Value.{is_set};
ghost use Rattle.message_view.specs.Shaped.{Shaped};
ghost use Rattle.message_view.specs.Sound.{IsSound};
ghost use Rattle.message_view.specs.Views.{view};
ghost use Rattle.print_view.specs.Walked.{contents_under, held_extensions_of, is_field};
ghost use Rattle.print_view.specs.Walked.{kept_records, seen_as};

/// A field of the message's type is set, as `has_field` tells, exactly where its content is seen
/// under its number. So is an extension of the type, if messages hold it, which they do of no
/// floating-point numbers.
pub fn fields_that_are_set_are_seen()
    ensures fields { (m : DynamicMessage) → IsSound m.descriptor.pool.now
        → (levels : ℕ) → Shaped levels m → (f : FieldDescriptor) → Declares m.descriptor f
        → is_held (field_pool f) (field_type f) (value_at (fields_of m) (field_type f).number)
        ≡ is_set (view m (field_type f).number) }
    ensures extensions { (m : DynamicMessage) → IsSound m.descriptor.pool.now
        → (levels : ℕ) → Shaped levels m → (x : ExtensionDescriptor) → Extends m.descriptor x
        → (HoldsFloats (extension_pool x) (extension_type x) → ⊥)
        → is_held (extension_pool x) (extension_type x)
        (value_at (extensions_of m) (extension_type x).number)
        ≡ is_set (view m (extension_type x).number) }
{}

/// A walk over fields gives all contents that are seen under the numbers of fields, each with its
/// number and once, by ascending number, and nothing else. So does one over extensions with those
/// under other numbers, but for extensions of floating-point numbers, which may hold what was set
/// in spite of their kind and is not seen. And the unknown fields are all records that are seen, by
/// ascending number, those of a number as they came.
pub fn walks_give_what_is_seen()
    ensures fields { (m : DynamicMessage) → IsSound m.descriptor.pool.now
        → (levels : ℕ) → Shaped levels m
        → map seen_as (set_fields_of m) ≡ contents_under (is_field m) (view m) }
    ensures extensions { (m : DynamicMessage) → IsSound m.descriptor.pool.now
        → (levels : ℕ) → Shaped levels m
        → map seen_as (held_extensions_of m)
        ≡ contents_under (λ n. not (is_field m n)) (view m) }
    ensures unknown { (m : DynamicMessage) → IsSound m.descriptor.pool.now
        → (levels : ℕ) → Shaped levels m → unknown_of m ≡ kept_records (view m) }
{}
